//! How many deltas are pending at most, and a copy that is older than the published one: no request of the program leads there.
ghost use Rattle.std.specs.Prelude.{IfOk};
ghost use Rattle.shop_core.specs.Steps.{IsBuilt};

use shop_core::{Older, ShopState, open_shop};
use shop_defs::{List, NoMemory, OpKind, Txt};
use shop_outside::{Kept, MemKeeper};
use shop_requests::{Command, RawOp};
use std::alloc::Global;
use std::test::Fail;

/// How many commits a shop that is opened carries out, and how many entries are then published.
const PENDING: [(u64, u64); 4] = [(0, 0), (1, 0), (1_024, 0), (1_025, 1_024)];

/// A batch that puts a category.
fn one_category(alloc: Global) -> Result<Command, NoMemory>
    ensures { IfOk result IsBuilt }
{
    let op = RawOp {
        kind: OpKind::Upsert,
        entity: Txt::from_str(alloc, "category")?,
        id: 16,
        second: 0,
        fields: List::new(alloc),
    };
    Ok(Command::Sync {
        version: 0,
        ops: List::from_vec(vec![in alloc; op]?),
    })
}

/// Whether the command is accepted so often, one after the other.
fn is_accepted(
    alloc: Global,
    shop: &mut ShopState<MemKeeper>,
    command: &Command,
    times: u64,
) -> bool
    requires { IsBuilt command.now }
{
    for _ in 0..times {
        if shop.commit(alloc, command, 0).is_err() {
            return false;
        }
    }
    true
}

/// Whether the published copy, put in place of itself, is older than it has to be, and nothing changes.
fn is_older(shop: &mut ShopState<MemKeeper>, published: u64) -> bool {
    let Ok(copy) = shop.published() else {
        return false;
    };
    let accepted = shop.accepted();
    match shop.install(copy) {
        Ok(_) => false,
        Err(older) => is_of(&older, published)
            && shop.front() == published
            && shop.accepted() == accepted,
    }
}

fn is_of(older: &Older, front: u64) -> bool {
    older.mine == front && older.published == front
}

/// Whether so many commits leave so many entries published.
fn is_published(alloc: Global, commits: u64, published: u64) -> Result<bool, NoMemory> {
    let kept = Kept {
        rows: List::new(alloc),
        number: 0,
    };
    let keeper = MemKeeper::new(alloc, kept, Vec::new(alloc), Vec::new(alloc));
    let command = one_category(alloc)?;
    match open_shop(alloc, keeper) {
        Ok(mut shop) => Ok(
            is_accepted(alloc, &mut shop, &command, commits)
                && shop.accepted() == commits
                && shop.front() == published
                && is_older(&mut shop, published),
        ),
        Err(_) => Ok(false),
    }
}

#[test]
fn deltas_that_nobody_takes_in(rt: HostRuntime) -> Result<(), Fail> {
    let alloc = rt.alloc();
    for (commits, published) in PENDING {
        let is_so = is_published(alloc, commits, published);
        assert!(rt; matches!(is_so, Ok(true)), "after {commits}");
    }
    Ok(())
}
