//! Upserts over a view made by hand, as a draft may show rows once live rows have moved on under it: no request leads to one yet.
ghost use Rattle.std.specs.Prelude.{◌≡◌, ◌≢◌, true};
ghost use Rattle.std.specs.List.{list_all};
ghost use Rattle.shop_defs.specs.Fitting.{row_key_fits};

use super::calls::key;
use shop_defs::{
    Broken, Delta, Entity, Key, List, NoMemory, Op, OpKind, OwnerLimit, PlanFault, Row, Value,
    op_fits, row_key_fits,
};
use shop_rows::Rows;
use shop_write::{View, plan_op};
use std::alloc::Global;

/// Live rows, shown as those of a version.
#[derive(Drop)]
struct Shown {
    rows: Rows,
    version: u128,
}

impl View for Shown {
    ghost use Rattle.shop_operations.specs.Views.{live_view};

    ghost seen = { λ s. record (live_view s.rows.list) { version = s.version } };

    fn version(&self) -> u128 {
        self.version
    }

    fn get<'a>(&'a self, key: &Key) -> Option<&'a Row> {
        View::get(&self.rows, key)
    }

    fn child_keys(
        &self,
        alloc: Global,
        entity: Entity,
        parent: u128,
    ) -> Result<List<Key>, NoMemory> {
        View::child_keys(&self.rows, alloc, entity, parent)
    }

    fn referrers_of(&self, alloc: Global, key: &Key) -> Result<List<Key>, NoMemory> {
        View::referrers_of(&self.rows, alloc, key)
    }

    fn twins(&self, alloc: Global, row: &Row) -> Result<List<Key>, NoMemory> {
        View::twins(&self.rows, alloc, row)
    }

    fn count(&self, entity: Entity) -> usize {
        View::count(&self.rows, entity)
    }

    fn count_owned(&self, limit: &OwnerLimit, owner: u128) -> usize {
        View::count_owned(&self.rows, limit, owner)
    }
}

/// What comes of an upsert.
#[derive(Clone, Copy)]
pub(crate) enum Comes {
    Done,
    Missing(u128),
    Cycle(u128),
    Deep(u128),
}

/// Chains of categories, from id 1 on each the parent of the next: how many, the parent of the first (0: none), the id that is
/// written and the parent that is given, and what comes of it.
pub(crate) static GIVEN_AGAIN: [(u128, u128, u128, u128, Comes); 9] = [
    // The parent that it has, which may stand so low, and which has sunk by a level since.
    (32, 0, 32, 31, Comes::Done),
    (33, 0, 33, 32, Comes::Deep(33)),
    // The row that is written stands high enough, and one below it no longer does.
    (33, 0, 32, 31, Comes::Deep(33)),
    (33, 0, 2, 1, Comes::Deep(33)),
    // Its parent was put below it since; and into a circle that it isn't part of.
    (3, 3, 3, 2, Comes::Cycle(3)),
    (50, 50, 40, 39, Comes::Cycle(40)),
    (3, 2, 3, 2, Comes::Deep(3)),
    (50, 49, 50, 49, Comes::Deep(50)),
    // Its parent was taken out since.
    (1, 9, 1, 9, Comes::Missing(9)),
];

fn category(alloc: Global, id: u128, parent: u128) -> Result<Row, NoMemory> {
    let mut fields = List::new(alloc);
    if parent != 0 {
        fields.push((1, Value::Ident(parent)))?;
    }
    Ok(Row {
        key: key(Entity::Category, 0, id, 0),
        fields,
        ops: List::new(alloc),
    })
}

/// So many categories, each the parent of the next.
fn chain(alloc: Global, count: u128, first: u128) -> Result<Rows, NoMemory> {
    let mut rows = Rows::empty(alloc);
    for id in 1..=count {
        let row = category(alloc, id, if id == 1 { first } else { id - 1 })?;
        let delta = Delta {
            changes: List::from_vec(vec![in alloc; (row.key, Some(row))]?),
        };
        rows.reserve(&delta)?;
        rows.apply(delta);
    }
    Ok(rows)
}

fn gives(alloc: Global, id: u128, parent: u128) -> Result<Op, NoMemory> {
    let mut fields = List::new(alloc);
    fields.push((1, Some(Value::Ident(parent))))?;
    Ok(Op {
        kind: OpKind::Upsert,
        entity: Entity::Category,
        id,
        second: 0,
        fields,
    })
}

/// Whether keys are of their entities' forms.
fn are_formed(rows: &Rows) -> bool
    ensures { result ≡ list_all (λ row. row_key_fits row.key) rows.now.list }
{
    let mut rows = rows.iter();
    rows.all(|row| row_key_fits(&row.key))
}

/// The plan of an upsert, where the view is one of a draft and the operation fits.
fn planned(alloc: Global, shown: &Shown, op: &Op) -> Option<Result<Delta, PlanFault>> {
    if shown.version != 0 && are_formed(&shown.rows) && op_fits(op) {
        Some(plan_op(alloc, shown, op, false))
    } else {
        None
    }
}

fn is_so(plan: &Result<Delta, PlanFault>, comes: Comes) -> bool {
    match (plan, comes) {
        (Ok(delta), Comes::Done) => delta.changes.len() == 1,
        (Err(PlanFault::Refused(refused)), _) => match (&refused.broken, comes) {
            (Broken::MissingReference { field: _, id }, Comes::Missing(want)) => *id == want,
            (Broken::ParentCycle { id }, Comes::Cycle(want)) => *id == want,
            (Broken::ParentTooDeep { id }, Comes::Deep(want)) => *id == want,
            _ => false,
        },
        _ => false,
    }
}

/// Whether that comes of the upsert in a view of version 7.
pub(crate) fn is_given(
    alloc: Global,
    given: &(u128, u128, u128, u128, Comes),
) -> Result<bool, NoMemory> {
    let (count, first, id, parent, comes) = *given;
    let shown = Shown {
        rows: chain(alloc, count, first)?,
        version: 7,
    };
    let op = gives(alloc, id, parent)?;
    Ok(match planned(alloc, &shown, &op) {
        Some(plan) => is_so(&plan, comes),
        None => false,
    })
}
