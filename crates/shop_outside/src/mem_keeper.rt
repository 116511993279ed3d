//! A keeper in memory, which tells what it holds.
ghost use Rattle.std.specs.Prelude.{◌≡◌, ◌<◌, ◌^◌, ◌↔◌, IfOk, OnErr, Some, Err};
ghost use Rattle.shop_defs.specs.Keys.{key_cmp};
ghost use Rattle.keyed.specs.Keyed.{Ascends};
ghost use Rattle.shop_outside.specs.Keeping.{KeepCause, Applied, kept_key};
ghost use Rattle.shop_outside.specs.declared.keeper.KeepFault.TheVariants as faults;
ghost use Rattle.shop_outside.specs.Bodies.{IsInOrder};

use crate::calls::Calls;
use crate::holding::Holding;
use crate::keeper::{KeepFault, Keeper, Kept};
use shop_defs::{Key, List, NoMemory};
use std::alloc::Global;

/// Holds bytes in memory. The calls in two lists fail, counted from 1 for each method.
///
/// Bytes whose keys ascend, as those of a sound store do, go into pages at the first `apply`. From
/// then on a change costs the pages that it touches, whatever the order of the ids.
#[derive(Drop)]
pub struct MemKeeper {
    alloc: Global,
    rows: Holding,
    number: u64,
    loads: Calls,
    applies: Calls,
    ghost order: { IsInOrder rows },
    ghost range: { number < 2 ^ 63 },
}

impl MemKeeper {
    ghost use Rattle.shop_outside.specs.Failing.{Begins};
    ghost use Rattle.shop_outside.specs.MemKeeping.{held_by, loads_of, applies_of};

    /// A keeper that holds this. Its keys may stand in any order, and more than once, as in a
    /// damaged store.
    pub fn new(
        alloc: Global,
        kept: Kept,
        failing_loads: Vec<u64>,
        failing_applies: Vec<u64>,
    ) -> MemKeeper
        requires { kept.number < 2 ^ 63 }
        ensures content { ⟦<MemKeeper as Keeper>⟧.content result ≡ Some kept }
        ensures faults { ⟦<MemKeeper as Keeper>⟧.keep_faults result ≡ 0 }
        ensures loads { Begins failing_loads.items (loads_of result) }
        ensures applies { Begins failing_applies.items (applies_of result) }
    {
        let Kept { rows, number } = kept;
        MemKeeper {
            alloc,
            rows: Holding::Listed(rows.into_vec()),
            number,
            loads: Calls::new(failing_loads),
            applies: Calls::new(failing_applies),
        }
    }

    /// Copies of the rows that it holds, in their order. Want of memory is the only error.
    pub fn rows(&self) -> Result<List<(Key, List<u8>)>, NoMemory>
        ensures { IfOk result (λ rows. rows ≡ (held_by self.now).rows) }
    {
        self.rows.copied(self.alloc)
    }

    /// The number that it holds.
    pub fn number(&self) -> u64
        ensures { result ≡ (held_by self.now).number }
    {
        self.number
    }
}

impl Keeper for MemKeeper {
    ghost use Rattle.shop_outside.specs.Failing.{FailsNext, IsCounted};
    ghost use Rattle.shop_outside.specs.MemKeeping.{held_by, loads_of, applies_of, faults_of};

    ghost content = { λ k. Some (held_by k) };

    ghost keep_faults = { faults_of };

    /// It fails where the call is listed.
    fn load(&mut self) -> Result<Kept, KeepFault>
        ensures same { held_by self.new ≡ held_by self.old }
        ensures held { IfOk result (λ kept. kept ≡ held_by self.old) }
        ensures number { IfOk result (λ kept. kept.number < 2 ^ 63) }
        ensures cause { KeepCause (faults_of self.old) (faults_of self.new) result }

        ensures fails { (result ≡ Err faults.Failed) ↔ FailsNext (loads_of self.old) }
        ensures loads { IsCounted (loads_of self.old) (loads_of self.new) }
        ensures applies { applies_of self.new ≡ applies_of self.old }
    {
        self.loads.begin()?;
        let rows = self.rows.copied(self.alloc)?;
        Ok(Kept {
            rows,
            number: self.number,
        })
    }

    /// It fails where the call is listed.
    fn apply(&mut self, changes: &[(Key, Option<List<u8>>)], number: u64) -> Result<(), KeepFault>
        requires keys { Ascends key_cmp kept_key changes.now }
        requires number { number < 2 ^ 63 }
        ensures ok { IfOk result (λ _.
            Applied (Some (held_by self.old)) (Some (held_by self.new)) changes.now number) }
        ensures err { OnErr result (held_by self.new ≡ held_by self.old) }
        ensures cause { KeepCause (faults_of self.old) (faults_of self.new) result }

        ensures fails { (result ≡ Err faults.Failed) ↔ FailsNext (applies_of self.old) }
        ensures applies { IsCounted (applies_of self.old) (applies_of self.new) }
        ensures loads { loads_of self.new ≡ loads_of self.old }
    {
        self.applies.begin()?;
        self.rows.change(self.alloc, changes)?;
        self.number = number;
        Ok(())
    }
}
