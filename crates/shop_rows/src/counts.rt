//! How many rows of each entity there are.
ghost use Rattle.std.specs.Prelude.{◌≡◌, ◌+◌, ◌-◌, ◌<◌, ◌^◌, get_or, set, replicate, IfOk, OnOk};
ghost use Rattle.shop_defs.specs.Entities.{entity_number};
ghost use Rattle.shop_rows.specs.Counting.{one};

use shop_defs::{Entity, NoMemory};

/// How many entities there may be numbers of, with 0.
const NUMBERS: usize = 26;

/// More rows than this are refused: no memory holds them.
const MOST_ROWS_HELD: usize = usize::MAX / 2;

/// How many rows there are, and of each entity, by its number.
#[derive(Drop, Clone, Copy)]
pub(crate) struct Counts {
    pub(crate) all: usize,
    pub(crate) of: [usize; NUMBERS],
}

impl Counts {
    /// No rows.
    pub(crate) fn none() -> Counts
        ensures all { result.all ≡ 0 }
        ensures of { result.of ≡ replicate NUMBERS 0 }
    {
        Counts {
            all: 0,
            of: [0; NUMBERS],
        }
    }

    /// How many rows of the entity there are.
    pub(crate) fn at(&self, entity: Entity) -> usize
        ensures { result ≡ get_or self.now.of (entity_number entity) 0 }
    {
        self.of[usize::from(entity.number())]
    }

    /// Takes in that one row of the entity was there or not, and now is or isn't.
    pub(crate) fn change(&mut self, entity: Entity, was: bool, is: bool) -> Result<(), NoMemory>
        ensures all { OnOk result (self.new.all ≡ (self.old.all + one is) - one was) }
        ensures few { OnOk result (self.new.all < 2 ^ 63) }
        ensures of { OnOk result (self.new.of ≡ set self.old.of (entity_number entity) ((get_or self.old.of (entity_number entity) 0 + one is) - one was)) }
    {
        let all = changed(self.all, was, is)?;
        let of = changed(self.at(entity), was, is)?;
        self.all = all;
        self.of[usize::from(entity.number())] = of;
        Ok(())
    }
}

/// The count with one more where one is there, and one less where one was.
fn changed(count: usize, was: bool, is: bool) -> Result<usize, NoMemory>
    ensures count { IfOk result (λ next. next ≡ (count + one is) - one was) }
    ensures few { IfOk result (λ next. next < 2 ^ 63) }
{
    if count >= MOST_ROWS_HELD {
        return Err(NoMemory);
    }
    Ok((count + usize::from(is)).saturating_sub(usize::from(was)))
}
