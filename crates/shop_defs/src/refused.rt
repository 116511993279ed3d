//! Refusals.
use crate::broken::Broken;
use crate::copied::{Copied, NoMemory};
use std::alloc::Global;

/// That a request is refused: it breaks a rule, and nothing is changed.
#[derive(Drop)]
pub struct Refused {
    /// Which operation of a batch breaks the rule, counted from 1. 0 where the rule is broken by no
    /// operation.
    pub op: u32,
    /// The rule.
    pub broken: Broken,
}

impl Copied for Refused {
    fn copy(&self, alloc: Global) -> Result<Refused, NoMemory> {
        Ok(Refused {
            op: self.op,
            broken: self.broken.copy(alloc)?,
        })
    }
}

/// Why what a request would change is not known.
#[derive(Drop)]
pub enum PlanFault {
    /// The request is refused.
    Refused(Refused),
    /// Memory was wanted and refused.
    NoMemory,
}

impl From<NoMemory> for PlanFault {
    ghost use Rattle.std.specs.Prelude.{◌≡◌};
    ghost use Rattle.shop_defs.specs.declared.refused.PlanFault.TheVariants.{NoMemory};

    ghost from_gives = { λ _ fault. fault ≡ NoMemory };

    fn from(_: NoMemory) -> PlanFault {
        PlanFault::NoMemory
    }
}
