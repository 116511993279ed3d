//! What is wrong with what is kept.
ghost use Rattle.std.specs.Prelude.{◌≡◌};
ghost use Rattle.shop_check.specs.Rules.{rule_text};
ghost use Rattle.shop_check.specs.declared.fault.CheckFault.TheVariants as F;

use shop_defs::{Key, NoMemory};
use std::alloc::{AllocError, AllocFailed};

/// A rule on what is kept, in the order in which the rules are tried.
#[derive(Drop, Clone, Copy)]
pub enum Rule {
    /// The key is above the one before it.
    Order,
    /// The bytes are a row's.
    Encoding,
    /// The key, the fields with their values, and the operations are as the row's entity has them.
    /// Until more is served, the row is also a live one of an entity that operations may write.
    Kind,
    /// No field is empty that is required or has a preset.
    Required,
    /// A live row names no row but live ones, and a node no parent but one of its own tree.
    ///
    /// This rule and those below it see of the other rows those that pass the first three.
    Reference,
    /// No live row with a lower key has the same unique fields as a live row, unless one is null.
    Duplicate,
    /// A live row has no more rows above it than its entity may, and isn't below itself.
    Parent,
    /// Up to the row, in the order of keys, there aren't more rows of its entity or its owner than
    /// there may be.
    Limit,
}

impl Rule {
    /// The name of the rule.
    pub fn text(self) -> &'static str
        ensures { result.now ≡ rule_text self }
    {
        match self {
            Rule::Order => "order",
            Rule::Encoding => "encoding",
            Rule::Kind => "kind",
            Rule::Required => "required",
            Rule::Reference => "reference",
            Rule::Duplicate => "duplicate",
            Rule::Parent => "parent",
            Rule::Limit => "limit",
        }
    }
}

/// Why there are no rows.
#[derive(Drop, Clone, Copy)]
pub enum CheckFault {
    /// What is kept is damaged.
    Damaged {
        /// The key of the first damaged entry.
        key: Key,
        /// The first rule that it fails.
        rule: Rule,
    },
    /// Memory was refused.
    NoMemory,
}

impl From<NoMemory> for CheckFault {
    ghost from_gives = { λ _ e. e ≡ F.NoMemory };

    fn from(_: NoMemory) -> CheckFault {
        CheckFault::NoMemory
    }
}

impl From<AllocError> for CheckFault {
    ghost from_gives = { λ _ e. e ≡ F.NoMemory };

    fn from(_: AllocError) -> CheckFault {
        CheckFault::NoMemory
    }
}

impl<T: Drop> From<AllocFailed<T>> for CheckFault {
    ghost from_gives = { λ _ e. e ≡ F.NoMemory };

    fn from(_: AllocFailed<T>) -> CheckFault {
        CheckFault::NoMemory
    }
}
