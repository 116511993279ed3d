//! Sets of ids.
ghost use Rattle.std.specs.Prelude.{◌≡◌, ◌↔◌, IsTrue, ℕ, [], IfOk, IfErr, OnOk};
ghost use Rattle.std.specs.Ordering.{nat_cmp};
ghost use Rattle.keyed.proofs.Places.{IsAt, IsGap};
ghost use Rattle.id_sets.specs.Sets as spec;

use shop_defs::NoMemory;
use std::alloc::Global;
use std::marker::Model;

/// Some ids, each once. Contracts see the list of them, ascending.
#[derive(Drop)]
pub struct Ids {
    items: Vec<u128>,
}

impl Model for Ids {
    ghost use Rattle.std.specs.Prelude.{ℕ, List};
    ghost use Rattle.id_sets.specs.Sets.{AreAscending};

    ghost Value = { List ℕ };

    ghost view = { λ s. s.items.items };

    ghost invariant = { λ s. AreAscending s.items.items };
}

impl Ids {
    /// No ids. It takes no memory.
    pub fn none(alloc: Global) -> Ids
        ensures { result ≡ [] }
    {
        Ids {
            items: Vec::new(alloc),
        }
    }

    /// The ids, which may stand in any order and more than once. It takes no memory.
    pub fn from_vec(mut ids: Vec<u128>) -> Ids
        ensures same { (id : ℕ) → spec.has result id ≡ spec.has ids.items id }
        ensures ascends { spec.AreAscending result }
    {
        ids.sort_unstable();
        ids.dedup();
        Ids { items: ids }
    }

    /// The ids, which ascend. It takes no memory.
    pub(crate) fn from_ascending(ids: Vec<u128>) -> Ids
        requires { spec.AreAscending ids.items }
        ensures { result ≡ ids.items }
    {
        Ids { items: ids }
    }

    /// The ids, ascending.
    pub fn as_slice(&self) -> &[u128]
        ensures ids { result.now ≡ self.now }
        ensures ascends { spec.AreAscending self.now }
    {
        self.items.as_slice()
    }

    /// Whether there are none.
    pub fn is_empty(&self) -> bool
        ensures { IsTrue result ↔ (self.now ≡ []) }
    {
        self.items.is_empty()
    }

    /// Whether the id is one of these.
    pub fn has(&self, id: u128) -> bool
        ensures { result ≡ spec.has self.now id }
    {
        match place_of(self.items.as_slice(), id) {
            Ok(_) => true,
            Err(_) => false,
        }
    }
}

/// Where the id stands, or else where it would stand.
pub(crate) fn place_of(ids: &[u128], id: u128) -> Result<usize, usize>
    requires { spec.AreAscending ids.now }
    ensures found { IfOk result (IsAt nat_cmp spec.itself ids.now id) }
    ensures absent { IfErr result (IsGap nat_cmp spec.itself ids.now id) }
{
    ids.binary_search(&id)
}
