//! A list of keys, each with a leaf.
ghost use Rattle.std.specs.Prelude.{◌≡◌, ◌≤◌, ◌++◌, ◌∷◌, [], length, map, IfOk, OnOk, OnErr, IsTrue, ◌↔◌, take, drop, MatchOption};
ghost use Rattle.std.specs.Option.{option_copied, option_map};
ghost use Rattle.keyed.specs.Keyed.{Ascends, find};
ghost use Rattle.paged.specs.Pairs.{key_of, value_of, part_at, first_above, pair_by, both, first_of};

use crate::leaf::Leaf;
use crate::search::{count_up_to, search};
use std::alloc::{AllocError, Global};
use std::marker::{Model, PhantomData};

/// Keys, each with a leaf. Contracts see the keys and the values.
#[derive(Drop)]
pub(crate) struct Sheet<K: Copy + Drop, V, C: Leaf<V>> {
    pub(crate) entries: Vec<(K, C)>,
    of: PhantomData<V>,
}

impl<K: Copy + Drop, V, C: Leaf<V>> Model for Sheet<K, V, C> {
    ghost use Rattle.std.specs.Prelude.{List, map};
    ghost use Rattle.paged.specs.Pairs.{pair_by};

    ghost Value = { List (K × V) };

    ghost view = { λ s. map (pair_by C.leaf_value) s.entries.items };
}

impl<K: Copy + Drop, V, C: Leaf<V>> Sheet<K, V, C> {
    pub(crate) fn new(alloc: Global) -> Sheet<K, V, C>
        ensures { result ≡ [] }
    {
        Sheet {
            entries: Vec::new(alloc),
            of: PhantomData,
        }
    }

    pub(crate) fn entries(&self) -> &[(K, C)]
        ensures { map (pair_by C.leaf_value) result.now ≡ self.now }
    {
        self.entries.as_slice()
    }

    pub(crate) fn len(&self) -> usize
        ensures { result ≡ length self.now }
    {
        self.entries.len()
    }

    pub(crate) fn is_empty(&self) -> bool
        ensures { IsTrue result ↔ (self.now ≡ []) }
    {
        self.entries.is_empty()
    }

    /// Makes room for more entries.
    pub(crate) fn reserve(&mut self, more: usize) -> Result<(), AllocError>
        ensures { self.new ≡ self.old }
    {
        self.entries.reserve(more)
    }

    /// Adds an entry behind the others. Where memory is refused, all is as before.
    pub(crate) fn push(&mut self, key: K, leaf: C) -> Result<(), AllocError>
        ensures ok { OnOk result (self.new ≡ self.old ++ (key, C.leaf_value leaf) ∷ []) }
        ensures err { OnErr result (self.new ≡ self.old) }
    {
        Ok(self.entries.push((key, leaf))?)
    }

    /// Adds an entry of the same value. Where memory is refused, all is as before.
    pub(crate) fn share(&mut self, key: K, leaf: &C) -> Result<(), AllocError>
        ensures ok { OnOk result (self.new ≡ self.old ++ (key, C.leaf_value leaf.now) ∷ []) }
        ensures err { OnErr result (self.new ≡ self.old) }
    {
        let shared = leaf.share()?;
        self.push(key, shared)
    }

    /// Adds entries of the same values.
    pub(crate) fn share_all(&mut self, entries: &[(K, C)]) -> Result<(), AllocError>
        ensures { OnOk result (self.new ≡ self.old ++ map (pair_by C.leaf_value) entries.now) }
    {
        self.reserve(entries.len())?;
        for (key, leaf) in entries {
            self.share(*key, leaf)?;
        }
        Ok(())
    }

    /// Takes out the entries from that place on. Where memory is refused, all is as before.
    pub(crate) fn split_off(&mut self, at: usize) -> Result<Sheet<K, V, C>, AllocError>
        requires { at ≤ length self.old }
        ensures front { OnOk result (self.new ≡ take at self.old) }
        ensures rest { IfOk result (λ rest. rest ≡ drop at self.old) }
        ensures err { OnErr result (self.new ≡ self.old) }
    {
        Ok(Sheet {
            entries: self.entries.split_off(at)?,
            of: PhantomData,
        })
    }

    /// Takes out the last entry.
    pub(crate) fn pop(&mut self) -> Option<(K, C)>
        ensures last { MatchOption result (self.old ≡ []) (λ last. self.old ≡ self.new ++ pair_by C.leaf_value last ∷ []) }
        ensures none { MatchOption result (self.new ≡ []) (λ _. Unit {0}) }
    {
        self.entries.pop()
    }

    /// The first entry.
    pub(crate) fn first(&self) -> Option<(&K, &V)>
        ensures { option_map both result ≡ first_of self.now }
    {
        match self.entries.first() {
            Some((key, leaf)) => Some((key, leaf.value())),
            None => None,
        }
    }

    /// The key of the first entry.
    pub(crate) fn first_key(&self) -> Option<K>
        ensures { result ≡ option_map key_of (first_of self.now) }
    {
        match self.entries.first() {
            Some((key, _)) => Some(*key),
            None => None,
        }
    }
}

impl<K: Ord + Copy + Drop, V, C: Leaf<V>> Sheet<K, V, C> {
    /// The value of the key.
    pub(crate) fn get(&self, key: &K) -> Option<&V>
        requires { Ascends K.cmp key_of self.now }
        ensures { option_copied result ≡ option_map value_of (find K.cmp key_of self.now key.now) }
    {
        match search(self.entries.as_slice(), key) {
            Ok(at) => Some(self.entries[at].1.value()),
            Err(_) => None,
        }
    }

    /// The value of the last entry whose key is not above this one.
    pub(crate) fn part(&self, key: &K) -> Option<&V>
        requires { Ascends K.cmp key_of self.now }
        ensures { option_copied result ≡ part_at K.cmp self.now key.now }
    {
        let count = count_up_to(self.entries.as_slice(), key);
        if count == 0 {
            return None;
        }
        Some(self.entries[count - 1].1.value())
    }

    /// The first entry whose key is above this one.
    pub(crate) fn above(&self, key: &K) -> Option<(&K, &V)>
        requires { Ascends K.cmp key_of self.now }
        ensures { option_map both result ≡ first_above K.cmp self.now key.now }
    {
        match self.entries.get(count_up_to(self.entries.as_slice(), key)) {
            Some((key, leaf)) => Some((key, leaf.value())),
            None => None,
        }
    }
}
