//! A sorted list of elements that have a key, each key once, with room that can be reserved.
//!
//! # What is promised
//!
//! - `get` is the look-up of a key, `put` and `remove` are the change of the list at a key.
//! - `reserve` makes room; `put_in_room` is `put`, takes no memory and can't fail.
#![tactic(auto)]

ghost use Rattle.std.specs.Prelude.{◌≡◌, ◌≤◌, ◌<◌, ◌+◌, ◌-◌, [], IfOk, IfErr, None, OnOk, OnErr};
ghost use Rattle.std.specs.Option.{option_copied};
ghost use Rattle.std.specs.Vec.{vec_len, vec_capacity};
ghost use Rattle.std.specs.List.{insert};
ghost use Rattle.keyed.proofs.Places.{IsAt, IsGap};
ghost use Rattle.keyed.specs.Keyed.{Ascends, find, put, without};

use std::alloc::{AllocError, Global};
use std::marker::Model;

/// An element that has a key.
pub trait Entry: Drop {
    /// What elements are ordered and looked up by.
    type Key: Ord + Drop;

    ghost key_of: { Self → Self.Key };

    /// The key of the element.
    fn key(&self) -> Self::Key
        ensures { result ≡ key_of self.now };
}

/// A key and a value.
impl<K: Ord + Copy + Drop, V: Drop> Entry for (K, V) {
    type Key = K;

    ghost key_of = { λ e. e.0 };

    fn key(&self) -> K {
        self.0
    }
}

/// Elements in the order of their keys, each key once.
///
/// Contracts see the list of the elements, and the spare room: how many more elements can be put
/// without memory being taken. A look-up costs the logarithm of the length, and a change moves the
/// elements behind its place.
#[derive(Drop)]
pub struct Ordered<T: Entry> {
    items: Vec<T>,
}

impl<T: Entry> Model for Ordered<T> {
    ghost use Rattle.std.specs.Prelude.{◌-◌};
    ghost use Rattle.std.specs.Vec.{vec_len, vec_capacity};
    ghost use Rattle.ordered.specs.Held.{Held, held_code};
    ghost use Rattle.keyed.specs.Keyed.{Ascends};

    ghost Value = { Held T };

    ghost coded = { held_code T.code };

    ghost view = { λ r. record { list = r.items.items; spare = vec_capacity r.items - vec_len r.items } };

    ghost invariant = { λ r. Ascends T.Key.cmp T.key_of r.items.items };
}

impl<T: Entry> Ordered<T> {
    /// A list with no elements. It takes no memory.
    pub fn new(alloc: Global) -> Ordered<T>
        ensures { result.list ≡ [] }
    {
        Ordered {
            items: Vec::new(alloc),
        }
    }

    /// The list of `items`, whose keys ascend. It takes no memory.
    pub fn from_ascending(items: Vec<T>) -> Ordered<T>
        requires { Ascends T.Key.cmp T.key_of items.items }
        ensures { result.list ≡ items.items }
    {
        Ordered { items }
    }

    /// The elements in the order of their keys.
    pub fn as_slice(&self) -> &[T]
        ensures { result.now ≡ self.now.list }
    {
        self.items.as_slice()
    }

    /// The elements in the order of their keys, as the `Vec` that holds them. It takes no memory.
    pub fn into_vec(self) -> Vec<T>
        ensures items { result.items ≡ self.list }
        ensures ascends { Ascends T.Key.cmp T.key_of result.items }
    {
        let Ordered { items } = self;
        items
    }

    /// Where the key stands, or else where it would stand.
    fn search(&self, key: &T::Key) -> Result<usize, usize>
        ensures found { IfOk result (IsAt T.Key.cmp T.key_of self.now.list key.now) }
        ensures absent { IfErr result (IsGap T.Key.cmp T.key_of self.now.list key.now) }
    {
        self.items.binary_search_by_key(key, |item| item.key())
    }

    /// The element with the key: `None` exactly where no element has it.
    pub fn get(&self, key: &T::Key) -> Option<&T>
        ensures { option_copied result ≡ find T.Key.cmp T.key_of self.now.list key.now }
    {
        match self.search(key) {
            Ok(at) => Some(&self.items[at]),
            Err(_) => None,
        }
    }

    /// Puts the element at its key, in place of the one that stands there. Where memory is refused,
    /// the element is let go and the list stays as it was.
    pub fn put(&mut self, item: T) -> Result<(), AllocError>
        ensures ok { OnOk result (self.new.list ≡ put T.Key.cmp T.key_of self.old.list item) }
        ensures err { OnErr result (self.new.list ≡ self.old.list) }
        // Memory is wanted only where no element has the key and there is no room.
        ensures wanted { OnErr result ((self.old.spare ≡ 0) × (find T.Key.cmp T.key_of self.old.list (T.key_of item) ≡ None)) }
    {
        match self.search(&item.key()) {
            Ok(at) => {
                self.items[at] = item;
                Ok(())
            }
            Err(at) => Ok(self.items.insert(at, item)?),
        }
    }

    /// Makes room for `more` elements. The list stays as it was, also where memory is refused.
    pub fn reserve(&mut self, more: usize) -> Result<(), AllocError>
        ensures list { self.new.list ≡ self.old.list }
        ensures spare { OnOk result (more ≤ self.new.spare) }
        // Memory is wanted only where there is less room.
        ensures wanted { OnErr result (self.old.spare < more) }
        ensures ascends { Ascends T.Key.cmp T.key_of self.new.list }
    {
        self.items.reserve(more)
    }

    /// Puts the element at its key, in place of the one that stands there, where there is room. It
    /// takes no memory, and one place of the room at most.
    pub fn put_in_room(&mut self, item: T)
        requires { 1 ≤ self.old.spare }
        ensures list { self.new.list ≡ put T.Key.cmp T.key_of self.old.list item }
        ensures spare { self.old.spare ≤ self.new.spare + 1 }
    {
        match self.search(&item.key()) {
            Ok(at) => self.items[at] = item,
            Err(at) => insert_in_room(&mut self.items, at, item),
        }
    }

    /// Takes out the element with the key, if there is one. It takes no memory, and no room.
    pub fn remove(&mut self, key: &T::Key)
        ensures list { self.new.list ≡ without T.Key.cmp T.key_of self.old.list key.now }
        ensures spare { self.old.spare ≤ self.new.spare }
    {
        match self.search(key) {
            Ok(at) => {
                let _ = self.items.remove(at);
            }
            Err(_) => {}
        }
    }
}

/// Inserts where there is room, so that no memory is wanted.
fn insert_in_room<T: Drop>(items: &mut Vec<T>, at: usize, item: T)
    requires place { at ≤ vec_len items.old }
    requires room { vec_len items.old + 1 ≤ vec_capacity items.old }
    ensures items { items.new.items ≡ insert items.old.items at item }
    ensures len { vec_len items.new ≡ vec_len items.old + 1 }
    ensures capacity { vec_capacity items.old ≤ vec_capacity items.new }
{
    match items.insert(at, item) {
        Ok(()) => {}
        Err(_) => unreachable!(),
    }
}
