//! What the seats of a table know. Contracts speak of it; no value of these types is made, but of
//! `Opening`.
use shop_core::Entry;
use shop_defs::Row;
use shop_rows::Rows;
use std::collections::LinkedList;
use std::snapshot::Snapshot;

/// What a new table is told: the rows and the number that its history begins with.
#[derive(Drop)]
pub struct Opening {
    /// The rows, which only contracts see.
    pub rows: Snapshot<Rows>,
    /// How many entries were accepted before.
    pub number: u64,
}

/// What a history begins with.
pub struct Start {
    /// The rows, in key order.
    pub rows: LinkedList<Row>,
    /// How many entries were accepted before.
    pub number: u64,
}

/// What a caller found and left as it took the lock and gave it up.
pub struct Look {
    /// How long the history was at its end.
    pub length: u64,
    /// The published front at its end.
    pub front: u64,
    /// How often the keeper had failed as the lock was taken.
    pub found: u64,
    /// How often it had failed at the end.
    pub faults: u64,
}

/// What a caller knows.
pub struct CallerView {
    /// The caller's number.
    pub number: u32,
    /// What the history begins with.
    pub start: Start,
    /// The entries that it has seen, from the first on.
    pub seen: LinkedList<Entry>,
    /// The published front that it has seen.
    pub front: u64,
    /// Its looks, one each time that it took the lock and gave it up.
    pub looks: LinkedList<Look>,
    /// It has seen the shop shut.
    pub shut: bool,
}

/// The caller who has the lock.
pub struct Held {
    /// Its own entries in the history.
    pub own: LinkedList<Entry>,
    /// How often the keeper had failed as it took the lock.
    pub found: u64,
    /// What it knew before.
    pub earlier: CallerView,
}

/// What the master knows, whose seat lies under the lock.
pub struct MasterView {
    /// What the history begins with.
    pub start: Start,
    /// The accepted entries, in their order.
    pub history: LinkedList<Entry>,
    /// The published front.
    pub front: u64,
    /// How often the keeper has failed.
    pub faults: u64,
    /// The door was made.
    pub door_made: bool,
    /// The shop was shut.
    pub shut: bool,
    /// Who has the lock.
    pub held: Option<Held>,
}

/// What the door knows.
pub struct DoorView {
    /// What the history begins with.
    pub start: Start,
    /// How many callers it has let in.
    pub made: u32,
}

/// What one seat knows.
pub enum View {
    /// The master's.
    Keeps(MasterView),
    /// The door's.
    Admits(DoorView),
    /// A caller's.
    Calls(CallerView),
    /// Of a seat that is used up.
    Spent,
}
