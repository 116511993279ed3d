//! The rows that a draft shows, as operations see them.
ghost use Rattle.std.specs.Prelude.{◌≡◌, ◌<◌, ◌^◌, ◌++◌, IfOk, filter, count_by, Some, ◌≢◌, OnOk, OnErr};
ghost use Rattle.std.specs.List.{AllByRecursion};
ghost use Rattle.shop_operations.specs.Views.{change_places};
ghost use Rattle.std.specs.Option.{option_copied, option_to_list};
ghost use Rattle.keyed.specs.Keyed.{Ascends};
ghost use Rattle.shop_defs.specs.Rows.{row_at, change_rows};
ghost use Rattle.shop_drafts.specs.Soundness.{AreDrafted};
ghost use Rattle.shop_operations.specs.References.{of_version};
ghost use Rattle.shop_operations.specs.Upserts.{place_cmp, row_in};
ghost use Rattle.shop_rows.specs.Lookups.{count_rows};
ghost use Rattle.shop_rows.specs.Owners.{belongs, count_owned};
ghost use Rattle.shop_drafts.specs.Drafts as drafts;
ghost use Rattle.shop_version.specs.Overlays as spec;

use crate::drafts::own_keys;
use crate::joining::{joined_places, key_at};
use shop_defs::{Copied, Delta, Entity, Key, List, NoMemory, OwnerLimit, Row};
use shop_drafts::{Root, is_part};
use shop_operations::{is_id, part_of};
use shop_rows::Rows;
use shop_write::View;
use std::alloc::Global;
use std::marker::Model;

/// The rows that a draft shows, and its own as a batch changes them.
#[derive(Drop)]
pub(crate) struct Overlay<'a> {
    rows: &'a Rows,
    version: u128,
    root: Root,
    /// The draft's own rows, as they were found.
    before: Rows,
    /// And as they are.
    own: Rows,
}

impl<'a> Model for Overlay<'a> {
    ghost use Rattle.shop_version.specs.Overlays.{Layer, IsLayer};

    ghost Value = { Layer };

    ghost view = { λ o. record { rows = o.rows.now.list; version = o.version; root = o.root; before = o.before.list; own = o.own.list } };

    ghost invariant = { λ o. IsLayer (record { rows = o.rows.now.list; version = o.version; root = o.root; before = o.before.list; own = o.own.list }) };
}

impl<'a> Overlay<'a> {
    /// The version of the draft.
    pub(crate) fn draft(&self) -> u128
        ensures version { result ≡ self.now.version }
        ensures layer { spec.IsLayer self.now }
    {
        self.version
    }

    /// What the draft is made of.
    pub(crate) fn root(&self) -> &Root
        ensures { result.now ≡ self.entry.now.root }
    {
        &self.root
    }

    /// Whether the live row shows.
    fn is_open(&self, row: &Row) -> bool
        ensures { result ≡ drafts.is_open self.now.root self.now.before row.now }
    {
        if is_part(&self.root, row) {
            return false;
        }
        match self.before.get(&key_at(self.version, &row.key)) {
            Some(_) => false,
            None => true,
        }
    }

    /// Whether a live row that shows has the key.
    fn is_open_at(&self, key: &Key) -> bool
        ensures { result ≡ spec.is_open_at self.now key.now }
    {
        match self.rows.get(key) {
            Some(row) => self.is_open(row),
            None => false,
        }
    }

    /// The live row at the key's place, if it shows.
    fn get_open<'b>(&'b self, key: &Key) -> Option<&'b Row>
        ensures { option_copied result ≡ row_in (spec.open_rows self.entry.now) key.now }
    {
        match self.rows.get(&key_at(0, key)) {
            Some(row) => self.if_open(row),
            None => None,
        }
    }

    /// The live row, if it shows.
    fn if_open<'b>(&self, row: &'b Row) -> Option<&'b Row>
        ensures { option_copied result ≡ spec.guarded (drafts.is_open self.now.root self.now.before) (Some row.entry.now) }
    {
        if self.is_open(row) {
            return Some(row);
        }
        None
    }
}

impl<'a> Overlay<'a> {
    /// The keys of those live rows that show, with the own keys among them, in the order of places.
    fn merged(&self, alloc: Global, live: &[Key], own: &[Key]) -> Result<List<Key>, NoMemory>
        requires { Ascends place_cmp (λ key. key) own.now }
        ensures { IfOk result (λ keys. keys ≡ spec.joined_places (filter (spec.is_open_at self.now) live.now) own.now) }
    {
        let shown = self.open_keys(alloc, live)?;
        let joined = joined_places(alloc, shown.as_slice(), own)?;
        Ok(List::from_vec(joined))
    }

    fn open_keys(&self, alloc: Global, live: &[Key]) -> Result<Vec<Key>, NoMemory>
        ensures { IfOk result (λ keys. keys.items ≡ filter (spec.is_open_at self.now) live.now) }
    {
        let mut shown = Vec::new(alloc);
        for key in live {
            if self.is_open_at(key) {
                shown.push(*key)?;
            }
        }
        Ok(shown)
    }
}

impl<'a> View for Overlay<'a> {
    ghost use Rattle.shop_version.specs.Overlays.{layer_view};

    ghost seen = { layer_view };

    fn version(&self) -> u128 {
        self.version
    }

    fn get<'b>(&'b self, key: &Key) -> Option<&'b Row> {
        match self.own.get(&key_at(self.version, key)) {
            Some(row) => Some(row),
            None => self.get_open(key),
        }
    }

    fn child_keys(
        &self,
        alloc: Global,
        entity: Entity,
        parent: u128,
    ) -> Result<List<Key>, NoMemory> {
        let live = self.rows.child_keys(alloc, entity, 0, parent)?;
        let own = self.own.child_keys(alloc, entity, self.version, parent)?;
        let keys = self.merged(alloc, live.as_slice(), own.as_slice())?;
        Ok(keys)
    }

    fn referrers_of(&self, alloc: Global, key: &Key) -> Result<List<Key>, NoMemory> {
        let live = self.rows.referrers_in(alloc, 0, key)?;
        let own = self.own.referrers_in(alloc, self.version, key)?;
        let keys = self.merged(alloc, live.as_slice(), own.as_slice())?;
        Ok(keys)
    }

    fn twins(&self, alloc: Global, row: &Row) -> Result<List<Key>, NoMemory> {
        let live = self.rows.twins_in(alloc, 0, row)?;
        let own = self.own.twins_in(alloc, self.version, row)?;
        let keys = self.merged(alloc, live.as_slice(), own.as_slice())?;
        Ok(keys)
    }

    fn count(&self, entity: Entity) -> usize {
        small_count(self.rows, entity) - self.before.count(entity) + small_count(&self.own, entity)
    }

    fn count_owned(&self, limit: &OwnerLimit, owner: u128) -> usize {
        count_open(self, limit, owner) + count_own(&self.own, limit, owner)
    }
}

/// How many rows of the entity there are: fewer than half of what a number of places holds.
pub(crate) fn small_count(rows: &Rows, entity: Entity) -> usize
    ensures count { result ≡ count_rows rows.now.list entity }
    ensures small { result < 2 ^ 63 }
{
    let _all = rows.len();
    rows.count(entity)
}

/// Whether the row is of the limit's entity and belongs to the owner.
fn belongs(limit: &OwnerLimit, owner: u128, row: &Row) -> bool
    ensures { result ≡ belongs limit.now owner row.now }
{
    limit.entity == row.key.entity && is_id(part_of(limit.owner, row), owner)
}

/// How many of the rows belong to the owner.
fn count_own(rows: &Rows, limit: &OwnerLimit, owner: u128) -> usize
    ensures count { result ≡ count_owned limit.now rows.now.list owner }
    ensures small { result < 2 ^ 63 }
{
    let _all = rows.len();
    rows.iter().filter(|row| belongs(limit, owner, row)).count()
}

/// How many of the live rows that show belong to the owner. It is a walk over all rows, and never
/// taken: what drafts hold belongs to no owner of a limit.
fn count_open(overlay: &Overlay<'_>, limit: &OwnerLimit, owner: u128) -> usize
    ensures count { result ≡ count_owned limit.now (spec.open_rows overlay.now) owner }
    ensures small { result < 2 ^ 63 }
{
    count_open_in(overlay, overlay.rows, limit, owner)
}

fn count_open_in(overlay: &Overlay<'_>, rows: &Rows, limit: &OwnerLimit, owner: u128) -> usize
    ensures count { result ≡ count_by (spec.is_open_owned overlay.now limit.now owner) rows.now.list }
    ensures small { result < 2 ^ 63 }
{
    let _all = rows.len();
    rows.iter()
        .filter(|row| is_open_owned(overlay, limit, owner, row))
        .count()
}

/// Whether the row is a live one that shows, and belongs to the owner.
fn is_open_owned(overlay: &Overlay<'_>, limit: &OwnerLimit, owner: u128, row: &Row) -> bool
    ensures { result ≡ spec.is_open_owned overlay.now limit.now owner row.now }
{
    row.key.version == 0 && overlay.is_open(row) && belongs(limit, owner, row)
}

impl<'a> Overlay<'a> {
    /// What the draft of the root shows as it is found. Want of memory is the only error.
    pub(crate) fn new(
        alloc: Global,
        rows: &'a Rows,
        version: u128,
        root: Root,
    ) -> Result<Overlay<'a>, NoMemory>
        requires drafted { AreDrafted rows.now.list }
        requires not_live { version ≢ 0 }
        ensures layer { IfOk result (λ overlay. overlay ≡ spec.found_layer rows.entry.now.list version root) }
        ensures view { IfOk result (λ overlay. spec.layer_view overlay ≡ drafts.draft_view rows.entry.now.list version root) }
    {
        let before = own_rows(alloc, rows, version)?;
        let own = before.copy(alloc)?;
        Ok(Overlay {
            rows,
            version,
            root,
            before,
            own,
        })
    }
}

impl<'a> Overlay<'a> {
    /// Makes changes of the draft's own rows. Where memory is refused, which is the only error, all
    /// stays as it was.
    pub(crate) fn take_in(&mut self, alloc: Global, delta: &Delta) -> Result<(), NoMemory>
        requires { AllByRecursion (spec.IsOwnChange self.old.version (spec.open_rows self.old)) delta.now.changes }
        ensures rows { OnOk result (spec.layer_rows self.new ≡ change_places (spec.layer_rows self.old) delta.now.changes) }
        ensures own { OnOk result (self.new.own ≡ change_rows self.old.own delta.now.changes) }
        ensures found { self.new ≡ record self.old { own = self.new.own } }
        ensures err { OnErr result (self.new ≡ self.old) }
    {
        let changes = delta.copy(alloc)?;
        self.own.reserve(&changes)?;
        self.own.apply(changes);
        Ok(())
    }
}

/// Copies of the rows of the version, by themselves.
fn own_rows(alloc: Global, rows: &Rows, version: u128) -> Result<Rows, NoMemory>
    requires drafted { AreDrafted rows.now.list }
    requires not_live { version ≢ 0 }
    ensures { IfOk result (λ own. own.list ≡ of_version version rows.now.list) }
{
    let keys = own_keys(alloc, rows, version)?;
    let own = copies_at(alloc, rows, keys.as_slice())?;
    Rows::from_ascending(alloc, own)
}

/// Copies of the rows at the keys.
pub(crate) fn copies_at(alloc: Global, rows: &Rows, keys: &[Key]) -> Result<Vec<Row>, NoMemory>
    ensures { IfOk result (λ copies. copies.items ≡ spec.rows_at rows.now.list keys.now) }
{
    let mut copies = Vec::new(alloc);
    for key in keys {
        push_row(alloc, rows, key, &mut copies)?;
    }
    Ok(copies)
}

/// Pushes a copy of the row at the key, if there is one.
fn push_row(alloc: Global, rows: &Rows, key: &Key, copies: &mut Vec<Row>) -> Result<(), NoMemory>
    ensures { OnOk result (copies.new.items ≡ copies.old.items ++ option_to_list (row_at rows.now.list key.now)) }
{
    match rows.get(key) {
        Some(row) => {
            copies.push(row.copy(alloc)?)?;
            Ok(())
        }
        None => Ok(()),
    }
}
