//! The row that a version shows at a place.
ghost use Rattle.std.specs.Prelude.{◌≡◌, not};
ghost use Rattle.std.specs.Option.{option_copied};
ghost use Rattle.shop_defs.specs.Rows.{row_at, IsInKeyOrder};
ghost use Rattle.shop_operations.specs.Upserts.{row_in};
ghost use Rattle.shop_drafts.specs.Aggregates as aggregates;
ghost use Rattle.shop_drafts.specs.Drafts as spec;
ghost use Rattle.shop_version.specs.DraftWrites.{DraftsTakeUpserts};
ghost use Rattle.shop_version.specs.Overlays.{at_version_key, guarded};

use crate::drafts::draft_of;
use crate::joining::key_at;
use shop_defs::{Key, Row};
use shop_drafts::{Root, is_part, root_of};
use shop_rows::Rows;

/// The row that the version shows at the key's place, whatever version the key has: `None` where none
/// stands there. The version is live or has a draft. It takes no memory.
pub fn overlay_get<'a>(rows: &'a Rows, version: u128, key: &Key) -> Option<&'a Row>
    ensures { option_copied result ≡ row_in (spec.shown_rows rows.entry.now.list version) key.now }
{
    if version == 0 {
        return live_at(rows, key);
    }
    match root_in(rows, version) {
        Some(root) => shown_at(rows, version, &root, key),
        None => None,
    }
}

/// The live row at the key's place.
fn live_at<'a>(rows: &'a Rows, key: &Key) -> Option<&'a Row>
    ensures row { option_copied result ≡ row_at rows.entry.now.list (at_version_key 0 key.now) }
    ensures order { IsInKeyOrder rows.entry.now.list }
{
    let _order = rows.len();
    rows.get(&key_at(0, key))
}

/// The root of the version's draft: `None` where there is no such draft.
fn root_in(rows: &Rows, version: u128) -> Option<Root>
    ensures { result ≡ spec.root_in rows.now.list version }
{
    match draft_of(rows, version) {
        Some(draft) => root_of(draft),
        None => None,
    }
}

/// The row that the draft of a root shows at the key's place.
fn shown_at<'a>(rows: &'a Rows, version: u128, root: &Root, key: &Key) -> Option<&'a Row>
    ensures { option_copied result ≡ row_in (spec.over rows.entry.now.list version root.now) key.now }
{
    let _order = rows.len();
    match rows.get(&key_at(version, key)) {
        Some(row) => Some(row),
        None => live_outside(rows, root, key),
    }
}

/// The live row at the key's place, if it is outside what a draft of the root edits.
fn live_outside<'a>(rows: &'a Rows, root: &Root, key: &Key) -> Option<&'a Row>
    ensures { option_copied result ≡ guarded (λ row. not (aggregates.is_part root.now row)) (row_at rows.entry.now.list (at_version_key 0 key.now)) }
{
    match rows.get(&key_at(0, key)) {
        Some(row) if !is_part(root, row) => Some(row),
        _ => None,
    }
}

/// What drafts show is what an operation asks of a view.
pub fn law_of_what_drafts_show()
    ensures { DraftsTakeUpserts }
{}
