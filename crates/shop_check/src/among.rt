//! The rules on how a row stands to the other rows.
ghost use Rattle.std.specs.Prelude.{◌≡◌, ◌&&◌, true, false};
ghost use Rattle.std.specs.List.{list_any, list_all};
ghost use Rattle.std.specs.Option.{option_copied};
ghost use Rattle.shop_defs.specs.declared.table.TheConstants.{REFERENCES, LEVEL_LIMITS, OWNER_LIMITS};
ghost use Rattle.shop_operations.specs.Parents as parents;
ghost use Rattle.shop_operations.specs.References.{is_entity, is_met, live};
ghost use Rattle.shop_operations.specs.References as references;
ghost use Rattle.shop_operations.specs.Upserts as upserts;
ghost use Rattle.shop_check.specs.Found.{are_formed, owners_are_within, first_among, has_one_part, name_one_part};
ghost use Rattle.shop_check.specs.Standing as spec;

use crate::fault::Rule;
use crate::others::{Others, is_live};
use shop_defs::{
    Key, LEVEL_LIMITS, LevelLimit, MOST_ROWS, OWNER_LIMITS, OwnerLimit, REFERENCES, Reference, Row,
};
use shop_operations::{named, parent_id};

/// The key of the first of the rows that fails a rule among the others, with the first of these
/// rules that it fails. It costs less where it is known that no owner among the others has too many
/// rows.
pub(crate) fn first_broken<O: Others>(
    others: &O,
    rows: &[Row],
    known_within: bool,
) -> Option<(Key, Rule)>
    requires formed { are_formed (O.rows others.now) ≡ true }
    requires within { known_within ≡ true → owners_are_within (O.rows others.now) ≡ true }
    ensures { result ≡ first_among (O.rows others.now) rows.now }
{
    let mut rest = rows;
    while let [row, more @ ..] = rest {
        if let Some(rule) = rule_broken(others, row, known_within) {
            return Some((row.key, rule));
        }
        rest = more;
    }
    None
}

/// The first of these rules that the row fails among the others.
pub(crate) fn rule_broken<O: Others>(others: &O, row: &Row, known_within: bool) -> Option<Rule>
    requires formed { are_formed (O.rows others.now) ≡ true }
    requires within { known_within ≡ true → owners_are_within (O.rows others.now) ≡ true }
    ensures { result ≡ spec.rule_failed_among (O.rows others.now) row.now }
{
    if breaks_reference(others, row) {
        return Some(Rule::Reference);
    }
    if breaks_duplicate(others, row) {
        return Some(Rule::Duplicate);
    }
    if breaks_parent(others, row) {
        return Some(Rule::Parent);
    }
    if breaks_limit(others, row, known_within) {
        return Some(Rule::Limit);
    }
    None
}

// ---- references

#[tactic(auto, unfolding(crate::specs::Standing::breaks_reference, shop_operations::specs::References::is_grounded))]
fn breaks_reference<O: Others>(others: &O, row: &Row) -> bool
    requires { are_formed (O.rows others.now) ≡ true }
    ensures { result ≡ spec.breaks_reference (O.rows others.now) row.now }
{
    is_live(row)
        && !(is_grounded(others, row, &REFERENCES) && is_of_one_tree(others, row, &REFERENCES))
}

/// Whether each reference of the row names a live row.
fn is_grounded<O: Others>(others: &O, row: &Row, table: &[Reference]) -> bool
    requires formed { are_formed (O.rows others.now) ≡ true }
    requires one { name_one_part table.now ≡ true }
    ensures { result ≡ list_all (λ reference. is_met reference (live (O.rows others.now)) row.now) table.now }
{
    let mut rest = table;
    while let [reference, more @ ..] = rest {
        if !is_met(others, row, reference) {
            return false;
        }
        rest = more;
    }
    true
}

fn is_met<O: Others>(others: &O, row: &Row, reference: &Reference) -> bool
    requires formed { are_formed (O.rows others.now) ≡ true }
    requires one { has_one_part reference.now.of ≡ true }
    ensures { result ≡ is_met reference.now (live (O.rows others.now)) row.now }
{
    match named(reference, row) {
        None => true,
        Some(id) => others.one(reference.of, id).is_some(),
    }
}

/// Whether no reference between nodes names a node of another tree.
fn is_of_one_tree<O: Others>(others: &O, row: &Row, table: &[Reference]) -> bool
    requires formed { are_formed (O.rows others.now) ≡ true }
    requires one { name_one_part table.now ≡ true }
    ensures { result ≡ list_all (λ reference. upserts.is_of_tree reference (live (O.rows others.now)) row.now) table.now }
{
    let mut rest = table;
    while let [reference, more @ ..] = rest {
        if !others.is_of_tree(reference, row) {
            return false;
        }
        rest = more;
    }
    true
}

// ---- twins

#[tactic(auto, unfolding(crate::specs::Standing::breaks_duplicate))]
fn breaks_duplicate<O: Others>(others: &O, row: &Row) -> bool
    ensures { result ≡ spec.breaks_duplicate (O.rows others.now) row.now }
{
    is_live(row) && others.has_lower_twin(row)
}

// ---- parents

#[tactic(auto, unfolding(crate::specs::Standing::breaks_parent, shop_operations::specs::Parents::is_deep))]
fn breaks_parent<O: Others>(others: &O, row: &Row) -> bool
    requires { are_formed (O.rows others.now) ≡ true }
    ensures { result ≡ spec.breaks_parent (O.rows others.now) row.now }
{
    is_live(row) && is_deep(others, row, &LEVEL_LIMITS)
}

/// Whether the row stands lower than the rows of its entity may.
fn is_deep<O: Others>(others: &O, row: &Row, limits: &[LevelLimit]) -> bool
    requires { are_formed (O.rows others.now) ≡ true }
    ensures { result ≡ list_any (λ limit. is_entity limit.entity row.now.key.entity && parents.is_past REFERENCES (live (O.rows others.now)) limit.most row.now) limits.now }
{
    let mut rest = limits;
    while let [limit, more @ ..] = rest {
        if limit.entity == row.key.entity && is_past(others, row, limit.most) {
            return true;
        }
        rest = more;
    }
    false
}

/// Whether the row has so many rows above it, or the way up doesn't end before.
fn is_past<O: Others>(others: &O, row: &Row, level: u32) -> bool
    requires { are_formed (O.rows others.now) ≡ true }
    ensures { result ≡ parents.is_past REFERENCES (live (O.rows others.now)) level row.now }
{
    let mut at = row;
    let mut left = level;
    while left > 0 {
        let Some(parent) = parent_row(others, at) else {
            return false;
        };
        at = parent;
        left -= 1;
    }
    true
}

fn parent_row<'a, O: Others>(others: &'a O, row: &Row) -> Option<&'a Row>
    requires { are_formed (O.rows others.now) ≡ true }
    ensures { option_copied result ≡ parents.parent_row REFERENCES (live (O.rows others.entry.now)) row.now }
{
    match parent_id(row) {
        Some(id) => others.one(row.key.entity, id),
        None => None,
    }
}

// ---- limits

#[tactic(auto, unfolding(crate::specs::Standing::breaks_limit))]
fn breaks_limit<O: Others>(others: &O, row: &Row, known_within: bool) -> bool
    requires within { known_within ≡ true → owners_are_within (O.rows others.now) ≡ true }
    requires reference { spec.breaks_reference (O.rows others.now) row.now ≡ false }
    ensures { result ≡ spec.breaks_limit (O.rows others.now) row.now }
{
    others.are_more_up_to(row, MOST_ROWS as usize)
        || (is_live(row) && is_owner_full(others, row, known_within))
}

/// Whether up to the row its owner has more rows than one of the limits allows. Where what the row
/// refers to is there, so is its owner.
fn is_owner_full<O: Others>(others: &O, row: &Row, known_within: bool) -> bool
    requires within { known_within ≡ true → owners_are_within (O.rows others.now) ≡ true }
    requires reference { spec.breaks_reference (O.rows others.now) row.now ≡ false }
    requires live { references.is_live row.now ≡ true }
    ensures { result ≡ list_any (upserts.owner_is_full (live (spec.up_to (O.rows others.now) row.now)) row.now) OWNER_LIMITS }
{
    if known_within {
        return false;
    }
    is_past_owner(others, row, &OWNER_LIMITS)
}

/// Whether up to the row its owner has more rows than one of the limits allows.
fn is_past_owner<O: Others>(others: &O, row: &Row, limits: &[OwnerLimit]) -> bool
    ensures { result ≡ list_any (upserts.owner_is_full (live (spec.up_to (O.rows others.now) row.now)) row.now) limits.now }
{
    limits.iter().any(|limit| others.is_owner_full(limit, row))
}
