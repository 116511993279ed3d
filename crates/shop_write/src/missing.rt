//! Given references that name no row, or a node of another tree.
ghost use Rattle.std.specs.Prelude.{◌≡◌, ◌&&◌, true, filter, IfOk};
ghost use Rattle.std.specs.Option.{option_copied};
ghost use Rattle.std.specs.Ordering.{nat_cmp, is_lt};
ghost use Rattle.std.specs.Cmp.Lexicographic.{slice_cmp};
ghost use Rattle.shop_operations.specs.References.{is_met};
ghost use Rattle.shop_operations.specs.Upserts as spec;
ghost use Rattle.shop_write.specs.Writes.{IsWrite, has_one_part, name_one_part};

use crate::view::View;
use crate::written::row_of;
use shop_defs::{Broken, NoMemory, Op, REFERENCES, Reference, Row};
use shop_operations::{agree_in, gives_part, named, reference_name, refuse_reference};
use std::alloc::Global;
use std::cmp::Ordering;

/// Whether the rows are nodes of one tree, where the reference is one between nodes.
fn agree_within(within: Option<u8>, row: &Row, other: &Row) -> bool
    ensures { result ≡ spec.agree_within within row.now other.now }
{
    match within {
        None => true,
        Some(number) => agree_in(number, row, other),
    }
}

/// Whether what the written row names by the reference is there, and of the same tree.
fn is_kept<V: View>(view: &V, row: &Row, reference: &Reference) -> bool
    requires write { IsWrite (V.seen view.now) row.now }
    requires one { has_one_part reference.now.of ≡ true }
    ensures { let rows = spec.with_row (V.seen view.now).rows row.now in result ≡ (is_met reference.now rows row.now && spec.is_of_tree reference.now rows row.now) }
{
    match named(reference, row) {
        None => true,
        Some(id) => match row_of(view, row, reference.of, id) {
            None => false,
            Some(other) => agree_within(reference.within, row, other),
        },
    }
}

/// Whether the operation gives a reference of the written row that names no row, or a node of
/// another tree.
fn is_missing<V: View>(view: &V, op: &Op, row: &Row, reference: &Reference) -> bool
    requires write { IsWrite (V.seen view.now) row.now }
    requires one { has_one_part reference.now.of ≡ true }
    ensures { result ≡ spec.is_missing (spec.with_row (V.seen view.now).rows row.now) op.now row.now reference.now }
{
    reference.entity == row.key.entity
        && gives_part(op, reference.part)
        && !is_kept(view, row, reference)
}

/// The reference with the lesser name, by its bytes.
fn lesser<'a>(best: Option<&'a Reference>, reference: &'a Reference) -> Option<&'a Reference>
    ensures { option_copied result ≡ spec.lesser spec.reference_name (option_copied best.entry) reference.entry.now }
{
    match best {
        Some(other) if !is_below(reference_name(reference), reference_name(other)) => Some(other),
        _ => Some(reference),
    }
}

/// Whether the first name is below the second by its bytes.
fn is_below(name: &str, other: &str) -> bool
    ensures { result ≡ is_lt (slice_cmp nat_cmp name.now other.now) }
{
    match name.as_bytes().cmp(other.as_bytes()) {
        Ordering::Less => true,
        Ordering::Equal | Ordering::Greater => false,
    }
}

/// The missing reference with the least name.
fn least_missing<'a, V: View>(
    view: &V,
    op: &Op,
    row: &Row,
    table: &'a [Reference],
) -> Option<&'a Reference>
    requires write { IsWrite (V.seen view.now) row.now }
    requires one { name_one_part table.now ≡ true }
    ensures { option_copied result ≡ spec.least spec.reference_name (filter (spec.is_missing (spec.with_row (V.seen view.now).rows row.now) op.now row.now) table.entry.now) }
{
    let mut best = None;
    let mut rest = table;
    while let [reference, more @ ..] = rest {
        if is_missing(view, op, row, reference) {
            best = lesser(best, reference);
        }
        rest = more;
    }
    best
}

/// The refusal of a given reference that names no row, or a node of another tree: of several the
/// one with the least name. Want of memory is the only error, and comes only of a refusal.
pub(crate) fn missing_reference<V: View>(
    alloc: Global,
    view: &V,
    op: &Op,
    row: &Row,
) -> Result<Option<Broken>, NoMemory>
    requires { IsWrite (V.seen view.now) row.now }
    ensures { IfOk result (λ broken. broken ≡ spec.missing_reference (spec.with_row (V.seen view.now).rows row.now) op.now row.now) }
{
    match least_missing(view, op, row, &REFERENCES) {
        Some(reference) => Ok(Some(refuse_reference(alloc, reference, row)?)),
        None => Ok(None),
    }
}
