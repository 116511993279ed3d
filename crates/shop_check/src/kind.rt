//! The rule `kind`: the key, the fields and the operations that a row of an entity may have.
ghost use Rattle.std.specs.Prelude.{◌≡◌, length};
ghost use Rattle.std.specs.List.{list_all};
ghost use Rattle.shop_defs.specs.Rows.{field_of};
ghost use Rattle.shop_check.specs.Kinds as spec;

use shop_defs::{
    Entity, Op, Row, Value, entity_info, fields_fit, is_writable, op_fits, row_key_fits,
};

/// The number of the field that holds how many operations a commit of a draft has.
const COMMIT_COUNT: u8 = 1;

/// Whether the row passes the rule `kind`: its key, its fields and its operations are as its entity
/// has them, and it is of what is served so far. It takes no memory.
pub fn passes_kind(row: &Row) -> bool
    ensures { result ≡ spec.passes_kind row.now }
{
    is_of_its_kind(row) && is_served(row)
}

/// A row of its kind has its place in the kept format: the bounds that `encode_row` asks for.
pub fn law_of_the_kinds()
    ensures { spec.KindsAreKept }
{}

/// Whether the key, each field and the operations are as the row's entity has them, whatever is
/// served. It takes no memory.
pub fn is_of_its_kind(row: &Row) -> bool
    ensures { result ≡ spec.is_of_its_kind row.now }
{
    row_key_fits(&row.key) && fields_fit(row.key.entity, row.fields.as_slice()) && do_ops_fit(row)
}

/// Whether the row is of what is served so far: a live row of an entity that operations may write.
fn is_served(row: &Row) -> bool
    ensures { result ≡ spec.is_served row.now }
{
    row.key.version == 0 && is_writable(row.key.entity)
}

fn do_ops_fit(row: &Row) -> bool
    ensures { result ≡ spec.ops_fit row.now }
{
    if row.key.entity == Entity::DraftCommit {
        has_changes(row)
    } else {
        row.ops.len() == 0
    }
}

fn has_changes(row: &Row) -> bool
    ensures { result ≡ spec.has_changes row.now }
{
    has_count(row) && are_changes(row.ops.as_slice())
}

/// Whether there are as many operations as the row says.
fn has_count(row: &Row) -> bool
    ensures { result ≡ spec.is_count (field_of row.now COMMIT_COUNT) (length row.now.ops) }
{
    match row.field(COMMIT_COUNT) {
        None => row.ops.len() == 0,
        Some(Value::Int(count)) => i128::from(*count) == row.ops.len() as i128,
        Some(_) => false,
    }
}

fn are_changes(ops: &[Op]) -> bool
    ensures { result ≡ list_all spec.is_change ops.now }
{
    ops.iter().all(is_change)
}

/// Whether a commit of a draft may hold the operation.
fn is_change(op: &Op) -> bool
    ensures { result ≡ spec.is_change op.now }
{
    entity_info(op.entity).has_versions && op_fits(op)
}
