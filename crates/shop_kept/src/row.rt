//! Rows: the number of the format, the fields and the operations.
ghost use Rattle.std.specs.Prelude.{◌≡◌, IfOk, Some};
ghost use Rattle.shop_defs.specs.declared.row.Row.{Row};
ghost use Rattle.shop_kept.specs.Readers.{Gives, OnWant};
ghost use Rattle.shop_kept.specs.Spelling.{kept_row, FitsRow, IsKeptRow};
ghost use Rattle.shop_kept.specs.Reading.{row_parts, read_kept, CountParts};
ghost use Rattle.shop_kept.specs.Laws.{SpellingsDiffer, SpellingsAreRead, NothingElseIsRead};

use crate::fault::DecodeFault;
use crate::field::{read_fields, room_of_fields, write_fields};
use crate::op::{read_ops, room_of_ops, write_ops};
use shop_defs::{Key, List, NoMemory, Row};
use std::alloc::Global;

/// The bytes under which a keeper holds the row, without its key. Each row has just one spelling.
///
/// The row's fields and those of its operations have to be numbered from 1 on and ascending, and
/// are 255 at most. Its texts are shorter than 2^32 bytes, and it has less than 2^32 operations.
/// Want of memory is the only error.
pub fn encode_row(alloc: Global, row: &Row) -> Result<List<u8>, NoMemory>
    requires { FitsRow row.now }
    ensures bytes { IfOk result (λ bytes. bytes ≡ kept_row row.now) }
    // So the row is one that these bytes give back.
    ensures kept { IfOk result (λ _. IsKeptRow row.now) }
{
    let fields = row.fields.as_slice();
    let ops = row.ops.as_slice();
    let room = room_of_fields(fields).saturating_add(room_of_ops(ops));
    let mut out = Vec::with_capacity(alloc, room.saturating_add(1))?;
    out.push(1)?;
    write_fields(fields, &mut out)?;
    write_ops(ops, &mut out)?;
    Ok(List::from_vec(out))
}

/// The row of that key whose spelling the bytes are, all of them.
///
/// `Malformed` comes exactly where there is no such row, unless memory runs out before that is
/// known. Memory is taken for the fields first, then for the operations, each before it is read, so
/// `NoMemory` comes only where the bytes begin with the number of the format and count one of these.
pub fn decode_row(alloc: Global, key: &Key, bytes: &[u8]) -> Result<Row, DecodeFault>
    // What is read is a row of that key with these bytes.
    ensures found { IfOk result (λ row. (row.key ≡ key.now) × IsKeptRow row × (kept_row row ≡ bytes.now)) }
    // Where a row of that key has these bytes it is read, unless memory runs out. So `Malformed`
    // says that there is none.
    ensures only { (row : Row) → row.key ≡ key.now → IsKeptRow row → kept_row row ≡ bytes.now
        → Gives (λ x. x) result (Some row) }
    // The same, by how bytes are read.
    ensures exact { Gives (λ x. x) result (read_kept key.now bytes.now) }
    // Memory is wanted only where the bytes begin with the number of the format and count a field or, without fields, an operation.
    ensures wanted { OnWant result (CountParts bytes.now) }
{
    read_row(alloc, key, bytes)
}

#[tactic(auto, unfolding(crate::specs::Reading::row_parts))]
fn read_row(alloc: Global, key: &Key, bytes: &[u8]) -> Result<Row, DecodeFault>
    ensures parts { Gives (λ row. (row.fields, row.ops)) result (row_parts bytes.now) }
    ensures key { IfOk result (λ row. row.key ≡ key.now) }
    ensures wanted { OnWant result (CountParts bytes.now) }
{
    match bytes {
        [1, rest @ ..] => {
            let (fields, rest) = read_fields(alloc, rest)?;
            let (ops, rest) = read_ops(alloc, rest)?;
            if !rest.is_empty() {
                return Err(DecodeFault::Malformed);
            }
            Ok(Row {
                key: *key,
                fields,
                ops,
            })
        }
        [] => Err(DecodeFault::Malformed),
        [_, ..] => Err(DecodeFault::Malformed),
    }
}

/// Two rows of one key that have the same bytes are the same row.
pub fn law_of_the_spellings()
    ensures { SpellingsDiffer }
{}

/// The spelling of a row gives that row back, and what gives a row is its spelling.
pub fn law_of_the_readings()
    ensures read { SpellingsAreRead }
    ensures nothing_else { NothingElseIsRead }
{}
