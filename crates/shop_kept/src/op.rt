//! Operations: kind, entity, id, second part and the fields that are given.
ghost use Rattle.std.specs.Prelude.{◌≡◌, ◌<◌, ◌++◌, OnOk};
ghost use Rattle.std.specs.Int.{w32};
ghost use Rattle.shop_kept.specs.Readers.{Gives, OnWant, count_said, number_at};
ghost use Rattle.shop_kept.specs.Spelling.{kept_op, kept_ops, kind_number, FitsOp, FitOps, IsOp, AreOps};
ghost use Rattle.shop_kept.specs.Reading as spec;

use crate::fault::DecodeFault;
use crate::field::{read_fields, room_of_fields, write_fields};
use crate::numbers::{read_byte, read_u32, read_u128};
use crate::spelled::{Spelled, read_many, room_of_all, write_all};
use shop_defs::{ENTITIES, Entity, EntityInfo, List, NoMemory, Op, OpKind};
use std::alloc::Global;

/// The bytes of the shortest operation: kind, entity, id, second part and no fields.
const LEAST: usize = 1 + 1 + 16 + 16 + 1;

fn kind_byte(kind: OpKind) -> u8
    ensures { result ≡ kind_number kind }
{
    match kind {
        OpKind::Upsert => 1,
        OpKind::Delete => 2,
    }
}

fn kind_numbered(number: u8) -> Option<OpKind>
    ensures { result ≡ spec.kind_numbered number }
{
    match number {
        1 => Some(OpKind::Upsert),
        2 => Some(OpKind::Delete),
        _ => None,
    }
}

fn info_in(table: &[EntityInfo], number: u8) -> Option<EntityInfo>
    ensures { result ≡ spec.info_in table.now number }
{
    let mut rest = table;
    while let [info, more @ ..] = rest {
        if info.entity.number() == number {
            return Some(*info);
        }
        rest = more;
    }
    None
}

#[tactic(auto, unfolding(crate::specs::Reading::entity_numbered))]
fn entity_numbered(number: u8) -> Option<Entity>
    ensures { result ≡ spec.entity_numbered number }
{
    match info_in(&ENTITIES, number) {
        Some(info) => Some(info.entity),
        None => None,
    }
}

/// The kind of operation at the front of the bytes, and the bytes after it.
fn read_kind(bytes: &[u8]) -> Result<(OpKind, &[u8]), DecodeFault>
    ensures { Gives (λ x. (x.0, x.1.now)) result (spec.kind_at bytes.now) }
{
    let (number, rest) = read_byte(bytes)?;
    match kind_numbered(number) {
        Some(kind) => Ok((kind, rest)),
        None => Err(DecodeFault::Malformed),
    }
}

/// The entity at the front of the bytes, and the bytes after it.
fn read_entity(bytes: &[u8]) -> Result<(Entity, &[u8]), DecodeFault>
    ensures { Gives (λ x. (x.0, x.1.now)) result (spec.entity_at bytes.now) }
{
    let (number, rest) = read_byte(bytes)?;
    match entity_numbered(number) {
        Some(entity) => Ok((entity, rest)),
        None => Err(DecodeFault::Malformed),
    }
}

impl Spelled for Op {
    ghost spelled = { kept_op };

    ghost fits = { FitsOp };

    ghost is_kept = { IsOp };

    ghost read_at = { spec.op_at };

    fn room(&self) -> usize {
        room_of_fields(self.fields.as_slice()).saturating_add(1 + 1 + 16 + 16)
    }

    fn write(&self, out: &mut Vec<u8>) -> Result<(), NoMemory> {
        out.push(kind_byte(self.kind))?;
        out.push(self.entity.number())?;
        out.extend_from_slice(&self.id.to_be_bytes())?;
        out.extend_from_slice(&self.second.to_be_bytes())?;
        Ok(write_fields(self.fields.as_slice(), out)?)
    }

    #[tactic(auto, unfolding(crate::specs::Reading::op_at))]
    fn read(alloc: Global, bytes: &[u8]) -> Result<(Op, &[u8]), DecodeFault> {
        let (kind, rest) = read_kind(bytes)?;
        let (entity, rest) = read_entity(rest)?;
        let (id, rest) = read_u128(rest)?;
        let (second, rest) = read_u128(rest)?;
        let (fields, rest) = read_fields(alloc, rest)?;
        Ok((
            Op {
                kind,
                entity,
                id,
                second,
                fields,
            },
            rest,
        ))
    }
}

/// How many bytes the operations take with their count.
pub(crate) fn room_of_ops(ops: &[Op]) -> usize {
    room_of_all(ops).saturating_add(4)
}

/// Puts the operations with their count behind what stands in `out`.
pub(crate) fn write_ops(ops: &[Op], out: &mut Vec<u8>) -> Result<(), NoMemory>
    requires { FitOps ops.now }
    ensures bytes { OnOk result (out.new.items ≡ out.old.items ++ kept_ops ops.now) }
    ensures kept { OnOk result (AreOps ops.now) }
{
    out.extend_from_slice(&(ops.len() as u32).to_be_bytes())?;
    write_all(ops, out)
}

/// The operations at the front of the bytes, and the bytes after them.
pub(crate) fn read_ops(alloc: Global, bytes: &[u8]) -> Result<(List<Op>, &[u8]), DecodeFault>
    ensures given { Gives (λ x. (x.0, x.1.now)) result (spec.ops_at bytes.now) }
    ensures wanted { OnWant result (0 < count_said (number_at w32) bytes.now) }
{
    let (count, rest) = read_u32(bytes)?;
    Ok(read_many(alloc, count, LEAST, rest)?)
}
