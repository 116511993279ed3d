//! Known bytes of known rows, and bytes that are no row's.
use crate::fault::DecodeFault;
use crate::row::{decode_row, encode_row};
use shop_defs::{Entity, Key, Op, OpKind, Row, Value};
use std::alloc::Global;

const SAMPLE: u128 = 0x0123_4567_89ab_cdef_fedc_ba98_7654_3210;

const KEY: Key = Key {
    entity: Entity::Category,
    version: 0,
    id: 0x10,
    second: 0,
};

/// A row with nothing in it.
const BARE: &[u8] = b"\x01\x00\0\0\0\0";

/// A category with its two defaults: active, at position 0.
const CATEGORY: &[u8] = b"\x01\x02\x02\x01\x03\x02\0\0\0\0\0\0\0\0\0\0\0\0";

/// A field of each kind, one a line.
const EACH_KIND: &[u8] = b"\x01\x05\
\x01\x00\
\x02\x01\
\x03\x02\xff\xff\xff\xff\xff\xff\xff\xfe\
\x04\x03\x00\x00\x00\x05th\xc3\xa9s\
\xff\x04\x01\x23\x45\x67\x89\xab\xcd\xef\xfe\xdc\xba\x98\x76\x54\x32\x10\
\0\0\0\0";

/// A change of two operations. The second is one byte a line from its kind on.
const CHANGE: &[u8] = b"\x01\x01\
\x01\x02\0\0\0\0\0\0\0\x02\
\0\0\0\x02\
\x01\x03\0\0\0\0\0\0\0\0\0\0\0\0\0\0\0\x10\0\0\0\0\0\0\0\0\0\0\0\0\0\0\0\0\
\x03\x01\x05\x02\x00\x03\x02\xff\xff\xff\xff\xff\xff\xff\xf9\
\x02\x06\0\0\0\0\0\0\0\0\0\0\0\0\0\0\0\x11\0\0\0\0\0\0\0\0\0\0\0\0\0\0\0\x12\x00";

/// What a field holds, or is given.
#[derive(Clone, Copy)]
enum Held {
    Null,
    Flag(bool),
    Int(i64),
    Text(&'static str),
    Id(u128),
}

/// Numbers of fields with what they hold.
type Fields = &'static [(u8, Held)];

/// Whether an operation deletes, the number of its entity, the id, the second part, and what it gives.
type Operation = (bool, u8, u128, u128, Fields);

/// The bytes of rows, their fields, and their operations.
const ROWS: [(&[u8], Fields, &[Operation]); 4] = [
    (BARE, &[], &[]),
    (CATEGORY, &[(2, Held::Flag(true)), (3, Held::Int(0))], &[]),
    (
        EACH_KIND,
        &[
            (1, Held::Flag(false)),
            (2, Held::Flag(true)),
            (3, Held::Int(-2)),
            (4, Held::Text("thés")),
            (255, Held::Id(SAMPLE)),
        ],
        &[],
    ),
    (
        CHANGE,
        &[(1, Held::Int(2))],
        &[
            (
                false,
                3,
                0x10,
                0,
                &[(1, Held::Null), (2, Held::Flag(false)), (3, Held::Int(-7))],
            ),
            (true, 6, 0x11, 0x12, &[]),
        ],
    ),
];

/// No row of the format: of each the whole is malformed.
const NO_ROWS: &[&[u8]] = &[
    // Other formats.
    b"",
    b"\x00\x00\0\0\0\0",
    b"\x02\x00\0\0\0\0",
    // A byte follows.
    b"\x01\x00\0\0\0\0\x00",
    // A field numbered 0, two of one number, and numbers that fall.
    b"\x01\x01\x00\x01\0\0\0\0",
    b"\x01\x02\x02\x01\x02\x00\0\0\0\0",
    b"\x01\x02\x02\x01\x02\x01\0\0\0\0",
    b"\x01\x02\x03\x01\x02\x00\0\0\0\0",
    // Tags that no field of a row has.
    b"\x01\x01\x01\x05\0\0\0\0",
    b"\x01\x01\x01\x06\0\0\0\0",
    b"\x01\x01\x01\xff\0\0\0\0",
    // Texts that aren't UTF-8, and lengths past the end.
    b"\x01\x01\x01\x03\0\0\0\x01\xff\0\0\0\0",
    b"\x01\x01\x01\x03\0\0\0\x01\xc3\0\0\0\0",
    b"\x01\x01\x01\x03\0\0\0\x02\xc0\x80\0\0\0\0",
    b"\x01\x01\x01\x03\0\0\0\x08tea\0\0\0\0",
    b"\x01\x01\x01\x03\xff\xff\xff\xfftea\0\0\0\0",
    // Counts of fields and of operations that are too small or too great.
    b"\x01\x00\x02\x01\0\0\0\0",
    b"\x01\x02\x02\x01\0\0\0\0",
    b"\x01\xff\x02\x01\0\0\0\0",
    b"\x01\x00\0\0\0\x01",
    b"\x01\x00\xff\xff\xff\xff",
    b"\x01\x00\x01\0\0\0",
];

/// A place in `CHANGE`, and the byte that makes it no row's.
const SPOILED: [(usize, u8); 14] = [
    // One field less and one more.
    (1, 0),
    (1, 2),
    // One operation less and one more.
    (15, 1),
    (15, 3),
    // Kinds of operation below and above the two.
    (16, 0),
    (16, 3),
    // Entities below and above those there are.
    (17, 0),
    (17, 26),
    // One given field less and one more.
    (50, 2),
    (50, 4),
    // Numbers of given fields: 0, the same as before, and falling.
    (51, 0),
    (53, 1),
    (55, 1),
    // A tag that no given field has.
    (52, 6),
];

fn is_held(value: Option<&Value>, held: Held) -> bool {
    match (value, held) {
        (None, Held::Null) => true,
        (Some(Value::Flag(value)), Held::Flag(held)) => *value == held,
        (Some(Value::Int(value)), Held::Int(held)) => *value == held,
        (Some(Value::Text(value)), Held::Text(held)) => value.as_str() == held,
        (Some(Value::Ident(value)), Held::Id(held)) => *value == held,
        _ => false,
    }
}

fn are_fields(fields: &[(u8, Value)], wanted: Fields) -> bool {
    let mut holds = fields.len() == wanted.len();
    for (field, want) in fields.iter().zip(wanted) {
        holds &= field.0 == want.0 && is_held(Some(&field.1), want.1);
    }
    holds
}

fn are_given(fields: &[(u8, Option<Value>)], wanted: Fields) -> bool {
    let mut holds = fields.len() == wanted.len();
    for (field, want) in fields.iter().zip(wanted) {
        holds &= field.0 == want.0 && is_held(field.1.as_ref(), want.1);
    }
    holds
}

fn is_operation(op: &Op, wanted: Operation) -> bool {
    let (deletes, entity, id, second, fields) = wanted;
    matches!(op.kind, OpKind::Delete) == deletes
        && op.entity.number() == entity
        && op.id == id
        && op.second == second
        && are_given(op.fields.as_slice(), fields)
}

fn are_operations(ops: &[Op], wanted: &[Operation]) -> bool {
    let mut holds = ops.len() == wanted.len();
    for (op, want) in ops.iter().zip(wanted) {
        holds &= is_operation(op, *want);
    }
    holds
}

/// Whether the bytes give that row, and the row has these bytes.
#[tactic(auto, using(crate::proofs::Fitting::fits_kept))]
fn is_kept(alloc: Global, bytes: &[u8], fields: Fields, ops: &[Operation]) -> bool {
    let Ok(row) = decode_row(alloc, &KEY, bytes) else {
        return false;
    };
    let Ok(written) = encode_row(alloc, &row) else {
        return false;
    };
    row.key.order(&KEY).is_eq()
        && are_fields(row.fields.as_slice(), fields)
        && are_operations(row.ops.as_slice(), ops)
        && written.as_slice() == bytes
}

fn is_malformed(alloc: Global, bytes: &[u8]) -> bool {
    matches!(decode_row(alloc, &KEY, bytes), Err(DecodeFault::Malformed))
}

/// Whether each front of the bytes but the whole is malformed.
fn are_fronts_malformed(alloc: Global, bytes: &[u8]) -> bool {
    let mut holds = true;
    for end in 0..bytes.len() {
        holds &= is_malformed(alloc, &bytes[..end]);
    }
    holds
}

fn is_spoiled(alloc: Global, place: usize, byte: u8) -> bool {
    let Ok(mut bytes) = Vec::from_slice(alloc, CHANGE) else {
        return false;
    };
    match bytes.get_mut(place) {
        Some(spoiled) => *spoiled = byte,
        None => return false,
    }
    is_malformed(alloc, &bytes)
}

#[test]
fn keeps_rows(rt: HostRuntime) {
    for (bytes, fields, ops) in ROWS {
        assert!(rt; is_kept(rt.alloc(), bytes, fields, ops), "{bytes:?}");
        assert!(rt;
            are_fronts_malformed(rt.alloc(), bytes),
            "fronts of {bytes:?}"
        );
    }
}

#[test]
fn refuses_what_is_no_row(rt: HostRuntime) {
    for bytes in NO_ROWS {
        assert!(rt; is_malformed(rt.alloc(), bytes), "{bytes:?}");
    }
    for (place, byte) in SPOILED {
        assert!(rt; is_spoiled(rt.alloc(), place, byte), "{byte} at {place}");
    }
}
