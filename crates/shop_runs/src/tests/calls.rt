//! Calls that the program doesn't make: what operations reach, replays, the kinds of rows that aren't served yet, and reads that
//! are copied.
ghost use Rattle.std.specs.Prelude.{◌≡◌, IfOk};
ghost use Rattle.shop_core.specs.Requests.{IsBuiltRequest};

use super::replies::is_replied;
use super::{EMPTY, Held, Run, key_of};
use shop_check::is_of_its_kind;
use shop_core::{Request, open_shop};
use shop_defs::{Delta, Entity, Key, List, NoMemory, Op, OpKind, PlanFault, Row, Txt, op_fits};
use shop_kept::decode_row;
use shop_requests::RowRead;
use shop_rows::Rows;
use shop_write::{plan_op, reach};
use std::alloc::Global;
use std::test::Fail;

pub(crate) fn key(entity: Entity, version: u128, id: u128, second: u128) -> Key {
    Key {
        entity,
        version,
        id,
        second,
    }
}

fn put(alloc: Global, rows: &mut Rows, held: &Held) -> Result<(), NoMemory> {
    let key = key_of(held);
    let Ok(row) = decode_row(alloc, &key, held.4) else {
        return Err(NoMemory);
    };
    let delta = Delta {
        changes: List::from_vec(vec![in alloc; (key, Some(row))]?),
    };
    rows.reserve(&delta)?;
    rows.apply(delta);
    Ok(())
}

/// The rows, put one by one from the last to the first.
fn put_backwards(alloc: Global, lines: &[Held]) -> Result<Rows, NoMemory> {
    let mut rows = Rows::empty(alloc);
    for held in lines.iter().rev() {
        put(alloc, &mut rows, held)?;
    }
    Ok(rows)
}

/// Rows with the ids that their fields name.
static SHOP: [Held; 18] = [
    (Entity::Language, 0, 1, 0, b"\x01\0\0\0\0\0"),
    (
        Entity::Language,
        0,
        2,
        0,
        b"\x01\x01\x02\x04\0\0\0\0\0\0\0\0\0\0\0\0\0\0\0\x01\0\0\0\0",
    ),
    (Entity::Tax, 0, 3, 0, b"\x01\0\0\0\0\0"),
    (Entity::Category, 0, 16, 0, b"\x01\0\0\0\0\0"),
    (
        Entity::Category,
        0,
        17,
        0,
        b"\x01\x01\x01\x04\0\0\0\0\0\0\0\0\0\0\0\0\0\0\0\x10\0\0\0\0",
    ),
    (
        Entity::Category,
        0,
        18,
        0,
        b"\x01\x01\x01\x04\0\0\0\0\0\0\0\0\0\0\0\0\0\0\0\x11\0\0\0\0",
    ),
    (Entity::CategoryTranslation, 0, 17, 2, b"\x01\0\0\0\0\0"),
    (
        Entity::Product,
        0,
        32,
        0,
        b"\x01\x01\x04\x04\0\0\0\0\0\0\0\0\0\0\0\0\0\0\0\x03\0\0\0\0",
    ),
    (
        Entity::Product,
        0,
        33,
        0,
        b"\x01\x01\x01\x04\0\0\0\0\0\0\0\0\0\0\0\0\0\0\0\x20\0\0\0\0",
    ),
    (Entity::ProductCategory, 0, 32, 18, b"\x01\0\0\0\0\0"),
    (
        Entity::ProductPrice,
        0,
        40,
        0,
        b"\x01\x02\x01\x04\0\0\0\0\0\0\0\0\0\0\0\0\0\0\0!\x02\x04\0\0\0\0\0\0\0\0\0\0\0\0\0\0\0F\0\0\0\0",
    ),
    (Entity::Stream, 0, 50, 0, b"\x01\0\0\0\0\0"),
    (
        Entity::StreamFilter,
        0,
        51,
        0,
        b"\x01\x02\x01\x04\0\0\0\0\0\0\0\0\0\0\0\0\0\0\02\x08\x04\0\0\0\0\0\0\0\0\0\0\0\0\0\0\0\x12\0\0\0\0",
    ),
    (Entity::Rule, 0, 70, 0, b"\x01\0\0\0\0\0"),
    (
        Entity::Promotion,
        0,
        71,
        0,
        b"\x01\x01\x07\x04\0\0\0\0\0\0\0\0\0\0\0\0\0\0\0F\0\0\0\0",
    ),
    (Entity::ShippingMethod, 0, 80, 0, b"\x01\0\0\0\0\0"),
    (
        Entity::ShippingPrice,
        0,
        81,
        0,
        b"\x01\x02\x01\x04\0\0\0\0\0\0\0\0\0\0\0\0\0\0\0P\x02\x04\0\0\0\0\0\0\0\0\0\0\0\0\0\0\0F\0\0\0\0",
    ),
    (
        Entity::Cart,
        0,
        90,
        0,
        b"\x01\x01\x07\x04\0\0\0\0\0\0\0\0\0\0\0\0\0\0\0P\0\0\0\0",
    ),
];

/// An entity, an id and a second part.
pub(crate) type Place = (Entity, u128, u128);

/// Deletes: what each takes out and empties, and how many changes it makes in a replay, if nothing holds it back.
pub(crate) static REACHED: [(Place, &[Place], &[Place], Option<usize>); 9] = [
    (
        (Entity::Category, 16, 0),
        &[
            (Entity::Category, 16, 0),
            (Entity::Category, 17, 0),
            (Entity::Category, 18, 0),
            (Entity::CategoryTranslation, 17, 2),
            (Entity::ProductCategory, 32, 18),
        ],
        &[(Entity::StreamFilter, 51, 0)],
        Some(6),
    ),
    (
        (Entity::Language, 2, 0),
        &[
            (Entity::Language, 2, 0),
            (Entity::CategoryTranslation, 17, 2),
        ],
        &[],
        Some(2),
    ),
    (
        (Entity::Product, 32, 0),
        &[
            (Entity::Product, 32, 0),
            (Entity::Product, 33, 0),
            (Entity::ProductCategory, 32, 18),
            (Entity::ProductPrice, 40, 0),
        ],
        &[],
        Some(4),
    ),
    (
        (Entity::ShippingMethod, 80, 0),
        &[
            (Entity::ShippingMethod, 80, 0),
            (Entity::ShippingPrice, 81, 0),
        ],
        &[(Entity::Cart, 90, 0)],
        Some(3),
    ),
    (
        (Entity::ProductCategory, 32, 18),
        &[(Entity::ProductCategory, 32, 18)],
        &[],
        Some(1),
    ),
    (
        (Entity::Language, 1, 0),
        &[(Entity::Language, 1, 0)],
        &[],
        None,
    ),
    ((Entity::Tax, 3, 0), &[(Entity::Tax, 3, 0)], &[], None),
    ((Entity::Rule, 70, 0), &[(Entity::Rule, 70, 0)], &[], None),
    ((Entity::Category, 99, 0), &[], &[], Some(0)),
];

fn delete(alloc: Global, place: &Place) -> Op
    ensures { result.kind ≡ OpKind.Delete }
{
    Op {
        kind: OpKind::Delete,
        entity: place.0,
        id: place.1,
        second: place.2,
        fields: List::new(alloc),
    }
}

fn are(keys: &List<Key>, places: &[Place]) -> bool {
    keys.len() == places.len()
        && keys.iter().zip(places).all(|(found, place)| *found == key(place.0, 0, place.1, place.2))
}

/// The plan of a delete in a replay.
fn replayed(alloc: Global, rows: &Rows, place: &Place) -> Option<Result<Delta, PlanFault>> {
    let op = delete(alloc, place);
    if op_fits(&op) {
        Some(plan_op(alloc, rows, &op, true))
    } else {
        None
    }
}

fn makes(alloc: Global, rows: &Rows, place: &Place, changes: Option<usize>) -> bool {
    match replayed(alloc, rows, place) {
        Some(Ok(delta)) => changes == Some(delta.changes.len()),
        Some(Err(PlanFault::Refused(_))) => changes.is_none(),
        _ => false,
    }
}

/// Whether the delete reaches these, and changes as many in a replay.
pub(crate) fn is_reached(
    alloc: Global,
    place: &Place,
    gone: &[Place],
    emptied: &[Place],
    changes: Option<usize>,
) -> Result<bool, NoMemory> {
    let rows = put_backwards(alloc, &SHOP)?.copy(alloc)?;
    let reached = reach(alloc, &rows, &delete(alloc, place))?;
    Ok(
        reached.left.is_none()
            && are(&reached.gone, gone)
            && are(&reached.emptied, emptied)
            && makes(alloc, &rows, place, changes),
    )
}

/// Whether an upsert of a row that isn't there leaves it with so many presets.
pub(crate) fn is_left(alloc: Global, entity: Entity, presets: usize) -> Result<bool, NoMemory> {
    let op = Op {
        kind: OpKind::Upsert,
        ..delete(alloc, &(entity, 99, 0))
    };
    let reached = reach(alloc, &Rows::empty(alloc), &op)?;
    Ok(
        match &reached.left {
            Some(row) => row.key == key(entity, 0, 99, 0) && row.fields.len() == presets,
            None => false,
        } && reached.gone.is_empty()
            && reached.emptied.is_empty(),
    )
}

/// Rows with the second part of their key, and whether they are of their kind, whatever is served. Of commits of a draft with an
/// operation that deletes a category: one that counts it, none, two; one that names no id, and one on a stream, which has no
/// versions; and one without operations and without their count, which is another rule.
pub(crate) static KINDS: [(Entity, u128, &[u8], bool); 9] = [
    (
        Entity::Stream,
        0,
        b"\x01\x01\x01\x03\0\0\0\x01A\0\0\0\0",
        true,
    ),
    (
        Entity::Stock,
        0,
        b"\x01\x02\x01\x02\0\0\0\0\0\0\0\x01\x02\x02\0\0\0\0\0\0\0\0\0\0\0\0",
        true,
    ),
    (
        Entity::Stream,
        1,
        b"\x01\x01\x01\x03\0\0\0\x01A\0\0\0\0",
        false,
    ),
    (
        Entity::DraftCommit,
        1,
        b"\x01\x01\x01\x02\0\0\0\0\0\0\0\x01\0\0\0\x01\x02\x03\0\0\0\0\0\0\0\0\0\0\0\0\0\0\0\x09\0\0\0\0\0\0\0\0\0\0\0\0\0\0\0\0\0",
        true,
    ),
    (
        Entity::DraftCommit,
        1,
        b"\x01\0\0\0\0\x01\x02\x03\0\0\0\0\0\0\0\0\0\0\0\0\0\0\0\x09\0\0\0\0\0\0\0\0\0\0\0\0\0\0\0\0\0",
        false,
    ),
    (
        Entity::DraftCommit,
        1,
        b"\x01\x01\x01\x02\0\0\0\0\0\0\0\x02\0\0\0\x01\x02\x03\0\0\0\0\0\0\0\0\0\0\0\0\0\0\0\x09\0\0\0\0\0\0\0\0\0\0\0\0\0\0\0\0\0",
        false,
    ),
    (
        Entity::DraftCommit,
        1,
        b"\x01\x01\x01\x02\0\0\0\0\0\0\0\x01\0\0\0\x01\x02\x03\0\0\0\0\0\0\0\0\0\0\0\0\0\0\0\0\0\0\0\0\0\0\0\0\0\0\0\0\0\0\0\0\0",
        false,
    ),
    (
        Entity::DraftCommit,
        1,
        b"\x01\x01\x01\x02\0\0\0\0\0\0\0\x01\0\0\0\x01\x02\x09\0\0\0\0\0\0\0\0\0\0\0\0\0\0\0\x09\0\0\0\0\0\0\0\0\0\0\0\0\0\0\0\0\0",
        false,
    ),
    (Entity::DraftCommit, 1, b"\x01\0\0\0\0\0", true),
];

pub(crate) fn is_kind(
    alloc: Global,
    entity: Entity,
    second: u128,
    bytes: &[u8],
    want: bool,
) -> bool {
    match decode_row(alloc, &key(entity, 0, 5, second), bytes) {
        Ok(row) => is_of_its_kind(&row) == want,
        Err(_) => false,
    }
}

/// Languages 1, 2 and, below 2, 4; a product that is taxed, priced and weighed, a variant of it, and their names.
static KEPT: [Held; 9] = [
    (
        Entity::Language,
        0,
        1,
        0,
        b"\x01\x01\x01\x03\0\0\0\x07English\0\0\0\0",
    ),
    (
        Entity::Language,
        0,
        2,
        0,
        b"\x01\x01\x01\x03\0\0\0\x06German\0\0\0\0",
    ),
    (
        Entity::Language,
        0,
        4,
        0,
        b"\x01\x02\x01\x03\0\0\0\x08Austrian\x02\x04\0\0\0\0\0\0\0\0\0\0\0\0\0\0\0\x02\0\0\0\0",
    ),
    (
        Entity::Tax,
        0,
        3,
        0,
        b"\x01\x02\x01\x03\0\0\0\x04full\x02\x02\0\0\0\0\0\0\x07l\0\0\0\0",
    ),
    (
        Entity::Product,
        0,
        32,
        0,
        b"\x01\x06\x02\x03\0\0\0\x05SHIRT\x03\x01\x04\x04\0\0\0\0\0\0\0\0\0\0\0\0\0\0\0\x03\x05\x02\0\0\0\0\0\0.|\x06\x02\0\0\0\0\0\0'\x10\x07\x02\0\0\0\0\0\0\0\xfa\0\0\0\0",
    ),
    (
        Entity::Product,
        0,
        33,
        0,
        b"\x01\x03\x01\x04\0\0\0\0\0\0\0\0\0\0\0\0\0\0\0\x20\x02\x03\0\0\0\x07SHIRT-S\x03\x01\0\0\0\0",
    ),
    (
        Entity::ProductTranslation,
        0,
        32,
        1,
        b"\x01\x01\x01\x03\0\0\0\x05Shirt\0\0\0\0",
    ),
    (
        Entity::ProductTranslation,
        0,
        32,
        2,
        b"\x01\x01\x01\x03\0\0\0\x04Hemd\0\0\0\0",
    ),
    (
        Entity::ProductTranslation,
        0,
        33,
        1,
        b"\x01\x01\x01\x03\0\0\0\x0bSmall\x20shirt\0\0\0\0",
    ),
];

/// What is read.
#[derive(Clone, Copy)]
pub(crate) enum Asks {
    /// A row of that version, with what it inherits or without.
    Row(u128, bool),
    /// The rows above a place.
    List,
}

/// A read in language 4: the entity, the id and the second part.
pub(crate) type Read = (&'static str, u128, u128, Asks);

/// Reads, each with the status and the body of its reply.
pub(crate) static COPIED: [(Read, u16, &str); 10] = [
    (
        ("product", 0x21, 0, Asks::Row(0, true)),
        200,
        r#"{"fields":{"active":true,"number":"SHIRT-S","parent":"00000000000000000000000000000020"},"key":"product/00000000000000000000000000000021","shown":{"description":null,"gross":11900,"max_order":null,"min_order":null,"name":"Hemd","net":10000,"tax":"00000000000000000000000000000003","weight":250}}"#,
    ),
    (
        ("product", 0x21, 0, Asks::Row(0, false)),
        200,
        r#"{"fields":{"active":true,"number":"SHIRT-S","parent":"00000000000000000000000000000020"},"key":"product/00000000000000000000000000000021","shown":{"description":null,"gross":null,"max_order":null,"min_order":null,"name":"Small shirt","net":null,"tax":null,"weight":null}}"#,
    ),
    (
        ("language", 0x4, 0, Asks::Row(0, false)),
        200,
        r#"{"fields":{"name":"Austrian","parent":"00000000000000000000000000000002"},"key":"language/00000000000000000000000000000004"}"#,
    ),
    (
        ("products", 0x21, 0, Asks::Row(0, false)),
        400,
        r#"{"error":"unknown_entity"}"#,
    ),
    (
        ("product", 0x9, 0, Asks::Row(7, false)),
        404,
        r#"{"error":"no_such_version","version":"00000000000000000000000000000007"}"#,
    ),
    (
        ("product", 0x9, 0, Asks::Row(0, false)),
        404,
        r#"{"error":"no_such_row","key":"product/00000000000000000000000000000009"}"#,
    ),
    (
        ("language", 0x1, 0, Asks::List),
        200,
        r#"{"rows":[{"fields":{"name":"German"},"key":"language/00000000000000000000000000000002"},{"fields":{"name":"Austrian","parent":"00000000000000000000000000000002"},"key":"language/00000000000000000000000000000004"}]}"#,
    ),
    (
        ("product_translation", 0x20, 1, Asks::List),
        200,
        r#"{"rows":[{"fields":{"name":"Hemd"},"key":"product_translation/00000000000000000000000000000020/00000000000000000000000000000002"},{"fields":{"name":"Small shirt"},"key":"product_translation/00000000000000000000000000000021/00000000000000000000000000000001"}]}"#,
    ),
    (("stream", 0x0, 0, Asks::List), 200, r#"{"rows":[]}"#),
    (
        ("categories", 0x0, 0, Asks::List),
        400,
        r#"{"error":"unknown_entity"}"#,
    ),
];

fn request_of(alloc: Global, read: &Read) -> Result<Request, NoMemory>
    ensures { IfOk result IsBuiltRequest }
{
    let (entity, id, second, asks) = *read;
    let entity = Txt::from_str(alloc, entity)?;
    match asks {
        Asks::Row(version, inherit) => Ok(Request::Row(RowRead {
            entity,
            id,
            second,
            version,
            language: 4,
            inherit,
        })),
        Asks::List => Ok(Request::RowList { entity, id, second }),
    }
}

/// Whether a shop of those rows answers the read so.
pub(crate) fn is_copied(alloc: Global, read: &Read, status: u16, body: &str) -> Result<bool, Fail> {
    let keeper = super::keeper_of(
        alloc,
        &Run {
            rows: &KEPT,
            ..EMPTY
        },
    )?;
    match open_shop(alloc, keeper) {
        Ok(mut shop) => {
            let Ok(request) = request_of(alloc, read) else {
                return Ok(false);
            };
            let reply = shop.answer(alloc, &request, 0);
            Ok(is_replied(alloc, &reply, status, body))
        }
        Err(_) => Ok(false),
    }
}
