//! Replies that the program doesn't give yet, with the bytes that a client is to see.
use reply_json::row_text;
use shop_core::{Done, Reply, RowReply};
use shop_defs::{Broken, Entity, Key, List, NoMemory, Refused, Row, Txt, Value};
use shop_json::reply_text;
use sqlite_items::Boxed;
use std::alloc::Global;

const ID: u128 = 0x0123_4567_89ab_cdef_0000_0000_0000_0020;

/// A row of a draft.
const DRAFTED: Key = Key {
    entity: Entity::ProductTranslation,
    version: 0xd,
    id: 0x11,
    second: 0x1e,
};

/// Numbers at the ends of their ranges, and refusals of drafts, orders and stock, each with its status and its body.
pub(crate) const REPLIES: [(Reply, u16, &str); 12] = [
    (
        Reply::Done(Done {
            front: u64::MAX,
            value: i64::MIN,
        }),
        200,
        r#"{"front":18446744073709551615,"value":-9223372036854775808}"#,
    ),
    (Reply::NoMemory, 507, r#"{"error":"no_memory"}"#),
    (
        Reply::Refused(Refused {
            op: u32::MAX,
            broken: Broken::UnknownEntity,
        }),
        400,
        r#"{"error":"unknown_entity","op":4294967295}"#,
    ),
    (
        Reply::Refused(Refused {
            op: 2,
            broken: Broken::NotVersioned {
                entity: Entity::CartLine,
            },
        }),
        400,
        r#"{"entity":"cart_line","error":"not_versioned","op":2}"#,
    ),
    (
        Reply::Refused(Refused {
            op: 1,
            broken: Broken::NoSuchVersion { version: ID },
        }),
        404,
        r#"{"error":"no_such_version","op":1,"version":"0123456789abcdef0000000000000020"}"#,
    ),
    (
        Reply::Refused(Refused {
            op: 0,
            broken: Broken::VersionExists { version: ID },
        }),
        409,
        r#"{"error":"version_exists","version":"0123456789abcdef0000000000000020"}"#,
    ),
    (
        Reply::Refused(Refused {
            op: 3,
            broken: Broken::OutsideDraft { key: DRAFTED },
        }),
        409,
        r#"{"error":"outside_draft","key":"product_translation/00000000000000000000000000000011/0000000000000000000000000000001e@0000000000000000000000000000000d","op":3}"#,
    ),
    (
        Reply::Refused(Refused {
            op: 0,
            broken: Broken::OrderExists { id: ID },
        }),
        409,
        r#"{"error":"order_exists","id":"0123456789abcdef0000000000000020"}"#,
    ),
    (
        Reply::Refused(Refused {
            op: 0,
            broken: Broken::NoSuchCart { id: ID },
        }),
        404,
        r#"{"error":"no_such_cart","id":"0123456789abcdef0000000000000020"}"#,
    ),
    (
        Reply::Refused(Refused {
            op: 0,
            broken: Broken::CartEmpty { id: ID },
        }),
        409,
        r#"{"error":"cart_empty","id":"0123456789abcdef0000000000000020"}"#,
    ),
    (
        Reply::Refused(Refused {
            op: 0,
            broken: Broken::Unstable { id: ID },
        }),
        409,
        r#"{"error":"unstable","id":"0123456789abcdef0000000000000020"}"#,
    ),
    (
        Reply::Refused(Refused {
            op: 1,
            broken: Broken::StockShort {
                product: ID,
                have: 2,
                want: -3,
            },
        }),
        409,
        r#"{"error":"stock_short","have":2,"op":1,"product":"0123456789abcdef0000000000000020","want":-3}"#,
    ),
];

/// The same of replies that hold a text or a row, which no constant does: see `reply_with`.
pub(crate) const REPLIES_WITH: [(u8, u16, &str); 6] = [
    (
        0,
        409,
        r#"{"cause":"no_method","error":"blocked","line":"00000000000000000000000000000021","op":9}"#,
    ),
    (
        1,
        409,
        r#"{"action":"complete","error":"bad_transition","op":9,"state":"open"}"#,
    ),
    // The operation is that of the draft's change.
    (
        2,
        409,
        r#"{"commit":1,"error":"merge_broken","inner":{"error":"missing_required","field":"number"},"op":2}"#,
    ),
    (
        3,
        200,
        r#"{"fields":{},"key":"product_translation/00000000000000000000000000000011/0000000000000000000000000000001e@0000000000000000000000000000000d"}"#,
    ),
    (
        4,
        200,
        r#"{"fields":{},"key":"product_translation/00000000000000000000000000000011/0000000000000000000000000000001e@0000000000000000000000000000000d","shown":{"name":null}}"#,
    ),
    (
        5,
        200,
        r#"{"rows":[{"fields":{},"key":"product_translation/00000000000000000000000000000011/0000000000000000000000000000001e@0000000000000000000000000000000d"}]}"#,
    ),
];

fn broken_with(alloc: Global, number: u8) -> Result<Broken, NoMemory> {
    match number {
        0 => Ok(Broken::Blocked {
            line: 0x21,
            cause: Txt::from_str(alloc, "no_method")?,
        }),
        1 => Ok(Broken::BadTransition {
            state: Txt::from_str(alloc, "open")?,
            action: Txt::from_str(alloc, "complete")?,
        }),
        _ => {
            let field = Txt::from_str(alloc, "number")?;
            let inner = Boxed::new(alloc, Broken::MissingRequired { field })?;
            Ok(Broken::MergeBroken {
                commit: 1,
                op: 2,
                inner,
            })
        }
    }
}

/// A row without fields.
fn bare_row(alloc: Global) -> Row {
    Row {
        key: DRAFTED,
        fields: List::new(alloc),
        ops: List::new(alloc),
    }
}

fn shown_with(alloc: Global, is_shown: bool) -> Result<RowReply, NoMemory> {
    let mut shown = List::new(alloc);
    if is_shown {
        shown.push((Txt::from_str(alloc, "name")?, None))?;
    }
    Ok(RowReply {
        row: bare_row(alloc),
        shown,
    })
}

fn listed(alloc: Global) -> Result<List<RowReply>, NoMemory> {
    let mut rows = List::new(alloc);
    rows.push(shown_with(alloc, false)?)?;
    Ok(rows)
}

fn reply_with(alloc: Global, number: u8) -> Result<Reply, NoMemory> {
    match number {
        3 => Ok(Reply::Row(shown_with(alloc, false)?)),
        4 => Ok(Reply::Row(shown_with(alloc, true)?)),
        5 => Ok(Reply::RowList(listed(alloc)?)),
        _ => Ok(Reply::Refused(Refused {
            op: 9,
            broken: broken_with(alloc, number)?,
        })),
    }
}

/// Whether a reply has this status and this body.
pub(crate) fn is_replied(alloc: Global, reply: &Reply, status: u16, body: &str) -> bool {
    match reply_text(alloc, reply) {
        Ok((found, text)) => found == status && text.as_slice() == body.as_bytes(),
        Err(_) => false,
    }
}

/// Whether the reply of that number has this status and this body.
pub(crate) fn is_replied_with(alloc: Global, number: u8, status: u16, body: &str) -> bool {
    match reply_with(alloc, number) {
        Ok(reply) => is_replied(alloc, &reply, status, body),
        Err(_) => false,
    }
}

/// Whether a number below 0 and an empty list of what is shown are printed so; no row of the shop has them.
pub(crate) fn is_row_printed(alloc: Global) -> Result<bool, NoMemory> {
    let mut fields = List::new(alloc);
    fields.push((4, Value::Int(-1)))?;
    let row = Row {
        key: Key {
            entity: Entity::RuleCondition,
            version: 0,
            id: 0x11,
            second: 0,
        },
        fields,
        ops: List::new(alloc),
    };
    let text = row_text(alloc, &row, Some(&[]))?;
    let body =
        r#"{"fields":{"low":-1},"key":"rule_condition/00000000000000000000000000000011","shown":{}}"#;
    Ok(text.as_slice() == body.as_bytes())
}
