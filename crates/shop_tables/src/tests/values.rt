//! Ids, days and values with what they read as.
use shop_defs::{Entity, Key};

/// Ids, each with its text.
pub(crate) const IDS: [(&str, u128); 4] = [
    (
        "0123456789abcdeffedcba9876543210",
        0x0123_4567_89ab_cdef_fedc_ba98_7654_3210,
    ),
    ("00000000000000000000000000000001", 1),
    ("00000000000000000000000000000010", 0x10),
    ("ffffffffffffffffffffffffffffffff", u128::MAX),
];

/// Texts that are no ids.
pub(crate) const NO_IDS: [&str; 8] = [
    "00000000000000000000000000000000",
    "123456789abcdeffedcba9876543210",
    "00123456789abcdeffedcba9876543210",
    "0123456789abcdeffedcba987654321A",
    "0123456789abcdef-edcba9876543210",
    "0123456789abcdefgedcba9876543210",
    "01234567-89ab-cdef-fedc-ba9876543210",
    "",
];

/// Days, each with its number.
pub(crate) const DAYS: [(&str, i64); 14] = [
    ("1970-01-01", 0),
    ("1970-01-31", 30),
    ("1970-02-28", 58),
    ("1970-03-01", 59),
    ("1972-02-28", 788),
    ("1972-02-29", 789),
    ("1972-03-01", 790),
    ("1999-12-31", 10_956),
    ("2000-02-29", 11_016),
    ("2000-03-01", 11_017),
    ("2100-02-28", 47_540),
    ("2100-03-01", 47_541),
    ("2026-11-30", 20_787),
    ("9999-12-30", 2_932_895),
];

/// Texts that are no days: past the ends, at no place of the calendar, or of another form.
pub(crate) const NO_DAYS: [&str; 22] = [
    "9999-12-31",
    "1969-12-31",
    "1900-02-28",
    "1900-02-29",
    "1970-02-29",
    "2100-02-29",
    "2026-13-01",
    "2026-00-10",
    "2026-04-31",
    "2026-01-32",
    "2026-01-00",
    "2026-1-01",
    "2026-001-1",
    "26-01-01",
    "2026-01-1",
    "2026/01/01",
    "20260101",
    "02026-01-01",
    "+026-01-01",
    "2026-01-01T",
    "2026-01-0x",
    "",
];

const MOST: i64 = 4_000_000_000_000_000_000;

/// The least and the greatest number of each field that no operation writes.
pub(crate) const NUMBERS: [(Entity, &str, i64, i64); 14] = [
    (Entity::Stock, "available", 0, 2_000_000_000_000),
    (Entity::Stock, "adjusted", 0, 2_000_000_000_000),
    (Entity::Order, "placed", 0, 250_000_000_000),
    (Entity::Order, "total", -MOST, MOST),
    (Entity::Order, "tax", -MOST, MOST),
    (Entity::Order, "rounding", -MOST, MOST),
    (Entity::OrderLine, "quantity", 1, 10_000),
    (Entity::OrderLine, "unit", -MOST, MOST),
    (Entity::OrderLine, "total", -MOST, MOST),
    (Entity::OrderLine, "rate", -MOST, MOST),
    (Entity::OrderTax, "amount", 0, MOST),
    (Entity::OrderTax, "tax", 0, MOST),
    (Entity::Draft, "commits", 0, 200_000),
    (Entity::DraftCommit, "count", 1, 1_000),
];

/// Texts for fields that no operation writes: with the length by which they are refused, where they aren't kept.
pub(crate) const TEXTS: [(Entity, &str, &str, Option<i128>); 21] = [
    (Entity::Order, "state", "open", None),
    (Entity::Order, "state", "in_progress", None),
    (Entity::Order, "state", "completed", None),
    (Entity::Order, "state", "cancelled", None),
    (Entity::Order, "state", "Gross", Some(5)),
    (Entity::Order, "tax_state", "gross", None),
    (Entity::Order, "tax_state", "net", None),
    (Entity::Order, "tax_state", "free", None),
    (Entity::Order, "tax_state", "Gross", Some(5)),
    (Entity::OrderLine, "kind", "product", None),
    (Entity::OrderLine, "kind", "discount", None),
    (Entity::OrderLine, "kind", "delivery", None),
    (Entity::OrderLine, "kind", "delivery_discount", None),
    (Entity::OrderLine, "kind", "Gross", Some(5)),
    (Entity::Draft, "root_entity", "product", None),
    (Entity::Draft, "root_entity", "category", None),
    (Entity::Draft, "root_entity", "Gross", Some(5)),
    (Entity::OrderLine, "label", "", Some(0)),
    (Entity::OrderLine, "label", "x", None),
    (Entity::OrderLine, "label", LONGEST, None),
    (Entity::OrderLine, "label", LONGER, Some(256)),
];

/// 255 bytes, and one more.
const LONGEST: &str =
    "xxxxxxxxxxxxxxxxxxxxxxxxxxxxxxxxxxxxxxxxxxxxxxxxxxxxxxxxxxxxxxxxxxxxxxxxxxxxxxxxxxxxxxxxxxxxxxxxxxxxxxxxxxxxxxxxxxxxxxxxxxxxxxxxxxxxxxxxxxxxxxxxxxxxxxxxxxxxxxxxxxxxxxxxxxxxxxxxxxxxxxxxxxxxxxxxxxxxxxxxxxxxxxxxxxxxxxxxxxxxxxxxxxxxxxxxxxxxxxxxxxxxxxxxxxxxxxx";

const LONGER: &str =
    "xxxxxxxxxxxxxxxxxxxxxxxxxxxxxxxxxxxxxxxxxxxxxxxxxxxxxxxxxxxxxxxxxxxxxxxxxxxxxxxxxxxxxxxxxxxxxxxxxxxxxxxxxxxxxxxxxxxxxxxxxxxxxxxxxxxxxxxxxxxxxxxxxxxxxxxxxxxxxxxxxxxxxxxxxxxxxxxxxxxxxxxxxxxxxxxxxxxxxxxxxxxxxxxxxxxxxxxxxxxxxxxxxxxxxxxxxxxxxxxxxxxxxxxxxxxxxxxx";

/// Changes of a draft.
pub(crate) const FIRST: Key = Key {
    entity: Entity::DraftCommit,
    version: 9,
    id: 3,
    second: 1,
};

pub(crate) const SECOND: Key = Key { second: 2, ..FIRST };
