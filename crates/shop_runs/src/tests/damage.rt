//! Stores as they are kept, sound and damaged, each with what `check` reports of it and its status.
use super::Held;
use shop_defs::Entity;

pub(crate) type Checked = (&'static [Held], &'static str, u8);

/// Categories at the top, below those with these ids, and at the last position, not active.
const TOP: &[u8] = b"\x01\x02\x02\x01\x03\x02\0\0\0\0\0\0\0\0\0\0\0\0";

const BELOW_1: &[u8] =
    b"\x01\x03\x01\x04\0\0\0\0\0\0\0\0\0\0\0\0\0\0\0\x01\x02\x01\x03\x02\0\0\0\0\0\0\0\0\0\0\0\0";

const BELOW_2: &[u8] =
    b"\x01\x03\x01\x04\0\0\0\0\0\0\0\0\0\0\0\0\0\0\0\x02\x02\x01\x03\x02\0\0\0\0\0\0\0\0\0\0\0\0";

const BELOW_4: &[u8] =
    b"\x01\x03\x01\x04\0\0\0\0\0\0\0\0\0\0\0\0\0\0\0\x04\x02\x01\x03\x02\0\0\0\0\0\0\0\0\0\0\0\0";

const BELOW_9: &[u8] =
    b"\x01\x03\x01\x04\0\0\0\0\0\0\0\0\0\0\0\0\0\0\0\x09\x02\x01\x03\x02\0\0\0\0\0\0\0\0\0\0\0\0";

const AT_LAST: &[u8] = b"\x01\x02\x02\0\x03\x02\0\0\0\0\0\x0fB@\0\0\0\0";

/// Categories without a position, at the top and below one that isn't there, and one whose position is a flag.
const LACKING: &[u8] = b"\x01\x01\x02\x01\0\0\0\0";

const LACKING_BELOW_9: &[u8] =
    b"\x01\x02\x01\x04\0\0\0\0\0\0\0\0\0\0\0\0\0\0\0\x09\x02\x01\0\0\0\0";

const OF_NO_KIND: &[u8] = b"\x01\x02\x02\x01\x03\x01\0\0\0\0";

/// What needs a name alone, and languages below others.
const NAMED: &[u8] = b"\x01\x01\x01\x03\0\0\0\x01n\0\0\0\0";

const UNDER_1: &[u8] =
    b"\x01\x02\x01\x03\0\0\0\x01n\x02\x04\0\0\0\0\0\0\0\0\0\0\0\0\0\0\0\x01\0\0\0\0";

const UNDER_2: &[u8] =
    b"\x01\x02\x01\x03\0\0\0\x01n\x02\x04\0\0\0\0\0\0\0\0\0\0\0\0\0\0\0\x02\0\0\0\0";

/// Products by their numbers: one with a tax that isn't there, and some below others.
const A: &[u8] = b"\x01\x02\x02\x03\0\0\0\x01A\x03\x01\0\0\0\0";

const B: &[u8] = b"\x01\x02\x02\x03\0\0\0\x01B\x03\x01\0\0\0\0";

const A_TAXED: &[u8] =
    b"\x01\x03\x02\x03\0\0\0\x01A\x03\x01\x04\x04\0\0\0\0\0\0\0\0\0\0\0\0\0\0\0\x09\0\0\0\0";

const A_BELOW_3: &[u8] =
    b"\x01\x03\x01\x04\0\0\0\0\0\0\0\0\0\0\0\0\0\0\0\x03\x02\x03\0\0\0\x01A\x03\x01\0\0\0\0";

const B_BELOW_2: &[u8] =
    b"\x01\x03\x01\x04\0\0\0\0\0\0\0\0\0\0\0\0\0\0\0\x02\x02\x03\0\0\0\x01B\x03\x01\0\0\0\0";

/// Promotions without a code, and with one.
const FREE: &[u8] = b"\x01\x03\x01\x03\0\0\0\x01n\x02\x01\x06\x02\0\0\0\0\0\0\0\0\0\0\0\0";

const CODED: &[u8] =
    b"\x01\x04\x01\x03\0\0\0\x01n\x02\x01\x03\x03\0\0\0\x01c\x06\x02\0\0\0\0\0\0\0\0\0\0\0\0";

/// Filters of streams 1 and 2, and below filters 1 and 65.
const OF_1: &[u8] =
    b"\x01\x02\x01\x04\0\0\0\0\0\0\0\0\0\0\0\0\0\0\0\x01\x03\x03\0\0\0\x03and\0\0\0\0";

const OF_1_BELOW_1: &[u8] =
    b"\x01\x03\x01\x04\0\0\0\0\0\0\0\0\0\0\0\0\0\0\0\x01\x02\x04\0\0\0\0\0\0\0\0\0\0\0\0\0\0\0\x01\x03\x03\0\0\0\x03and\0\0\0\0";

const OF_2_BELOW_1: &[u8] =
    b"\x01\x03\x01\x04\0\0\0\0\0\0\0\0\0\0\0\0\0\0\0\x02\x02\x04\0\0\0\0\0\0\0\0\0\0\0\0\0\0\0\x01\x03\x03\0\0\0\x03and\0\0\0\0";

const OF_1_BELOW_65: &[u8] =
    b"\x01\x03\x01\x04\0\0\0\0\0\0\0\0\0\0\0\0\0\0\0\x01\x02\x04\0\0\0\0\0\0\0\0\0\0\0\0\0\0\0A\x03\x03\0\0\0\x03and\0\0\0\0";

/// A stream and the stock of a product, as they should be.
const STREAM: &[u8] = b"\x01\x01\x01\x03\0\0\0\x01A\0\0\0\0";

const STOCK: &[u8] = b"\x01\x02\x01\x02\0\0\0\0\0\0\0\x01\x02\x02\0\0\0\0\0\0\0\0\0\0\0\0";

/// A cart.
const CART_BYTES: &[u8] =
    b"\x01\x03\x02\x03\0\0\0\x05gross\x03\x03\0\0\0\x0ahorizontal\x04\x02\0\0\0\0\0\0\0\x01\0\0\0\0";

/// A category between a sound row and one more that is damaged: bytes of no row, of no category, and without what it needs.
pub(crate) static DAMAGED_BYTES: [Checked; 18] = [
    // Another format, a row cut short, a byte too many; a field numbered 0, two of one number, null, a text that isn't UTF-8.
    (
        &[
            (Entity::Category, 0, 2, 0, TOP),
            (Entity::Category, 0, 5, 0, b""),
            (Entity::DraftCommit, 0, 1, 1, b""),
        ],
        "damaged category/00000000000000000000000000000005 encoding\n",
        7,
    ),
    (
        &[
            (Entity::Category, 0, 2, 0, TOP),
            (Entity::Category, 0, 5, 0, b"\x02\0\0\0\0\0"),
            (Entity::DraftCommit, 0, 1, 1, b""),
        ],
        "damaged category/00000000000000000000000000000005 encoding\n",
        7,
    ),
    (
        &[
            (Entity::Category, 0, 2, 0, TOP),
            (Entity::Category, 0, 5, 0, b"\x01\0\0\0\0"),
            (Entity::DraftCommit, 0, 1, 1, b""),
        ],
        "damaged category/00000000000000000000000000000005 encoding\n",
        7,
    ),
    (
        &[
            (Entity::Category, 0, 2, 0, TOP),
            (Entity::Category, 0, 5, 0, b"\x01\0\0\0\0\0\0"),
            (Entity::DraftCommit, 0, 1, 1, b""),
        ],
        "damaged category/00000000000000000000000000000005 encoding\n",
        7,
    ),
    (
        &[
            (Entity::Category, 0, 2, 0, TOP),
            (Entity::Category, 0, 5, 0, b"\x01\x01\0\x01\0\0\0\0"),
            (Entity::DraftCommit, 0, 1, 1, b""),
        ],
        "damaged category/00000000000000000000000000000005 encoding\n",
        7,
    ),
    (
        &[
            (Entity::Category, 0, 2, 0, TOP),
            (
                Entity::Category,
                0,
                5,
                0,
                b"\x01\x02\x02\x01\x02\x01\0\0\0\0",
            ),
            (Entity::DraftCommit, 0, 1, 1, b""),
        ],
        "damaged category/00000000000000000000000000000005 encoding\n",
        7,
    ),
    (
        &[
            (Entity::Category, 0, 2, 0, TOP),
            (Entity::Category, 0, 5, 0, b"\x01\x01\x02\x05\0\0\0\0"),
            (Entity::DraftCommit, 0, 1, 1, b""),
        ],
        "damaged category/00000000000000000000000000000005 encoding\n",
        7,
    ),
    (
        &[
            (Entity::Category, 0, 2, 0, TOP),
            (
                Entity::Category,
                0,
                5,
                0,
                b"\x01\x01\x01\x03\0\0\0\x01\xff\0\0\0\0",
            ),
            (Entity::DraftCommit, 0, 1, 1, b""),
        ],
        "damaged category/00000000000000000000000000000005 encoding\n",
        7,
    ),
    // No such field; `active` a text, `position` a flag, below 0 and above 1,000,000; a parent that is no id; an operation.
    (
        &[
            (Entity::Category, 0, 2, 0, TOP),
            (Entity::Category, 0, 5, 0, b"\x01\x01\x04\x01\0\0\0\0"),
            (Entity::DraftCommit, 0, 1, 1, b""),
        ],
        "damaged category/00000000000000000000000000000005 kind\n",
        7,
    ),
    (
        &[
            (Entity::Category, 0, 2, 0, TOP),
            (
                Entity::Category,
                0,
                5,
                0,
                b"\x01\x01\x02\x03\0\0\0\0\0\0\0\0",
            ),
            (Entity::DraftCommit, 0, 1, 1, b""),
        ],
        "damaged category/00000000000000000000000000000005 kind\n",
        7,
    ),
    (
        &[
            (Entity::Category, 0, 2, 0, TOP),
            (
                Entity::Category,
                0,
                5,
                0,
                b"\x01\x02\x02\x01\x03\x01\0\0\0\0",
            ),
            (Entity::DraftCommit, 0, 1, 1, b""),
        ],
        "damaged category/00000000000000000000000000000005 kind\n",
        7,
    ),
    (
        &[
            (Entity::Category, 0, 2, 0, TOP),
            (
                Entity::Category,
                0,
                5,
                0,
                b"\x01\x01\x03\x02\xff\xff\xff\xff\xff\xff\xff\xff\0\0\0\0",
            ),
            (Entity::DraftCommit, 0, 1, 1, b""),
        ],
        "damaged category/00000000000000000000000000000005 kind\n",
        7,
    ),
    (
        &[
            (Entity::Category, 0, 2, 0, TOP),
            (
                Entity::Category,
                0,
                5,
                0,
                b"\x01\x01\x03\x02\0\0\0\0\0\x0fBA\0\0\0\0",
            ),
            (Entity::DraftCommit, 0, 1, 1, b""),
        ],
        "damaged category/00000000000000000000000000000005 kind\n",
        7,
    ),
    (
        &[
            (Entity::Category, 0, 2, 0, TOP),
            (
                Entity::Category,
                0,
                5,
                0,
                b"\x01\x02\x01\x04\0\0\0\0\0\0\0\0\0\0\0\0\0\0\0\0\x02\x01\0\0\0\0",
            ),
            (Entity::DraftCommit, 0, 1, 1, b""),
        ],
        "damaged category/00000000000000000000000000000005 kind\n",
        7,
    ),
    (
        &[
            (Entity::Category, 0, 2, 0, TOP),
            (
                Entity::Category,
                0,
                5,
                0,
                b"\x01\0\0\0\0\x01\x02\x03\0\0\0\0\0\0\0\0\0\0\0\0\0\0\0\x09\0\0\0\0\0\0\0\0\0\0\0\0\0\0\0\0\0",
            ),
            (Entity::DraftCommit, 0, 1, 1, b""),
        ],
        "damaged category/00000000000000000000000000000005 kind\n",
        7,
    ),
    // Without `active`, without `position`, and without both.
    (
        &[
            (Entity::Category, 0, 2, 0, TOP),
            (
                Entity::Category,
                0,
                5,
                0,
                b"\x01\x01\x03\x02\0\0\0\0\0\0\0\0\0\0\0\0",
            ),
            (Entity::DraftCommit, 0, 1, 1, b""),
        ],
        "damaged category/00000000000000000000000000000005 required\n",
        7,
    ),
    (
        &[
            (Entity::Category, 0, 2, 0, TOP),
            (Entity::Category, 0, 5, 0, b"\x01\x01\x02\x01\0\0\0\0"),
            (Entity::DraftCommit, 0, 1, 1, b""),
        ],
        "damaged category/00000000000000000000000000000005 required\n",
        7,
    ),
    (
        &[
            (Entity::Category, 0, 2, 0, TOP),
            (Entity::Category, 0, 5, 0, b"\x01\0\0\0\0\0"),
            (Entity::DraftCommit, 0, 1, 1, b""),
        ],
        "damaged category/00000000000000000000000000000005 required\n",
        7,
    ),
];

/// Keys that are out of order or of another form, rows of other entities, and sound stores.
pub(crate) static DAMAGED_KEYS: [Checked; 17] = [
    // The same key, one below it, and an entity below it.
    (
        &[
            (Entity::Category, 0, 2, 0, TOP),
            (Entity::Category, 0, 2, 0, TOP),
            (Entity::DraftCommit, 0, 1, 1, b""),
        ],
        "damaged category/00000000000000000000000000000002 order\n",
        7,
    ),
    (
        &[
            (Entity::Category, 0, 2, 0, TOP),
            (Entity::Category, 0, 1, 0, TOP),
            (Entity::DraftCommit, 0, 1, 1, b""),
        ],
        "damaged category/00000000000000000000000000000001 order\n",
        7,
    ),
    (
        &[
            (Entity::Category, 0, 2, 0, TOP),
            (Entity::Tax, 0, 9, 0, TOP),
            (Entity::DraftCommit, 0, 1, 1, b""),
        ],
        "damaged tax/00000000000000000000000000000009 order\n",
        7,
    ),
    // A second part, a version, and no id.
    (
        &[
            (Entity::Category, 0, 2, 0, TOP),
            (Entity::Category, 0, 5, 5, TOP),
            (Entity::DraftCommit, 0, 1, 1, b""),
        ],
        "damaged category/00000000000000000000000000000005/00000000000000000000000000000005 kind\n",
        7,
    ),
    (
        &[
            (Entity::Category, 0, 2, 0, TOP),
            (Entity::Category, 7, 5, 0, TOP),
            (Entity::DraftCommit, 0, 1, 1, b""),
        ],
        "damaged category/00000000000000000000000000000005@00000000000000000000000000000007 kind\n",
        7,
    ),
    (
        &[
            (Entity::Category, 0, 2, 0, TOP),
            (Entity::Category, 7, 0, 0, TOP),
            (Entity::DraftCommit, 0, 1, 1, b""),
        ],
        "damaged category/00000000000000000000000000000000@00000000000000000000000000000007 kind\n",
        7,
    ),
    // An entity that no operation may write.
    (
        &[
            (Entity::Category, 0, 2, 0, TOP),
            (Entity::Stock, 0, 5, 0, STOCK),
            (Entity::DraftCommit, 0, 1, 1, b""),
        ],
        "damaged stock/00000000000000000000000000000005 kind\n",
        7,
    ),
    // Of the rules that fail, the first is named.
    (
        &[
            (Entity::Category, 0, 2, 0, TOP),
            (Entity::Category, 0, 1, 0, b""),
            (Entity::DraftCommit, 0, 1, 1, b""),
        ],
        "damaged category/00000000000000000000000000000001 order\n",
        7,
    ),
    (
        &[
            (Entity::Category, 0, 2, 0, TOP),
            (Entity::Category, 0, 5, 5, b""),
            (Entity::DraftCommit, 0, 1, 1, b""),
        ],
        "damaged category/00000000000000000000000000000005/00000000000000000000000000000005 encoding\n",
        7,
    ),
    // Rows of other entities: a tax of 10,000 and of 10,001 hundredths of a percent, a stream, and keys of one part and of two.
    (
        &[(Entity::Stream, 0, 5, 1, STREAM)],
        "damaged stream/00000000000000000000000000000005/00000000000000000000000000000001 kind\n",
        7,
    ),
    (
        &[(
            Entity::Tax,
            0,
            5,
            0,
            b"\x01\x01\x02\x02\0\0\0\0\0\0'\x11\0\0\0\0",
        )],
        "damaged tax/00000000000000000000000000000005 kind\n",
        7,
    ),
    (
        &[(Entity::CategoryTranslation, 0, 5, 0, STREAM)],
        "damaged category_translation/00000000000000000000000000000005 kind\n",
        7,
    ),
    (
        &[(
            Entity::Tax,
            0,
            5,
            0,
            b"\x01\x01\x02\x02\0\0\0\0\0\0'\x10\0\0\0\0",
        )],
        "damaged tax/00000000000000000000000000000005 required\n",
        7,
    ),
    (
        &[(Entity::CategoryTranslation, 0, 5, 1, STREAM)],
        "damaged category_translation/00000000000000000000000000000005/00000000000000000000000000000001 reference\n",
        7,
    ),
    (
        &[(Entity::Stream, 0, 5, 0, STREAM)],
        "rows 1\nnumber 0\n",
        0,
    ),
    // Sound stores.
    (&[], "rows 0\nnumber 0\n", 0),
    (
        &[
            (Entity::Category, 0, 1, 0, TOP),
            (Entity::Category, 0, 2, 0, AT_LAST),
            (Entity::Category, 0, u128::MAX, 0, TOP),
        ],
        "rows 3\nnumber 0\n",
        0,
    ),
];

/// How rows stand to one another.
pub(crate) static AMONG_OTHERS: [Checked; 22] = [
    // The row that is named stands before or behind, is missing, or isn't seen: by its order, its kind; but one that lacks a field is.
    (
        &[
            (Entity::Category, 0, 1, 0, BELOW_2),
            (Entity::Category, 0, 2, 0, TOP),
        ],
        "rows 2\nnumber 0\n",
        0,
    ),
    (
        &[
            (Entity::Category, 0, 1, 0, TOP),
            (Entity::Category, 0, 3, 0, BELOW_2),
        ],
        "damaged category/00000000000000000000000000000003 reference\n",
        7,
    ),
    (
        &[
            (Entity::Category, 0, 2, 0, BELOW_1),
            (Entity::Category, 0, 1, 0, TOP),
        ],
        "damaged category/00000000000000000000000000000002 reference\n",
        7,
    ),
    (
        &[
            (Entity::Category, 0, 1, 0, BELOW_2),
            (Entity::Category, 0, 2, 0, OF_NO_KIND),
        ],
        "damaged category/00000000000000000000000000000001 reference\n",
        7,
    ),
    (
        &[
            (Entity::Category, 0, 1, 0, BELOW_2),
            (Entity::Category, 0, 2, 0, LACKING),
        ],
        "damaged category/00000000000000000000000000000002 required\n",
        7,
    ),
    // Both parts of a key are references.
    (
        &[
            (Entity::Language, 0, 5, 0, NAMED),
            (Entity::Category, 0, 1, 0, TOP),
            (Entity::CategoryTranslation, 0, 1, 5, NAMED),
        ],
        "rows 3\nnumber 0\n",
        0,
    ),
    (
        &[
            (Entity::Language, 0, 5, 0, NAMED),
            (Entity::Category, 0, 1, 0, TOP),
            (Entity::CategoryTranslation, 0, 1, 6, NAMED),
        ],
        "damaged category_translation/00000000000000000000000000000001/00000000000000000000000000000006 reference\n",
        7,
    ),
    // A parent of the same tree, and one of another.
    (
        &[
            (Entity::Stream, 0, 1, 0, NAMED),
            (Entity::StreamFilter, 0, 1, 0, OF_1),
            (Entity::StreamFilter, 0, 2, 0, OF_1_BELOW_1),
        ],
        "rows 3\nnumber 0\n",
        0,
    ),
    (
        &[
            (Entity::Stream, 0, 1, 0, NAMED),
            (Entity::Stream, 0, 2, 0, NAMED),
            (Entity::StreamFilter, 0, 1, 0, OF_1),
            (Entity::StreamFilter, 0, 2, 0, OF_2_BELOW_1),
        ],
        "damaged stream_filter/00000000000000000000000000000002 reference\n",
        7,
    ),
    // Of two with the same unique field the upper one; none where it is null.
    (
        &[(Entity::Product, 0, 1, 0, A), (Entity::Product, 0, 2, 0, B)],
        "rows 2\nnumber 0\n",
        0,
    ),
    (
        &[
            (Entity::Product, 0, 1, 0, A),
            (Entity::Product, 0, 2, 0, B),
            (Entity::Product, 0, 3, 0, A),
        ],
        "damaged product/00000000000000000000000000000003 duplicate\n",
        7,
    ),
    (
        &[
            (Entity::Promotion, 0, 1, 0, FREE),
            (Entity::Promotion, 0, 2, 0, FREE),
            (Entity::Promotion, 0, 3, 0, CODED),
        ],
        "rows 3\nnumber 0\n",
        0,
    ),
    // Two levels of languages; a row that is its own parent; two that are each other's.
    (
        &[
            (Entity::Language, 0, 1, 0, NAMED),
            (Entity::Language, 0, 2, 0, UNDER_1),
        ],
        "rows 2\nnumber 0\n",
        0,
    ),
    (
        &[
            (Entity::Language, 0, 1, 0, NAMED),
            (Entity::Language, 0, 2, 0, UNDER_1),
            (Entity::Language, 0, 3, 0, UNDER_2),
        ],
        "damaged language/00000000000000000000000000000003 parent\n",
        7,
    ),
    (
        &[(Entity::Category, 0, 1, 0, BELOW_1)],
        "damaged category/00000000000000000000000000000001 parent\n",
        7,
    ),
    (
        &[
            (Entity::Category, 0, 1, 0, BELOW_2),
            (Entity::Category, 0, 2, 0, BELOW_1),
        ],
        "damaged category/00000000000000000000000000000001 parent\n",
        7,
    ),
    // Of two rules the first; and of two entries.
    (
        &[(Entity::Category, 0, 1, 0, LACKING_BELOW_9)],
        "damaged category/00000000000000000000000000000001 required\n",
        7,
    ),
    (
        &[
            (Entity::Product, 0, 1, 0, A),
            (Entity::Product, 0, 2, 0, A_TAXED),
        ],
        "damaged product/00000000000000000000000000000002 reference\n",
        7,
    ),
    (
        &[
            (Entity::Product, 0, 1, 0, A),
            (Entity::Product, 0, 2, 0, A_BELOW_3),
            (Entity::Product, 0, 3, 0, B_BELOW_2),
        ],
        "damaged product/00000000000000000000000000000002 duplicate\n",
        7,
    ),
    (
        &[
            (Entity::Category, 0, 5, 0, BELOW_9),
            (Entity::Category, 0, 1, 0, TOP),
        ],
        "damaged category/00000000000000000000000000000005 reference\n",
        7,
    ),
    // Behind a row out of order, those above it are seen.
    (
        &[
            (Entity::Category, 0, 5, 0, BELOW_4),
            (Entity::Category, 0, 3, 0, TOP),
            (Entity::Category, 0, 4, 0, TOP),
        ],
        "damaged category/00000000000000000000000000000003 order\n",
        7,
    ),
    (
        &[
            (Entity::Product, 0, 5, 0, A),
            (Entity::Product, 0, 3, 0, B),
            (Entity::Product, 0, 4, 0, A),
        ],
        "damaged product/00000000000000000000000000000005 duplicate\n",
        7,
    ),
];

/// Stream 1 with filters of these ids, and one more.
macro_rules! filters {
    ($last:expr; $($id:literal)+) => {
        [
            (Entity::Stream, 0, 1, 0, NAMED),
            $((Entity::StreamFilter, 0, $id, 0, OF_1),)+
            $last,
        ]
    };
}

/// Cart 1 with lines of these ids, each of the product with that id.
macro_rules! cart_lines {
    ($($id:literal)+) => {
        [
            (Entity::Cart, 0, 1, 0, CART_BYTES),
            $((Entity::CartLine, 0, $id, 0, &[1, 4, 1, 4, 0, 0, 0, 0, 0, 0, 0, 0, 0, 0, 0, 0, 0, 0, 0, 1, 2, 4, 0, 0, 0, 0, 0, 0, 0, 0, 0, 0, 0, 0, 0, 0, 0, $id, 3, 2, 0, 0, 0, 0, 0, 0, 0, 1, 4, 2, 0, 0, 0, 0, 0, 0, 0, 0, 0, 0, 0, 0]),)+
        ]
    };
}

/// As many filters as a stream may have and one more, which stands below the first or below itself.
pub(crate) static FILTERS_TO_64: [Held; 65] =
    filters!((Entity::StreamFilter, 0, 64, 0, OF_1_BELOW_1); 1 2 3 4 5 6 7 8 9 10 11 12 13 14 15 16 17 18 19 20 21 22 23 24 25 26 27 28 29 30 31 32 33 34 35 36 37 38 39 40 41 42 43 44 45 46 47 48 49 50 51 52 53 54 55 56 57 58 59 60 61 62 63);

pub(crate) static FILTERS: [Held; 66] =
    filters!((Entity::StreamFilter, 0, 65, 0, OF_1_BELOW_1); 1 2 3 4 5 6 7 8 9 10 11 12 13 14 15 16 17 18 19 20 21 22 23 24 25 26 27 28 29 30 31 32 33 34 35 36 37 38 39 40 41 42 43 44 45 46 47 48 49 50 51 52 53 54 55 56 57 58 59 60 61 62 63 64);

pub(crate) static FILTERS_AND_A_LOOP: [Held; 66] =
    filters!((Entity::StreamFilter, 0, 65, 0, OF_1_BELOW_65); 1 2 3 4 5 6 7 8 9 10 11 12 13 14 15 16 17 18 19 20 21 22 23 24 25 26 27 28 29 30 31 32 33 34 35 36 37 38 39 40 41 42 43 44 45 46 47 48 49 50 51 52 53 54 55 56 57 58 59 60 61 62 63 64);

/// As many lines as a cart may have and one more.
pub(crate) static CART_LINES_TO_100: [Held; 101] =
    cart_lines!(1 2 3 4 5 6 7 8 9 10 11 12 13 14 15 16 17 18 19 20 21 22 23 24 25 26 27 28 29 30 31 32 33 34 35 36 37 38 39 40 41 42 43 44 45 46 47 48 49 50 51 52 53 54 55 56 57 58 59 60 61 62 63 64 65 66 67 68 69 70 71 72 73 74 75 76 77 78 79 80 81 82 83 84 85 86 87 88 89 90 91 92 93 94 95 96 97 98 99 100);

pub(crate) static CART_LINES: [Held; 102] =
    cart_lines!(1 2 3 4 5 6 7 8 9 10 11 12 13 14 15 16 17 18 19 20 21 22 23 24 25 26 27 28 29 30 31 32 33 34 35 36 37 38 39 40 41 42 43 44 45 46 47 48 49 50 51 52 53 54 55 56 57 58 59 60 61 62 63 64 65 66 67 68 69 70 71 72 73 74 75 76 77 78 79 80 81 82 83 84 85 86 87 88 89 90 91 92 93 94 95 96 97 98 99 100 101);
