//! Runs over a keeper that holds rows or damage, or of which a call fails; and over a line of which one does.
use super::messages::*;
use super::{EMPTY, Fault, Held, Run};
use shop_defs::Entity;

/// A category with its two defaults: active, at position 0.
const PLAIN: &[u8] = b"\x01\x02\x02\x01\x03\x02\0\0\0\0\0\0\0\0\0\0\0\0";

/// The same at position 4.
const FOURTH: &[u8] = b"\x01\x02\x02\x01\x03\x02\0\0\0\0\0\0\0\x04\0\0\0\0";

pub(crate) const TEN: Held = (Entity::Category, 0, 0x10, 0, PLAIN);

const ELEVEN: Held = (Entity::Category, 0, 0x11, 0, PLAIN);

pub(crate) const TWELVE: Held = (Entity::Category, 0, 0x12, 0, FOURTH);

pub(crate) const THIRTEEN: Held = (Entity::Category, 0, 0x13, 0, PLAIN);

/// Category 10 is there.
const SOUND: Run<'static> = Run {
    rows: &[TEN],
    number: 1,
    kept: &[TEN],
    kept_number: 1,
    ..EMPTY
};

/// What `check` reports of it.
pub(crate) const REPORT: Run<'static> = Run {
    words: &["check"],
    output: &[b"rows 1\nnumber 1\n"],
    ..SOUND
};

/// The keeper fails to keep a write: that changes nothing, and may be sent again.
pub(crate) static FAILED_WRITES: [Run<'static>; 6] = [
    Run {
        says: "the third write fails",
        failing_applies: &[3],
        input: &[
            WRITE,
            WRITE,
            WRITE_OTHER,
            READ_OTHER,
            WRITE_OTHER,
            READ_OTHER,
        ],
        output: &[
            DONE_1,
            DONE_2,
            STORE_FAILED,
            MISSING_OTHER,
            DONE_3,
            SHOWN_OTHER,
        ],
        kept: &[TEN, ELEVEN],
        kept_number: 3,
        ..EMPTY
    },
    Run {
        says: "the first write fails",
        failing_applies: &[1],
        input: &[WRITE, READ, WRITE, READ],
        output: &[STORE_FAILED, MISSING, DONE_1, SHOWN],
        kept: &[TEN],
        kept_number: 1,
        ..EMPTY
    },
    Run {
        says: "each write fails",
        failing_applies: &[1, 2, 3],
        input: &[WRITE_OTHER, READ, WRITE, READ_OTHER, WRITE_OTHER],
        output: &[
            STORE_FAILED,
            SHOWN,
            STORE_FAILED,
            MISSING_OTHER,
            STORE_FAILED,
        ],
        ..SOUND
    },
    Run {
        says: "a refused batch isn't kept, so the keeper's third call is the last",
        number: 7,
        failing_applies: &[3],
        input: &[WRITE_OTHER, WRITE_TWO, WRITE_BAD, DELETE, READ_OTHER],
        output: &[DONE_8, TWO_DONE_9, OUT_OF_RANGE, STORE_FAILED, SHOWN_OTHER],
        kept: &[ELEVEN, TWELVE, THIRTEEN],
        kept_number: 9,
        ..EMPTY
    },
    Run {
        says: "the first of a day fails",
        failing_applies: &[1],
        input: &[WRITE_OTHER, WRITE_TWO, WRITE_BAD, DELETE],
        output: &[STORE_FAILED, TWO_DONE_1, OUT_OF_RANGE, NONE_TO_DELETE],
        kept: &[TWELVE, THIRTEEN],
        kept_number: 1,
        ..EMPTY
    },
    Run {
        says: "the second of a day fails",
        failing_applies: &[2],
        input: &[WRITE_OTHER, WRITE_TWO, WRITE_BAD, DELETE],
        output: &[DONE_1, STORE_FAILED, OUT_OF_RANGE, DONE_2],
        kept_number: 2,
        ..EMPTY
    },
];

/// Rows that are there, the end of the history, a keeper that fails when it is opened, and reports.
pub(crate) static OPENED: [Run<'static>; 8] = [
    Run {
        says: "rows that are there, and one that is written",
        input: &[READ, READ_OTHER, WRITE_OTHER, READ_OTHER],
        output: &[SHOWN, MISSING_OTHER, DONE_2, SHOWN_OTHER],
        kept: &[TEN, ELEVEN],
        kept_number: 2,
        ..SOUND
    },
    Run {
        says: "no write is taken",
        number: 1 << 62,
        input: &[WRITE_BAD, WRITE, READ_OTHER],
        output: &[OUT_OF_RANGE, HISTORY_FULL, MISSING_OTHER],
        kept_number: 1 << 62,
        ..EMPTY
    },
    Run {
        says: "the last write",
        number: (1 << 62) - 1,
        input: &[WRITE_TWO, WRITE_TWO],
        output: &[TWO_DONE_LAST, HISTORY_FULL],
        kept: &[TWELVE, THIRTEEN],
        kept_number: 1 << 62,
        ..EMPTY
    },
    Run {
        says: "no store is opened",
        failing_load: 1,
        input: &[READ],
        status: 5,
        ..SOUND
    },
    Run {
        says: "none is opened to be checked",
        words: &["check"],
        failing_load: 1,
        status: 5,
        ..SOUND
    },
    Run {
        says: "none is opened the next time",
        failing_load: 2,
        input: &[READ],
        output: &[SHOWN],
        checked: 5,
        ..SOUND
    },
    REPORT,
    Run {
        says: "the report of the greatest number",
        words: &["check"],
        number: (1 << 63) - 1,
        input: &[WRITE],
        output: &[b"rows 0\nnumber 9223372036854775807\n"],
        kept_number: (1 << 63) - 1,
        ..EMPTY
    },
];

/// Words that are no command line of the program.
pub(crate) const WORDS: [&[&str]; 8] = [
    &[],
    &[""],
    &["Run"],
    &["runs"],
    &["run", "run"],
    &["serve"],
    &["checks"],
    &["check", "run"],
];

/// What other words are handed, of which nothing is read.
pub(crate) const UNASKED: Run<'static> = Run {
    says: "no words of the program",
    input: &[WRITE_OTHER, READ],
    status: 2,
    ..SOUND
};

/// A write and a read. In pieces of 40 bytes the write is whole after 4 reads and the read after 5, and the sixth finds the end;
/// the responses have 92 and 202 bytes, so that in pieces of 60 they take 2 and 4 writes.
pub(crate) const WRITE_AND_READ: Run<'static> = Run {
    says: "a read or a write fails",
    input: &[WRITE, READ],
    output: &[DONE_1, SHOWN],
    ..EMPTY
};

/// Which read and which write of those fails, how many bytes are written, the status, and whether the row is kept: it is, though
/// its response may be cut off.
pub(crate) static FAULTS: [Fault; 14] = [
    (1, 0, 0, 3, &[]),
    (2, 0, 0, 3, &[]),
    (3, 0, 0, 3, &[]),
    (4, 0, 0, 3, &[]),
    (5, 0, 92, 3, &[TEN]),
    (6, 0, 294, 3, &[TEN]),
    (7, 0, 294, 0, &[TEN]),
    (0, 1, 0, 4, &[TEN]),
    (0, 2, 60, 4, &[TEN]),
    (0, 3, 92, 4, &[TEN]),
    (0, 4, 152, 4, &[TEN]),
    (0, 5, 212, 4, &[TEN]),
    (0, 6, 272, 4, &[TEN]),
    (0, 7, 294, 0, &[TEN]),
];

/// The same of a report: in pieces of 5 bytes its 16 take 4 writes.
pub(crate) static CUT_REPORTS: [Fault; 5] = [
    (0, 1, 0, 4, &[TEN]),
    (0, 2, 5, 4, &[TEN]),
    (0, 3, 10, 4, &[TEN]),
    (0, 4, 15, 4, &[TEN]),
    (0, 5, 16, 0, &[TEN]),
];
