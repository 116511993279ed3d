//! Streams of requests over a keeper that holds nothing yet.
use super::messages::*;
use super::stores::{TEN, THIRTEEN, TWELVE};
use super::{EMPTY, Run};

pub(crate) static STREAMS: [Run<'static>; 17] = [
    EMPTY,
    Run {
        says: "a write is read back",
        input: &[WRITE, READ],
        output: &[DONE_1, SHOWN],
        kept: &[TEN],
        kept_number: 1,
        ..EMPTY
    },
    Run {
        says: "a row isn't there",
        input: &[READ_OTHER],
        output: &[MISSING_OTHER],
        ..EMPTY
    },
    Run {
        says: "the same write counts again",
        input: &[WRITE, WRITE, READ],
        output: &[DONE_1, DONE_2, SHOWN],
        kept: &[TEN],
        kept_number: 2,
        ..EMPTY
    },
    Run {
        says: "the head of curl",
        input: &[CURL_WRITE, CURL_READ],
        output: &[DONE_1, SHOWN],
        kept: &[TEN],
        kept_number: 1,
        ..EMPTY
    },
    Run {
        says: "an empty line, LF and a body that is ignored",
        input: &[WRITE, ODD_READ, READ],
        output: &[DONE_1, SHOWN, SHOWN],
        kept: &[TEN],
        kept_number: 1,
        ..EMPTY
    },
    Run {
        says: "a refused request, and the next",
        input: &[WRITE, LONG_PATH, WRITE_BAD, READ],
        output: &[DONE_1, BAD_PATH, OUT_OF_RANGE, SHOWN],
        kept: &[TEN],
        kept_number: 1,
        ..EMPTY
    },
    Run {
        says: "a request that is cut short",
        input: &[WRITE, READ_CUT],
        output: &[DONE_1],
        status: 6,
        kept: &[TEN],
        kept_number: 1,
        ..EMPTY
    },
    Run {
        says: "an empty line behind the last request",
        input: &[WRITE, b"\r\n"],
        output: &[DONE_1],
        status: 6,
        kept: &[TEN],
        kept_number: 1,
        ..EMPTY
    },
    Run {
        says: "an answer that isn't there yet",
        input: &[LATER],
        output: &[NOT_BUILT],
        status: 12,
        ..EMPTY
    },
    Run {
        says: "nothing is answered behind it",
        input: &[WRITE, LATER, READ],
        output: &[DONE_1, NOT_BUILT],
        status: 12,
        kept: &[TEN],
        kept_number: 1,
        ..EMPTY
    },
    Run {
        says: "nor behind a body in chunks, which writes nothing",
        input: &[CHUNKED, WRITE],
        output: &[IS_CHUNKED],
        status: 12,
        ..EMPTY
    },
    Run {
        says: "nor behind too large a body",
        input: &[WRITE, TOO_LARGE, READ],
        output: &[DONE_1, IS_TOO_LARGE],
        status: 12,
        kept: &[TEN],
        kept_number: 1,
        ..EMPTY
    },
    Run {
        says: "nor behind what is no head",
        input: &[WRITE, NO_HEAD, READ],
        output: &[DONE_1, IS_NO_HEAD],
        status: 12,
        kept: &[TEN],
        kept_number: 1,
        ..EMPTY
    },
    Run {
        says: "a request that asks to close is the last",
        input: &[WRITE, CLOSING_READ, WRITE_OTHER],
        output: &[DONE_1, SHOWN_LAST],
        kept: &[TEN],
        kept_number: 1,
        ..EMPTY
    },
    Run {
        says: "so is one of version 1.0",
        input: &[WRITE, OLD_READ, READ],
        output: &[DONE_1, SHOWN_LAST],
        kept: &[TEN],
        kept_number: 1,
        ..EMPTY
    },
    Run {
        says: "writes, a refusal and a delete",
        input: &[WRITE_OTHER, WRITE_TWO, WRITE_BAD, DELETE, READ_OTHER],
        output: &[DONE_1, TWO_DONE_2, OUT_OF_RANGE, DONE_3, MISSING_OTHER],
        kept: &[TWELVE, THIRTEEN],
        kept_number: 3,
        ..EMPTY
    },
];
