//! What no clause says and the built program can't show: runs whose bytes come in pieces, in which a call fails, or over a store
//! that holds rows already; and replies and calls that no request of the program leads to yet.
use crate::tests::calls::{COPIED, KINDS, REACHED, is_copied, is_kind, is_left, is_reached};
use crate::tests::damage::{
    AMONG_OTHERS, CART_LINES, CART_LINES_TO_100, DAMAGED_BYTES, DAMAGED_KEYS, FILTERS,
    FILTERS_AND_A_LOOP, FILTERS_TO_64,
};
use crate::tests::replies::{REPLIES, REPLIES_WITH, is_replied, is_replied_with, is_row_printed};
use crate::tests::shapes::{SHAPES, is_shaped};
use crate::tests::stores::{
    CUT_REPORTS, FAILED_WRITES, FAULTS, OPENED, REPORT, UNASKED, WORDS, WRITE_AND_READ,
};
use crate::tests::streams::STREAMS;
use crate::tests::views::{GIVEN_AGAIN, is_given};
use shop_defs::{Entity, Key, List, NoMemory};
use shop_outside::{FixedClock, Kept, MemKeeper, MemSink, MemSource};
use shop_server::run_shop;
use std::alloc::Global;
use std::test::Fail;

mod calls;
mod damage;
mod messages;
mod replies;
mod shapes;
mod stores;
mod streams;
mod views;

/// A row as it is kept: the parts of its key, and its bytes.
type Held = (Entity, u128, u128, u128, &'static [u8]);

/// Which read and which write fail, counted from 1, how many bytes are written, the status, and what is kept, a row for each write.
type Fault = (u64, u64, usize, u8, &'static [Held]);

/// How many bytes a read and a write have at most, and which of them fail, counted from 1.
#[derive(Clone, Copy)]
struct Line {
    read_piece: usize,
    write_piece: usize,
    failing_read: u64,
    failing_write: u64,
}

/// No call fails, and no piece is cut.
const WHOLE: Line = Line {
    read_piece: 100_000,
    write_piece: 100_000,
    failing_read: 0,
    failing_write: 0,
};

/// What a run is handed, and what must come of it.
#[derive(Drop, Clone, Copy)]
struct Run<'a> {
    says: &'a str,
    words: &'a [&'a str],
    /// What the keeper holds, and which of its calls fail, counted from 1.
    rows: &'a [Held],
    number: u64,
    failing_load: u64,
    failing_applies: &'a [u64],
    input: &'a [&'a [u8]],
    /// The responses, and how many of their bytes are written, if not all.
    output: &'a [&'a [u8]],
    length: usize,
    status: u8,
    /// What the keeper holds in the end, and the status of `check` over it.
    kept: &'a [Held],
    kept_number: u64,
    checked: u8,
}

/// Nothing is kept, asked or written.
const EMPTY: Run<'static> = Run {
    says: "nothing",
    words: &["run"],
    rows: &[],
    number: 0,
    failing_load: 0,
    failing_applies: &[],
    input: &[],
    output: &[],
    length: 100_000,
    status: 0,
    kept: &[],
    kept_number: 0,
    checked: 0,
};

fn joined(alloc: Global, parts: &[&[u8]]) -> Result<Vec<u8>, Fail> {
    let mut all = Vec::new(alloc);
    for part in parts {
        all.extend_from_slice(part)?;
    }
    Ok(all)
}

fn word_list(alloc: Global, words: &[&str]) -> Result<Vec<String>, Fail> {
    let mut list = Vec::new(alloc);
    for word in words {
        list.push(String::from_str(alloc, word)?)?;
    }
    Ok(list)
}

fn key_of(held: &Held) -> Key {
    Key {
        entity: held.0,
        version: held.1,
        id: held.2,
        second: held.3,
    }
}

fn keeper_of(alloc: Global, run: &Run<'_>) -> Result<MemKeeper, Fail> {
    let mut rows = Vec::new(alloc);
    for held in run.rows {
        let bytes = Vec::from_slice(alloc, held.4)?;
        rows.push((key_of(held), List::from_vec(bytes)))?;
    }
    let kept = Kept {
        rows: List::from_vec(rows),
        // No keeper holds a greater number.
        number: run.number.min((1 << 63) - 1),
    };
    let loads = Vec::from_slice(alloc, &[run.failing_load])?;
    let applies = Vec::from_slice(alloc, run.failing_applies)?;
    Ok(MemKeeper::new(alloc, kept, loads, applies))
}

fn holds(keeper: &MemKeeper, rows: &[Held], number: u64) -> bool {
    let Ok(kept) = keeper.rows() else {
        return false;
    };
    keeper.number() == number
        && kept.len() == rows.len()
        && kept.as_slice().iter().zip(rows).all(|(found, held)| found.0 == key_of(held)
            && found.1.as_slice() == held.4)
}

/// What is written, the status, and the keeper that comes back.
fn run_over(
    alloc: Global,
    words: &[&str],
    line: &Line,
    input: Vec<u8>,
    keeper: MemKeeper,
) -> Result<(MemSink, u8, MemKeeper), Fail> {
    let words = word_list(alloc, words)?;
    let failing = Vec::from_slice(alloc, &[line.failing_read])?;
    let mut source = MemSource::new(input, line.read_piece, failing);
    let failing = Vec::from_slice(alloc, &[line.failing_write])?;
    let mut sink = MemSink::new(Vec::with_capacity(alloc, 5_000)?, line.write_piece, failing);
    let mut clock = FixedClock::new(Vec::from_slice(alloc, &[0i64])?);
    let (keeper, status) = run_shop(
        alloc,
        words.as_slice(),
        &mut source,
        &mut sink,
        keeper,
        &mut clock,
    );
    Ok((sink, status.number, keeper))
}

/// Whether it holds; without memory it doesn't.
fn is_well(holds: Result<bool, NoMemory>) -> bool {
    match holds {
        Ok(holds) => holds,
        Err(_) => false,
    }
}

/// Whether a run over this line comes to what is said of it.
fn is_as_said(alloc: Global, run: &Run<'_>, line: &Line) -> Result<bool, Fail> {
    let input = joined(alloc, run.input)?;
    let keeper = keeper_of(alloc, run)?;
    let (sink, status, keeper) = run_over(alloc, run.words, line, input, keeper)?;
    let output = joined(alloc, run.output)?;
    let length = output.len().min(run.length);
    let is_kept = holds(&keeper, run.kept, run.kept_number);
    let (_, checked, _) = run_over(alloc, &["check"], &WHOLE, Vec::new(alloc), keeper)?;
    Ok(
        status == run.status
            && sink.bytes() == &output[..length]
            && is_kept
            && checked == run.checked,
    )
}

/// Whether `check` reports this of a store, and it is served only where it is sound.
fn is_checked(alloc: Global, rows: &[Held], report: &str, status: u8) -> Result<bool, Fail> {
    let served = Run {
        rows,
        kept: rows,
        status,
        checked: status,
        ..EMPTY
    };
    let reported = Run {
        words: &["check"],
        output: &[report.as_bytes()],
        ..served
    };
    Ok(is_as_said(alloc, &served, &WHOLE)? && is_as_said(alloc, &reported, &WHOLE)?)
}

/// Whether a run, of which a read or a write fails, comes to this.
fn is_cut(
    alloc: Global,
    run: &Run<'static>,
    write_piece: usize,
    fault: &Fault,
) -> Result<bool, Fail> {
    let run = Run {
        length: fault.2,
        status: fault.3,
        kept: fault.4,
        kept_number: fault.4.len() as u64,
        ..*run
    };
    let line = Line {
        read_piece: 40,
        write_piece,
        failing_read: fault.0,
        failing_write: fault.1,
    };
    is_as_said(alloc, &run, &line)
}

#[test]
fn requests_in_pieces_and_failing_calls(rt: HostRuntime) -> Result<(), Fail> {
    let alloc = rt.alloc();
    for (read_piece, write_piece) in [(100_000, 100_000), (1, 100_000), (7, 3), (100_000, 1)] {
        let line = Line {
            read_piece,
            write_piece,
            ..WHOLE
        };
        for run in &STREAMS {
            assert!(rt;
                is_as_said(alloc, run, &line)?,
                "{}, by {read_piece}",
                run.says
            );
        }
    }
    for fault in &FAULTS {
        assert!(rt;
            is_cut(alloc, &WRITE_AND_READ, 60, fault)?,
            "read {}, write {}",
            fault.0,
            fault.1
        );
    }
    for fault in &CUT_REPORTS {
        assert!(rt;
            is_cut(alloc, &REPORT, 5, fault)?,
            "read {}, write {}",
            fault.0,
            fault.1
        );
    }
    Ok(())
}

#[test]
fn runs_over_stores(rt: HostRuntime) -> Result<(), Fail> {
    let alloc = rt.alloc();
    for table in [FAILED_WRITES.as_slice(), &OPENED] {
        for run in table {
            assert!(rt; is_as_said(alloc, run, &WHOLE)?, "{}", run.says);
        }
    }
    for words in WORDS {
        assert!(rt; is_as_said(alloc, &Run { words, ..UNASKED }, &WHOLE)?);
    }
    for table in [DAMAGED_BYTES.as_slice(), &DAMAGED_KEYS, &AMONG_OTHERS] {
        for (rows, report, status) in table {
            assert!(rt; is_checked(alloc, rows, report, *status)?, "not {report}");
        }
    }
    for (rows, report, status) in [
        (FILTERS_TO_64.as_slice(), "rows 65\nnumber 0\n", 0),
        (
            &FILTERS,
            "damaged stream_filter/00000000000000000000000000000041 limit\n",
            7,
        ),
        (
            &FILTERS_AND_A_LOOP,
            "damaged stream_filter/00000000000000000000000000000041 parent\n",
            7,
        ),
        (&CART_LINES_TO_100, "rows 101\nnumber 0\n", 0),
        (
            &CART_LINES,
            "damaged cart_line/00000000000000000000000000000065 limit\n",
            7,
        ),
    ] {
        assert!(rt; is_checked(alloc, rows, report, status)?, "not {report}");
    }
    Ok(())
}

#[test]
fn replies_and_calls_to_come(rt: HostRuntime) -> Result<(), Fail> {
    let alloc = rt.alloc();
    for (reply, status, body) in REPLIES {
        assert!(rt; is_replied(alloc, &reply, status, body), "not {body}");
    }
    for (number, status, body) in REPLIES_WITH {
        assert!(rt; is_replied_with(alloc, number, status, body), "not {body}");
    }
    assert!(rt; is_well(is_row_printed(alloc)));
    for (read, status, body) in &COPIED {
        assert!(rt; is_copied(alloc, read, *status, body)?, "not {body}");
    }
    for (place, gone, emptied, changes) in &REACHED {
        assert!(rt;
            is_well(is_reached(alloc, place, gone, emptied, *changes)),
            "of {}",
            place.1
        );
    }
    for given in &GIVEN_AGAIN {
        assert!(rt;
            is_well(is_given(alloc, given)),
            "{} of {}",
            given.2,
            given.0
        );
    }
    for shape in &SHAPES {
        assert!(rt;
            is_well(is_shaped(alloc, *shape)),
            "{} and {}",
            shape.0,
            shape.1
        );
    }
    for (entity, presets) in [(Entity::Category, 2), (Entity::Cart, 3), (Entity::Tax, 0)] {
        assert!(rt; is_well(is_left(alloc, entity, presets)), "not {presets}");
    }
    for (entity, second, bytes, want) in &KINDS {
        assert!(rt; is_kind(alloc, *entity, *second, bytes, *want), "{bytes:?}");
    }
    Ok(())
}
