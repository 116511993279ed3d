//! The program `shop`: the words behind its name, the real streams, and the status as the exit status.
#![tactic(auto)]

use shop_defs::List;
use shop_outside::{FixedClock, Kept, MemKeeper, ReaderSource, WriterSink};
use shop_server::{Status, run_shop};
use std::alloc::AllocError;
use std::env;
use std::io::ErrorKind;
use std::process::ExitCode;

/// The words aren't those of the program.
const USAGE: Status = Status { number: 2 };

/// Memory was refused before a request was read.
const NO_MEMORY: Status = Status { number: 9 };

/// The words behind the program's name. One that isn't UTF-8 is a faulty command line.
fn words(rt: &HostRuntime) -> Result<Vec<String>, Status> {
    let mut words = Vec::new(rt.alloc());
    match env::args(rt) {
        Ok(args) => {
            for word in args.skip(1) {
                if words.push(word).is_err() {
                    return Err(NO_MEMORY);
                }
            }
            Ok(words)
        }
        Err(error) if error.kind() == ErrorKind::OutOfMemory => Err(NO_MEMORY),
        Err(_) => Err(USAGE),
    }
}

/// Runs the program on standard input and output, with a keeper that holds nothing and a clock that stands at 0.
fn run(rt: &HostRuntime, words: &[String]) -> Result<Status, AllocError> {
    let alloc = rt.alloc();
    let kept = Kept {
        rows: List::new(alloc),
        number: 0,
    };
    let keeper = MemKeeper::new(alloc, kept, Vec::new(alloc), Vec::new(alloc));
    let mut clock = FixedClock::new(vec![in alloc; 0i64]?);
    let mut source = ReaderSource::new(rt.stdin());
    let mut sink = WriterSink::new(rt.stdout());
    let (_, status) = run_shop(alloc, words, &mut source, &mut sink, keeper, &mut clock);
    Ok(status)
}

fn main(rt: HostRuntime) -> ExitCode {
    let status = match words(&rt) {
        Ok(words) => run(&rt, words.as_slice()).unwrap_or(NO_MEMORY),
        Err(status) => status,
    };
    let number = status.number;
    if number > 0 {
        // Nobody can be told that standard error failed.
        let _ = eprintln!(rt; "shop: status {number}");
    }
    ExitCode::from(number)
}
