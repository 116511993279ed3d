//! The loop of a connection.
ghost use Rattle.std.specs.Prelude.{◌≡◌, ◌<◌, ◌-◌, ◌++◌, ◌⊎◌, ◌||◌, ◌==◌, ℕ, List, [], length, Some, OnOk, OnErr, IsErrOf, IsTrue};
ghost use Rattle.std.specs.Io.KnownBytes.{Appends, IsAtEnd};
ghost use Rattle.shop_outside.specs.Causes.{Rose};
ghost use Rattle.shop_http.specs.Requests.{request_of};
ghost use Rattle.shop_routes.specs.Routing.{meant, routed};
ghost use Rattle.shop_server.specs.Session.{AtMoment, EachIsServed, IsFront, Session, asked_of, most_requests};
ghost use Rattle.shop_server.specs.Serving.{HasGoneOn, HasStepped, IsCalm, IsOver, Leads};

use crate::answerer::Answerer;
use crate::framing::Framing;
use crate::input::{FillFault, Input};
use crate::writing::write_whole;
use shop_http::{Head, Next, no_memory_response};
use shop_outside::{Clock, Failed, Link};
use shop_routes::Looked;
use std::alloc::Global;

/// How a connection ended.
#[derive(Clone, Copy)]
pub enum Ended {
    /// The input ended between requests, or an answered request asked to close.
    Closed,
    /// A fatal reply was written.
    HeadRefused,
    /// As many requests were answered as one connection may send.
    Spent,
    /// The input ended inside a request.
    Truncated,
    /// A read failed.
    ReadFault,
    /// A write failed.
    WriteFault,
    /// The buffer couldn't be had.
    NoMemory,
}

/// As many requests as one connection may send.
const MOST: u32 = 1_000_000;

/// Answers are written together until they have so many bytes.
const GATHERED: usize = 65_536;

/// Writes all of the bytes, or a front of them where a write failed.
fn write_all<L: Link>(link: &mut L, bytes: &[u8]) -> Result<(), Failed>
    ensures wrote { (front : List ℕ) × IsFront front bytes.now
        × Appends (L.written link.old) (L.written link.new) front × OnOk result (front ≡ bytes.now) }
    ensures failed { OnErr result (Rose (L.write_faults link.old) (L.write_faults link.new)) }
    ensures kept { OnOk result (L.write_faults link.new ≡ L.write_faults link.old) }
    ensures some { OnErr result (0 < length bytes.now) }
    ensures left { L.left link.new ≡ L.left link.old }
    ensures reads { L.read_faults link.new ≡ L.read_faults link.old }
    ensures names { L.names link.new ≡ L.names link.old }
{
    write_whole(link, bytes)
}

/// Writes the answers that are due and some bytes behind them, or a front of all that where a write failed. Then none is due.
fn write_due<L: Link>(link: &mut L, due: &mut Vec<u8>, more: &[u8]) -> Result<(), Failed>
    ensures wrote { (front : List ℕ) × IsFront front (due.old.items ++ more.now)
        × Appends (L.written link.old) (L.written link.new) front
        × OnOk result ((front ≡ due.old.items ++ more.now) × (due.new.items ≡ [])) }
    ensures failed { OnErr result (Rose (L.write_faults link.old) (L.write_faults link.new)) }
    ensures kept { OnOk result (L.write_faults link.new ≡ L.write_faults link.old) }
    ensures some { OnErr result (0 < length (due.old.items ++ more.now)) }
    ensures left { L.left link.new ≡ L.left link.old }
    ensures reads { L.read_faults link.new ≡ L.read_faults link.old }
    ensures names { L.names link.new ≡ L.names link.old }
{
    write_all(link, due.as_slice())?;
    due.clear();
    write_all(link, more)
}

/// Answers one request, at the moment of the clock, behind the answers that are due. All of them are written where they are many,
/// and where memory is wanting for the response, which then is fixed. Where a write fails, a front of them is written.
fn reply<L: Link, A: Answerer, T: Clock>(
    alloc: Global,
    link: &mut L,
    answerer: &mut A,
    clock: &mut T,
    head: &Head<'_>,
    body: &[u8],
    looked: &Looked<'_>,
    last: bool,
    due: &mut Vec<u8>,
) -> Result<(), Failed>
    requires serves { A.serves (request_of head.now body.now) }
    requires looked { meant looked.now ≡ routed (request_of head.now body.now) }
    ensures answered { (response front : List ℕ)
        × AtMoment A.gives (record { answerer = answerer.old; coming = T.coming clock.old }) (asked_of head.now body.now last) response
        (record { answerer = answerer.new; coming = T.coming clock.new })
        × IsFront front (due.old.items ++ response)
        × Appends (L.written link.old) (L.written link.new) front
        × OnOk result (due.old.items ++ response ≡ front ++ due.new.items)
        × OnErr result (0 < length (due.old.items ++ response)) }
    ensures failed { OnErr result (Rose (L.write_faults link.old) (L.write_faults link.new)) }
    ensures kept { OnOk result (L.write_faults link.new ≡ L.write_faults link.old) }
    ensures left { L.left link.new ≡ L.left link.old }
    ensures reads { L.read_faults link.new ≡ L.read_faults link.old }
    ensures names { L.names link.new ≡ L.names link.old }
{
    let moment = clock.now();
    match answerer.answer(alloc, head, body, looked, moment, last, due) {
        Ok(()) if due.len() < GATHERED => Ok(()),
        Ok(()) => write_due(link, due, b""),
        Err(_) => write_due(link, due, no_memory_response(last)),
    }
}

/// Whether the connection is closed after a request: it asks for that, or no more may follow.
fn is_last(closing: bool, more: u32) -> bool
    ensures { result ≡ (closing || (more == 0)) }
{
    closing || more == 0
}

/// What one look at the front of the input came to.
enum Step {
    /// So many bytes are wanted.
    Wanting { least: usize },
    /// A request was answered, and the connection goes on.
    Answered,
    /// The connection is over as soon as what is due is written, and this behind it.
    Over { ended: Ended, reply: &'static [u8] },
    /// A write failed.
    Failed,
}

/// Looks at the front of the input once, and answers the request that stands there. `input_ended` says that no more bytes come,
/// `more` how many requests may follow, and `due` has the answers that aren't written yet.
fn serve_front<L: Link, C: Framing, A: Answerer, T: Clock>(
    alloc: Global,
    link: &mut L,
    framing: &C,
    answerer: &mut A,
    clock: &mut T,
    input: &mut Input,
    due: &mut Vec<u8>,
    input_ended: bool,
    more: u32,
) -> Step
    requires serves { EachIsServed C.cut A.serves }
    requires at_end { IsTrue input_ended → IsAtEnd (L.left link.old) }
    ensures stepped { HasStepped (AtMoment A.gives) C.fatal C.cut more
        (record { answerer = record { answerer = answerer.old; coming = T.coming clock.old }; left = L.left link.old; written = L.written link.old; input = input.old; due = due.old.items })
        (record { answerer = record { answerer = answerer.new; coming = T.coming clock.new }; left = L.left link.new; written = L.written link.new; input = input.new; due = due.new.items }) input_ended result }
    ensures failed { result ≡ Step.Failed → Rose (L.write_faults link.old) (L.write_faults link.new) }
    ensures kept { (result ≡ Step.Failed → ⊥) → L.write_faults link.new ≡ L.write_faults link.old }
    ensures calm { IsCalm result }
    ensures reads { L.read_faults link.new ≡ L.read_faults link.old }
    ensures names { L.names link.new ≡ L.names link.old }
{
    match framing.next(input.rest(), input_ended) {
        Next::Whole {
            head,
            body,
            used,
            found,
        } => {
            let last = is_last(head.closing, more);
            match reply(alloc, link, answerer, clock, &head, body, &found, last, due) {
                Err(_) => Step::Failed,
                Ok(()) if head.closing => over(Ended::Closed),
                Ok(()) => {
                    input.consume(used);
                    Step::Answered
                }
            }
        }
        Next::More { least } => Step::Wanting { least },
        Next::Nothing => over(Ended::Closed),
        Next::Cut => over(Ended::Truncated),
        Next::Fatal(fault) => Step::Over {
            ended: Ended::HeadRefused,
            reply: framing.refusal(fault),
        },
    }
}

/// The connection is over, and nothing more is said.
fn over(ended: Ended) -> Step
    ensures { IsOver ended [] result }
{
    Step::Over { ended, reply: b"" }
}

/// Writes what is due and a last reply, and gives how the connection ended.
fn finish<L: Link>(link: &mut L, due: &mut Vec<u8>, reply: &[u8], ended: Ended) -> Ended
    ensures wrote { (front : List ℕ) × IsFront front (due.old.items ++ reply.now)
        × Appends (L.written link.old) (L.written link.new) front
        × (((result ≡ ended) × (front ≡ due.old.items ++ reply.now)) ⊎ ((result ≡ Ended.WriteFault) × (0 < length (due.old.items ++ reply.now)))) }
    ensures failed { (ended ≡ Ended.WriteFault → ⊥) → result ≡ Ended.WriteFault → Rose (L.write_faults link.old) (L.write_faults link.new) }
    ensures kept { (result ≡ Ended.WriteFault → ⊥) → L.write_faults link.new ≡ L.write_faults link.old }
    ensures left { L.left link.new ≡ L.left link.old }
    ensures reads { L.read_faults link.new ≡ L.read_faults link.old }
    ensures names { L.names link.new ≡ L.names link.old }
{
    match write_due(link, due, reply) {
        Ok(()) => ended,
        Err(_) => Ended::WriteFault,
    }
}

/// Writes the answers that are due, and reads on until there are so many bytes or the input has ended.
fn read_on<L: Link>(
    link: &mut L,
    due: &mut Vec<u8>,
    input: &mut Input,
    least: usize,
) -> Result<bool, Ended>
    ensures went { HasGoneOn (L.left link.old) (L.left link.new) (L.written link.old) (L.written link.new) due.old.items due.new.items input.old input.new least result }
    ensures read_failed { IsErrOf result Ended.ReadFault → Rose (L.read_faults link.old) (L.read_faults link.new) }
    ensures write_failed { IsErrOf result Ended.WriteFault → Rose (L.write_faults link.old) (L.write_faults link.new) }
    ensures reads_kept { (IsErrOf result Ended.ReadFault → ⊥) → L.read_faults link.new ≡ L.read_faults link.old }
    ensures writes_kept { (IsErrOf result Ended.WriteFault → ⊥) → L.write_faults link.new ≡ L.write_faults link.old }
    ensures names { L.names link.new ≡ L.names link.old }
{
    if write_due(link, due, b"").is_err() {
        return Err(Ended::WriteFault);
    }
    match input.fill_to(link, least) {
        Ok(ended) => Ok(ended),
        Err(FillFault::ReadFault) => Err(Ended::ReadFault),
        Err(FillFault::NoMemory) => Err(Ended::NoMemory),
    }
}

/// Reads until the front of the input is settled, and answers the request that stands there, after which `more` may follow. The
/// answer is how the connection ended, if it did. What is due is written before more is read.
fn serve_next<L: Link, C: Framing, A: Answerer, T: Clock>(
    alloc: Global,
    link: &mut L,
    framing: &C,
    answerer: &mut A,
    clock: &mut T,
    input: &mut Input,
    due: &mut Vec<u8>,
    more: u32,
) -> Option<Ended>
    requires { EachIsServed C.cut A.serves }
    ensures led { Leads (AtMoment A.gives) C.fatal C.cut more
        (record { answerer = record { answerer = answerer.old; coming = T.coming clock.old }; left = L.left link.old; written = L.written link.old; input = input.old; due = due.old.items })
        (record { answerer = record { answerer = answerer.new; coming = T.coming clock.new }; left = L.left link.new; written = L.written link.new; input = input.new; due = due.new.items }) result }
    ensures read_failed { result ≡ Some Ended.ReadFault → Rose (L.read_faults link.old) (L.read_faults link.new) }
    ensures write_failed { result ≡ Some Ended.WriteFault → Rose (L.write_faults link.old) (L.write_faults link.new) }
    ensures reads_kept { (result ≡ Some Ended.ReadFault → ⊥) → L.read_faults link.new ≡ L.read_faults link.old }
    ensures writes_kept { (result ≡ Some Ended.WriteFault → ⊥) → L.write_faults link.new ≡ L.write_faults link.old }
    ensures names { L.names link.new ≡ L.names link.old }
{
    let mut input_ended = false;
    loop {
        match serve_front(
            alloc,
            link,
            framing,
            answerer,
            clock,
            input,
            due,
            input_ended,
            more,
        ) {
            Step::Wanting { least } => match read_on(link, due, input, least) {
                Ok(ended) => input_ended = ended,
                Err(ended) => return Some(ended),
            },
            Step::Answered => return None,
            Step::Over { ended, reply } => return Some(finish(link, due, reply, ended)),
            Step::Failed => return Some(Ended::WriteFault),
        }
    }
}

/// Answers the requests of a connection in the order in which they come, at most a million of them. The clock is read once for
/// each. The answers to requests that were read already are written together, up to some 64 KiB, and before more is read: of that
/// the clauses don't speak, which say what was read and written in the end.
///
/// The answer says how the connection ended, and is `ReadFault`, `WriteFault` or `NoMemory` only where a read or a write failed
/// or the buffer couldn't be had.
pub fn serve<L: Link, C: Framing, A: Answerer, T: Clock>(
    alloc: Global,
    link: &mut L,
    framing: &C,
    answerer: &mut A,
    clock: &mut T,
) -> Ended
    // Each request that is cut off is one that the answerer serves.
    requires { EachIsServed C.cut A.serves }
    ensures session { Session (AtMoment A.gives) C.fatal C.cut most_requests
        (record { answerer = answerer.old; coming = T.coming clock.old }) (record { answerer = answerer.new; coming = T.coming clock.new })
        (L.left link.old) (L.left link.new) (L.written link.old) (L.written link.new) result }
    ensures read_failed { result ≡ Ended.ReadFault → Rose (L.read_faults link.old) (L.read_faults link.new) }
    ensures write_failed { result ≡ Ended.WriteFault → Rose (L.write_faults link.old) (L.write_faults link.new) }
    ensures reads_kept { (result ≡ Ended.ReadFault → ⊥) → L.read_faults link.new ≡ L.read_faults link.old }
    ensures writes_kept { (result ≡ Ended.WriteFault → ⊥) → L.write_faults link.new ≡ L.write_faults link.old }
    ensures names { L.names link.new ≡ L.names link.old }
{
    let mut input = Input::new(alloc);
    let mut due = Vec::new(alloc);
    for turn in 0..MOST {
        let more = MOST - 1 - turn;
        if let Some(ended) = serve_next(
            alloc, link, framing, answerer, clock, &mut input, &mut due, more,
        ) {
            return ended;
        }
    }
    finish(link, &mut due, b"", Ended::Spent)
}
