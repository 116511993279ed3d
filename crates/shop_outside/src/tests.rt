//! What no clause says: that calls succeed, and what runs in pieces and with faults give.
ghost use Rattle.std.specs.Prelude.{◌≤◌, IfOk};

use crate::{
    Clock, Failed, FixedClock, Gate, Job, KeepFault, Keeper, Kept, Listener, MemKeeper, MemLink,
    MemListener, MemSink, MemSource, MemSpawner, ReaderSource, Sink, Source, SystemClock, TcpLink,
    TcpPort, ThreadSpawner, WaitGate, WriterSink, start_job,
};
use shop_defs::{Entity, Key, List};
use std::io::{ErrorKind, Read, Write};
use std::net::TcpStream;
use std::sync::Wait;
use std::test::Fail;
use std::{io, thread};

/// What reads of four bytes give; a failed one gives none.
type Reads = &'static [Option<&'static [u8]>];

/// How many bytes writes take; a failed one takes none.
type Writes = &'static [Option<usize>];

/// How many of the bytes `0123456789` a source gives a read, and what its reads give. The second one is to fail.
const SOURCES: [(usize, Reads); 4] = [
    (
        100,
        &[Some(b"0123"), None, Some(b"4567"), Some(b"89"), Some(b"")],
    ),
    (
        3,
        &[Some(b"012"), None, Some(b"345"), Some(b"678"), Some(b"9")],
    ),
    (1, &[Some(b"0"), None, Some(b"1"), Some(b"2"), Some(b"3")]),
    (0, &[Some(b"0"), None, Some(b"1"), Some(b"2"), Some(b"3")]),
];

/// The capacity of a sink that holds `>`, how many bytes it takes a write, what the writes of `01234` take, and what it holds then.
/// The second write is to fail.
const SINKS: [(usize, usize, Writes, &[u8]); 4] = [
    (6, 100, &[Some(5), None, Some(0), Some(0)], b">01234"),
    (6, 3, &[Some(3), None, Some(2), Some(0)], b">01234"),
    (6, 1, &[Some(1), None, Some(1), Some(1)], b">012"),
    (5, 3, &[Some(3), None, Some(1), None], b">0123"),
];

const KEY_1: Key = Key {
    entity: Entity::Category,
    version: 0,
    id: 1,
    second: 0,
};

const KEY_2: Key = Key {
    entity: Entity::Category,
    version: 0,
    id: 2,
    second: 0,
};

const KEY_3: Key = Key {
    entity: Entity::Category,
    version: 0,
    id: 3,
    second: 0,
};

const KEY_4: Key = Key {
    entity: Entity::Category,
    version: 0,
    id: 4,
    second: 0,
};

/// The key and the byte of each row that is held, before and after the row 2 gets 20, 3 is removed, and 4 gets 41.
const KEEPERS: [(&[(Key, u8)], &[(Key, u8)]); 2] = [
    (
        &[(KEY_1, 10), (KEY_3, 30), (KEY_4, 40)],
        &[(KEY_1, 10), (KEY_2, 20), (KEY_4, 41)],
    ),
    // Out of order, and one of the keys twice.
    (
        &[(KEY_3, 30), (KEY_4, 40), (KEY_1, 10), (KEY_3, 31)],
        &[(KEY_1, 10), (KEY_2, 20), (KEY_4, 41)],
    ),
];

/// A reader and a writer whose calls give or take a byte, are interrupted, fail, and then end.
#[derive(Drop)]
struct Faulty {
    at: usize,
}

/// What the calls come to, each of two that are interrupted made again.
const READ: Reads = &[Some(b"\0"), Some(b"\0"), None, Some(b"\0"), Some(b"")];

const WRITTEN: Writes = &[Some(1), Some(1), None, Some(1), None];

const CALLS: [Result<usize, ErrorKind>; 6] = [
    Ok(1),
    Err(ErrorKind::Interrupted),
    Err(ErrorKind::Interrupted),
    Ok(1),
    Err(ErrorKind::BrokenPipe),
    Ok(1),
];

impl Faulty {
    fn next(&mut self) -> io::Result<usize>
        ensures { IfOk result (λ n. n ≤ 1) }
    {
        let Some(call) = CALLS.get(self.at) else {
            return Ok(0);
        };
        self.at += 1;
        match call {
            Ok(count) => Ok((*count).min(1)),
            Err(kind) => Err(io::Error::from(*kind)),
        }
    }
}

impl Read for Faulty {
    fn read(&mut self, buf: &mut [u8]) -> io::Result<usize> {
        Ok(self.next()?.min(buf.len()))
    }
}

impl Write for Faulty {
    fn write(&mut self, buf: &[u8]) -> io::Result<usize> {
        Ok(self.next()?.min(buf.len()))
    }

    fn flush(&mut self) -> io::Result<()> {
        Ok(())
    }
}

fn gives<S: Source>(source: &mut S, wanted: Reads) -> bool {
    let mut holds = true;
    for want in wanted {
        let mut place = [0; 4];
        holds &= match source.read(&mut place) {
            Ok(count) => *want == Some(&place[..count]),
            Err(Failed) => want.is_none(),
        };
    }
    holds
}

fn takes<K: Sink>(sink: &mut K, bytes: &[u8], wanted: Writes) -> bool {
    let mut holds = true;
    let mut rest = bytes;
    for want in wanted {
        match sink.write(rest) {
            Ok(count) => {
                holds &= *want == Some(count);
                rest = &rest[count..];
            }
            Err(Failed) => holds &= want.is_none(),
        }
    }
    holds
}

fn holds(keeper: &MemKeeper, wanted: &[(Key, u8)], number: u64) -> bool {
    let Ok(rows) = keeper.rows() else {
        return false;
    };
    let mut holds = rows.len() == wanted.len() && keeper.number() == number;
    for (row, want) in rows.as_slice().iter().zip(wanted) {
        holds &= row.0.order(&want.0).is_eq() && row.1.as_slice() == [want.1].as_slice();
    }
    holds
}

#[test]
fn adapters_call_again_where_they_are_interrupted(rt: HostRuntime) {
    let mut source = ReaderSource::new(Faulty { at: 0 });
    assert!(rt; gives(&mut source, READ));
    let mut sink = WriterSink::new(Faulty { at: 0 });
    assert!(rt; takes(&mut sink, b"0123", WRITTEN));
}

#[test]
fn lines_in_memory_fail_where_told(rt: HostRuntime) -> Result<(), Fail> {
    for (piece, wanted) in SOURCES {
        let given = Vec::from_slice(rt.alloc(), b"0123456789")?;
        let mut source = MemSource::new(given, piece, vec![in rt.alloc(); 2]?);
        assert!(rt; gives(&mut source, wanted), "in pieces of {piece}");
    }
    for (capacity, piece, wanted, held) in SINKS {
        let mut begun = Vec::with_capacity(rt.alloc(), capacity)?;
        begun.push(b'>')?;
        let mut sink = MemSink::new(begun, piece, vec![in rt.alloc(); 2]?);
        assert!(rt; takes(&mut sink, b"01234", wanted) && sink.bytes() == held);
    }
    Ok(())
}

#[test]
fn keepers_and_clocks_in_memory(rt: HostRuntime) -> Result<(), Fail> {
    for (held, left) in KEEPERS {
        let mut rows = Vec::new(rt.alloc());
        for (key, byte) in held {
            rows.push((*key, List::from_vec(vec![in rt.alloc(); *byte]?)))?;
        }
        let rows = List::from_vec(rows);
        let kept = Kept { rows, number: 5 };
        let mut keeper = MemKeeper::new(
            rt.alloc(),
            kept,
            vec![in rt.alloc(); 1]?,
            vec![in rt.alloc(); 1]?,
        );
        let changes = [
            (KEY_2, Some(List::from_vec(vec![in rt.alloc(); 20]?))),
            (KEY_3, None),
            (KEY_4, Some(List::from_vec(vec![in rt.alloc(); 41]?))),
        ];
        assert!(rt; matches!(keeper.apply(&changes, 6), Err(KeepFault::Failed)));
        assert!(rt; holds(&keeper, held, 5));
        assert!(rt; keeper.apply(&changes, 6).is_ok());
        assert!(rt; holds(&keeper, left, 6));
        assert!(rt; matches!(keeper.load(), Err(KeepFault::Failed)));
        assert!(rt; keeper.load().is_ok());
    }
    let mut clock = FixedClock::new(vec![in rt.alloc(); 5, 3, 250_000_000_000]?);
    for want in [5, 3, 250_000_000_000, 250_000_000_000] {
        assert!(rt; clock.now() == want);
    }
    Ok(())
}

/// Gives back over a link what comes over it, once, and then the link.
#[derive(Drop)]
struct Echo {
    link: TcpLink,
}

impl Job for Echo {
    ghost use Rattle.std.specs.Prelude.{true};

    type Out = TcpLink;

    ghost CONNECTION = { true };

    const CONNECTION: bool = true;

    fn run<R: Wait>(self, _rt: &R) -> TcpLink {
        let Echo { mut link } = self;
        let mut place = [0; 4];
        if let Ok(count) = link.read(&mut place) {
            // The other end sees what came.
            let _ = link.write(&place[..count]);
        }
        link
    }
}

/// Does nothing.
#[derive(Drop)]
struct Rest;

impl Job for Rest {
    ghost use Rattle.std.specs.Prelude.{false};

    type Out = ();

    ghost CONNECTION = { false };

    const CONNECTION: bool = false;

    fn run<R: Wait>(self, _rt: &R) {}
}

/// Whether calls give a link, say that there is none, or fail, as a listener of two links does whose second call is to fail.
const ACCEPTED: [Option<bool>; 5] = [Some(true), None, Some(true), Some(false), Some(false)];

fn open_once_reached(gate: &WaitGate) {
    for _ in 0..1_000_000 {
        if gate.reached() {
            break;
        }
        thread::yield_now();
    }
    gate.open();
}

#[test]
fn listeners_and_spawners_in_memory_fail_where_told(rt: HostRuntime) -> Result<(), Fail> {
    let mut links = Vec::new(rt.alloc());
    for _ in 0..2 {
        let given = Vec::from_slice(rt.alloc(), b"0123")?;
        let source = MemSource::new(given, 4, Vec::new(rt.alloc()));
        let sink = MemSink::new(Vec::with_capacity(rt.alloc(), 2)?, 4, Vec::new(rt.alloc()));
        links.push(MemLink { source, sink })?;
    }
    let mut listener = MemListener::new(links, vec![in rt.alloc(); 2]?);
    for want in ACCEPTED {
        let holds = match listener.accept() {
            Ok(Some(mut link)) => {
                want == Some(true)
                    && gives(&mut link, &[Some(b"0123"), Some(b"")])
                    && takes(&mut link, b"abc", &[Some(2), None])
            }
            Ok(None) => want == Some(false),
            Err(Failed) => want.is_none(),
        };
        assert!(rt; holds);
    }
    let mut spawner = MemSpawner::new(vec![in rt.alloc(); 2]?);
    for want in [true, false, true] {
        assert!(rt; start_job(&rt, &mut spawner, Rest).is_ok() == want);
    }
    assert!(rt; spawner.others() == 2 && spawner.connections() == 0);
    Ok(())
}

#[test]
fn a_thread_answers_over_tcp(rt: HostRuntime) -> Result<(), Fail> {
    let mut port = TcpPort::bind(&rt, "127.0.0.1:0")?;
    let stream = TcpStream::connect(&rt, port.address()?)?;
    let mut spawner = ThreadSpawner::new();
    let echo = Echo {
        link: TcpLink::new(stream),
    };
    assert!(rt; start_job(&rt, &mut spawner, echo).is_ok());
    let Ok(Some(mut link)) = port.accept() else {
        panic!(rt);
    };
    assert!(rt; takes(&mut link, b"sent", &[Some(4)]));
    assert!(rt; gives(&mut link, &[Some(b"sent"), Some(b"")]));
    let mut clock = SystemClock::new(rt);
    assert!(rt; clock.now() > 1_700_000_000);
    Ok(())
}

#[test]
fn a_gate_holds_until_it_is_opened(rt: HostRuntime) {
    let gate = WaitGate::closed();
    thread::join(&rt, || gate.hold(), || open_once_reached(&gate));
    assert!(rt; gate.opened());
}
