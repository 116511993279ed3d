//! Points at which work outside a lock can be held.

use std::sync::atomic::{AtomicBool, Ordering};
use std::thread;

/// A point that work passes before it begins.
pub trait Gate {
    /// Returns as soon as the work may begin.
    fn hold(&self);
}

/// A gate that holds nothing.
#[derive(Clone, Copy)]
pub struct OpenGate;

impl Gate for OpenGate {
    fn hold(&self) {}
}

/// How often a gate looks whether it was opened.
const MOST_TURNS: u32 = 10_000_000;

/// A gate that holds until another thread opens it, 10,000,000 turns at most. It is for tests: no
/// contract speaks of what another thread has done.
#[derive(Drop)]
pub struct WaitGate {
    is_open: AtomicBool,
    has_begun: AtomicBool,
    was_opened: AtomicBool,
}

impl WaitGate {
    /// A gate that is closed.
    pub fn closed() -> WaitGate {
        WaitGate {
            is_open: AtomicBool::new(false),
            has_begun: AtomicBool::new(false),
            was_opened: AtomicBool::new(false),
        }
    }

    /// Opens the gate for good.
    pub fn open(&self) {
        self.is_open.store(true, Ordering::SeqCst);
    }

    /// Whether a `hold` has begun.
    pub fn reached(&self) -> bool {
        self.has_begun.load(Ordering::SeqCst)
    }

    /// Whether a `hold` has ended because the gate was open, and not because its turns ran out.
    pub fn opened(&self) -> bool {
        self.was_opened.load(Ordering::SeqCst)
    }
}

impl Gate for WaitGate {
    fn hold(&self) {
        self.has_begun.store(true, Ordering::SeqCst);
        for _ in 0..MOST_TURNS {
            if self.is_open.load(Ordering::SeqCst) {
                self.was_opened.store(true, Ordering::SeqCst);
                return;
            }
            thread::yield_now();
        }
    }
}
