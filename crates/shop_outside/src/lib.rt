//! The objects that are handed to the program: where bytes come from and go, where connections come
//! from, what keeps the rows, the clock, what starts jobs, and gates. Each is a trait, with such
//! objects in memory and adapters over real readers and writers, TCP, threads and the system's clock.
//!
//! Each call that can fail has a count of faults in its contract. The count never falls, and a call
//! answers `Failed` only where the count rose, or stands at its last value, 2^64 - 1.
//!
//! # What is promised
//!
//! - `Source`, `Sink`, `Link`, `Listener`, `Keeper`, `Clock` and `Spawner` are met by the objects in
//!   memory and by the adapters: `Failed` only where the count rose (`cause`), and a failed call
//!   gives and takes nothing.
//! - `Keeper::apply` changes just its keys and the number, all or nothing (`Applied`). A clock
//!   gives the moments that it tells (`Ticks`).
//! - A listener counts the connections that it gave and how often it said that it is closed, and a
//!   spawner the jobs that it took, those that serve a connection apart. These counts rise with just
//!   such an answer (`given`, `closed`, `connections`, `others`).
//! - The objects in memory fail exactly where they are told to.
//!
//! That a job which was taken is run, and that a gate is opened, is promised nowhere.
#![tactic(auto)]

mod adapters;
mod bodies;
mod calls;
mod clock;
mod failed;
mod gate;
mod holding;
mod keeper;
mod line;
mod link;
mod listener;
mod mem_keeper;
mod mem_line;
mod mem_link;
mod mem_listener;
mod mem_spawner;
mod spawner;
mod system_clock;
mod tcp;
#[cfg(test)]
mod tests;
mod thread_spawner;

pub use adapters::{ReaderSource, WriterSink};
pub use clock::{Clock, FixedClock, Moment, StillClock, is_moment};
pub use failed::Failed;
pub use gate::{Gate, OpenGate, WaitGate};
pub use keeper::{KeepFault, Keeper, Kept, keys_ascend};
pub use line::{Sink, Source};
pub use link::{Link, Pair};
pub use listener::Listener;
pub use mem_keeper::MemKeeper;
pub use mem_line::{MemSink, MemSource};
pub use mem_link::MemLink;
pub use mem_listener::MemListener;
pub use mem_spawner::MemSpawner;
pub use spawner::{Job, Spawner, start_job};
pub use system_clock::SystemClock;
pub use tcp::{TcpLink, TcpPort};
pub use thread_spawner::ThreadSpawner;
