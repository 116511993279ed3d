//! A listener in memory.
ghost use Rattle.std.specs.Prelude.{◌≡◌, ◌↔◌, drop, slice_get, IfOk, OnErr, IsErr};
ghost use Rattle.shop_outside.specs.Causes.{HasCause};
ghost use Rattle.shop_outside.specs.Counting.{given_after, closed_after};

use crate::calls::Calls;
use crate::failed::Failed;
use crate::link::Link;
use crate::listener::Listener;
use std::collections::VecDeque;
use std::marker::Send;

/// Gives links of a list in order, and then says that it is closed. The calls in another list fail,
/// counted from 1.
#[derive(Drop)]
pub struct MemListener<L: Link + Send + Drop + 'static> {
    links: VecDeque<L>,
    calls: Calls,
    given: u64,
    closed: u64,
}

impl<L: Link + Send + Drop + 'static> MemListener<L> {
    ghost use Rattle.shop_outside.specs.Failing.{Begins};
    ghost use Rattle.shop_outside.specs.MemJobs.{links_left, accepts_of};

    /// A listener that gives these links.
    pub fn new(links: Vec<L>, failing: Vec<u64>) -> MemListener<L>
        ensures links { links_left result ≡ links.items }
        ensures faults { ⟦<MemListener<L> as Listener>⟧.accept_faults result ≡ 0 }
        ensures given { ⟦<MemListener<L> as Listener>⟧.given result ≡ 0 }
        ensures closed { ⟦<MemListener<L> as Listener>⟧.closed result ≡ 0 }
        ensures calls { Begins failing.items (accepts_of result) }
    {
        MemListener {
            links: VecDeque::from_vec(links),
            calls: Calls::new(failing),
            given: 0,
            closed: 0,
        }
    }
}

impl<L: Link + Send + Drop + 'static> Listener for MemListener<L> {
    type Conn = L;

    ghost use Rattle.shop_outside.specs.Failing.{FailsNext, IsCounted};
    ghost use Rattle.shop_outside.specs.MemJobs.{links_left, accepts_of};

    ghost accept_faults = { λ l. l.calls.faults };

    ghost given = { λ l. l.given };

    ghost closed = { λ l. l.closed };

    /// It fails where the call is listed, and gives no link then.
    fn accept(&mut self) -> Result<Option<L>, Failed>
        ensures cause { HasCause (accepts_of self.old).faults (accepts_of self.new).faults result }
        ensures given { self.new.given ≡ given_after self.old.given result }
        ensures closed { self.new.closed ≡ closed_after self.old.closed result }

        ensures fails { IsErr result ↔ FailsNext (accepts_of self.old) }
        ensures first { IfOk result (λ link. link ≡ slice_get (links_left self.old) 0) }
        ensures rest { IfOk result (λ _. links_left self.new ≡ drop 1 (links_left self.old)) }
        ensures err { OnErr result (links_left self.new ≡ links_left self.old) }
        ensures calls { IsCounted (accepts_of self.old) (accepts_of self.new) }
    {
        self.calls.begin()?;
        match self.links.pop_front() {
            Some(link) => {
                self.given = self.given.saturating_add(1);
                Ok(Some(link))
            }
            None => {
                self.closed = self.closed.saturating_add(1);
                Ok(None)
            }
        }
    }
}
