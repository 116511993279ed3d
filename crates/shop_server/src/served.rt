//! The requests that are served, cut off a stream.
ghost use Rattle.std.specs.Prelude.{◌≡◌};
ghost use Rattle.shop_http.specs.Laws.{longest};
ghost use Rattle.shop_server.specs.Lawful.{the_cut};
ghost use Rattle.shop_server.specs.Cutting.{IsServedNext, cut};
ghost use Rattle.shop_server.specs.Run.{fatal_text};

use crate::framing::Framing;
use crate::refusal::Refusal;
use shop_http::{Head, Next, next_request};
use shop_routes::{Looked, Routes};

/// The requests that are served: all but those whose answer isn't there yet.
#[derive(Clone, Copy)]
pub struct ServedRequests<'r> {
    pub routes: &'r Routes,
}

impl<'r> ServedRequests<'r> {
    /// A request with what was looked up of it, or a refusal where its answer isn't there yet.
    fn served<'b>(
        &self,
        head: Head<'b>,
        body: &'b [u8],
        used: usize,
    ) -> Next<'b, Refusal, Looked<'b>>
        ensures { IsServedNext head.entry body.entry.now used result }
    {
        let found = self.routes.look(&head);
        if found.asks_later() {
            Next::Fatal(Refusal::NotBuilt)
        } else {
            Next::Whole {
                head,
                body,
                used,
                found,
            }
        }
    }
}

impl<'r> Framing for ServedRequests<'r> {
    type Fault = Refusal;

    ghost cut = { cut };

    ghost longest = { longest };

    ghost fatal = { fatal_text };

    fn next<'b>(&self, bytes: &'b [u8], ended: bool) -> Next<'b, Refusal, Looked<'b>> {
        match next_request(bytes, ended) {
            Next::Whole {
                head,
                body,
                used,
                ..
            } => self.served(head, body, used),
            Next::More { least } => Next::More { least },
            Next::Nothing => Next::Nothing,
            Next::Cut => Next::Cut,
            Next::Fatal(fault) => Next::Fatal(Refusal::of_head(fault)),
        }
    }

    fn refusal(&self, fault: Refusal) -> &'static [u8] {
        fault.response()
    }

    ghost is_cut = { the_cut };
}
