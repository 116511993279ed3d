//! What answers requests.
ghost use Rattle.std.specs.Prelude.{◌≡◌, ◌++◌, ℕ, ℤ, List, OnOk, OnErr};
ghost use Rattle.shop_outside.specs.Clocks.{IsMoment};
ghost use Rattle.shop_http.specs.Requests.{Asked, Request, request_of};
ghost use Rattle.shop_http.specs.Responses.{no_memory_text};
ghost use Rattle.shop_routes.specs.Routing.{meant, routed};
ghost use Rattle.shop_server.specs.Session.{asked_of};

use shop_defs::NoMemory;
use shop_http::Head;
use shop_outside::Moment;
use shop_routes::Looked;
use std::alloc::Global;

/// What answers requests, one after the other.
pub trait Answerer {
    /// The requests that it answers.
    ghost serves: { Request → Type 0 };

    /// From a state, a request may at a moment be given these bytes, and leaves the second state.
    ghost gives: { Self → Asked → ℤ → List ℕ → Self → Type 0 };

    /// Puts the whole response to a request, of which this was looked up, behind what is in `out`. Its connection is closed after it
    /// where `last` says so. Want of memory leaves what is in `out`, and is answered by the fixed response in its place.
    fn answer(
        &mut self,
        alloc: Global,
        head: &Head<'_>,
        body: &[u8],
        looked: &Looked<'_>,
        moment: Moment,
        last: bool,
        out: &mut Vec<u8>,
    ) -> Result<(), NoMemory>
        requires served { serves (request_of head.now body.now) }
        requires looked { meant looked.now ≡ routed (request_of head.now body.now) }
        requires moment { IsMoment moment }
        ensures ok { OnOk result ((response : List ℕ) × gives self.old (asked_of head.now body.now last) moment response self.new
            × (out.new.items ≡ out.old.items ++ response)) }
        ensures err { OnErr result (gives self.old (asked_of head.now body.now last) moment (no_memory_text last) self.new
            × (out.new.items ≡ out.old.items)) };
}
