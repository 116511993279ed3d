//! Ways to cut requests off the front of a stream of bytes.
ghost use Rattle.std.specs.Prelude.{◌≡◌, ℕ, List};
ghost use Rattle.shop_http.specs.Requests.{Front, IsCut, IsNext};
ghost use Rattle.shop_server.specs.Cutting.{IsLookedUp};

use shop_http::Next;
use shop_routes::Looked;

/// A way to cut requests off the front of a stream of bytes.
pub trait Framing {
    /// Why the bytes that are left can be no request.
    type Fault: Copy;

    /// What stands at the front of these bytes.
    ghost cut: { List ℕ → Front Self.Fault };

    /// Each front that isn't settled is shorter, in bytes.
    ghost longest: { ℕ };

    /// The reply to a fault.
    ghost fatal: { Self.Fault → List ℕ };

    /// What stands at the front of the bytes, where `ended` says that no more come, and what was looked up of a whole request.
    fn next<'b>(&self, bytes: &'b [u8], ended: bool) -> Next<'b, Self::Fault, Looked<'b>>
        ensures next { IsNext cut bytes.now ended result }
        ensures looked_up { IsLookedUp result };

    /// The reply to a fault, after which the connection is closed.
    fn refusal(&self, fault: Self::Fault) -> &'static [u8]
        ensures { result.now ≡ fatal fault };

    ghost is_cut: { IsCut cut longest };
}
