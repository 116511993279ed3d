//! What isn't served.
ghost use Rattle.std.specs.Prelude.{◌≡◌};
ghost use Rattle.shop_server.specs.Cutting as spec;
ghost use Rattle.shop_server.specs.Run.{fatal_text};

use shop_http::{
    HeadFault, bad_head_response, body_too_large_response, chunked_response, not_built_response,
};

/// Why what stands at the front of a stream isn't served.
#[derive(Clone, Copy)]
pub enum Refusal {
    /// It is a request whose answer isn't there yet.
    NotBuilt,
    /// It is no head of a request.
    BadHead,
    /// Its body is sent in chunks.
    Chunked,
    /// Its body is longer than a body may be.
    TooLarge,
}

impl Refusal {
    /// Why a head is refused.
    pub(crate) fn of_head(fault: HeadFault) -> Refusal
        ensures { result ≡ spec.refusal_of fault }
    {
        match fault {
            HeadFault::BadHead => Refusal::BadHead,
            HeadFault::Chunked => Refusal::Chunked,
            HeadFault::TooLarge => Refusal::TooLarge,
        }
    }

    /// The reply, after which the connection is closed. It takes no memory.
    pub(crate) fn response(self) -> &'static [u8]
        ensures { result.now ≡ fatal_text self }
    {
        match self {
            Refusal::NotBuilt => not_built_response(),
            Refusal::BadHead => bad_head_response(),
            Refusal::Chunked => chunked_response(),
            Refusal::TooLarge => body_too_large_response(),
        }
    }
}
