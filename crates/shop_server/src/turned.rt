//! Why requests ask nothing of a shop.
ghost use Rattle.std.specs.Prelude.{◌≡◌, ◌⊎◌, None};
ghost use Rattle.shop_requests.specs.declared.line_fault.LineFault.TheVariants as lines;
ghost use Rattle.shop_server.specs.declared.turned.TurnedAway.TheVariants as turned;

use shop_defs::Txt;
use shop_http::Method2;
use shop_json::BodyFault;
use shop_requests::LineFault;
use std::alloc::Global;

/// Why a request asks nothing of a shop.
#[derive(Drop)]
pub(crate) enum TurnedAway {
    /// It is malformed, or asks for what isn't there.
    Line {
        /// What is wrong with it.
        fault: LineFault,
        /// The method that its path takes, where it has another.
        allow: Option<Method2>,
    },
    /// Memory was refused.
    NoMemory,
}

impl TurnedAway {
    /// It is malformed; its path and its method have a route.
    pub(crate) fn line(fault: LineFault) -> TurnedAway
        ensures { result ≡ turned.Line fault None }
    {
        TurnedAway::Line { fault, allow: None }
    }

    /// The part of its path of this name is malformed.
    pub(crate) fn bad_path(alloc: Global, part: &str) -> TurnedAway
        ensures { (result ≡ turned.Line (lines.BadPath part.now) None) ⊎ (result ≡ turned.NoMemory) }
    {
        match Txt::from_str(alloc, part) {
            Ok(part) => TurnedAway::line(LineFault::BadPath(part)),
            Err(_) => TurnedAway::NoMemory,
        }
    }

    /// The header of this name is malformed, or is there twice.
    pub(crate) fn bad_header(alloc: Global, name: &str) -> TurnedAway
        ensures { (result ≡ turned.Line (lines.BadHeader name.now) None) ⊎ (result ≡ turned.NoMemory) }
    {
        match Txt::from_str(alloc, name) {
            Ok(name) => TurnedAway::line(LineFault::BadHeader(name)),
            Err(_) => TurnedAway::NoMemory,
        }
    }
}

impl From<BodyFault> for TurnedAway {
    ghost use Rattle.std.specs.Prelude.{◌≡◌};
    ghost use Rattle.shop_server.specs.Answering.{turned_by_body};

    ghost from_gives = { λ fault turned. turned ≡ turned_by_body fault };

    fn from(fault: BodyFault) -> TurnedAway {
        match fault {
            BodyFault::BadJson => TurnedAway::line(LineFault::BadJson),
            BodyFault::BadShape { pointer } => TurnedAway::line(LineFault::BadShape(pointer)),
            BodyFault::NoMemory => TurnedAway::NoMemory,
        }
    }
}
