//! The status with which the program ends.
ghost use Rattle.std.specs.Prelude.{◌≡◌};
ghost use Rattle.shop_server.specs.Run.{number_of, number_unopened};

use crate::session::Ended;
use shop_core::OpenFault;

/// The status with which a program ends.
#[derive(Clone, Copy)]
pub struct Status {
    /// The exit status: 0 where all is done, else the number of a cause.
    pub number: u8,
}

pub(crate) fn status_of(ended: Ended) -> Status
    ensures { result.number ≡ number_of ended }
{
    let number = match ended {
        Ended::Closed => 0,
        Ended::ReadFault => 3,
        Ended::WriteFault => 4,
        Ended::Truncated => 6,
        Ended::NoMemory => 9,
        Ended::Spent => 10,
        Ended::HeadRefused => 12,
    };
    Status { number }
}

pub(crate) fn status_unopened(fault: &OpenFault) -> Status
    ensures { result.number ≡ number_unopened fault.now }
{
    let number = match fault {
        OpenFault::StoreFault => 5,
        OpenFault::Damaged { key: _, rule: _ } => 7,
        OpenFault::NoMemory => 9,
    };
    Status { number }
}
