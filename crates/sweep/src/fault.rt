//! Why a sweep stops.

ghost use Rattle.std.specs.Prelude.{◌≡◌, option_map};
ghost use Rattle.sweep.specs.Fault.{code_of, fault_of};

use smp_wire::ReplyFault;
use std::alloc::{AllocError, AllocFailed};
use thiserror::Error;

/// Why a fabric was not found.
#[derive(Clone, Copy, Debug, PartialEq, Eq, Error)]
pub enum SweepFault {
    /// Out of memory.
    #[error("out of memory")]
    NoMemory,
    /// Nothing came back along a path.
    #[error("no reply came back")]
    NoReply,
    /// A reply is of another request, has a status other than 0, shows what no node of a fabric can be, or
    /// contradicts an earlier one.
    #[error("a reply is refused, of another request, or contradicts an earlier one")]
    WrongReply,
    /// A cable is further away than a directed route can go.
    #[error("a cable is more than 63 hops away")]
    TooManyHops,
    /// There are more switches, or more ports of channel adapters with a cable, than a graph holds.
    #[error("there are more than 64 switches, or more than 256 adapter ports")]
    TooManyNodes,
}

impl SweepFault {
    /// The code that is printed for the fault; out of memory has none.
    pub fn code(self) -> Option<&'static str>
        ensures { option_map (λ code. code.now) result ≡ code_of self }
    {
        match self {
            SweepFault::NoMemory => None,
            SweepFault::NoReply => Some("SW1"),
            SweepFault::WrongReply => Some("SW2"),
            SweepFault::TooManyHops => Some("SW3"),
            SweepFault::TooManyNodes => Some("SW4"),
        }
    }
}

/// What a sweep stops with if a request reported nothing: a refusal too is a wrong reply.
pub(crate) fn fault_of(fault: ReplyFault) -> SweepFault
    ensures { result ≡ fault_of fault }
{
    match fault {
        ReplyFault::NoReply => SweepFault::NoReply,
        ReplyFault::Refused | ReplyFault::WrongReply => SweepFault::WrongReply,
    }
}

impl From<AllocError> for SweepFault {
    ghost use Rattle.std.specs.Prelude.{◌≡◌};
    ghost use Rattle.sweep.specs.declared.fault.SweepFault.TheVariants as sweep;

    ghost from_gives = { λ _ e. e ≡ sweep.NoMemory };

    fn from(_error: AllocError) -> SweepFault {
        SweepFault::NoMemory
    }
}

impl<T: Drop> From<AllocFailed<T>> for SweepFault {
    ghost use Rattle.std.specs.Prelude.{◌≡◌};
    ghost use Rattle.sweep.specs.declared.fault.SweepFault.TheVariants as sweep;

    ghost from_gives = { λ _ e. e ≡ sweep.NoMemory };

    fn from(_error: AllocFailed<T>) -> SweepFault {
        SweepFault::NoMemory
    }
}
