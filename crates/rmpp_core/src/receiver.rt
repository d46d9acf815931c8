//! The side that gets the bytes.

ghost use Rattle.std.specs.Prelude.{◌≡◌, Ok, option_map};
ghost use Rattle.rmpp_core.specs.Receiving.{nothing, after_data, Takes, whole_bytes};
ghost use Rattle.rmpp_core.specs.declared.receiver.ReceiveFault.TheVariants.{NoMemory};

use crate::reassembly::Reassembly;
use mad_layout::Mad;
use std::alloc::{AllocError, AllocFailed, Global};
use std::marker::Model;
use thiserror::Error;

/// Why a receiver takes no more segments.
#[derive(Clone, Copy, Debug, PartialEq, Eq, Error)]
pub enum ReceiveFault {
    /// Out of memory.
    #[error("out of memory")]
    NoMemory,
    /// What came is no segment, or not the one that was next.
    #[error("not the segment that was next")]
    UnexpectedSegment,
    /// The lengths that the first and the last segment report contradict what came.
    #[error("a length that contradicts the segments")]
    WrongLength,
}

impl<T: Drop> From<AllocFailed<T>> for ReceiveFault {
    ghost from_gives = { λ _ fault. fault ≡ NoMemory };

    fn from(_error: AllocFailed<T>) -> ReceiveFault {
        ReceiveFault::NoMemory
    }
}

impl From<AllocError> for ReceiveFault {
    ghost from_gives = { λ _ fault. fault ≡ NoMemory };

    fn from(_error: AllocError) -> ReceiveFault {
        ReceiveFault::NoMemory
    }
}

/// A table of records that is received in segments, each in its turn.
///
/// Its value is what has come so far, or the fault for which it takes no more.
#[derive(Debug, Drop)]
pub struct Receiver {
    so_far: Reassembly,
    fault: Option<ReceiveFault>,
}

impl Model for Receiver {
    ghost use Rattle.std.specs.Prelude.{Result};
    ghost use Rattle.rmpp_core.specs.declared.receiver.ReceiveFault.{ReceiveFault};
    ghost use Rattle.rmpp_core.specs.Receiving.{ReassemblyState, unless};

    ghost Value = { Result ReassemblyState ReceiveFault };

    ghost view = { λ receiver. unless receiver.fault receiver.so_far };
}

impl Receiver {
    /// A receiver to which nothing has come. It takes no memory yet.
    pub fn new(alloc: Global) -> Receiver
        ensures { result ≡ Ok nothing }
    {
        Receiver {
            so_far: Reassembly::new(alloc),
            fault: None,
        }
    }

    /// Takes the next segment. The first fault stays: every later call is refused for it.
    pub fn on_data(&mut self, mad: &Mad) -> Result<(), ReceiveFault>
        ensures { Takes (after_data self.old mad.now) result self.new }
    {
        if let Some(fault) = self.fault {
            return Err(fault);
        }
        let taken = self.so_far.take_segment(mad);
        if let Err(fault) = taken {
            self.fault = Some(fault);
        }
        taken
    }

    /// The bytes of the table, once its last segment has come and if nothing was refused.
    pub fn bytes(&self) -> Option<&[u8]>
        ensures { option_map (λ bytes. bytes.now) result ≡ whole_bytes self.now }
    {
        match self.fault {
            Some(_) => None,
            None => self.so_far.whole(),
        }
    }
}
