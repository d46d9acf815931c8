//! Why there are no routes.

use std::alloc::{AllocError, AllocFailed};
use thiserror::Error;

/// Why there are no routes.
#[derive(Clone, Copy, Debug, PartialEq, Eq, Error)]
pub enum RouteFault {
    /// Out of memory.
    #[error("out of memory")]
    NoMemory,
    /// From a switch that carries adapters' ports no up/down path leads to one of these. Of all such pairs this is
    /// the first, by the switch's LID and then by the port's.
    #[error("no legal path leads from a switch to a port")]
    NoLegalPath {
        /// The switch's LID.
        switch: u16,
        /// The LID of the adapter's port.
        port: u16,
    },
}

impl From<AllocError> for RouteFault {
    ghost use Rattle.std.specs.Prelude.{◌≡◌};
    ghost use Rattle.updn_routes.specs.declared.fault.RouteFault.TheVariants.{NoMemory};

    ghost from_gives = { λ _ e. e ≡ NoMemory };

    fn from(_error: AllocError) -> RouteFault {
        RouteFault::NoMemory
    }
}
