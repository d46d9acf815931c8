//! Why a fabric is not brought up.

use std::alloc::AllocError;
use sweep::SweepFault;
use table_push::PushFault;
use thiserror::Error;
use updn_routes::RouteFault;

/// Why a fabric is not brought up.
#[derive(Clone, Copy, Debug, PartialEq, Eq, Error)]
pub enum FabricFault {
    /// Out of memory.
    #[error("out of memory")]
    NoMemory,
    /// The sweep did not find the fabric.
    #[error("the sweep did not find the fabric")]
    Sweep(SweepFault),
    /// From a switch that carries adapters' ports no up/down path leads to one of these. Of all such pairs this is the first,
    /// by the switch's LID and then by the port's.
    #[error("no legal path leads from a switch to a port")]
    NoLegalPath {
        /// The switch's LID.
        switch: u16,
        /// The LID of the adapter's port.
        port: u16,
    },
    /// A push stopped.
    #[error("an agent was not set up")]
    Push(PushFault),
}

impl From<AllocError> for FabricFault {
    ghost use Rattle.std.specs.Prelude.{◌≡◌};
    ghost use Rattle.subnet_fabric.specs.declared.fault.FabricFault.TheVariants.{NoMemory};

    ghost from_gives = { λ _ e. e ≡ NoMemory };

    fn from(_error: AllocError) -> FabricFault {
        FabricFault::NoMemory
    }
}

impl From<SweepFault> for FabricFault {
    ghost use Rattle.std.specs.Prelude.{◌≡◌};
    ghost use Rattle.subnet_fabric.specs.Fault.{of_sweep};

    ghost from_gives = { λ fault e. e ≡ of_sweep fault };

    fn from(fault: SweepFault) -> FabricFault {
        match fault {
            SweepFault::NoMemory => FabricFault::NoMemory,
            other => FabricFault::Sweep(other),
        }
    }
}

impl From<RouteFault> for FabricFault {
    ghost use Rattle.std.specs.Prelude.{◌≡◌};
    ghost use Rattle.subnet_fabric.specs.Fault.{of_routes};

    ghost from_gives = { λ fault e. e ≡ of_routes fault };

    fn from(fault: RouteFault) -> FabricFault {
        match fault {
            RouteFault::NoMemory => FabricFault::NoMemory,
            RouteFault::NoLegalPath { switch, port } => FabricFault::NoLegalPath { switch, port },
        }
    }
}
