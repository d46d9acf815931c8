//! Why a run does not begin, and why a step does not complete.

use crate::administering::AnswerFault;
use partition_file::PartitionCause;
use script_lines::ScriptCause;
use std::alloc::{AllocError, AllocFailed};
use subnet_model::NodeName;
use sweep::SweepFault;
use table_push::PushFault;
use thiserror::Error;
use topo_file::TopologyCause;

/// Why a run did not complete. Of several faults the first in this order is answered.
#[derive(Debug, Drop, PartialEq, Eq, Error)]
pub enum RunFault {
    /// Out of memory.
    #[error("out of memory")]
    NoMemory,
    /// The first fault of the topology.
    #[error("topology line {line}: {cause}")]
    Topology {
        /// The line, counted from 1; 0 if the fault is of the text as a whole.
        line: usize,
        /// What is wrong.
        cause: TopologyCause,
    },
    /// The first fault of the partition file.
    #[error("partitions line {line}: {cause}")]
    Partitions {
        /// The line of the fault's place, counted from 1.
        line: usize,
        /// What is wrong there.
        cause: PartitionCause,
    },
    /// The sweep did not find the fabric. A simulated one it finds, unless a cable is too far away.
    #[error("{0}")]
    Sweep(SweepFault),
    /// From a switch that carries adapters' ports no up/down path leads to one of these. Of all such pairs this is the first,
    /// by the switch's LID and then by the port's.
    #[error("no legal path leads from a switch to a port")]
    NoLegalPath {
        /// The switch's name.
        switch: NodeName,
        /// The name of the adapter.
        node: NodeName,
        /// The number of its port.
        number: u8,
    },
    /// An agent did not take what was pushed to it. Those of a simulated fabric do.
    #[error("{0}")]
    Push(PushFault),
    /// What is wrong with the word for a port.
    #[error("port: {0}")]
    Port(ScriptCause),
    /// The first fault of the script.
    #[error("script line {line}: {cause}")]
    Script {
        /// The line, counted from 1.
        line: usize,
        /// What is wrong.
        cause: ScriptCause,
    },
    /// The first fault of the second script, if two are compared.
    #[error("second script line {line}: {cause}")]
    SecondScript {
        /// The line, counted from 1.
        line: usize,
        /// What is wrong.
        cause: ScriptCause,
    },
    /// The script is not read to its end: a read of it fails, or no end comes within the reads that it is given.
    #[error("the script is not read to its end")]
    Read,
    /// What is reported does not go out: a write takes nothing, is interrupted or fails, or the flush at the end fails.
    #[error("what is told does not go out")]
    Write,
}

impl From<AllocError> for RunFault {
    ghost use Rattle.std.specs.Prelude.{◌≡◌};
    ghost use Rattle.subnet_core.specs.declared.fault.RunFault.TheVariants as run;

    ghost from_gives = { λ _ e. e ≡ run.NoMemory };

    fn from(_error: AllocError) -> RunFault {
        RunFault::NoMemory
    }
}

impl<T: Drop> From<AllocFailed<T>> for RunFault {
    ghost use Rattle.std.specs.Prelude.{◌≡◌};
    ghost use Rattle.subnet_core.specs.declared.fault.RunFault.TheVariants as run;

    ghost from_gives = { λ _ e. e ≡ run.NoMemory };

    fn from(_error: AllocFailed<T>) -> RunFault {
        RunFault::NoMemory
    }
}

/// Why a step did not complete.
#[derive(Clone, Copy, Debug, PartialEq, Eq, Error)]
pub enum StepFault {
    /// Out of memory.
    #[error("out of memory")]
    NoMemory,
    /// An allocation failed in an earlier step.
    #[error("memory was refused in an earlier step")]
    Broken,
}

impl From<AnswerFault> for StepFault {
    ghost use Rattle.std.specs.Prelude.{◌≡◌};
    ghost use Rattle.subnet_core.specs.Fault.{step_fault_of};

    ghost from_gives = { λ fault e. e ≡ step_fault_of fault };

    /// A switch of a fabric that is served takes its masks.
    fn from(fault: AnswerFault) -> StepFault {
        match fault {
            AnswerFault::NoMemory => StepFault::NoMemory,
            AnswerFault::Push(_) => StepFault::Broken,
        }
    }
}

impl From<StepFault> for RunFault {
    ghost use Rattle.std.specs.Prelude.{◌≡◌};
    ghost use Rattle.subnet_core.specs.declared.fault.RunFault.TheVariants as run;

    ghost from_gives = { λ _ e. e ≡ run.NoMemory };

    /// Either way an allocation failed.
    fn from(_fault: StepFault) -> RunFault {
        RunFault::NoMemory
    }
}
