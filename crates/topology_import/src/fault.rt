//! Why no topology is made of a discovery.

ghost use Rattle.std.specs.Prelude.{◌≡◌};
ghost use Rattle.topology_import.specs.Fault.{code_of};

use step_results::TextFault;
use thiserror::Error;
use topo_file::TopologyCause;

/// What is wrong with a line, or with the discovery as a whole.
#[derive(Clone, Copy, Debug, PartialEq, Eq, Error)]
pub enum ImportCause {
    /// The adapter of a port would have a GUID that is a switch's, or 0.
    #[error("the port of GUID 0x{port:016x} would be of an adapter of GUID 0x{guid:016x}, which is a switch's or none")]
    GuidTaken {
        /// The GUID of the adapter's first port.
        port: u64,
        /// The GUID that the adapter would have.
        guid: u64,
    },
    /// No channel adapter has a port with a cable of the GUID that is the subnet manager's.
    #[error("no channel adapter has a cabled port of the subnet manager's GUID")]
    UnknownManager,
    /// The topology is none that is read.
    #[error("{0}")]
    Refused(TopologyCause),
    /// The topology that is read is not the one that was meant.
    #[error("the topology that is read differs from the one that was meant")]
    Unlike,
}

impl ImportCause {
    /// The code that is printed for the fault.
    pub fn code(self) -> &'static str
        ensures { result.now ≡ code_of self }
    {
        match self {
            ImportCause::GuidTaken { .. } => "ND5",
            ImportCause::UnknownManager => "ND6",
            ImportCause::Unlike => "ND7",
            ImportCause::Refused(cause) => cause.code(),
        }
    }
}

/// Why no text was given: the line is one of what `ibnetdiscover` printed.
pub type ImportFault = TextFault<ImportCause>;
