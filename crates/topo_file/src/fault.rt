//! Why a topology text is refused.

ghost use Rattle.std.specs.Prelude.{◌≡◌};
ghost use Rattle.topo_file.specs.Fault.{code_of};

use step_results::{LineError, TextFault};
use thiserror::Error;

/// What is wrong with a line, or with the text as a whole.
#[derive(Clone, Copy, Debug, PartialEq, Eq, Error)]
pub enum TopologyCause {
    /// The line has a bad character, an unknown first word, too few or too many words, or a word
    /// that is malformed or out of its range.
    #[error("the line is malformed")]
    Malformed,
    /// A node of this name is declared already, or is a root already.
    #[error("a node of this name is declared already, or is a root already")]
    DuplicateName,
    /// A GUID of the node is used already, or would be past 64 bits.
    #[error("a GUID of the node is used already, or does not fit in 64 bits")]
    DuplicateGuid,
    /// No earlier line declares a node of this name.
    #[error("no earlier line declares a node of this name")]
    UnknownNode,
    /// The node has no port of this number.
    #[error("the node has no port of this number")]
    NoSuchPort,
    /// The port has a cable already.
    #[error("the port has a cable already")]
    PortTaken,
    /// The cable joins neither two different switches nor a switch and an adapter.
    #[error("a cable joins two different switches, or a switch and an adapter")]
    WrongCableEnds,
    /// No line places the subnet manager, a second one does, or one places it on a switch.
    #[error("one line places the subnet manager, on a port of an adapter")]
    WrongManager,
    /// Cables do not join all switches.
    #[error("cables do not join all switches")]
    Disconnected,
    /// The node is one switch or one adapter port too many.
    #[error("the node is past the limit on switches or adapter ports")]
    OverLimit,
    /// The SM port has no cable.
    #[error("the subnet manager's port has no cable")]
    ManagerUncabled,
    /// The root is no switch.
    #[error("the root is no switch")]
    RootNotSwitch,
}

impl TopologyCause {
    /// The code that is printed for the fault.
    pub fn code(self) -> &'static str
        ensures { result.now ≡ code_of self }
    {
        match self {
            TopologyCause::Malformed => "TF1",
            TopologyCause::DuplicateName => "TF2",
            TopologyCause::DuplicateGuid => "TF3",
            TopologyCause::UnknownNode => "TF4",
            TopologyCause::NoSuchPort => "TF5",
            TopologyCause::PortTaken => "TF6",
            TopologyCause::WrongCableEnds => "TF7",
            TopologyCause::WrongManager => "TF8",
            TopologyCause::Disconnected => "TF9",
            TopologyCause::OverLimit => "TF10",
            TopologyCause::ManagerUncabled => "TF11",
            TopologyCause::RootNotSwitch => "TF12",
        }
    }
}

/// Why a topology text was not read.
pub type TopoFault = TextFault<TopologyCause>;

impl From<TopologyCause> for LineError<TopologyCause> {
    ghost use Rattle.step_results.specs.declared.line_error.LineError.TheVariants.{Fault};

    ghost from_gives = { λ cause e. e ≡ Fault cause };

    fn from(cause: TopologyCause) -> LineError<TopologyCause> {
        LineError::Fault(cause)
    }
}
