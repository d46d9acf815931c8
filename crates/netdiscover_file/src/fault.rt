//! Why a text is refused.

ghost use Rattle.std.specs.Prelude.{◌≡◌};
ghost use Rattle.netdiscover_file.specs.Fault.{code_of};

use step_results::{LineError, TextFault};
use thiserror::Error;

/// What is wrong with a line.
#[derive(Clone, Copy, Debug, PartialEq, Eq, Error)]
pub enum DiscoveryCause {
    /// The line is none that `ibnetdiscover` prints.
    #[error("the line is malformed")]
    Malformed,
    /// The line is of a port before any node, of a port that the node does not have, or of one that
    /// has a line already.
    #[error("the port is of no node, not one of its node's, or has a line already")]
    NoSuchPort,
    /// A GUID of a node or of a port is reported already, or is not the one that its line before reports.
    #[error("a node or port of this GUID is told already, or the GUIDs of the switch differ from those told before")]
    DuplicateGuid,
    /// The cable does not stand so at its other end.
    #[error("the cable does not stand so at its other end")]
    WrongFarEnd,
}

impl DiscoveryCause {
    /// The code that is printed for the fault.
    pub fn code(self) -> &'static str
        ensures { result.now ≡ code_of self }
    {
        match self {
            DiscoveryCause::Malformed => "ND1",
            DiscoveryCause::NoSuchPort => "ND2",
            DiscoveryCause::DuplicateGuid => "ND3",
            DiscoveryCause::WrongFarEnd => "ND4",
        }
    }
}

/// Why a text was not read.
pub type DiscoveryFault = TextFault<DiscoveryCause>;

impl From<DiscoveryCause> for LineError<DiscoveryCause> {
    ghost use Rattle.step_results.specs.declared.line_error.LineError.TheVariants.{Fault};

    ghost from_gives = { λ cause e. e ≡ Fault cause };

    fn from(cause: DiscoveryCause) -> LineError<DiscoveryCause> {
        LineError::Fault(cause)
    }
}
