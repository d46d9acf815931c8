//! Why a text is refused.

ghost use Rattle.std.specs.Prelude.{◌≡◌};
ghost use Rattle.sl2vl_file.specs.Fault.{code_of};

use step_results::{LineError, TextFault};
use thiserror::Error;

/// What is wrong with a line.
#[derive(Clone, Copy, Debug, PartialEq, Eq, Error)]
pub enum LanesCause {
    /// The line is none that `smpquery sl2vl` or `saquery PR` prints, or it stands where it cannot, as a row outside a
    /// table.
    #[error("the line is malformed, or stands where it cannot")]
    Malformed,
    /// The LID has a row for these two ports already.
    #[error("the LID has a row for these two ports already")]
    DuplicateRow,
    /// The table was asked for by a directed route, so it does not say whose it is.
    #[error("the table is of a directed route and does not say the LID")]
    DirectedRoute,
    /// The path record has this field already.
    #[error("the path record has this field already")]
    DuplicateField,
    /// The path record ends without its SLID, its DLID or its SL. It is reported for the line of its heading.
    #[error("the path record lacks its slid, its dlid or its sl")]
    MissingField,
    /// The text has neither a row nor a path record. It is reported for line 0.
    #[error("the text has neither a row of a table nor a path record")]
    Empty,
}

impl LanesCause {
    /// The code, as it is printed.
    pub fn code(self) -> &'static str
        ensures { result.now ≡ code_of self }
    {
        match self {
            LanesCause::Malformed => "FV1",
            LanesCause::DuplicateRow => "FV2",
            LanesCause::DirectedRoute => "FV3",
            LanesCause::DuplicateField => "FV4",
            LanesCause::MissingField => "FV5",
            LanesCause::Empty => "FV6",
        }
    }
}

/// Why a text was not read.
pub type LanesFault = TextFault<LanesCause>;

impl From<LanesCause> for LineError<LanesCause> {
    ghost use Rattle.step_results.specs.declared.line_error.LineError.TheVariants.{Fault};

    ghost from_gives = { λ cause e. e ≡ Fault cause };

    fn from(cause: LanesCause) -> LineError<LanesCause> {
        LineError::Fault(cause)
    }
}
