//! Why a text is refused.

ghost use Rattle.std.specs.Prelude.{◌≡◌};
ghost use Rattle.mft_file.specs.Fault.{code_of};

use step_results::{LineError, TextFault};
use thiserror::Error;

/// What is wrong with a line.
#[derive(Clone, Copy, Debug, PartialEq, Eq, Error)]
pub enum MftCause {
    /// The line is none that `dump_fts -M` prints, or it stands where it cannot, as a row outside a table.
    #[error("the line is malformed, or stands where it cannot")]
    Malformed,
    /// The switch has a table already.
    #[error("the switch has a table already")]
    DuplicateTable,
    /// The MLID is not above that of the row before, it is no MLID, or it is above the range of the table.
    #[error("the MLID does not rise, or is not in the range of its table")]
    WrongMlid,
    /// The last line of a table counts other rows than there are.
    #[error("the table has another number of rows")]
    WrongCount,
    /// The text ends within a table, or has none. It is reported for line 0.
    #[error("the text ends within a table, or has none")]
    Unfinished,
}

impl MftCause {
    /// The code, as it is printed.
    pub fn code(self) -> &'static str
        ensures { result.now ≡ code_of self }
    {
        match self {
            MftCause::Malformed => "FM1",
            MftCause::DuplicateTable => "FM2",
            MftCause::WrongMlid => "FM3",
            MftCause::WrongCount => "FM4",
            MftCause::Unfinished => "FM5",
        }
    }
}

/// Why a text was not read.
pub type MftFault = TextFault<MftCause>;

impl From<MftCause> for LineError<MftCause> {
    ghost use Rattle.step_results.specs.declared.line_error.LineError.TheVariants.{Fault};

    ghost from_gives = { λ cause e. e ≡ Fault cause };

    fn from(cause: MftCause) -> LineError<MftCause> {
        LineError::Fault(cause)
    }
}
