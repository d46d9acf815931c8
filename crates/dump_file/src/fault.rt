//! Why a text is refused.

ghost use Rattle.std.specs.Prelude.{◌≡◌};
ghost use Rattle.dump_file.specs.Fault.{code_of};

use step_results::{LineError, TextFault};
use thiserror::Error;

/// What is wrong with a line.
#[derive(Clone, Copy, Debug, PartialEq, Eq, Error)]
pub enum DumpCause {
    /// The line is none that `dump_fts` prints, or it stands where it cannot, as a row outside a table.
    #[error("the line is malformed, or stands where it cannot")]
    Malformed,
    /// The row ends behind its port, as `dump_fts -n` prints it: which end port has the LID is not reported.
    #[error("the row does not tell whose its LID is")]
    EndNotReported,
    /// The switch has a table already.
    #[error("the switch has a table already")]
    DuplicateTable,
    /// The LID is not above that of the row before, or it is above the table's top.
    #[error("the LID does not rise, or is above the top of its table")]
    WrongLid,
    /// The last line of a table counts other rows than there are.
    #[error("the table has another number of rows")]
    WrongCount,
    /// The text ends within a table, or has none. It is reported for line 0.
    #[error("the text ends within a table, or has none")]
    Unfinished,
    /// The LID is said to be another end port's by a row before.
    #[error("the LID is another end port's by a row before")]
    TwoEndPorts,
}

impl DumpCause {
    /// The code, as it is printed.
    pub fn code(self) -> &'static str
        ensures { result.now ≡ code_of self }
    {
        match self {
            DumpCause::Malformed => "FT1",
            DumpCause::EndNotReported => "FT2",
            DumpCause::DuplicateTable => "FT3",
            DumpCause::WrongLid => "FT4",
            DumpCause::WrongCount => "FT5",
            DumpCause::Unfinished => "FT6",
            DumpCause::TwoEndPorts => "FT7",
        }
    }
}

/// Why a text was not read.
pub type DumpFault = TextFault<DumpCause>;

impl From<DumpCause> for LineError<DumpCause> {
    ghost use Rattle.step_results.specs.declared.line_error.LineError.TheVariants.{Fault};

    ghost from_gives = { λ cause e. e ≡ Fault cause };

    fn from(cause: DumpCause) -> LineError<DumpCause> {
        LineError::Fault(cause)
    }
}
