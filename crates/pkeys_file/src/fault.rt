//! Why a text is refused.

ghost use Rattle.std.specs.Prelude.{◌≡◌};
ghost use Rattle.pkeys_file.specs.Fault.{code_of};

use step_results::{LineError, TextFault};
use thiserror::Error;

/// What is wrong with a line.
#[derive(Clone, Copy, Debug, PartialEq, Eq, Error)]
pub enum KeysCause {
    /// The line is none that `smpquery` prints for the query, or it stands where it cannot, as before the first query.
    #[error("the line is malformed, or stands where it cannot")]
    Malformed,
    /// The same query stands before.
    #[error("the same query stands before")]
    DuplicateQuery,
    /// The title of the answer has another LID or port than the query.
    #[error("the answer is that of another LID or port")]
    OtherAnswer,
    /// A row does not begin with its place in the table, or the rows do not go to the capacity.
    #[error("the rows of the table do not fit together, or not its capacity")]
    WrongPlace,
    /// The text has no query. It is reported for line 0.
    #[error("the text has no query")]
    NoQuery,
}

impl KeysCause {
    /// The code, as it is printed.
    pub fn code(self) -> &'static str
        ensures { result.now ≡ code_of self }
    {
        match self {
            KeysCause::Malformed => "KT1",
            KeysCause::DuplicateQuery => "KT2",
            KeysCause::OtherAnswer => "KT3",
            KeysCause::WrongPlace => "KT4",
            KeysCause::NoQuery => "KT5",
        }
    }
}

/// Why a text was not read.
pub type KeysFault = TextFault<KeysCause>;

impl From<KeysCause> for LineError<KeysCause> {
    ghost use Rattle.step_results.specs.declared.line_error.LineError.TheVariants.{Fault};

    ghost from_gives = { λ cause e. e ≡ Fault cause };

    fn from(cause: KeysCause) -> LineError<KeysCause> {
        LineError::Fault(cause)
    }
}
