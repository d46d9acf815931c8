//! Why a partition file is refused.

ghost use Rattle.std.specs.Prelude.{◌≡◌};
ghost use Rattle.partition_file.specs.Fault.{code_of};

use step_results::TextFault;
use thiserror::Error;

/// What is wrong at a place of the text.
#[derive(Clone, Copy, Debug, PartialEq, Eq, Error)]
pub enum PartitionCause {
    /// A byte that is neither printable ASCII nor white space, a second `=` in a piece, a `:` in a
    /// list, or a name that begins with a digit.
    #[error("a character may not stand here")]
    BadCharacter,
    /// A number that is malformed or too great, or a list word that names no ports.
    #[error("the word is no number of its kind, nor a word of a list")]
    BadNumber,
    /// Base 0, which names no partition, or the name `Default` without a PKey.
    #[error("base 0 and the name Default are reserved")]
    ReservedKey,
    /// There is no such flag.
    #[error("there is no such flag")]
    UnknownFlag,
    /// The membership `both`.
    #[error("no port is both a full and a limited member")]
    BothMembership,
    /// The list word `mgid`.
    #[error("a list has no multicast groups")]
    MgidItem,
    /// The list that begins here makes one partition too many.
    #[error("the definition makes one partition too many")]
    TooManyPartitions,
    /// The definition has no list, or the text ends inside it.
    #[error("the definition is unfinished")]
    Unfinished,
    /// The flag is given twice or without its value, takes no value, or not this one.
    #[error("the flag does not take this value, or is given twice")]
    BadFlagValue,
}

impl PartitionCause {
    /// The code that is printed for the fault.
    pub fn code(self) -> &'static str
        ensures { result.now ≡ code_of self }
    {
        match self {
            PartitionCause::BadCharacter => "PF1",
            PartitionCause::BadNumber => "PF2",
            PartitionCause::ReservedKey => "PF3",
            PartitionCause::UnknownFlag => "PF4",
            PartitionCause::BothMembership => "PF5",
            PartitionCause::MgidItem => "PF6",
            PartitionCause::TooManyPartitions => "PF7",
            PartitionCause::Unfinished => "PF8",
            PartitionCause::BadFlagValue => "PF9",
        }
    }
}

/// Why a partition file was not read.
pub type PartFault = TextFault<PartitionCause>;
