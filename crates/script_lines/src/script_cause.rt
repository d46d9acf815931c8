//! What is wrong with a line of a script.

ghost use Rattle.std.specs.Prelude.{◌≡◌};
ghost use Rattle.script_lines.specs.ScriptCause.{code_of};

use thiserror::Error;

/// What is wrong with a line of a script, in the order in which it is asked.
#[derive(Clone, Copy, Debug, PartialEq, Eq, Error)]
pub enum ScriptCause {
    /// The line has a bad character, an unknown command, method or attribute, or too few or too many words.
    #[error("the line is malformed")]
    Malformed,
    /// There is no such port of a channel adapter, or the word is no port.
    #[error("there is no such adapter port")]
    UnknownPort,
    /// The port is the subnet manager's, which sends nothing of its own.
    #[error("the port is the subnet manager's")]
    ManagerPort,
    /// The port has no cable.
    #[error("the port has no cable")]
    UncabledPort,
    /// The payload is to be longer than a packet carries.
    #[error("the payload is longer than a packet carries")]
    PayloadTooLong,
    /// A field is malformed or out of its range.
    #[error("a field is misspelt or out of its range")]
    BadField,
    /// The two words are not the ends of one cable between two switches.
    #[error("there is no such cable between two switches")]
    UnknownCable,
}

impl ScriptCause {
    /// The code that is printed for the fault.
    pub fn code(self) -> &'static str
        ensures { result.now ≡ code_of self }
    {
        match self {
            ScriptCause::Malformed => "SF1",
            ScriptCause::UnknownPort => "SF2",
            ScriptCause::ManagerPort => "SF3",
            ScriptCause::UncabledPort => "SF4",
            ScriptCause::PayloadTooLong => "SF5",
            ScriptCause::BadField => "SF6",
            ScriptCause::UnknownCable => "SF7",
        }
    }
}
