//! Why a reader of a numbered text stops.

ghost use Rattle.std.specs.Prelude.{◌≡◌};
ghost use Rattle.step_results.specs.declared.text_fault.TextFault.TheVariants as text;
ghost use Rattle.step_results.specs.TextGives.{fault_on};

use crate::line_error::LineError;
use std::alloc::{AllocError, AllocFailed};
use std::fmt;
use thiserror::Error;

/// Why a text was not read: an allocation failed, or a line of it, or the text as a whole, is wrong.
#[derive(Clone, Copy, Debug, PartialEq, Eq, Error)]
#[error_bound(Cause: fmt::Display)]
pub enum TextFault<Cause> {
    /// Out of memory.
    #[error("out of memory")]
    NoMemory,
    /// The first fault of the text.
    #[error("line {line}: {cause}")]
    At {
        /// The line, counted from 1; 0 if the fault is of no line, but of the text as a whole.
        line: usize,
        /// What is wrong.
        cause: Cause,
    },
}

impl<Cause> From<AllocError> for TextFault<Cause> {
    ghost from_gives = { λ _ e. e ≡ text.NoMemory };

    fn from(_error: AllocError) -> TextFault<Cause> {
        TextFault::NoMemory
    }
}

impl<Cause, T: Drop> From<AllocFailed<T>> for TextFault<Cause> {
    ghost from_gives = { λ _ e. e ≡ text.NoMemory };

    fn from(_error: AllocFailed<T>) -> TextFault<Cause> {
        TextFault::NoMemory
    }
}

impl<Cause> LineError<Cause> {
    /// The same error of the text whose line this is, by the line's number.
    pub fn on_line(self, line: usize) -> TextFault<Cause>
        ensures { result ≡ fault_on line self }
    {
        match self {
            LineError::NoMemory => TextFault::NoMemory,
            LineError::Fault(cause) => TextFault::At { line, cause },
        }
    }
}
