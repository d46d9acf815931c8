//! Why a reader of lines stops.

ghost use Rattle.std.specs.Prelude.{◌≡◌};
ghost use Rattle.step_results.specs.declared.line_error.LineError.TheVariants.{NoMemory};

use std::alloc::{AllocError, AllocFailed};

/// Why a line was not taken: an allocation failed, or something is wrong with the line.
#[derive(Clone, Copy, Debug, PartialEq, Eq)]
pub enum LineError<C> {
    /// Out of memory.
    NoMemory,
    /// What is wrong.
    Fault(C),
}

impl<C> From<AllocError> for LineError<C> {
    ghost from_gives = { λ _ e. e ≡ NoMemory };

    fn from(_error: AllocError) -> LineError<C> {
        LineError::NoMemory
    }
}

impl<C, T: Drop> From<AllocFailed<T>> for LineError<C> {
    ghost from_gives = { λ _ e. e ≡ NoMemory };

    fn from(_error: AllocFailed<T>) -> LineError<C> {
        LineError::NoMemory
    }
}
