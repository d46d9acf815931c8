//! What readers of texts share, and whatever else is refused step by step.
//!
//! A definition that may refuse is a function into a `Result`: `specs/Steps.antt` chains such steps, the
//! first that is refused deciding; `specs/AtLine.antt` puts the line to what is wrong. `specs/Gives.antt`
//! says how what a reader returns stands to what its definition gives: an allocation may fail, and nothing
//! else differs. [`LineError`] is what the reader of a line fails by, [`TextFault`] what the reader of a
//! text fails by, of which `specs/TextGives.antt` says the same.
#![tactic(auto)]

mod line_error;
mod text_fault;

pub use crate::line_error::LineError;
pub use crate::text_fault::TextFault;
