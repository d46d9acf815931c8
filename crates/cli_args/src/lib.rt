//! The command line of the program `fabric`: its commands and arguments, with their help, and what the arguments of one
//! invocation ask for. No subnet and no fabric is known here.
//!
//! [`read_words`] reads arguments by a [`Parser`], which is [`Clap`] in the program, and [`given_words`] returns those of
//! the process. `specs/CommandLine.antt` has the commands, and `specs/Words.antt` what their arguments ask for.
#![tactic(auto)]

mod call;
mod command_line;
mod help;
mod laws;
mod words;

pub use crate::call::{
    Asked, Call, CutView, DumpView, Inspection, NamedWork, Refused, Subcommand, ThirdFile, Work,
};
pub use crate::command_line::{Clap, Parser};
pub use crate::laws::{
    balanced_routes_are_asked_for, files_are_named_as_given, the_version_is_requested_by_its_flags,
};
pub use crate::words::{given_words, read_words, version_line};
