//! What the program `fabric` does.
//!
//! `docs/FORMATS.md` has the commands. [`serve`] is the one call: it does all the work, for any arguments, any files and any
//! two writers, and its contract says what the status and both outputs are, from the arguments and the bytes alone.
#![tactic(auto)]

mod answering;
mod faults;
mod files;
mod key_audits;
mod laws;
mod outputs;
mod reading;
mod serving;
mod texts;
mod three_files;

pub use crate::files::{Files, MachineFiles};
pub use crate::laws::{
    a_ports_lines_are_its_events, every_code_that_is_reported_is_explained,
    far_lines_change_nothing, files_that_agree_are_judged_alike, one_ending_comes_of_texts,
    printed_lines_keep_partitions_apart, routes_are_as_asked, runs_end_as_reports,
};
pub use crate::serving::{serve, serve_by, serve_given};
pub use text_streams::{Output, Reader};
