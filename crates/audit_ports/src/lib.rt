//! The end ports of a live fabric, and what the files say of each: its P_Key table as it was read, the keys that the partition file
//! gives it, and those that OpenSM gives it by the same file.
//!
//! [`ports_of_files`] gathers them from a discovery with the names of its import, from answers of `smpquery` and from a partition file;
//! `specs/Gathered.antt` says what of each. [`push_strangers`] adds the lines for GUIDs of the file that no port has, and for ports
//! that are in no partition.
#![tactic(auto)]

mod ends;
mod examples;
mod gathering;
mod held;
mod laws;
mod names;
mod opensm;
mod parts;
mod port;
mod strangers;
mod trunks;
mod wrong_rules;

pub use crate::gathering::ports_of_files;
pub use crate::held::{
    has_base, have_same_bases, have_same_keys, holds, of_other_bases, of_other_membership,
};
pub use crate::laws::{each_port_is_audited, ports_that_answer_are_read};
pub use crate::parts::{push_key, push_port};
pub use crate::port::{AuditedPort, Enforcement, FacingPort, HeldKeys, TrunkLack, TrunkLacks};
pub use crate::strangers::push_strangers;
