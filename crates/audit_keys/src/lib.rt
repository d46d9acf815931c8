//! P_Key tables that stand in a live fabric, compared with the partition file that they should follow.
#![tactic(auto)]

mod apart;
mod cuts;
mod diagnosis;
mod differences;
mod examples;
mod laws;
mod outcome;
mod standing;
mod text;
mod trunks;
mod wrong_rules;

pub use crate::differences::{Difference, DifferenceKind};
pub use crate::laws::{
    all_differences_are_printed, pairs_of_tables_are_theirs, pairs_of_the_file_are_its,
    tables_that_follow_are_clean, the_right_ports_pass, the_status_is_that_of_each_port,
    the_verdict_is_true, the_widest_come_first,
};
pub use crate::outcome::KeysAudit;
pub use crate::text::{audit_keys, audit_without_partitions};
