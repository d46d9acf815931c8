//! The routes that stand in the switches of a live fabric, judged, whichever SM set them.
//!
//! [`audit`] takes a topology and the LFTs that `dump_file` read, [`audit_discovery`] what `netdiscover_file` read in place of the
//! topology. `audit_plan` says what is taken of either, `audit_net` what comes of packets by the LFTs, `audit_net` whose a LID is,
//! `audit_loops` which channels wait for one another. What is printed is stated in `specs/Lines.antt` and `specs/Audit.antt`; when routes
//! are safe, in `specs/Verdict.antt`. `src/laws.rt` says what that means of paths along entries, however long, and of cycles.
#![tactic(auto)]

mod asks;
mod auditing;
mod deciding;
mod examples;
mod laws;
mod lines;
mod loops;
mod outcome;
mod pairs;
mod verdict;
mod wrong_rules;

pub use crate::auditing::{audit, audit_discovery, findings, push_port_words};
pub use crate::laws::{
    all_lines_are_printed, counts_add_up, each_reason_has_its_line, each_trouble_has_a_line,
    leading_routes_are_reported, loops_are_closed_by_their_lids, lost_pairs_are_named,
    safe_routes_are_reported, unknown_entries_are_named, unsafe_routes_have_a_reason,
};
pub use crate::lines::{has_switch, push_lid, push_name, push_port};
pub use crate::loops::{is_others, lids_of};
pub use crate::outcome::{Audit, Findings};
pub use crate::verdict::{Verdict, add_reason, push_outcome, reasons};
