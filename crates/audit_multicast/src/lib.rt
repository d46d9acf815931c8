//! The MFTs (multicast forwarding tables) that stand in the switches of a live fabric, judged beside its LFTs.
//!
//! [`audit_multicast`] takes a topology, the LFTs that `dump_file` read, and the MFTs that `mft_file` read;
//! [`audit_multicast_found`] takes what `netdiscover_file` read in place of the topology. Where packets go by the port masks is
//! stated in `specs/Ways.antt`; what a loop is, in `specs/Loops.antt`; what a second copy is, in `specs/Copies.antt`; when a group is
//! cut, in `specs/Cuts.antt`; what is printed, in `specs/Lines.antt`; when routes and multicast are safe, in `specs/Verdict.antt`.
#![tactic(auto)]

mod auditing;
mod copies;
mod cuts;
mod examples;
mod found;
mod laws;
mod lines;
mod loops;
mod masks;
mod verdict;
mod ways;
mod wrong_rules;

pub use crate::auditing::{audit_multicast, audit_multicast_found};
pub use crate::copies::SecondCopy;
pub use crate::cuts::Cut;
pub use crate::found::{Found, Ring};
pub use crate::laws::{
    all_reasons_are_named, copies_come_twice, cut_members_are_apart, mask_loops_go_round,
    multicast_is_printed, no_copy_is_missed, no_cut_is_missed, no_mask_loop_is_missed,
    safe_multicast_is_reported,
};
