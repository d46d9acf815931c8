//! The LFTs of a live fabric, judged by virtual lanes: with the SL-to-VL mapping tables of its switches and the path records of its SA.
//!
//! [`audit_lanes`] takes a topology, the LFTs that `dump_file` read, and the tables and records that `sl2vl_file` read;
//! [`audit_lanes_found`] takes what `netdiscover_file` read in place of the topology. Which hops packets of a path record take, is
//! stated in `specs/Hops.antt`; which lanes wait for which, in `specs/Lanes.antt`; what is printed, in `specs/Lines.antt`; when the
//! routes are safe, in `specs/Verdict.antt`. `src/laws.rt` says what that means of packets that loop, and of cycles of lanes.
#![tactic(auto)]

mod auditing;
mod examples;
mod graph;
mod hop;
mod hops;
mod lane;
mod laws;
mod lines;
mod owned;
mod records;
mod tables;
mod troubles;
mod verdict;
mod waits;
mod wrong_rules;

pub use crate::auditing::{audit_lanes, audit_lanes_found};
pub use crate::lane::Lane;
pub use crate::laws::{
    all_reasons_are_named, lane_cycles_wait, lanes_are_printed, lanes_make_no_loop,
    no_hop_is_missed, no_lane_cycle_is_missed, safe_lanes_are_reported,
};
