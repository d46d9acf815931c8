//! What an audit takes of a fabric: nodes, cables, end ports by their GUIDs, which nodes are hosts, and the LIDs that are reported; and
//! how far switches are from hosts.
//!
//! [`Plan::of`] takes it of a topology, [`Plan::found`] of a discovery, which `netdiscover_file` read. `specs/Plan.antt` says what of each;
//! `src/laws.rt` says which cables and LIDs of a discovery that are.
//!
//! [`Links`] finds the far ends of a plan's cables. Which switches hosts are attached to, is stated in `specs/Attached.antt`; how many
//! links lead from a switch to these, in `specs/Levels.antt`; which switches are farthest, in `specs/Tops.antt` ([`top_switches`]).
#![tactic(auto)]

mod attached;
mod discovered;
mod ends;
mod examples;
mod far_ends;
mod laws;
mod levels;
mod links;
mod names;
mod plan;
mod tops;
mod wrong_rules;

pub use crate::ends::{EndGuid, LidGuid};
pub use crate::laws::{
    cables_are_taken, levels_are_distances, lids_are_taken, the_numbers, tops_are_farthest,
};
pub use crate::levels::{LEVELS, level_at, levels_of};
pub use crate::links::Links;
pub use crate::plan::{Plan, PlanNode, ends_of, is_switch_at, name_at, ports_at, switches};
pub use crate::tops::top_switches;
