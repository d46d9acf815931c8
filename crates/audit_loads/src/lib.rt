//! How the traffic of a fabric is spread over its cables, by the tables that stand in its switches.
//!
//! [`load_text`] takes a topology and the LFTs that `dump_file` read, [`load_text_found`] what `netdiscover_file` read in place of
//! the topology, and [`load_of_plan`] either, and the P_Keys by which ports may talk. [`loads_of_plan`] returns the numbers. For
//! each direction of a cable between two switches they say how many pairs go over it: a host's port that sends, and a LID of
//! another host's port. `specs/Sources.antt` says which pairs there are, `specs/Talk.antt` which ports may talk, `specs/Ways.antt`
//! which way a packet goes, `specs/Loads.antt` what is counted, and `specs/Text.antt` what is printed.
#![tactic(auto)]

mod counting;
mod examples;
mod key_classes;
mod laws;
mod levels;
mod loaded;
mod loads;
mod marks;
mod order;
mod sources;
mod sums;
mod talk;
mod texts;
mod walk;
mod wrong_rules;

pub use crate::examples::{fractions_are_rounded_down, ports_send_to_others, texts_are_so};
pub use crate::laws::{
    all_pairs_are_counted, all_pairs_are_printed, cables_of_plans_lead_back,
    each_channel_has_one_line, each_pair_counts, last_links_carry_what_arrives, loads_add_up,
    loads_are_of_pairs, loads_stay_within, talkers_count,
};
pub use crate::levels::Way;
pub use crate::loaded::Loaded;
pub use crate::talk::{PortKeys, Talk};
pub use crate::texts::{load_of_plan, load_text, load_text_found, loads_of_plan};
