//! A fabric with the LFTs that stand in its switches, and what comes of packets by them, whichever SM set them.
//!
//! [`Net`] takes what `audit_plan` took of a topology or of a discovery, and the dump that `dump_file` read. What the entry of a
//! LID is, is stated in `specs/Net.antt`; what comes of a packet at a switch, and from there on, in `specs/Following.antt`; which
//! switches it comes to, in `specs/Ways.antt`; which switches packets of hosts come to, in `specs/Hosts.antt`. `src/laws.rt` says
//! what that means of paths along entries, however long.
//!
//! [`aims`] returns the LIDs that a dump names or a discovery reports, and the end ports of the fabric that have them. Whose a
//! LID is, is stated in `specs/Lids.antt`: the rows of the dump come first, then what end ports report. `src/owner_laws.rt` says
//! what that means.
#![tactic(auto)]

mod entry;
mod examples;
mod following;
mod hosts;
mod inputs;
mod kinds;
mod laws;
mod lid_index;
mod lids;
mod marks;
mod net;
mod owner_examples;
mod owner_laws;
mod owner_wrong_rules;
mod wrong_rules;

pub use crate::entry::Entry;
pub use crate::following::{Fate, Turn};
pub use crate::inputs::{is_left_out, is_wide, row_of};
pub use crate::laws::{
    hosts_are_followed, loops_never_end, reported_loops_go_round, ways_are_followed, ways_are_whole,
};
pub use crate::lids::{Aim, aims, has_lid, have_lids, is_lacking};
pub use crate::marks::{blank, mark};
pub use crate::net::Net;
pub use crate::owner_laws::owners_are_found;
