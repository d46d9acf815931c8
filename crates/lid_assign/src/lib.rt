//! LIDs: by which numbers packets name the end ports of a graph.
//!
//! [`assign`] is the one call. The SM port has LID 1, the other end ports follow from 2 in the order
//! of their GUIDs; the end port of a switch is its port 0, which has the switch's GUID (IBA volume 1
//!, chapter 14; the order is ours). So `specs/Lids.antt` says, in the words of
//! `subnet_model`. [`Lids`] answers both ways and needs no memory for it.
#![tactic(auto)]

mod assignment;
mod laws;
mod lids;

pub use crate::assignment::assign;
pub use crate::laws::{lids_and_guids_name_each_other, lids_count_from_1};
pub use crate::lids::Lids;
