//! Partition files: which partitions a subnet has, and what ports belong to each, read from a text.
//!
//! [`read`] gives the [`Partitions`] that a text describes, or its first fault with the line; a text
//! is never read in part. What definitions a text has is stated in `specs/Definitions.antt`, what is
//! refused in `specs/Cases.antt`, asked of what each piece says (`specs/Tokens.antt`), and what
//! partitions definitions make in `specs/Partitions.antt`. That these definitions are what cutting the whole
//! text gives (`specs/Cut.antt`) is a law of `laws`. The text is that of OpenSM's partition files,
//! read strictly.
#![tactic(auto)]

mod broadcast_group;
mod definition;
mod definition_part;
mod fault;
mod flag;
mod heading;
mod item;
mod laws;
mod member_keys;
mod membership;
mod merge;
mod number;
mod partition;
mod piece;
mod piece_faults;
mod reader;
mod rules;
mod scan;
mod token;

pub use crate::broadcast_group::BroadcastGroup;
pub use crate::definition::PartitionName;
pub use crate::fault::{PartFault, PartitionCause};
pub use crate::heading::Heading;
pub use crate::item::{Item, ItemList, Ports};
pub use crate::laws::{
    generated_bases_are_free, keys_report_membership, partitions_are_cut_from_the_text,
    texts_are_refused_for_their_first_fault,
};
pub use crate::member_keys::Members;
pub use crate::membership::members;
pub use crate::merge::no_file;
pub use crate::partition::{Partition, Partitions};
pub use crate::reader::read;
