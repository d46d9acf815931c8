//! Multicast forwarding tables of a live fabric, as `dump_fts -M` and `dump_mfts` of infiniband-diags print them.
//!
//! [`read`] gives the [`Mfts`] that a text reports, or the first fault with its line. What a text reports is stated in
//! `specs/Mfts.antt`, line by line; what the titles of a table say, in `specs/Heading.antt`, and what a row says, in
//! `specs/Row.antt`. What is so of all tables that were read, `specs/Sound.antt` says.
#![tactic(auto)]

mod draft;
mod examples;
mod fault;
mod heading;
mod mfts;
mod parts;
mod reader;
mod row;
mod stage;
mod table;

pub use crate::fault::{MftCause, MftFault};
pub use crate::mfts::Mfts;
pub use crate::reader::read;
pub use crate::row::{MaskRow, MaskRowList, Ports};
pub use crate::table::MaskTable;
