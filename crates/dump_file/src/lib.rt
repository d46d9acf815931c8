//! Linear forwarding tables of a live fabric, as `dump_fts` of infiniband-diags prints them.
//!
//! [`read`] gives the [`Dump`] that a text reports, or the first fault with its line. What a text reports is stated in
//! `specs/Dump.antt`, line by line; what the first line of a table says, in `specs/Heading.antt`, and what a row says,
//! in `specs/Row.antt` and `specs/Destination.antt`. A dump agrees with itself: `specs/Sound.antt` says how.
#![tactic(auto)]

mod destination;
mod draft;
mod dump;
mod ends;
mod examples;
mod fault;
mod heading;
mod parts;
mod reader;
mod row;
mod stage;
mod table;

pub use crate::destination::Destination;
pub use crate::dump::Dump;
pub use crate::fault::{DumpCause, DumpFault};
pub use crate::reader::{is_heading, is_multicast_heading, is_passed_over, read, read_from};
pub use crate::row::{Row, RowList};
pub use crate::table::Table;
