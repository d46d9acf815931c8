//! SL-to-VL mapping tables and path records of a live fabric, as `smpquery sl2vl` and `saquery PR` of infiniband-diags
//! print them.
//!
//! [`read`] gives the [`Lanes`] that a text reports, or the first fault with its line. What a text reports is stated in
//! `specs/Lanes.antt`, line by line; what a row of a table says, in `specs/Row.antt`, and what a field of a path record
//! says, in `specs/Path.antt`. What is so of all that was read, `specs/Sound.antt` says.
#![tactic(auto)]

mod draft;
mod examples;
mod fault;
mod lanes;
mod parts;
mod path;
mod reader;
mod row;
mod rows;
mod stage;

pub use crate::fault::{LanesCause, LanesFault};
pub use crate::lanes::Lanes;
pub use crate::path::PathSl;
pub use crate::reader::read;
pub use crate::row::{LaneRow, Vls};
