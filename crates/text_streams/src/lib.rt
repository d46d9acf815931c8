//! Texts from readers and to writers, in pieces.
//!
//! A [`Reader`] and an [`Output`] are any reader and any writer, with what a contract may know of them. [`read_to_end`] reads a
//! text whole, [`read_line`] the next line, [`read_lines_of`] all lines, each of which a `LineReader` takes, and [`write_text`] and
//! [`write_whole`] write one (`specs/Reading.antt`, `specs/Writing.antt`).
#![tactic(auto)]

mod laws;
mod reading;
mod reading_by_lines;
mod reading_lines;
mod writing;

pub use crate::laws::{
    late_reports_are_not_in_time, others_are_no_part, others_are_not_made, short_texts_end,
    the_numbers,
};
pub use crate::reading::{BIG_PIECE, PIECE, READS, Reader, TextSize, read_to_end};
pub use crate::reading_by_lines::read_lines_of;
pub use crate::reading_lines::{LineStop, read_line};
pub use crate::writing::{Output, write_text, write_whole};
