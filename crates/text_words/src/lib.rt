//! The words of texts that are read (lines, comments, blanks, names, ports and numbers), and the parts of those that are printed.
//!
//! Topology files and scripts are texts of lines, and each line is a row of words. What a line is,
//! which bytes may stand in it and where its words begin and end is stated in `specs/Lines.antt`;
//! what a name, a port and a number are, in `specs/Words.antt` and `specs/Number.antt`. [`read_lines`]
//! gives a reader the lines one by one, with their numbers, and the reader takes of each the [`Words`] one by one;
//! nothing is copied.
//!
//! What is printed is made of parts: numbers in decimal and in hexadecimal digits, GUIDs, names in quotes, and ports by the names
//! of their nodes.
//!
//! Each call adds a part to a text that grows; if an allocation fails, the text has some beginning of the part. `specs/Parts.antt`
//! says what the parts look like, and `specs/WholeParts.antt` shows each once.
#![tactic(auto)]

mod content;
mod cut;
mod failure;
mod line;
mod line_words;
mod names;
mod number;
mod numbered;
mod numbers;
mod part_laws;
mod word;

pub use crate::cut::{cut_at, trimmed};
pub use crate::failure::is_failure;
pub use crate::line::Lines;
pub use crate::line_words::Words;
pub use crate::names::{push_port_name, push_quoted};
pub use crate::number::{digits_in, number_in, u16_in};
pub use crate::numbered::{LineReader, read_lines};
pub use crate::numbers::{digits_of, push_decimal, push_guid, push_hex};
pub use crate::part_laws::parts_are_whole;
pub use crate::word::{PortWord, is_name, port_in};
