//! P_Key tables of a live fabric, as `smpquery` of infiniband-diags prints them.
//!
//! [`read`] returns the [`Answers`] that a text reports, or the first fault with its line. The text has a line
//! `# smpquery QUERY LID [PORT]` before what each query printed. What a text reports is stated in `specs/Answers.antt`, line by
//! line; what a query asks, in `specs/Query.antt`, and what the lines of its answer say, in `specs/Fields.antt` and
//! `specs/Rows.antt`.
#![tactic(auto)]

mod answer;
mod answers;
mod draft;
mod examples;
mod fault;
mod fields;
mod parts;
mod query;
mod reader;
mod rows;

pub use crate::answer::{Answer, KeyList, NodeReply, Reply};
pub use crate::answers::Answers;
pub use crate::examples::{failures_are_unread, lines_are_read, texts_are_read, texts_are_refused};
pub use crate::fault::{KeysCause, KeysFault};
pub use crate::query::{Query, QueryKind};
pub use crate::reader::read;
