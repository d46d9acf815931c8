//! The fabric of a subnet as a text in DOT, the language of Graphviz.
//!
//! [`graph_text`] draws the nodes and cables of a topology, with the LIDs, partitions and ranks that a subnet manager gave
//! them (IBA volume 1, chapter 14), and reports by dashes which cables are cut in the fabric. A caller can have cables drawn in red,
//! or by their loads ([`Look`](cable_looks::Look)). `specs/Graph.antt` says what the text is.
#![tactic(auto)]

mod cables;
mod drawing;
mod examples;
mod laws;
mod list_lines;
mod lists;
mod nodes;
mod partitions;
mod ranks;
mod rows;
mod thick_edges;
mod wrong_rules;

pub use crate::cables::LABELLED;
pub use crate::drawing::graph_text;
pub use crate::laws::{
    each_cable_is_drawn_once, each_node_is_drawn_once, each_rank_has_a_row,
    joined_rows_have_thick_edges, the_numbers, thick_edges_join_all_to_all,
    thick_edges_show_numbers,
};
