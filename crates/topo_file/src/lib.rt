//! Topology files: the nodes, cables, roots and subnet manager of a fabric, read from a text.
//!
//! [`read`] returns the [`Topology`] that a text describes, or the first fault with its line; a fabric that is bigger than
//! a simulated one may be is such a fault. [`read_within`] returns a [`LargeTopology`] within the limits that it is given.
//! What a text describes is stated in `specs/Topology.antt`, line by line, over the words of `text_words`.
//! [`is_connected`] is the last question that a text is asked: whether cables join all switches;
//! [`connected_means_joined`] is the law that says what that means.
#![tactic(auto)]

mod cable;
mod connectivity;
mod draft;
mod fault;
mod large_topology;
mod laws;
mod node;
mod reader;
mod topology;

pub use crate::connectivity::{is_connected, is_marked};
pub use crate::fault::{TopoFault, TopologyCause};
pub use crate::large_topology::LargeTopology;
pub use crate::laws::connected_means_joined;
pub use crate::node::{Name, Node, guid_at, is_switch_at, name_at, ports_at};
pub use crate::reader::{read, read_within};
pub use crate::topology::Topology;
