//! The sweep: a fabric found over a wire.
//!
//! [`sweep`] is the one call: it learns the SM port, leaves by that port, and goes from switch to
//! switch in the order of their discovery. PortInfo reports whether a port has a cable, NodeInfo and
//! NodeDescription what is behind it (IBA volume 1, 14.2.5.3 and chapter 14).
//! Over a wire that stands for a good fabric the [`Graph`] is that fabric's, as `specs/OfFabric.antt` says;
//! over any wire it is one that agrees with itself (`specs/Graph.antt`). [`SweepFault`] says why a sweep stops.
#![tactic(auto)]

mod adapters;
mod agreement;
mod asking;
mod discovery;
mod fault;
mod graph;
mod laws;
mod path;
mod recabled;
mod seen;
mod survey;
mod switch_list;
mod whole;

pub use crate::discovery::sweep;
pub use crate::fault::SweepFault;
pub use crate::graph::{Graph, GraphLink, GraphPort, GraphRow, GraphSwitch};
pub use crate::laws::{
    cables_come_back, graphs_are_recabled, graphs_have_the_end_ports, the_numbers,
    whole_graphs_are_swept,
};
pub use crate::path::{PATH_HOPS, Path};
pub use crate::seen::{Seen, seen_of};
