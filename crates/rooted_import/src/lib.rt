//! A topology of a real fabric with roots: the top switches.
//!
//! [`rooted_topology_text`] returns the text that `topology_import` makes of a discovery, with a line `root NAME` for each switch that
//! is farthest from hosts, or the first error. `specs/Roots.antt` says which switches these are, and `specs/Rooted.antt` which text
//! that is. A text is returned only if it is read as the same topology with these roots, as `specs/Agreement.antt` says.
#![tactic(auto)]

mod agreement;
mod examples;
mod laws;
mod rooted;
mod roots;
mod wrong_rules;

pub use crate::laws::roots_are_top_switches;
pub use crate::rooted::rooted_topology_text;
