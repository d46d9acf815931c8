//! How a picture of a fabric draws its cables: as all others, in red, or in the width and colour of their loads, with a legend.
//!
//! A [`Look`] says how a cable is drawn. [`push_shade`] adds that to the edge of a cable in DOT, the language of Graphviz, and
//! [`push_legend_of`] the legend to a picture. `specs/Steps.antt` says which loads have one width and colour.
#![tactic(auto)]

mod edges;
mod laws;
mod legend;
mod looks;
mod steps;
mod wrong_rules;

pub use crate::edges::{push_end_name, push_shade};
pub use crate::laws::{each_load_has_one_row, steps_are_fifths};
pub use crate::legend::push_legend_of;
pub use crate::looks::{CableLoad, Look, look_at, most_of, needed_looks};
