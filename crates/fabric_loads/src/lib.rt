//! How the traffic of a simulated fabric is spread over its cables, by the LFTs that its switches hold.
//!
//! [`own_load_text`] prints for each direction of a cable between two switches how many pairs go over it, as `audit_loads` does of a
//! live fabric, and [`own_looks`] returns the same for a picture of the fabric. `specs/OwnLoads.antt` says of which fabric and
//! between which ports, and `specs/OwnDump.antt` what its LFTs are as a dump.
#![tactic(auto)]

mod own_dump;
mod own_loads;
mod rows;
mod talking;

pub use crate::own_loads::{own_load_text, own_looks};
