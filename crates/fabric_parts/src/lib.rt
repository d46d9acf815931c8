//! What every fabric is made of: nodes of two types, ports, cables and LIDs.
//!
//! A [`PortRef`] names a port by the place of its node in a list of nodes, and by its number there; a
//! [`Cable`] joins two. What a node is made of is for others to say: a topology file knows its name, a
//! simulated node what its agents hold. [`NodeType`] is that of the IBA volume 1
//!, 14.2.5.3.
#![tactic(auto)]

mod cable;
mod laws;
mod lid;
mod limits;
mod node_type;

pub use crate::cable::{Cable, PortRef, far_end};
pub use crate::laws::{the_limits, the_numbers};
pub use crate::lid::{
    FIRST_MULTICAST_LID, GID_PREFIX, LAST_UNICAST_LID, MANAGER_LID, NO_PORT, PERMISSIVE_LID,
    is_multicast, is_reserved,
};
pub use crate::limits::{
    ADAPTER_PORTS, LARGE_ADAPTER_PORTS, LARGE_SWITCH_PORTS, LARGE_SWITCHES, Limits, NAME_BYTES,
    PORTS_OF_AN_ADAPTER, SWITCH_PORTS, SWITCHES,
};
pub use crate::node_type::NodeType;
