//! The hops of directed-route SMPs: what one node does with an SMP that passes it.
//!
//! [`outward`] takes an SMP on its way from the subnet manager, [`back`] its answer on the way back. Each
//! knows only the kind of node and the port by which the SMP came in, and moves the hop pointer by one.
//! Their contracts are the equations of `specs/Hops.antt`, to the byte: the hop rules of the IBA volume 1
//!, chapter 14, over the fields of 14.2.1.2.
#![tactic(auto)]

mod fields;
mod hop;
mod laws;
mod outgoing;
mod returning;

pub use crate::fields::{
    MAX_HOPS, count_of, initial_port_of, is_outgoing, pointer_of, return_port_of, set_pointer,
    set_return_port, turn_round,
};
pub use crate::hop::Hop;
pub use crate::laws::{fields_are_the_standards, the_numbers};
pub use crate::outgoing::outward;
pub use crate::returning::back;
