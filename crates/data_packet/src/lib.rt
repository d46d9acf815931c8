//! The data packet that the simulated fabric carries, and why a port refuses to send one.
//!
//! A [`Packet`] has the fields of an InfiniBand packet that decide where it goes and who may take
//! it: two LIDs, a P_Key, a destination QP, and up to 256 bytes of payload. Contracts see it as a
//! record of numbers and a list of bytes. A port that will not send it answers a [`Refusal`].
#![tactic(auto)]

mod laws;
mod packet;
mod payload;
mod queue_pair;
mod refusal;

pub use crate::laws::the_numbers;
pub use crate::packet::Packet;
pub use crate::payload::{PAYLOAD_BYTES, Payload};
pub use crate::queue_pair::{GENERAL_SERVICES_QP, QueuePair, SUBNET_MANAGEMENT_QP};
pub use crate::refusal::Refusal;
