//! Segments: how an answer that is longer than one management datagram (MAD) goes over the wire.
//!
//! Subnet administration sends a table of records in segments of 200 bytes by the Reliable Multi-Packet
//! Protocol (RMPP; IBA volume 1, chapter 13, as 15.2.1.1 lays its header
//! before that of subnet administration). A [`Sender`] holds the bytes of one table: it gives each
//! segment as a MAD, and says of each ACK which segments to send next, or why the transfer aborts. A
//! [`Receiver`] takes segments in order and has the bytes once the last has come. `specs/Segments.antt` says
//! what the segments are, `specs/Acks.antt` what an ACK brings, `specs/Receiving.antt` which segments a receiver
//! takes; the laws over all three are that a receiver of all segments has the sender's bytes, and that what any
//! receiver has came in segments, each in its turn (`laws.rt`).
#![tactic(auto)]

mod abort;
mod laws;
mod mads;
mod reassembly;
mod receiver;
mod sender;

pub use crate::abort::AbortCause;
pub use crate::laws::{
    last_acks_complete, segments_are_received, segments_are_the_bytes, segments_go_out_in_order,
    segments_have_their_numbers, what_is_received_is_a_table,
};
pub use crate::mads::{BASE_VERSION, ReplyHeader, SA_CLASS, SA_CLASS_VERSION, sa_mad};
pub use crate::receiver::{ReceiveFault, Receiver};
pub use crate::sender::{Acknowledged, RMPP_VERSION, SEGMENT_PAYLOAD, Sender};
