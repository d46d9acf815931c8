//! The packet.

use crate::payload::Payload;
use crate::queue_pair::QueuePair;
use pkey_rules::PKey;

/// A packet on its way: what the local route header and the base transport header say of it, and
/// its payload.
#[derive(Debug, Drop, PartialEq, Eq)]
pub struct Packet {
    /// The LID of the port that sent it.
    pub slid: u16,
    /// The LID that it is sent to: a port's, or a multicast group's.
    pub dlid: u16,
    /// The key under which it travels.
    pub p_key: PKey,
    /// The queue pair that it is meant for.
    pub destination_qp: QueuePair,
    /// What it carries.
    pub payload: Payload,
}
