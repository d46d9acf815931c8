//! What happens at a port.

use data_packet::{Packet, Refusal};

/// Something that happens at a port.
#[derive(Debug, Drop, PartialEq, Eq)]
pub struct PortEvent {
    /// The GUID of the port.
    pub port_guid: u64,
    /// What happens there.
    pub what: Outcome,
}

/// What happens at a port: nothing else of a run can be seen there.
#[derive(Debug, Drop, PartialEq, Eq)]
pub enum Outcome {
    /// It receives a packet.
    Received(Packet),
    /// It refuses to send one.
    Refused(Refusal),
}
