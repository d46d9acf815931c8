//! What a command has a port do, and what happens to cables.

ghost use Rattle.std.specs.Prelude.{◌≡◌};
ghost use Rattle.subnet_model.specs.Delivery.{is_for_sa};

use data_packet::{Payload, QueuePair};
use fabric_parts::{Cable, MANAGER_LID};
use mad_layout::Mad;

/// What a command has a port do, or what happens to a cable.
#[derive(Debug, Drop, PartialEq, Eq)]
pub enum Command {
    /// To send a packet.
    Send(SendCommand),
    /// To ask something of the subnet administration.
    Ask(AskCommand),
    /// A cable between two switches is cut, or mended; no port acts.
    Cable(CableCommand),
}

/// A packet that a command has a port send.
#[derive(Debug, Drop, PartialEq, Eq)]
pub struct SendCommand {
    /// The GUID of the port that sends.
    pub port_guid: u64,
    /// The LID that it sends to.
    pub dlid: u16,
    /// The key under which it is to travel, valid or not.
    pub p_key: u16,
    /// The queue pair that it is meant for.
    pub destination_qp: QueuePair,
    /// What it carries.
    pub payload: Payload,
}

impl SendCommand {
    /// Whether the packet is for subnet administration.
    pub fn is_for_sa(&self) -> bool
        ensures { result ≡ is_for_sa self.now }
    {
        self.dlid == MANAGER_LID && self.destination_qp.is_general_services()
    }
}

/// What a command has a port ask of the subnet administration: it sends this MAD to it, under the key of the default
/// partition that it holds, and acknowledges what answers it (IBA volume 1, chapters 13 and 15).
#[derive(Debug, Drop, PartialEq, Eq)]
pub struct AskCommand {
    /// The GUID of the port that asks.
    pub port_guid: u64,
    /// The MAD that it sends.
    pub mad: Mad,
}

/// What happens to a cable between two switches.
#[derive(Debug, Drop, PartialEq, Eq)]
pub struct CableCommand {
    /// The cable, its ends in the order in which they are named.
    pub cable: Cable,
    /// Whether it is mended, and not cut.
    pub up: bool,
}
