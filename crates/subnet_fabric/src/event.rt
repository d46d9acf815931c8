//! What comes of a command at a port of a fabric.

ghost use Rattle.std.specs.Prelude.{◌≡◌};
ghost use Rattle.subnet_fabric.specs.Sends.{event_of};

use data_packet::Refusal;
use fabric_wire::Delivery;

/// Something that happens at a port. What a port receives is a [`Delivery`], which [`Fabric::carry`](fabric_wire::Fabric::carry)
/// alone makes.
#[derive(Debug, Drop, PartialEq, Eq)]
pub enum Event {
    /// A port receives a packet.
    Received(Delivery),
    /// A port refuses to send one.
    Refused {
        /// The GUID of the port.
        port_guid: u64,
        /// Why it does.
        refusal: Refusal,
    },
}

impl Event {
    /// The GUID of the port at which it happens.
    pub fn port_guid(&self) -> u64
        ensures { result ≡ (event_of self.now).port_guid }
    {
        match self {
            Event::Received(delivery) => delivery.port(),
            Event::Refused { port_guid, .. } => *port_guid,
        }
    }
}
