//! A packet at a port that received it, which only the fabric makes.

ghost use Rattle.std.specs.Prelude.{◌≡◌, map, IfOk};
ghost use Rattle.smp_wire.specs.Deliveries.{DeliveryState};

use data_packet::Packet;
use smp_wire::Numbers;
use std::alloc::{AllocError, Global};
use std::marker::Model;

/// A packet at the port of a channel adapter that gets it. [`Fabric::carry`](crate::Fabric::carry) alone makes one.
#[derive(Debug, Drop, PartialEq, Eq)]
pub struct Delivery {
    port: u64,
    packet: Packet,
}

impl Model for Delivery {
    ghost use Rattle.smp_wire.specs.Deliveries.{DeliveryState};

    ghost Value = { DeliveryState };

    ghost view = { λ delivery. record { port = delivery.port; packet = delivery.packet } };

    ghost inverse = { λ delivered. record { port = delivered.port; packet = delivered.packet } };
}

impl Delivery {
    /// A copy of the packet, at the port of that GUID.
    pub(crate) fn at(port: u64, packet: &Packet) -> Result<Delivery, AllocError>
        ensures { IfOk result (λ delivery. delivery ≡ record { port = port; packet = packet.now }) }
    {
        Ok(Delivery {
            port,
            packet: Packet {
                slid: packet.slid,
                dlid: packet.dlid,
                p_key: packet.p_key,
                destination_qp: packet.destination_qp,
                payload: packet.payload.clone()?,
            },
        })
    }

    /// The GUID of the port.
    pub fn port(&self) -> u64
        ensures { result ≡ self.now.port }
    {
        self.port
    }

    /// The packet.
    pub fn packet(&self) -> &Packet
        ensures { result.now ≡ self.now.packet }
    {
        &self.packet
    }
}

/// A copy of the packet at each of these ports, in their order. It can only run out of memory.
pub(crate) fn at_each(
    alloc: Global,
    receivers: &[Numbers],
    packet: &Packet,
) -> Result<Vec<Delivery>, AllocError>
    ensures { IfOk result (λ deliveries. deliveries.items ≡ map (λ one. record { port = one.guid; packet = packet.now }) receivers.now) }
{
    let mut deliveries = Vec::new(alloc);
    for receiver in receivers {
        deliveries.push(Delivery::at(receiver.guid, packet)?)?;
    }
    Ok(deliveries)
}
