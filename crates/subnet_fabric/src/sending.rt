//! Sending, from the stamp to the deliveries.

ghost use Rattle.std.specs.Prelude.{ℕ, ◌≡◌, [], ◌∷◌, IfOk, is_some, map, Some, true};
ghost use Rattle.std.specs.Option.{ForSome};
ghost use Rattle.smp_wire.specs.Deliveries.{AreDeliveries, adapter_at, guid_at};
ghost use Rattle.port_model.specs.Packets.{stamped};
ghost use Rattle.data_packet.specs.QueuePair.{general_services_qp};
ghost use Rattle.fabric_parts.specs.Lid.{manager_lid};
ghost use Rattle.subnet_fabric.specs.Sends.{AskIsAsListed, ComesOf, ComesOfAsk, SendIsAsListed, given_to_ask};

use crate::event::Event;
use crate::sent::Sent;
use data_packet::{Packet, QueuePair, Refusal};
use fabric_parts::{MANAGER_LID, PortRef};
use fabric_wire::{Delivery, Fabric};
use pkey_rules::{DEFAULT_BASE, key_of};
use std::alloc::{AllocError, Global};
use subnet_model::{AskCommand, SendCommand};

/// Carries out a command to send: what the port of its GUID stamps is carried over the fabric. What is for subnet
/// administration is carried, too, and reported as a request.
pub fn send(alloc: Global, fabric: &Fabric, command: &SendCommand) -> Result<Sent, AllocError>
    ensures comes { IfOk result (λ sent. ComesOf fabric.now command.now sent) }
    ensures reported { IfOk result (λ sent. SendIsAsListed fabric.now command.now sent) }
{
    let Some(from) = fabric.place_of(command.port_guid) else {
        return Ok(Sent::Events(Vec::new(alloc)));
    };
    let stamped = fabric.stamp_at(
        from,
        command.dlid,
        command.p_key,
        command.destination_qp,
        command.payload.as_slice(),
    );
    match stamped {
        Ok(packet) => {
            let deliveries = fabric.carry_from(alloc, from, &packet)?;
            if command.is_for_sa() {
                Ok(Sent::Request(deliveries))
            } else {
                Ok(Sent::Events(events_of(alloc, deliveries)?))
            }
        }
        Err(refusal) => Ok(Sent::Events(refused(alloc, command.port_guid, refusal)?)),
    }
}

/// Carries out a command to ask: the port's packet is carried to subnet administration, unless the port refuses to send it.
pub fn ask(alloc: Global, fabric: &Fabric, command: &AskCommand) -> Result<Sent, AllocError>
    ensures comes { IfOk result (λ sent. ComesOfAsk fabric.now command.now sent) }
    ensures reported { IfOk result (λ sent. AskIsAsListed fabric.now command.now sent) }
{
    let Some(from) = fabric.place_of(command.port_guid) else {
        return Ok(Sent::Events(Vec::new(alloc)));
    };
    match asked(fabric, from, command) {
        Ok(packet) => Ok(Sent::Request(fabric.carry_from(alloc, from, &packet)?)),
        Err(refusal) => Ok(Sent::Events(refused(alloc, command.port_guid, refusal)?)),
    }
}

/// The packet by which the port asks: under the key of a full member of the default partition if it holds that, else
/// of a limited one.
fn asked(fabric: &Fabric, from: PortRef, command: &AskCommand) -> Result<Packet, Refusal>
    requires { is_some (adapter_at fabric.now.nodes from) ≡ true }
    ensures { ForSome (adapter_at fabric.now.nodes from) (λ own. result ≡ given_to_ask own command.now) }
{
    match asked_under(fabric, from, command, key_of(DEFAULT_BASE, true)) {
        Err(Refusal::KeyNotHeld) => asked_under(fabric, from, command, key_of(DEFAULT_BASE, false)),
        given => given,
    }
}

/// What the port makes of it under this key.
fn asked_under(
    fabric: &Fabric,
    from: PortRef,
    command: &AskCommand,
    p_key: u16,
) -> Result<Packet, Refusal>
    requires { is_some (adapter_at fabric.now.nodes from) ≡ true }
    ensures { ForSome (adapter_at fabric.now.nodes from) (λ own.
        result ≡ stamped own manager_lid p_key general_services_qp command.now.mad) }
{
    fabric.stamp_at(
        from,
        MANAGER_LID,
        p_key,
        QueuePair::general_services(),
        command.mad.as_slice(),
    )
}

/// That the port refuses, and nothing else.
fn refused(alloc: Global, port_guid: u64, refusal: Refusal) -> Result<Vec<Event>, AllocError>
    ensures { IfOk result (λ events. events.items ≡ Event.Refused port_guid refusal ∷ []) }
{
    let mut events = Vec::new(alloc);
    events.push(Event::Refused { port_guid, refusal })?;
    Ok(events)
}

/// Each delivery is an event.
pub(crate) fn events_of(alloc: Global, deliveries: Vec<Delivery>) -> Result<Vec<Event>, AllocError>
    ensures { IfOk result (λ events. events.items ≡ map Event.Received deliveries.items) }
{
    let mut events = Vec::with_capacity(alloc, deliveries.len())?;
    for delivery in deliveries {
        events.push(Event::Received(delivery))?;
    }
    Ok(events)
}
