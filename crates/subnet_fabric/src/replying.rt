//! Answers of subnet administration on their way back.

ghost use Rattle.std.specs.Prelude.{◌≡◌, ◌==◌, find, Some, IfOk};
ghost use Rattle.std.specs.Option.{option_copied};
ghost use Rattle.fabric_parts.specs.Lid.{manager_lid};
ghost use Rattle.subnet_model.specs.Delivery.{key_that_matches, manager_key};
ghost use Rattle.subnet_fabric.specs.Replies.{ComeOfReplies, ComesOfReply, RepliesAreAsListed, sent_to_reply};

use crate::event::Event;
use crate::sending::events_of;
use data_packet::QueuePair;
use fabric_parts::MANAGER_LID;
use fabric_wire::{Delivery, Fabric};
use mad_layout::Mad;
use pkey_rules::PKey;
use std::alloc::{AllocError, Global};
use subnet_model::SubnetPort;

/// The key under which the SM port answers what travels under this key: the one of its own that matches. None
/// if it has none, and does not accept the packet.
pub fn manager_key(ports: &[SubnetPort], key: PKey) -> Option<PKey>
    ensures { result ≡ manager_key ports.now key }
{
    key_that_matches(key, manager(ports)?)
}

fn manager(ports: &[SubnetPort]) -> Option<&SubnetPort>
    ensures { option_copied result ≡ find (λ port. port.lid == manager_lid) ports.now }
{
    ports.iter().find(|port| port.lid == MANAGER_LID)
}

fn key_that_matches(key: PKey, manager: &SubnetPort) -> Option<PKey>
    ensures { result ≡ key_that_matches key (Some manager.now) }
{
    let keys = manager.keys.as_slice();
    keys.iter().copied().find(|held| held.matches(key))
}

/// Sends the MADs that answer a request, one after another, from the port that received it to the LID that it came from,
/// under this key, over the fabric.
pub fn reply(
    alloc: Global,
    fabric: &Fabric,
    request: &Delivery,
    key: PKey,
    mads: &[Mad],
) -> Result<Vec<Event>, AllocError>
    ensures comes { IfOk result (λ events. ComeOfReplies fabric.now request.now key mads.now events.items) }
    ensures reported { IfOk result (λ events. RepliesAreAsListed fabric.now request.now key mads.now events.items) }
{
    let mut events = Vec::new(alloc);
    for mad in mads {
        let mut more = reply_by(alloc, fabric, request, key, mad)?;
        events.append(&mut more)?;
    }
    Ok(events)
}

/// Sends one of them.
fn reply_by(
    alloc: Global,
    fabric: &Fabric,
    request: &Delivery,
    key: PKey,
    mad: &Mad,
) -> Result<Vec<Event>, AllocError>
    ensures { IfOk result (λ events. ComesOfReply fabric.now (sent_to_reply request.now key mad.now) events.items) }
{
    let Some(from) = fabric.place_of(request.port()) else {
        return Ok(Vec::new(alloc));
    };
    let stamped = fabric.stamp_at(
        from,
        request.packet().slid,
        key.bits(),
        QueuePair::general_services(),
        mad.as_slice(),
    );
    match stamped {
        Ok(packet) => events_of(alloc, fabric.carry_from(alloc, from, &packet)?),
        Err(_) => Ok(Vec::new(alloc)),
    }
}
