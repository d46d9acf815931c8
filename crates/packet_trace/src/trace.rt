//! A unicast packet on its way.

ghost use Rattle.std.specs.Prelude.{◌≡◌, IfOk};
ghost use Rattle.std.specs.List.{list_any};
ghost use Rattle.fabric_parts.specs.Cable.{is_same_port};
ghost use Rattle.packet_trace.specs.Trace.{leaves_by, next_after, turn_after, turn_at, turn_by, turn_in, turn_of_fate, way_of};

use crate::turn::{Step, Turn};
use data_packet::Packet;
use fabric_parts::PortRef;
use fabric_wire::{Fabric, Node};
use port_model::AdapterPort;
use std::alloc::{AllocError, Global};
use switch_model::Fate;

/// What becomes of a unicast packet that comes in at that port, there and at each port to which it goes on from there.
/// It can only run out of memory.
pub(crate) fn way(
    alloc: Global,
    fabric: &Fabric,
    packet: &Packet,
    first: PortRef,
) -> Result<Vec<Step>, AllocError>
    ensures { IfOk result (λ steps. steps.items ≡ way_of fabric.now packet.now first) }
{
    let mut steps = Vec::new(alloc);
    let mut here = first;
    for _hop in 0..fabric.cable_ends() + 1 {
        let turn = turn_after(&steps, fabric, packet, here);
        steps.push(Step { at: here, turn })?;
        match next_after(fabric, here, turn) {
            Some(next) => here = next,
            None => return Ok(steps),
        }
    }
    Ok(steps)
}

/// What becomes of it here after these steps.
fn turn_after(before: &[Step], fabric: &Fabric, packet: &Packet, here: PortRef) -> Turn
    ensures { result ≡ turn_after fabric.now packet.now before.now here }
{
    if was_at(before, here) {
        Turn::Again
    } else {
        turn_at(fabric, packet, here)
    }
}

/// Whether one of these steps was here.
fn was_at(before: &[Step], here: PortRef) -> bool
    ensures { result ≡ list_any (λ step. is_same_port step.at here) before.now }
{
    before.iter().any(|step| step.at == here)
}

#[tactic(auto, unfolding(crate::specs::Trace::turn_at))]
fn turn_at(fabric: &Fabric, packet: &Packet, here: PortRef) -> Turn
    ensures { result ≡ turn_at fabric.now packet.now here }
{
    match fabric.nodes().get(here.node) {
        Some(node) => turn_in(fabric, packet, here, node),
        None => Turn::DropsKey,
    }
}

fn turn_in(fabric: &Fabric, packet: &Packet, here: PortRef, node: &Node) -> Turn
    ensures { result ≡ turn_in fabric.now.cables packet.now here node.now }
{
    match node {
        Node::Switch(switch) => turn_of_fate(
            fabric,
            here,
            switch.as_switch().fate(here.port, packet),
        ),
        Node::Adapter(ports) => match ports.port(here.port) {
            Some(port) => turn_by(port, packet),
            None => Turn::DropsKey,
        },
    }
}

pub(crate) fn turn_by(port: &AdapterPort, packet: &Packet) -> Turn
    ensures { result ≡ turn_by packet.now port.now }
{
    if port.accept(packet) {
        Turn::Accepts
    } else {
        Turn::DropsKey
    }
}

fn turn_of_fate(fabric: &Fabric, here: PortRef, fate: Fate) -> Turn
    ensures { result ≡ turn_of_fate fabric.now.cables here fate }
{
    match fate {
        Fate::KeptOut => Turn::DropsInbound,
        Fate::OverTop => Turn::DropsTop,
        Fate::NoPort(entry) => Turn::DropsEntry(entry),
        Fate::Taken => Turn::Takes,
        Fate::KeptIn(out) => Turn::DropsOutbound(out),
        Fate::Leaves(out) => leaves_by(fabric, here, out),
    }
}

fn leaves_by(fabric: &Fabric, here: PortRef, out: u8) -> Turn
    ensures { result ≡ leaves_by fabric.now.cables here out }
{
    match fabric.far_end(PortRef {
        node: here.node,
        port: out,
    }) {
        Some(_) => Turn::GoesOut(out),
        None => Turn::NoCable(out),
    }
}

/// Where it comes in next, if it goes on.
pub(crate) fn next_after(fabric: &Fabric, here: PortRef, turn: Turn) -> Option<PortRef>
    ensures { result ≡ next_after fabric.now.cables here turn }
{
    match turn {
        Turn::GoesOut(out) => fabric.far_end(PortRef {
            node: here.node,
            port: out,
        }),
        _ => None,
    }
}
