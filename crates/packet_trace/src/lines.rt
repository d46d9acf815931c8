//! The paths of a packet, as lines.

ghost use Rattle.std.specs.Prelude.{◌≡◌, ◌++◌, OnOk, IfOk, codes, decimal, flat_map};
ghost use Rattle.packet_trace.specs.Lines.{entry_text, place_text, port_text, refuses_line, stamps_line, step_line, text_of_sent, trace_text, turn_text, way_text};
ghost use Rattle.packet_trace.specs.declared.lines.TheConstants.{DATA_QP};

use crate::following::steps;
use crate::turn::{Step, Turn};
use data_packet::{Packet, QueuePair, Refusal};
use fabric_parts::PortRef;
use fabric_wire::{Fabric, adapter_at};
use port_model::AdapterPort;
use std::alloc::{AllocError, Global};
use text_words::{push_decimal, push_hex, push_port_name};
use topo_file::{Topology, name_at};

/// A queue pair for data: neither 0 nor 1, which are for management.
const DATA_QP: u32 = 2;

/// The paths of a packet without payload that the port of a channel adapter sends to that LID under that key: a line for what
/// the port makes of it, and one for each port that it comes to, with the reason where it ends; at a switch a packet to a
/// multicast LID has a line for each port by which it would leave. Nothing if no port of a channel adapter is there.
/// It can only run out of memory.
///
/// The nodes of the fabric stand as the topology lists them, and are named as it names them.
pub fn trace_text(
    alloc: Global,
    topology: &Topology,
    fabric: &Fabric,
    from: PortRef,
    dlid: u16,
    p_key: u16,
) -> Result<Vec<u8>, AllocError>
    ensures { IfOk result (λ text. text.items ≡ trace_text topology.now.nodes fabric.now from dlid p_key) }
{
    match adapter_at(fabric.nodes(), from) {
        Some(sender) => {
            let sent = sender.stamp(dlid, p_key, data_queue_pair(), &[]);
            text_of_sent(alloc, topology, fabric, from, sent)
        }
        None => Ok(Vec::new(alloc)),
    }
}

/// The lines for what the port made: a packet, or a refusal.
fn text_of_sent(
    alloc: Global,
    topology: &Topology,
    fabric: &Fabric,
    from: PortRef,
    sent: Result<Packet, Refusal>,
) -> Result<Vec<u8>, AllocError>
    ensures { IfOk result (λ text. text.items ≡ text_of_sent topology.now.nodes fabric.now from sent) }
{
    let mut text = Vec::new(alloc);
    match sent {
        Ok(packet) => {
            push_stamps_line(&mut text, topology, from, &packet)?;
            push_way(alloc, &mut text, topology, fabric, from, &packet)?;
        }
        Err(refusal) => push_refuses_line(&mut text, topology, from, refusal)?,
    }
    Ok(text)
}

fn data_queue_pair() -> QueuePair
    ensures { result ≡ DATA_QP }
{
    match QueuePair::new(DATA_QP) {
        Some(number) => number,
        None => unreachable!(),
    }
}

/// The lines for the ports to which the packet comes.
fn push_way(
    alloc: Global,
    text: &mut Vec<u8>,
    topology: &Topology,
    fabric: &Fabric,
    from: PortRef,
    packet: &Packet,
) -> Result<(), AllocError>
    ensures { OnOk result (text.new.items ≡ text.old.items ++ way_text topology.now.nodes fabric.now from packet.now) }
{
    match fabric.far_end(from) {
        Some(first) => push_steps(text, topology, &steps(alloc, fabric, packet, first)?),
        None => Ok(()),
    }
}

fn push_steps(text: &mut Vec<u8>, topology: &Topology, steps: &[Step]) -> Result<(), AllocError>
    ensures { OnOk result (text.new.items ≡ text.old.items ++ flat_map (step_line topology.now.nodes) steps.now) }
{
    for step in steps {
        push_step_line(text, topology, step)?;
    }
    Ok(())
}

/// Where the packet came in, and what became of it.
fn push_step_line(text: &mut Vec<u8>, topology: &Topology, step: &Step) -> Result<(), AllocError>
    ensures { OnOk result (text.new.items ≡ text.old.items ++ step_line topology.now.nodes step.now) }
{
    push_place(text, topology, step.at, step.turn)?;
    push_turn(text, step.turn)?;
    text.push(b'\n')?;
    Ok(())
}

fn push_place(
    text: &mut Vec<u8>,
    topology: &Topology,
    at: PortRef,
    turn: Turn,
) -> Result<(), AllocError>
    ensures { OnOk result (text.new.items ≡ text.old.items ++ place_text topology.now.nodes at turn) }
{
    match turn {
        Turn::Accepts | Turn::DropsKey => push_port(text, topology, at),
        Turn::Again
        | Turn::DropsInbound
        | Turn::DropsTop
        | Turn::DropsEntry(_)
        | Turn::DropsMask
        | Turn::Takes
        | Turn::DropsOutbound(_)
        | Turn::NoCable(_)
        | Turn::Meets(_)
        | Turn::GoesOut(_) => push_entry(text, topology, at),
    }
}

fn push_turn(text: &mut Vec<u8>, turn: Turn) -> Result<(), AllocError>
    ensures { OnOk result (text.new.items ≡ text.old.items ++ turn_text turn) }
{
    match turn {
        Turn::Again => text.extend_from_slice(b" again"),
        Turn::DropsInbound => text.extend_from_slice(b" drops inbound"),
        Turn::DropsTop => text.extend_from_slice(b" drops top"),
        Turn::DropsEntry(entry) => {
            text.extend_from_slice(b" drops entry ")?;
            push_decimal(text, usize::from(entry))
        }
        Turn::DropsMask => text.extend_from_slice(b" drops mask"),
        Turn::Takes => text.extend_from_slice(b" takes"),
        Turn::DropsOutbound(out) => push_out_and(text, out, b" drops outbound"),
        Turn::NoCable(out) => push_out_and(text, out, b" no cable"),
        Turn::Meets(out) => push_out_and(text, out, b" again"),
        Turn::GoesOut(out) => push_out(text, out),
        Turn::Accepts => text.extend_from_slice(b" accepts"),
        Turn::DropsKey => text.extend_from_slice(b" drops key"),
    }
}

fn push_out_and(text: &mut Vec<u8>, out: u8, what: &[u8]) -> Result<(), AllocError>
    ensures { OnOk result (text.new.items ≡ text.old.items ++ (codes " out " ++ decimal out ++ what.now)) }
{
    push_out(text, out)?;
    text.extend_from_slice(what)
}

fn push_out(text: &mut Vec<u8>, out: u8) -> Result<(), AllocError>
    ensures { OnOk result (text.new.items ≡ text.old.items ++ (codes " out " ++ decimal out)) }
{
    text.extend_from_slice(b" out ")?;
    push_decimal(text, usize::from(out))
}

/// Adds a port of a channel adapter, as `h1/1`.
fn push_port(text: &mut Vec<u8>, topology: &Topology, at: PortRef) -> Result<(), AllocError>
    ensures { OnOk result (text.new.items ≡ text.old.items ++ port_text topology.now.nodes at) }
{
    push_port_name(text, name_at(topology.nodes(), at.node), at.port)
}

/// Adds a switch and the port at which the packet came in, as `A in 2`.
fn push_entry(text: &mut Vec<u8>, topology: &Topology, at: PortRef) -> Result<(), AllocError>
    ensures { OnOk result (text.new.items ≡ text.old.items ++ entry_text topology.now.nodes at) }
{
    text.extend_from_slice(name_at(topology.nodes(), at.node))?;
    text.extend_from_slice(b" in ")?;
    push_decimal(text, usize::from(at.port))
}

/// Adds `PORT stamps SLID DLID PKEY`.
fn push_stamps_line(
    text: &mut Vec<u8>,
    topology: &Topology,
    from: PortRef,
    packet: &Packet,
) -> Result<(), AllocError>
    ensures { OnOk result (text.new.items ≡ text.old.items ++ stamps_line topology.now.nodes from packet.now) }
{
    push_port(text, topology, from)?;
    text.extend_from_slice(b" stamps ")?;
    push_hex(text, &packet.slid.to_be_bytes())?;
    text.extend_from_slice(b" ")?;
    push_hex(text, &packet.dlid.to_be_bytes())?;
    text.extend_from_slice(b" ")?;
    push_hex(text, &packet.p_key.bits().to_be_bytes())?;
    text.push(b'\n')?;
    Ok(())
}

/// Adds `PORT refuses CODE`.
fn push_refuses_line(
    text: &mut Vec<u8>,
    topology: &Topology,
    from: PortRef,
    refusal: Refusal,
) -> Result<(), AllocError>
    ensures { OnOk result (text.new.items ≡ text.old.items ++ refuses_line topology.now.nodes from refusal) }
{
    push_port(text, topology, from)?;
    text.extend_from_slice(b" refuses ")?;
    text.extend_from_slice(refusal.code().as_bytes())?;
    text.push(b'\n')?;
    Ok(())
}
