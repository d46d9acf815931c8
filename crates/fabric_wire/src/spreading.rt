//! Data packets to multicast LIDs, on every path that MFT entries of switches open.

ghost use Rattle.std.specs.Prelude.{ℕ, ◌≡◌, ◌==◌, ◌↔◌, true, filter_map, IfOk, OnOk};
ghost use Rattle.std.specs.Int.{bit_at};
ghost use Rattle.std.specs.List.{Contains};
ghost use Rattle.std.specs.List.Sorted.{IsStrictlySortedBy};
ghost use Rattle.fabric_parts.specs.Lid.{is_multicast};
ghost use Rattle.smp_wire.specs.Deliveries.{in_order, sends_at};
ghost use Rattle.smp_wire.specs.declared.numbers.Numbers.{Numbers as NumbersState};
ghost use Rattle.fabric_wire.specs.Spreading.{AreReached, Gets, IsGrown, numbers_at};

use crate::adapter_ports::adapter_at;
use crate::cabling::Cabling;
use data_packet::Packet;
use fabric_parts::PortRef;
use indexmap::IndexSet;
use smp_wire::{Node, Numbers};
use std::alloc::{AllocError, Global};

/// The ports by which a packet to a multicast LID that came in here goes on, bit n for port n.
fn copies(nodes: &[Node], packet: &Packet, here: PortRef) -> u64
    requires multicast { is_multicast packet.now.dlid ≡ true }
    ensures { (number : ℕ) → (bit_at result number == 1) ≡ sends_at nodes.now here packet.now number }
{
    match nodes.get(here.node) {
        Some(Node::Switch(switch)) => switch.as_switch().multicast_out(here.port, packet),
        Some(Node::Adapter(_)) | None => 0,
    }
}

/// Adds the ports where a packet to a multicast LID that came in here comes in next. It can only run out of memory.
fn go_on(
    nodes: &[Node],
    cabling: &Cabling,
    packet: &Packet,
    here: PortRef,
    ports: &mut IndexSet<PortRef>,
) -> Result<(), AllocError>
    requires multicast { is_multicast packet.now.dlid ≡ true }
    ensures { OnOk result (IsGrown nodes.now cabling.now.cables packet.now here ports.old.keys ports.new.keys) }
{
    let copies = copies(nodes, packet, here);
    if copies == 0 {
        return Ok(());
    }
    for number in 0..u64::BITS as u8 {
        if copies >> number & 1 == 1 {
            let out = PortRef {
                node: here.node,
                port: number,
            };
            if let Some(next) = cabling.far_end(out) {
                ports.insert(next)?;
            }
        }
    }
    Ok(())
}

/// Every port where a packet to a multicast LID comes in that came in first there, in the order in which the search
/// comes to them. It can only run out of memory.
///
/// The ports found so far are also the list of those from which the search goes on: so it ends where masks lead in
/// cycles, and comes to each port once where ways meet.
pub(crate) fn reached(
    alloc: Global,
    nodes: &[Node],
    cabling: &Cabling,
    packet: &Packet,
    first: PortRef,
) -> Result<IndexSet<PortRef>, AllocError>
    requires multicast { is_multicast packet.now.dlid ≡ true }
    ensures { IfOk result (λ ports. AreReached nodes.now cabling.now.cables packet.now first ports.keys) }
{
    let mut ports = IndexSet::new(alloc);
    ports.insert(first)?;
    for place in 0..cabling.count_ends() + 1 {
        let Some(here) = ports.get_index(place).copied() else {
            return Ok(ports);
        };
        go_on(nodes, cabling, packet, here, &mut ports)?;
    }
    Ok(ports)
}

/// The numbers of the port of a channel adapter there, if there is one and it accepts the packet.
fn numbers_at(nodes: &[Node], packet: &Packet, at: PortRef) -> Option<Numbers>
    ensures { result ≡ numbers_at nodes.now packet.now at }
{
    let port = adapter_at(nodes, at)?;
    if port.accept(packet) {
        Some(Numbers {
            lid: port.lid(),
            guid: port.port_guid(),
        })
    } else {
        None
    }
}

/// The numbers of the ports of channel adapters among these that accept the packet. It can only run out of memory.
fn accepting(
    alloc: Global,
    nodes: &[Node],
    packet: &Packet,
    ports: &[PortRef],
) -> Result<Vec<Numbers>, AllocError>
    ensures { IfOk result (λ accepting. accepting.items ≡ filter_map (numbers_at nodes.now packet.now) ports.now) }
{
    ports
        .iter()
        .filter_map(|at| numbers_at(nodes, packet, *at))
        .collect(alloc)
}

/// These numbers, in order.
fn in_order(numbers: Vec<Numbers>) -> Vec<Numbers>
    ensures order { IsStrictlySortedBy in_order result.items }
    ensures same { (one : NumbersState) → Contains result.items one ↔ Contains numbers.items one }
{
    let mut sorted = numbers;
    sorted.sort_unstable();
    sorted.dedup();
    sorted
}

/// The ports that get a packet to a multicast LID which leaves by the port at `from`, in order of LID, then of GUID.
/// It can only run out of memory.
pub(crate) fn receivers(
    alloc: Global,
    nodes: &[Node],
    cabling: &Cabling,
    packet: &Packet,
    from: PortRef,
) -> Result<Vec<Numbers>, AllocError>
    requires multicast { is_multicast packet.now.dlid ≡ true }
    ensures each { IfOk result (λ receivers. (one : NumbersState)
        → Contains receivers.items one ↔ Gets nodes.now cabling.now.cables from packet.now one) }
    ensures order { IfOk result (λ receivers. IsStrictlySortedBy in_order receivers.items) }
{
    let Some(first) = cabling.far_end(from) else {
        return Ok(Vec::new(alloc));
    };
    let ports = reached(alloc, nodes, cabling, packet, first)?;
    let accepting = accepting(alloc, nodes, packet, ports.as_slice())?;
    Ok(in_order(accepting))
}
