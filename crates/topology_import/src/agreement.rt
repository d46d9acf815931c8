//! Whether a topology that was read is that of a discovery.

ghost use Rattle.std.specs.Prelude.{◌≡◌, ◌+◌, ◌&&◌, IfOk};
ghost use Rattle.std.specs.List.{list_all, range_with_len, zip};
ghost use Rattle.topo_file.specs.Node.{is_switch_at, port_guid, port_guid_at};
ghost use Rattle.topology_import.specs.Ends.{counted, is_above};
ghost use Rattle.topology_import.specs.Agreement.{agrees, are_as_planned, has_cable, has_ends, is_as_planned, is_end_port, is_reported};
ghost use Rattle.topology_import.specs.PortPairs.{joins_cable, joins_line};

use crate::ends::{EndList, counts};
use crate::planned::Planned;
use crate::port_pairs::{PortKey, PortPairs};
use fabric_parts::{Cable, PortRef};
use netdiscover_file::{Discovery, PortLine};
use std::alloc::{AllocError, Global};
use topo_file::{LargeTopology, Node, is_switch_at};

fn is_as_planned(planned: &Planned, node: &Node) -> bool
    ensures { result ≡ is_as_planned (planned.now, node.now) }
{
    planned.name.as_bytes() == node.name.as_bytes()
        && (planned.node_type.code() == node.node_type.code()
            && (planned.guid == node.guid && planned.ports == node.ports))
}

fn all_as_planned(planned: &[Planned], nodes: &[Node]) -> bool
    ensures { result ≡ list_all is_as_planned (zip planned.now nodes.now) }
{
    planned
        .iter()
        .zip(nodes.iter())
        .all(|(planned, node)| is_as_planned(planned, node))
}

fn are_as_planned(planned: &[Planned], nodes: &[Node]) -> bool
    ensures { result ≡ are_as_planned planned.now nodes.now }
{
    planned.len() == nodes.len() && all_as_planned(planned, nodes)
}

/// Whether each of so many ports of an adapter of this GUID is an end port of the discovery.
fn are_ends(ends: &EndList, guid: u64, ports: u8) -> bool
    ensures { result ≡ list_all (λ before. is_above ends.now guid (before + 1)) (range_with_len 0 ports) }
{
    for before in 0..ports {
        if !ends.is_above(guid, before + 1) {
            return false;
        }
    }
    true
}

fn has_ends(ends: &EndList, node: &Node) -> bool
    ensures { result ≡ has_ends ends.now node.now }
{
    node.is_switch() || are_ends(ends, node.guid, node.ports)
}

fn all_have_ends(ends: &EndList, nodes: &[Node]) -> bool
    ensures { result ≡ list_all (has_ends ends.now) nodes.now }
{
    nodes.iter().all(|node| has_ends(ends, node))
}

/// The GUID of a port of the adapter there, which may be past 64 bits.
pub(crate) fn port_guid_at(nodes: &[Node], port: PortRef) -> u128
    ensures { result ≡ port_guid_at nodes.now port }
{
    match nodes.get(port.node) {
        Some(node) => port_guid(node, port.port),
        None => 0,
    }
}

fn port_guid(node: &Node, number: u8) -> u128
    ensures { result ≡ port_guid node.now number }
{
    u128::from(node.guid) + u128::from(number)
}

/// Whether it is the end port of this GUID.
fn is_end_port(nodes: &[Node], port: PortRef, guid: u64) -> bool
    ensures { result ≡ is_end_port nodes.now port guid }
{
    !is_switch_at(nodes, port.node) && port_guid_at(nodes, port) == u128::from(guid)
}

/// Whether the port of a line, and that to which it leads, are joined.
fn joins_line(discovery: &Discovery, pairs: &PortPairs, line: &PortLine) -> bool
    ensures { result ≡ joins_line discovery.now pairs.now line.now }
{
    match discovery.far_line(&line.far) {
        Some(other) => pairs.joins(
            PortKey::of_line(discovery, line),
            PortKey::of_line(discovery, other),
        ),
        None => false,
    }
}

fn joins_lines(discovery: &Discovery, pairs: &PortPairs) -> bool
    ensures { result ≡ list_all (joins_line discovery.now pairs.now) (counted discovery.now) }
{
    let nodes = discovery.nodes();
    discovery
        .ports()
        .iter()
        .filter(|line| counts(nodes, *line))
        .all(|line| joins_line(discovery, pairs, line))
}

/// Whether the ends of a cable are joined.
fn joins_cable(nodes: &[Node], pairs: &PortPairs, cable: &Cable) -> bool
    ensures { result ≡ joins_cable nodes.now pairs.now cable.now }
{
    pairs.joins(
        PortKey::of_port(nodes, cable.first),
        PortKey::of_port(nodes, cable.second),
    )
}

fn joins_cables(plan: &LargeTopology, pairs: &PortPairs) -> bool
    ensures { result ≡ list_all (joins_cable plan.now.nodes pairs.now) plan.now.cables }
{
    let nodes = plan.nodes();
    plan.cables()
        .iter()
        .all(|cable| joins_cable(nodes, pairs, cable))
}

/// Whether each line that counts has its cable, and each cable is that of such a line.
#[tactic(auto, using(crate::proofs::PairLemmas::lines_have, crate::proofs::PairLemmas::cables_are))]
fn joins_alike(
    alloc: Global,
    discovery: &Discovery,
    plan: &LargeTopology,
) -> Result<bool, AllocError>
    ensures { IfOk result (λ answer. answer
        ≡ (list_all (has_cable discovery.now plan.now) (counted discovery.now) && list_all (is_reported discovery.now plan.now) plan.now.cables)) }
{
    let cables = PortPairs::of_cables(alloc, plan)?;
    let lines = PortPairs::of_lines(alloc, discovery)?;
    Ok(joins_lines(discovery, &cables) && joins_cables(plan, &lines))
}

/// Whether the topology has the planned nodes, adapters with the end ports of the discovery alone, the cables of the lines that
/// count and no others, the subnet manager on the end port of this GUID, and no roots.
pub(crate) fn agrees(
    alloc: Global,
    discovery: &Discovery,
    ends: &EndList,
    planned: &[Planned],
    manager: u64,
    plan: &LargeTopology,
) -> Result<bool, AllocError>
    ensures { IfOk result (λ answer. answer ≡ agrees discovery.now ends.now planned.now manager plan.now) }
{
    let nodes = plan.nodes();
    let joined = joins_alike(alloc, discovery, plan)?;
    Ok(
        are_as_planned(planned, nodes)
            && all_have_ends(ends, nodes)
            && joined
            && is_end_port(nodes, plan.sm(), manager)
            && plan.roots().is_empty(),
    )
}
