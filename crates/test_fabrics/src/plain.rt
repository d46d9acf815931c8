//! The same fabrics over the plain wire, which has no hops.

use crate::texts::TWO_SWITCHES;
use agent_rules::{LINEAR_TABLE, MULTICAST_TABLE, PortLink};
use fabric_parts::{PortRef, SWITCH_PORTS};
use fabric_wire::{AdapterPorts, BoxedSwitch, Node, PlainWire};
use port_model::AdapterPort;
use std::alloc::Global;
use std::test::Fail;
use switch_model::Switch;
use topo_file::{Node as PlannedNode, Topology, read};

/// The two-switch fabric over the plain wire.
pub fn two_switch_wire(alloc: Global) -> Result<PlainWire, Fail> {
    let topology = read(alloc, TWO_SWITCHES.as_bytes()).or(Err("the topology"))?;
    plain_wire_of(alloc, &topology)
}

fn link_of(topology: &Topology, node: usize, port: u8) -> PortLink {
    if topology.is_cabled(PortRef { node, port }) {
        PortLink::Cabled
    } else {
        PortLink::Uncabled
    }
}

fn switch_of(
    alloc: Global,
    topology: &Topology,
    place: usize,
    node: &PlannedNode,
) -> Result<Node, Fail> {
    let mut links = [PortLink::Uncabled; SWITCH_PORTS];
    for port in 1..SWITCH_PORTS as u8 + 1 {
        links[port as usize - 1] = link_of(topology, place, port);
    }
    let count = usize::from(node.ports).min(SWITCH_PORTS);
    let switch: Switch<LINEAR_TABLE, MULTICAST_TABLE> = Switch::new(
        node.guid,
        node.name.as_bytes(),
        &links[..count],
    );
    let boxed = BoxedSwitch::new(alloc, switch).ok().ok_or("memory")?;
    Ok(Node::Switch(boxed))
}

fn adapter_of(
    alloc: Global,
    topology: &Topology,
    place: usize,
    node: &PlannedNode,
) -> Result<Node, Fail> {
    let mut ports = Vec::new(alloc);
    for number in 1..node.ports.saturating_add(1) {
        let guid = node.guid.wrapping_add(u64::from(number));
        let link = link_of(topology, place, number);
        let name = node.name.as_bytes();
        let port = AdapterPort::new(node.guid, node.ports, number, guid, name, link);
        ports.push(port).ok().ok_or("memory")?;
    }
    Ok(Node::Adapter(AdapterPorts::new(ports)))
}

/// The nodes of a topology at power-up and its cables, as the plain wire keeps them.
pub fn plain_wire_of(alloc: Global, topology: &Topology) -> Result<PlainWire, Fail> {
    let mut nodes = Vec::new(alloc);
    for (place, node) in topology.nodes().iter().enumerate() {
        let made = if node.is_switch() {
            switch_of(alloc, topology, place, node)?
        } else {
            adapter_of(alloc, topology, place, node)?
        };
        nodes.push(made).ok().ok_or("memory")?;
    }
    let mut cables = Vec::new(alloc);
    for cable in topology.cables() {
        cables.push(*cable).ok().ok_or("memory")?;
    }
    Ok(PlainWire::new(nodes, cables, topology.sm()))
}
