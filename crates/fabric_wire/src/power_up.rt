//! The nodes of a topology's fabric, at power-up.

ghost use Rattle.std.specs.Prelude.{◌≡◌, ◌≤◌, ◌<◌, ◌+◌, ◌^◌, true, IfOk, map};
ghost use Rattle.std.specs.List.{range_with_len};
ghost use Rattle.fabric_parts.specs.declared.node_type.NodeType.TheVariants as node_type;
ghost use Rattle.fabric_parts.specs.NodeType.{most_ports};
ghost use Rattle.topo_file.specs.Node.{HasGuids, port_guid};
ghost use Rattle.topo_file.specs.Sound.{is_sized};
ghost use Rattle.fabric_wire.specs.OfTopology.{adapter_port_of, fabric_of, link_of, links_of, node_of, node_of_type};

use agent_rules::{LINEAR_TABLE, MULTICAST_TABLE, PortLink};
use fabric_parts::{NodeType, PortRef};
use port_model::AdapterPort;
use smp_wire::{AdapterPorts, BoxedSwitch, Node};
use std::alloc::{AllocError, Global};
use switch_model::Switch;
use topo_file::{Node as PlannedNode, Topology};

/// The nodes of the fabric that a topology describes, at power-up, in its order. It can only run out of
/// memory.
pub fn nodes_of(alloc: Global, topology: &Topology) -> Result<Vec<Node>, AllocError>
    ensures { IfOk result (λ nodes. nodes.items ≡ (fabric_of topology.now).nodes) }
{
    let planned = topology.nodes();
    let mut nodes = Vec::with_capacity(alloc, planned.len())?;
    for (place, node) in planned.iter().enumerate() {
        let node = node_of(alloc, topology, place, node)?;
        nodes.push(node)?;
    }
    Ok(nodes)
}

fn node_of(
    alloc: Global,
    topology: &Topology,
    place: usize,
    node: &PlannedNode,
) -> Result<Node, AllocError>
    requires sized { is_sized node.now ≡ true }
    requires guids { HasGuids node.now }
    ensures { IfOk result (λ built. built ≡ node_of topology.now.cables place node.now) }
{
    match node.node_type {
        NodeType::Switch => switch_of(alloc, topology, place, node),
        NodeType::ChannelAdapter => adapter_of(alloc, topology, place, node),
    }
}

#[tactic(auto, using(crate::proofs::OfTopologyLemmas::links_long))]
fn switch_of(
    alloc: Global,
    topology: &Topology,
    place: usize,
    node: &PlannedNode,
) -> Result<Node, AllocError>
    requires { node.now.ports ≤ most_ports node_type.Switch }
    ensures { IfOk result (λ built. built ≡ node_of_type NodeType.Switch topology.now.cables place node.now) }
{
    let links = links_of(alloc, topology, place, node.ports)?;
    let switch = Switch::<LINEAR_TABLE, MULTICAST_TABLE>::new(
        node.guid,
        node.name.as_bytes(),
        &links,
    );
    Ok(Node::Switch(BoxedSwitch::new(alloc, switch)?))
}

fn adapter_of(
    alloc: Global,
    topology: &Topology,
    place: usize,
    node: &PlannedNode,
) -> Result<Node, AllocError>
    requires guids { port_guid node.now node.now.ports < 2 ^ 64 }
    requires few { node.now.ports ≤ most_ports node_type.ChannelAdapter }
    ensures { IfOk result (λ built. built ≡ node_of_type NodeType.ChannelAdapter topology.now.cables place node.now) }
{
    let ports = adapter_ports_of(alloc, topology, place, node)?;
    Ok(Node::Adapter(AdapterPorts::new(ports)))
}

/// The ports of an adapter, from port 1 on.
fn adapter_ports_of(
    alloc: Global,
    topology: &Topology,
    place: usize,
    node: &PlannedNode,
) -> Result<Vec<AdapterPort>, AllocError>
    requires guids { port_guid node.now node.now.ports < 2 ^ 64 }
    requires few { node.now.ports ≤ most_ports node_type.ChannelAdapter }
    ensures { IfOk result (λ ports. ports.items
        ≡ map (adapter_port_of topology.now.cables place node.now) (range_with_len 1 node.now.ports)) }
{
    let mut ports = Vec::with_capacity(alloc, node.ports as usize)?;
    for number in 1..node.ports + 1 {
        ports.push(adapter_port_of(topology, place, node, number))?;
    }
    Ok(ports)
}

fn adapter_port_of(topology: &Topology, place: usize, node: &PlannedNode, number: u8) -> AdapterPort
    requires { port_guid node.now number < 2 ^ 64 }
    ensures { result ≡ adapter_port_of topology.now.cables place node.now number }
{
    AdapterPort::new(
        node.guid,
        node.ports,
        number,
        node.port_guid(number),
        node.name.as_bytes(),
        link_of(topology, place, number),
    )
}

/// The links of a node's ports, from port 1 on.
fn links_of(
    alloc: Global,
    topology: &Topology,
    place: usize,
    count: u8,
) -> Result<Vec<PortLink>, AllocError>
    requires { count ≤ most_ports node_type.Switch }
    ensures { IfOk result (λ links. links.items ≡ links_of topology.now.cables place count) }
{
    (1..count + 1)
        .map(|number| link_of(topology, place, number))
        .collect(alloc)
}

fn link_of(topology: &Topology, place: usize, number: u8) -> PortLink
    ensures { result ≡ link_of topology.now.cables place number }
{
    let port = PortRef {
        node: place,
        port: number,
    };
    if topology.is_cabled(port) {
        PortLink::Cabled
    } else {
        PortLink::Uncabled
    }
}
