//! The end ports of a topology, in the order of their LIDs.

ghost use Rattle.std.specs.Prelude.{◌≡◌, ◌+◌, ◌^◌, ◌<◌, ◌≤◌, [], ◌∷◌, ◌++◌, length, map, nat_le, All, IfOk, OnOk};
ghost use Rattle.std.specs.List.{prefix_len, zip};
ghost use Rattle.topo_file.specs.Node.{HasGuids, port_guid, ports_at};
ghost use Rattle.fabric_parts.specs.declared.limits.TheConstants.{LARGE_SWITCHES, LARGE_ADAPTER_PORTS};
ghost use Rattle.partition_file.specs.Members.{AreSoundHeadings};
ghost use Rattle.subnet_fabric.specs.EndPorts.{AreEndPorts};
ghost use Rattle.subnet_fabric.specs.Ports.{switch_end_place, adapter_end_place, end_place_if_cabled, adapter_end_places, end_places_of_type, end_places, end_ports, type_of, end_placed, with_port, with_end_place, in_order, configuration_of, Rise};
ghost use Rattle.subnet_model.specs.Configured.{IsConfigured};
ghost use Rattle.subnet_model.specs.EndPorts.{lid_of};

use crate::guid_order::GuidOrder;
use fabric_parts::{NodeType, PortRef};
use partition_file::{Partitions, members};
use pkey_rules::{EndPort, KeyTable, PARTITIONS};
use std::alloc::{AllocError, Global};
use subnet_model::{Configuration, NodeName, SubnetPort};
use topo_file::{LargeTopology, Node, Topology, guid_at, name_at, ports_at};

/// Where an end port stands: the place of its node in the topology, and its number there.
#[derive(Clone, Copy)]
pub(crate) struct EndPlace {
    place: usize,
    number: u8,
    port: EndPort,
}

/// The end ports of a topology, in order of their LIDs, each with the keys that the partitions give
/// it; and the partitions without their lists.
pub fn configuration_of(
    alloc: Global,
    topology: &Topology,
    partitions: &Partitions,
) -> Result<Configuration, AllocError>
    ensures value { IfOk result (λ configuration. configuration ≡ configuration_of partitions.now topology.now) }
    ensures end_ports { IfOk result (λ configuration.
        AreEndPorts partitions.now topology.now configuration.ports) }
    ensures configured { IfOk result IsConfigured }
{
    topology.known_sound();
    let configuration = large_configuration_of(alloc, topology.as_large(), partitions)?;
    Ok(configuration)
}

/// The same of a topology of any size, whose fabric need not be simulated.
pub fn large_configuration_of(
    alloc: Global,
    topology: &LargeTopology,
    partitions: &Partitions,
) -> Result<Configuration, AllocError>
    ensures value { IfOk result (λ configuration. configuration ≡ configuration_of partitions.now topology.now) }
    ensures few { IfOk result (λ configuration. length configuration.ports ≤ LARGE_SWITCHES + LARGE_ADAPTER_PORTS) }
    ensures headings { IfOk result (λ configuration. AreSoundHeadings configuration.partitions) }
{
    let end_places = end_places(alloc, topology)?;
    let all = end_ports(alloc, &end_places)?;
    let (headings, keys) = members(alloc, partitions, &all)?.into_parts();
    let ports = in_order(alloc, topology.nodes(), &all, &end_places, keys)?;
    Ok(Configuration::new(ports, headings))
}

fn end_places(alloc: Global, topology: &LargeTopology) -> Result<Vec<EndPlace>, AllocError>
    ensures value { IfOk result (λ all. all.items ≡ end_places topology.now) }
    ensures few { IfOk result (λ all. length all.items ≤ LARGE_SWITCHES + LARGE_ADAPTER_PORTS) }
{
    let mut all = Vec::new(alloc);
    for (place, node) in topology.nodes().iter().enumerate() {
        push_end_places(&mut all, topology, place, node)?;
    }
    Ok(all)
}

fn push_end_places(
    all: &mut Vec<EndPlace>,
    topology: &LargeTopology,
    place: usize,
    node: &Node,
) -> Result<(), AllocError>
    requires { HasGuids node.now }
    ensures { OnOk result (all.new.items
        ≡ all.old.items ++ end_places_of_type node.now.node_type topology.now place node.now) }
{
    match node.node_type {
        NodeType::Switch => {
            all.push(switch_end_place(place, node))?;
            Ok(())
        }
        NodeType::ChannelAdapter => push_adapter_end_places(all, topology, place, node),
    }
}

fn switch_end_place(place: usize, node: &Node) -> EndPlace
    ensures { result ≡ switch_end_place place node.now }
{
    EndPlace {
        place,
        number: 0,
        port: EndPort {
            guid: node.guid,
            is_switch: true,
            is_sm: false,
        },
    }
}

fn push_adapter_end_places(
    all: &mut Vec<EndPlace>,
    topology: &LargeTopology,
    place: usize,
    node: &Node,
) -> Result<(), AllocError>
    requires { port_guid node.now node.now.ports < 2 ^ 64 }
    ensures { OnOk result (all.new.items
        ≡ all.old.items ++ adapter_end_places topology.now place node.now node.now.ports) }
{
    for index in 0..node.ports {
        let at = PortRef {
            node: place,
            port: index + 1,
        };
        push_if_cabled(all, topology, node, at)?;
    }
    Ok(())
}

fn push_if_cabled(
    all: &mut Vec<EndPlace>,
    topology: &LargeTopology,
    node: &Node,
    at: PortRef,
) -> Result<(), AllocError>
    requires { port_guid node.now at.port < 2 ^ 64 }
    ensures { OnOk result (all.new.items ≡ all.old.items ++ end_place_if_cabled topology.now node.now at) }
{
    if topology.is_cabled(at) {
        all.push(adapter_end_place(topology.sm(), node, at))?;
    }
    Ok(())
}

fn adapter_end_place(sm: PortRef, node: &Node, at: PortRef) -> EndPlace
    requires { port_guid node.now at.port < 2 ^ 64 }
    ensures { result ≡ adapter_end_place sm node.now at }
{
    EndPlace {
        place: at.node,
        number: at.port,
        port: EndPort {
            guid: node.port_guid(at.port),
            is_switch: false,
            is_sm: at == sm,
        },
    }
}

fn end_ports(alloc: Global, end_places: &[EndPlace]) -> Result<Vec<EndPort>, AllocError>
    ensures { IfOk result (λ ports. ports.items ≡ end_ports end_places.now) }
{
    end_places
        .iter()
        .map(|end_place| end_place.port)
        .collect(alloc)
}

fn in_order(
    alloc: Global,
    nodes: &[Node],
    all: &[EndPort],
    end_places: &[EndPlace],
    keys: Vec<KeyTable<PARTITIONS>>,
) -> Result<Vec<SubnetPort>, AllocError>
    requires { length all.now ≤ LARGE_SWITCHES + LARGE_ADAPTER_PORTS }
    ensures { IfOk result (λ ports. ports.items ≡ in_order nodes.now all.now (zip end_places.now keys.items)) }
{
    let order = GuidOrder::of(alloc, all)?;
    let mut ports = Vec::new(alloc);
    for (end_place, held) in end_places.iter().zip(keys) {
        let port = end_placed(nodes, order.lid_of(&end_place.port), end_place, held);
        insert_port(&mut ports, port)?;
    }
    Ok(ports)
}

/// Puts a port behind those of lesser LIDs.
fn insert_port(ports: &mut Vec<SubnetPort>, port: SubnetPort) -> Result<(), AllocError>
    requires { Rise ports.old.items }
    ensures placed { OnOk result (ports.new.items ≡ with_port ports.old.items port) }
    ensures rise { OnOk result (Rise ports.new.items) }
{
    let place = place_for(ports, &port);
    ports.insert(place, port)?;
    Ok(())
}

/// How many ports stand before the first of a greater LID than this one's.
fn place_for(ports: &[SubnetPort], port: &SubnetPort) -> usize
    requires { Rise ports.now }
    ensures value { result ≡ prefix_len (λ other. nat_le other.lid port.now.lid) ports.now }
    ensures within { result ≤ length ports.now }
{
    let lid = port.lid;
    ports.partition_point(|other| other.lid <= lid)
}

fn end_placed(
    nodes: &[Node],
    lid: u16,
    end_place: &EndPlace,
    keys: KeyTable<PARTITIONS>,
) -> SubnetPort
    ensures { result ≡ end_placed nodes.now keys lid end_place.now }
{
    SubnetPort {
        lid,
        guid: end_place.port.guid,
        node_name: NodeName::new(name_at(nodes, end_place.place)),
        node_guid: guid_at(nodes, end_place.place),
        num_ports: ports_at(nodes, end_place.place),
        number: end_place.number,
        node_type: type_of(end_place.port.is_switch),
        keys,
    }
}

fn type_of(is_switch: bool) -> NodeType
    ensures { result ≡ type_of is_switch }
{
    if is_switch {
        NodeType::Switch
    } else {
        NodeType::ChannelAdapter
    }
}
