//! Linear forwarding tables, as lines.

ghost use Rattle.std.specs.Prelude.{◌≡◌, ◌==◌, ◌++◌, OnOk, IfOk, filter, flat_map, length};
ghost use Rattle.fabric_tables.specs.Tables.{count_line, entry_line, head_line, hop_text, is_led_to, line_towards, linear_tables, path_to, port_table, port_text, port_towards, range_text, route_text, switch_text, table_of, table_text, titles, type_text};

use crate::digits::{push_short_hex, push_three_digits};
use crate::nodes::node_of;
use agent_rules::{LINEAR_TABLE, MULTICAST_TABLE};
use fabric_parts::NodeType;
use fabric_wire::{Fabric, Node};
use std::alloc::{AllocError, Global};
use subnet_model::SubnetPort;
use sweep::Graph;
use switch_model::Switch;
use text_words::{push_decimal, push_guid, push_hex};
use topo_file::Topology;

/// The linear forwarding table of each switch, in the order of their LIDs, as `dump_fts` prints it: the path by which a
/// sweep found the switch, then a line for each of these end ports to which the table leads, with the port by which. It
/// can only run out of memory.
pub(crate) fn linear_tables(
    alloc: Global,
    topology: &Topology,
    ports: &[SubnetPort],
    graph: &Graph,
    fabric: &Fabric,
) -> Result<Vec<u8>, AllocError>
    ensures { IfOk result (λ text. text.items ≡ linear_tables topology.now.nodes ports.now graph.now.switches fabric.now) }
{
    let mut text = Vec::new(alloc);
    for port in ports {
        push_port_table(&mut text, topology, fabric, graph, ports, port)?;
    }
    Ok(text)
}

/// The table of the node of an end port, if it is a switch.
fn push_port_table(
    text: &mut Vec<u8>,
    topology: &Topology,
    fabric: &Fabric,
    graph: &Graph,
    ports: &[SubnetPort],
    port: &SubnetPort,
) -> Result<(), AllocError>
    ensures { OnOk result (text.new.items
        ≡ text.old.items ++ port_table topology.now.nodes fabric.now graph.now.switches ports.now port.now) }
{
    match node_of(topology, fabric, port) {
        Some((_, node)) => push_table_of(text, graph, ports, port, node),
        None => Ok(()),
    }
}

fn push_table_of(
    text: &mut Vec<u8>,
    graph: &Graph,
    ports: &[SubnetPort],
    port: &SubnetPort,
    node: &Node,
) -> Result<(), AllocError>
    ensures { OnOk result (text.new.items ≡ text.old.items ++ table_of graph.now.switches ports.now port.now node.now) }
{
    match node {
        Node::Switch(held) => push_table(text, graph, ports, port, held.as_switch()),
        Node::Adapter(_) => Ok(()),
    }
}

fn push_table(
    text: &mut Vec<u8>,
    graph: &Graph,
    ports: &[SubnetPort],
    switch: &SubnetPort,
    held: &Switch<LINEAR_TABLE, MULTICAST_TABLE>,
) -> Result<(), AllocError>
    ensures { OnOk result (text.new.items ≡ text.old.items ++ table_text graph.now.switches ports.now switch.now held.now) }
{
    push_head_line(text, path_to(graph, switch.guid), switch, held)?;
    push_titles(text)?;
    push_lines_towards(text, held, ports)?;
    push_count_line(text, count_of(held, ports))
}

/// To how many of these end ports the table leads.
fn count_of(held: &Switch<LINEAR_TABLE, MULTICAST_TABLE>, ports: &[SubnetPort]) -> usize
    ensures { result ≡ length (filter (is_led_to held.now) ports.now) }
{
    ports.iter().filter(|port| is_led_to(held, port)).count()
}

#[tactic(auto, unfolding(crate::specs::Tables::titles))]
fn push_titles(text: &mut Vec<u8>) -> Result<(), AllocError>
    ensures { OnOk result (text.new.items ≡ text.old.items ++ titles) }
{
    text.extend_from_slice(b"  Lid  Out   Destination")?;
    text.push(b'\n')?;
    text.extend_from_slice(b"       Port     Info ")?;
    text.push(b'\n')?;
    Ok(())
}

/// The path by which a sweep found the switch of that GUID.
pub(crate) fn path_to(graph: &Graph, guid: u64) -> &[u8]
    ensures { result.now ≡ path_to graph.now.switches guid }
{
    match graph.switch(guid) {
        Some(switch) => switch.path.as_slice(),
        None => &[],
    }
}

/// Adds the line with LinearFDBTop and the path to a switch.
#[tactic(auto, unfolding(crate::specs::Tables::head_line))]
fn push_head_line(
    text: &mut Vec<u8>,
    path: &[u8],
    switch: &SubnetPort,
    held: &Switch<LINEAR_TABLE, MULTICAST_TABLE>,
) -> Result<(), AllocError>
    ensures { OnOk result (text.new.items ≡ text.old.items ++ head_line path.now switch.now held.now) }
{
    text.extend_from_slice(b"Unicast lids ")?;
    push_range(text, held)?;
    push_route(text, path)?;
    push_switch(text, switch)?;
    text.push(b'\n')?;
    Ok(())
}

fn push_range(
    text: &mut Vec<u8>,
    held: &Switch<LINEAR_TABLE, MULTICAST_TABLE>,
) -> Result<(), AllocError>
    ensures { OnOk result (text.new.items ≡ text.old.items ++ range_text held.now) }
{
    text.extend_from_slice(b"[0x0-")?;
    push_short_hex(text, held.linear_top())?;
    text.extend_from_slice(b"]")
}

pub(crate) fn push_route(text: &mut Vec<u8>, path: &[u8]) -> Result<(), AllocError>
    ensures { OnOk result (text.new.items ≡ text.old.items ++ route_text path.now) }
{
    text.extend_from_slice(b" of switch DR path slid 0; dlid 0; 0")?;
    push_hops(text, path)
}

pub(crate) fn push_switch(text: &mut Vec<u8>, switch: &SubnetPort) -> Result<(), AllocError>
    ensures { OnOk result (text.new.items ≡ text.old.items ++ switch_text switch.now) }
{
    text.extend_from_slice(b" guid ")?;
    push_guid(text, switch.guid)?;
    text.extend_from_slice(b" (")?;
    text.extend_from_slice(switch.node_name.as_slice())?;
    text.extend_from_slice(b"):")
}

fn push_hops(text: &mut Vec<u8>, path: &[u8]) -> Result<(), AllocError>
    ensures { OnOk result (text.new.items ≡ text.old.items ++ flat_map hop_text path.now) }
{
    for number in path {
        push_hop(text, *number)?;
    }
    Ok(())
}

fn push_hop(text: &mut Vec<u8>, number: u8) -> Result<(), AllocError>
    ensures { OnOk result (text.new.items ≡ text.old.items ++ hop_text number) }
{
    text.extend_from_slice(b",")?;
    push_decimal(text, usize::from(number))
}

/// A line for each of these end ports to which the table leads.
fn push_lines_towards(
    text: &mut Vec<u8>,
    held: &Switch<LINEAR_TABLE, MULTICAST_TABLE>,
    ports: &[SubnetPort],
) -> Result<(), AllocError>
    ensures { OnOk result (text.new.items ≡ text.old.items ++ flat_map (line_towards held.now) ports.now) }
{
    for port in ports {
        push_line_towards(text, held, port)?;
    }
    Ok(())
}

fn push_line_towards(
    text: &mut Vec<u8>,
    held: &Switch<LINEAR_TABLE, MULTICAST_TABLE>,
    port: &SubnetPort,
) -> Result<(), AllocError>
    ensures { OnOk result (text.new.items ≡ text.old.items ++ line_towards held.now port.now) }
{
    match port_towards(held, port.lid) {
        Some(entry) => push_entry_line(text, port, entry),
        None => Ok(()),
    }
}

/// Whether the table leads to an end port.
fn is_led_to(held: &Switch<LINEAR_TABLE, MULTICAST_TABLE>, port: &SubnetPort) -> bool
    ensures { result ≡ is_led_to held.now port.now }
{
    port_towards(held, port.lid).is_some()
}

/// The entry for a LID that counts, if it is a port of the switch.
fn port_towards(held: &Switch<LINEAR_TABLE, MULTICAST_TABLE>, lid: u16) -> Option<u8>
    ensures { result ≡ port_towards held.now lid }
{
    let entry = held.linear_entry_of(lid)?;
    if usize::from(entry) <= held.port_count() {
        Some(entry)
    } else {
        None
    }
}

/// Adds `LID PORT : (TYPE portguid GUID: 'NAME')`.
fn push_entry_line(text: &mut Vec<u8>, port: &SubnetPort, entry: u8) -> Result<(), AllocError>
    ensures { OnOk result (text.new.items ≡ text.old.items ++ entry_line port.now entry) }
{
    push_hex(text, &port.lid.to_be_bytes())?;
    text.extend_from_slice(b" ")?;
    push_three_digits(text, entry)?;
    text.extend_from_slice(b" : ")?;
    push_port(text, port)?;
    text.push(b'\n')?;
    Ok(())
}

#[tactic(auto, unfolding(crate::specs::Tables::port_text))]
fn push_port(text: &mut Vec<u8>, port: &SubnetPort) -> Result<(), AllocError>
    ensures { OnOk result (text.new.items ≡ text.old.items ++ port_text port.now) }
{
    text.extend_from_slice(b"(")?;
    text.extend_from_slice(type_text(port.node_type))?;
    text.extend_from_slice(b" portguid ")?;
    push_guid(text, port.guid)?;
    text.extend_from_slice(b": '")?;
    text.extend_from_slice(port.node_name.as_slice())?;
    text.extend_from_slice(b"')")
}

fn type_text(node_type: NodeType) -> &'static [u8]
    ensures { result.now ≡ type_text node_type }
{
    if node_type.is_switch() {
        b"Switch"
    } else {
        b"Channel Adapter"
    }
}

/// Adds `COUNT valid lids dumped `.
#[tactic(auto, unfolding(crate::specs::Tables::count_line))]
fn push_count_line(text: &mut Vec<u8>, count: usize) -> Result<(), AllocError>
    ensures { OnOk result (text.new.items ≡ text.old.items ++ count_line count) }
{
    push_decimal(text, count)?;
    text.extend_from_slice(b" valid lids dumped ")?;
    text.push(b'\n')?;
    Ok(())
}
