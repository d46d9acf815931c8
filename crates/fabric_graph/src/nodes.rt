//! The nodes of a topology, as lines.

ghost use Rattle.std.specs.Prelude.{◌≡◌, ◌++◌, OnOk, flat_map};
ghost use Rattle.fabric_graph.specs.Nodes.{attributes, guid_words, is_manager, label, lid_line, lid_line_of, manager_line, mark};
ghost use Rattle.fabric_graph.specs.Nodes.{node_line, port_words, shape, tooltip};

use crate::partitions::{is_of, push_fill_of};
use std::alloc::{AllocError, Global};
use subnet_model::{Configuration, SubnetPort};
use text_words::{push_decimal, push_guid, push_hex, push_quoted};
use topo_file::{Node, Topology};

/// Adds the line of a node.
pub(crate) fn push_node_line(
    alloc: Global,
    text: &mut Vec<u8>,
    topology: &Topology,
    configuration: &Configuration,
    node: &Node,
) -> Result<(), AllocError>
    ensures { OnOk result (text.new.items ≡ text.old.items ++ node_line topology.now configuration.now node.now) }
{
    text.extend_from_slice(b"  ")?;
    push_quoted(text, node.name.as_bytes())?;
    text.extend_from_slice(b" [")?;
    push_attributes(alloc, text, topology, configuration, node)?;
    text.extend_from_slice(b"];\n")
}

#[tactic(auto, unfolding(crate::specs::Nodes::attributes))]
fn push_attributes(
    alloc: Global,
    text: &mut Vec<u8>,
    topology: &Topology,
    configuration: &Configuration,
    node: &Node,
) -> Result<(), AllocError>
    ensures { OnOk result (text.new.items ≡ text.old.items ++ attributes topology.now configuration.now node.now) }
{
    text.extend_from_slice(b"shape=")?;
    text.extend_from_slice(shape(node))?;
    push_label(text, topology, configuration, node)?;
    push_tooltip(text, node)?;
    text.extend_from_slice(mark(topology, node))?;
    push_fill_of(alloc, text, configuration, node)
}

fn shape(node: &Node) -> &'static [u8]
    ensures { result.now ≡ shape node.now }
{
    if node.is_switch() { b"box" } else { b"ellipse" }
}

fn mark(topology: &Topology, node: &Node) -> &'static [u8]
    ensures { result.now ≡ mark topology.now node.now }
{
    if is_manager(topology, node) {
        b", peripheries=2"
    } else {
        b""
    }
}

/// Whether the subnet manager runs on a port of the node.
pub(crate) fn is_manager(topology: &Topology, node: &Node) -> bool
    ensures { result ≡ is_manager topology.now node.now }
{
    match topology.nodes().get(topology.sm().node) {
        Some(manager) => manager.guid == node.guid,
        None => false,
    }
}

/// Adds the label of a node.
#[tactic(auto, unfolding(crate::specs::Nodes::label))]
fn push_label(
    text: &mut Vec<u8>,
    topology: &Topology,
    configuration: &Configuration,
    node: &Node,
) -> Result<(), AllocError>
    ensures { OnOk result (text.new.items ≡ text.old.items ++ label topology.now configuration.now node.now) }
{
    text.extend_from_slice(b", label=\"")?;
    text.extend_from_slice(node.name.as_bytes())?;
    push_lid_lines(text, configuration.ports(), node)?;
    text.extend_from_slice(manager_line(topology, node))?;
    text.extend_from_slice(b"\"")
}

/// Adds the GUID of a switch.
fn push_tooltip(text: &mut Vec<u8>, node: &Node) -> Result<(), AllocError>
    ensures { OnOk result (text.new.items ≡ text.old.items ++ tooltip node.now) }
{
    if node.is_switch() {
        push_guid_words(text, node.guid)
    } else {
        Ok(())
    }
}

#[tactic(auto, unfolding(crate::specs::Nodes::guid_words))]
fn push_guid_words(text: &mut Vec<u8>, guid: u64) -> Result<(), AllocError>
    ensures { OnOk result (text.new.items ≡ text.old.items ++ guid_words guid) }
{
    text.extend_from_slice(b", tooltip=\"")?;
    push_guid(text, guid)?;
    text.push(b'"')?;
    Ok(())
}

/// Adds the LIDs of those of these end ports that are the node's.
fn push_lid_lines(text: &mut Vec<u8>, ports: &[SubnetPort], node: &Node) -> Result<(), AllocError>
    ensures { OnOk result (text.new.items ≡ text.old.items ++ flat_map (lid_line_of node.now) ports.now) }
{
    for port in ports {
        push_lid_line_of(text, node, port)?;
    }
    Ok(())
}

fn push_lid_line_of(text: &mut Vec<u8>, node: &Node, port: &SubnetPort) -> Result<(), AllocError>
    ensures { OnOk result (text.new.items ≡ text.old.items ++ lid_line_of node.now port.now) }
{
    if is_of(node, port) {
        push_lid_line(text, port)
    } else {
        Ok(())
    }
}

fn push_lid_line(text: &mut Vec<u8>, port: &SubnetPort) -> Result<(), AllocError>
    ensures { OnOk result (text.new.items ≡ text.old.items ++ lid_line port.now) }
{
    text.extend_from_slice(b"\\n")?;
    push_port_words(text, port.number)?;
    text.extend_from_slice(b"LID ")?;
    push_hex(text, &port.lid.to_be_bytes())
}

/// Adds the number of a port, unless it is the switch itself.
fn push_port_words(text: &mut Vec<u8>, number: u8) -> Result<(), AllocError>
    ensures { OnOk result (text.new.items ≡ text.old.items ++ port_words number) }
{
    if number == 0 {
        return Ok(());
    }
    text.extend_from_slice(b"port ")?;
    push_decimal(text, usize::from(number))?;
    text.extend_from_slice(b" ")
}

fn manager_line(topology: &Topology, node: &Node) -> &'static [u8]
    ensures { result.now ≡ manager_line topology.now node.now }
{
    if is_manager(topology, node) {
        b"\\nsubnet manager"
    } else {
        b""
    }
}
