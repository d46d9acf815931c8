//! P_Key tables, as lines.

ghost use Rattle.std.specs.Prelude.{◌≡◌, ◌++◌, OnOk, IfOk, flat_map};
ghost use Rattle.std.specs.List.{range_with_len};
ghost use Rattle.fabric_tables.specs.Keys.{faces_adapter, facing_line, facing_lines, key_text, keys_line, keys_text, lines_of, port_lines, words_in};
ghost use Rattle.smp_wire.specs.declared.node.Node.TheVariants.{Switch as IsSwitch};
ghost use Rattle.switch_model.specs.SwitchState.{num_ports};

use crate::nodes::node_of;
use agent_rules::{LINEAR_TABLE, MULTICAST_TABLE};
use fabric_parts::PortRef;
use fabric_wire::{Fabric, Node};
use pkey_rules::base_of;
use smp_wire::is_switch_at;
use std::alloc::{AllocError, Global};
use subnet_model::SubnetPort;
use switch_model::Switch;
use text_words::{push_hex, push_port_name};
use topo_file::Topology;

/// A line for each of these end ports with the keys in its table, and behind a switch's own line those of its ports that
/// face channel adapters, by number: `keys PORT KEY ..`, with the keys in the order of the table and empty places left
/// out. It can only run out of memory.
///
/// The tables are those that the fabric holds, whoever wrote them. Its nodes stand as the topology lists them; a port of a
/// node that it does not list has no line.
pub fn keys_text(
    alloc: Global,
    topology: &Topology,
    ports: &[SubnetPort],
    fabric: &Fabric,
) -> Result<Vec<u8>, AllocError>
    ensures { IfOk result (λ text. text.items ≡ keys_text topology.now.nodes ports.now fabric.now) }
{
    let mut text = Vec::new(alloc);
    for port in ports {
        push_port_lines(&mut text, topology, port, fabric)?;
    }
    Ok(text)
}

fn push_port_lines(
    text: &mut Vec<u8>,
    topology: &Topology,
    port: &SubnetPort,
    fabric: &Fabric,
) -> Result<(), AllocError>
    ensures { OnOk result (text.new.items ≡ text.old.items ++ port_lines topology.now.nodes fabric.now port.now) }
{
    match node_of(topology, fabric, port) {
        Some((place, node)) => push_lines_of(text, fabric, port, place, node),
        None => Ok(()),
    }
}

/// The line of an end port of this node, and behind that of a switch those of its ports that face channel adapters.
fn push_lines_of(
    text: &mut Vec<u8>,
    fabric: &Fabric,
    port: &SubnetPort,
    place: usize,
    node: &Node,
) -> Result<(), AllocError>
    ensures { OnOk result (text.new.items ≡ text.old.items ++ lines_of fabric.now port.now place node.now) }
{
    let name = port.node_name.as_slice();
    push_keys_line(text, name, port.number, words_in(node, port.number))?;
    match node {
        Node::Switch(switch) => push_facing_lines(text, fabric, name, place, switch.as_switch()),
        Node::Adapter(_) => Ok(()),
    }
}

/// The lines of the ports of a switch that face channel adapters, by number.
fn push_facing_lines(
    text: &mut Vec<u8>,
    fabric: &Fabric,
    name: &[u8],
    place: usize,
    switch: &Switch<LINEAR_TABLE, MULTICAST_TABLE>,
) -> Result<(), AllocError>
    ensures { OnOk result (text.new.items
        ≡ text.old.items ++ flat_map (facing_line fabric.now switch.now name.now place) (range_with_len 1 (num_ports switch.now))) }
{
    let count = switch.port_count() as u8;
    for number in 1..count + 1 {
        push_facing_line(text, fabric, name, place, switch, number)?;
    }
    Ok(())
}

/// The line of a port of a switch, if it faces a channel adapter.
fn push_facing_line(
    text: &mut Vec<u8>,
    fabric: &Fabric,
    name: &[u8],
    place: usize,
    switch: &Switch<LINEAR_TABLE, MULTICAST_TABLE>,
    number: u8,
) -> Result<(), AllocError>
    ensures { OnOk result (text.new.items ≡ text.old.items ++ facing_line fabric.now switch.now name.now place number) }
{
    if faces_adapter(
        fabric,
        PortRef {
            node: place,
            port: number,
        },
    ) {
        push_keys_line(text, name, number, words_of(switch, number))
    } else {
        Ok(())
    }
}

/// Whether the cable of a port leads to a channel adapter.
fn faces_adapter(fabric: &Fabric, at: PortRef) -> bool
    ensures { result ≡ faces_adapter fabric.now at }
{
    match fabric.far_end(at) {
        Some(there) => !is_switch_at(fabric.nodes(), there.node),
        None => false,
    }
}

/// The words of the P_Key table of a port of a node; none if it has no such port.
fn words_in(node: &Node, number: u8) -> &[u16]
    ensures { result.now ≡ words_in node.now number }
{
    match node {
        Node::Switch(switch) => words_of(switch.as_switch(), number),
        Node::Adapter(ports) => match ports.port(number) {
            Some(port) => port.keys(),
            None => &[],
        },
    }
}

fn words_of(switch: &Switch<LINEAR_TABLE, MULTICAST_TABLE>, number: u8) -> &[u16]
    ensures { result.now ≡ words_in (IsSwitch switch.now) number }
{
    match switch.ports().get(usize::from(number)) {
        Some(port) => &port.keys,
        None => &[],
    }
}

/// Adds `keys PORT KEY ..`.
fn push_keys_line(
    text: &mut Vec<u8>,
    name: &[u8],
    number: u8,
    words: &[u16],
) -> Result<(), AllocError>
    ensures { OnOk result (text.new.items ≡ text.old.items ++ keys_line name.now number words.now) }
{
    text.extend_from_slice(b"keys ")?;
    push_port_name(text, name, number)?;
    push_keys(text, words)?;
    text.push(b'\n')?;
    Ok(())
}

fn push_keys(text: &mut Vec<u8>, words: &[u16]) -> Result<(), AllocError>
    ensures { OnOk result (text.new.items ≡ text.old.items ++ flat_map key_text words.now) }
{
    for word in words {
        push_key(text, *word)?;
    }
    Ok(())
}

/// Adds a key, behind a blank; nothing for an empty place of a table.
fn push_key(text: &mut Vec<u8>, word: u16) -> Result<(), AllocError>
    ensures { OnOk result (text.new.items ≡ text.old.items ++ key_text word) }
{
    if base_of(word) == 0 {
        return Ok(());
    }
    text.extend_from_slice(b" ")?;
    push_hex(text, &word.to_be_bytes())
}
