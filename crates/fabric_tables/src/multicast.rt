//! Multicast forwarding tables, as lines, behind the linear ones.

ghost use Rattle.std.specs.Prelude.{◌≡◌, ◌+◌, if◌then◌else◌, [], ◌++◌, OnOk, IfOk, flat_map, length};
ghost use Rattle.fabric_tables.specs.Multicast.{columns, count_line, head_line, is_used, mark, mlid_line, multicast_tables, ones_line, ones_mark, port_table, range_text, table_of, table_text, tables_text, tens_line, tens_mark, titles, used};
ghost use Rattle.switch_model.specs.SwitchState.{num_ports};

use crate::nodes::node_of;
use crate::tables::{linear_tables, path_to, push_route, push_switch};
use agent_rules::{LINEAR_TABLE, MULTICAST_TABLE};
use fabric_parts::FIRST_MULTICAST_LID;
use fabric_wire::{Fabric, Node};
use std::alloc::{AllocError, Global};
use subnet_model::SubnetPort;
use sweep::Graph;
use switch_model::Switch;
use text_words::{push_decimal, push_hex};
use topo_file::Topology;

/// The last multicast LID of a table.
const LAST_MLID: u16 = FIRST_MULTICAST_LID + MULTICAST_TABLE as u16 - 1;

/// The linear forwarding tables of all switches, as `dump_fts` prints them, and behind them the multicast ones, as
/// `dump_mfts` prints them, both in the order of the LIDs of the switches. A switch none of whose masks has the bit of one of
/// its ports has no multicast table here. It can only run out of memory.
///
/// The tables are those that the fabric holds, whoever wrote them. Its nodes stand as the topology lists them; a switch that
/// it does not list has no table here.
pub fn tables_text(
    alloc: Global,
    topology: &Topology,
    ports: &[SubnetPort],
    graph: &Graph,
    fabric: &Fabric,
) -> Result<Vec<u8>, AllocError>
    ensures { IfOk result (λ text. text.items ≡ tables_text topology.now.nodes ports.now graph.now.switches fabric.now) }
{
    let mut text = linear_tables(alloc, topology, ports, graph, fabric)?;
    push_multicast_tables(&mut text, topology, ports, graph, fabric)?;
    Ok(text)
}

/// The multicast forwarding tables, in the order of the LIDs of the switches.
fn push_multicast_tables(
    text: &mut Vec<u8>,
    topology: &Topology,
    ports: &[SubnetPort],
    graph: &Graph,
    fabric: &Fabric,
) -> Result<(), AllocError>
    ensures { OnOk result (text.new.items
        ≡ text.old.items ++ multicast_tables topology.now.nodes ports.now graph.now.switches fabric.now) }
{
    for port in ports {
        push_port_table(text, topology, fabric, graph, port)?;
    }
    Ok(())
}

/// The table of the node of an end port, if it is a switch.
fn push_port_table(
    text: &mut Vec<u8>,
    topology: &Topology,
    fabric: &Fabric,
    graph: &Graph,
    port: &SubnetPort,
) -> Result<(), AllocError>
    ensures { OnOk result (text.new.items
        ≡ text.old.items ++ port_table topology.now.nodes fabric.now graph.now.switches port.now) }
{
    match node_of(topology, fabric, port) {
        Some((_, node)) => push_table_of(text, graph, port, node),
        None => Ok(()),
    }
}

fn push_table_of(
    text: &mut Vec<u8>,
    graph: &Graph,
    port: &SubnetPort,
    node: &Node,
) -> Result<(), AllocError>
    ensures { OnOk result (text.new.items ≡ text.old.items ++ table_of graph.now.switches port.now node.now) }
{
    match node {
        Node::Switch(held) => push_table(text, path_to(graph, port.guid), port, held.as_switch()),
        Node::Adapter(_) => Ok(()),
    }
}

/// The path by which a sweep found the switch, the titles, and a line for each multicast LID that has a bit of a port; nothing
/// if none has.
fn push_table(
    text: &mut Vec<u8>,
    path: &[u8],
    switch: &SubnetPort,
    held: &Switch<LINEAR_TABLE, MULTICAST_TABLE>,
) -> Result<(), AllocError>
    ensures { OnOk result (text.new.items ≡ text.old.items ++ table_text path.now switch.now held.now) }
{
    let count = count_used(held);
    if count == 0 {
        return Ok(());
    }
    push_head_line(text, path, switch)?;
    push_titles(text, held)?;
    push_used_lines(text, held)?;
    push_count_line(text, count)
}

/// How many multicast LIDs have a bit of a port.
#[tactic(auto, unfolding(crate::specs::Multicast::used))]
fn count_used(held: &Switch<LINEAR_TABLE, MULTICAST_TABLE>) -> usize
    ensures { result ≡ length (used held.now) }
{
    (FIRST_MULTICAST_LID..LAST_MLID + 1)
        .filter(|mlid| is_used(held, *mlid))
        .count()
}

/// Whether the bit of a port is set for a multicast LID. Most have no bit at all.
#[tactic(auto, using(crate::proofs::UsedLemmas::unused))]
fn is_used(held: &Switch<LINEAR_TABLE, MULTICAST_TABLE>, mlid: u16) -> bool
    ensures { result ≡ is_used held.now mlid }
{
    held.has_bits(mlid) && is_some_set(held, mlid)
}

#[tactic(auto, unfolding(crate::specs::Multicast::columns))]
fn is_some_set(held: &Switch<LINEAR_TABLE, MULTICAST_TABLE>, mlid: u16) -> bool
    ensures { result ≡ is_used held.now mlid }
{
    (0..column_count(held)).any(|number| held.is_in_masks(mlid, number))
}

/// How many ports it has, with port 0.
fn column_count(held: &Switch<LINEAR_TABLE, MULTICAST_TABLE>) -> u8
    ensures { result ≡ num_ports held.now + 1 }
{
    held.port_count() as u8 + 1
}

/// Adds the line with the range of the table and the path to a switch.
#[tactic(auto, unfolding(crate::specs::Multicast::head_line))]
fn push_head_line(text: &mut Vec<u8>, path: &[u8], switch: &SubnetPort) -> Result<(), AllocError>
    ensures { OnOk result (text.new.items ≡ text.old.items ++ head_line path.now switch.now) }
{
    push_range(text)?;
    push_route(text, path)?;
    push_switch(text, switch)?;
    text.push(b'\n')?;
    Ok(())
}

#[tactic(auto, unfolding(crate::specs::Multicast::range_text))]
fn push_range(text: &mut Vec<u8>) -> Result<(), AllocError>
    ensures { OnOk result (text.new.items ≡ text.old.items ++ range_text) }
{
    text.extend_from_slice(b"Multicast mlids [")?;
    push_hex(text, &FIRST_MULTICAST_LID.to_be_bytes())?;
    text.extend_from_slice(b"-")?;
    push_hex(text, &LAST_MLID.to_be_bytes())?;
    text.extend_from_slice(b"]")
}

/// Adds the numbers of the ports, over their columns.
#[tactic(auto, unfolding(crate::specs::Multicast::titles))]
fn push_titles(
    text: &mut Vec<u8>,
    held: &Switch<LINEAR_TABLE, MULTICAST_TABLE>,
) -> Result<(), AllocError>
    ensures { OnOk result (text.new.items ≡ text.old.items ++ titles held.now) }
{
    push_tens_line(text, held)?;
    push_ones_line(text, held)?;
    text.extend_from_slice(b" MLid\n")
}

/// The digits of the tens, if port numbers have two digits.
#[tactic(auto, unfolding(crate::specs::Multicast::tens_line))]
fn push_tens_line(
    text: &mut Vec<u8>,
    held: &Switch<LINEAR_TABLE, MULTICAST_TABLE>,
) -> Result<(), AllocError>
    ensures { OnOk result (text.new.items ≡ text.old.items ++ tens_line held.now) }
{
    if held.port_count() <= 9 {
        return Ok(());
    }
    text.extend_from_slice(b"            ")?;
    push_tens_marks(text, held)?;
    text.push(b'\n')?;
    Ok(())
}

#[tactic(auto, unfolding(crate::specs::Multicast::columns))]
fn push_tens_marks(
    text: &mut Vec<u8>,
    held: &Switch<LINEAR_TABLE, MULTICAST_TABLE>,
) -> Result<(), AllocError>
    ensures { OnOk result (text.new.items ≡ text.old.items ++ flat_map tens_mark (columns held.now)) }
{
    for number in 0..column_count(held) {
        push_tens_mark(text, number)?;
    }
    Ok(())
}

/// The digit of the tens, if that of the ones is 0.
fn push_tens_mark(text: &mut Vec<u8>, number: u8) -> Result<(), AllocError>
    ensures { OnOk result (text.new.items ≡ text.old.items ++ tens_mark number) }
{
    let digit = if number % 10 == 0 {
        b'0' + number / 10
    } else {
        b' '
    };
    text.extend_from_slice(&[digit, b' '])
}

/// The last digits of the numbers of the ports.
#[tactic(auto, unfolding(crate::specs::Multicast::ones_line))]
fn push_ones_line(
    text: &mut Vec<u8>,
    held: &Switch<LINEAR_TABLE, MULTICAST_TABLE>,
) -> Result<(), AllocError>
    ensures { OnOk result (text.new.items ≡ text.old.items ++ ones_line held.now) }
{
    text.extend_from_slice(b"     Ports: ")?;
    push_ones_marks(text, held)?;
    text.push(b'\n')?;
    Ok(())
}

#[tactic(auto, unfolding(crate::specs::Multicast::columns))]
fn push_ones_marks(
    text: &mut Vec<u8>,
    held: &Switch<LINEAR_TABLE, MULTICAST_TABLE>,
) -> Result<(), AllocError>
    ensures { OnOk result (text.new.items ≡ text.old.items ++ flat_map ones_mark (columns held.now)) }
{
    for number in 0..column_count(held) {
        push_ones_mark(text, number)?;
    }
    Ok(())
}

fn push_ones_mark(text: &mut Vec<u8>, number: u8) -> Result<(), AllocError>
    ensures { OnOk result (text.new.items ≡ text.old.items ++ ones_mark number) }
{
    text.extend_from_slice(&[b'0' + number % 10, b' '])
}

/// A line for each multicast LID that has a bit of a port.
fn push_used_lines(
    text: &mut Vec<u8>,
    held: &Switch<LINEAR_TABLE, MULTICAST_TABLE>,
) -> Result<(), AllocError>
    ensures { OnOk result (text.new.items ≡ text.old.items ++ flat_map (mlid_line held.now) (used held.now)) }
{
    for mlid in FIRST_MULTICAST_LID..LAST_MLID + 1 {
        push_used_line(text, held, mlid)?;
    }
    Ok(())
}

/// The line of a multicast LID, if it has a bit of a port.
fn push_used_line(
    text: &mut Vec<u8>,
    held: &Switch<LINEAR_TABLE, MULTICAST_TABLE>,
    mlid: u16,
) -> Result<(), AllocError>
    ensures { OnOk result (text.new.items
        ≡ text.old.items ++ (if is_used held.now mlid then mlid_line held.now mlid else [])) }
{
    if is_used(held, mlid) {
        push_mlid_line(text, held, mlid)
    } else {
        Ok(())
    }
}

/// Adds `MLID` and a cross for each port whose bit is set.
fn push_mlid_line(
    text: &mut Vec<u8>,
    held: &Switch<LINEAR_TABLE, MULTICAST_TABLE>,
    mlid: u16,
) -> Result<(), AllocError>
    ensures { OnOk result (text.new.items ≡ text.old.items ++ mlid_line held.now mlid) }
{
    push_hex(text, &mlid.to_be_bytes())?;
    text.extend_from_slice(b"      ")?;
    push_marks(text, held, mlid)?;
    text.push(b'\n')?;
    Ok(())
}

#[tactic(auto, unfolding(crate::specs::Multicast::columns))]
fn push_marks(
    text: &mut Vec<u8>,
    held: &Switch<LINEAR_TABLE, MULTICAST_TABLE>,
    mlid: u16,
) -> Result<(), AllocError>
    ensures { OnOk result (text.new.items ≡ text.old.items ++ flat_map (mark held.now mlid) (columns held.now)) }
{
    for number in 0..column_count(held) {
        push_mark(text, held, mlid, number)?;
    }
    Ok(())
}

/// Adds a cross, if the bit of the port is set.
fn push_mark(
    text: &mut Vec<u8>,
    held: &Switch<LINEAR_TABLE, MULTICAST_TABLE>,
    mlid: u16,
    number: u8,
) -> Result<(), AllocError>
    ensures { OnOk result (text.new.items ≡ text.old.items ++ mark held.now mlid number) }
{
    if held.is_in_masks(mlid, number) {
        text.extend_from_slice(b"x ")
    } else {
        text.extend_from_slice(b"  ")
    }
}

/// Adds `COUNT valid mlids dumped `.
#[tactic(auto, unfolding(crate::specs::Multicast::count_line))]
fn push_count_line(text: &mut Vec<u8>, count: usize) -> Result<(), AllocError>
    ensures { OnOk result (text.new.items ≡ text.old.items ++ count_line count) }
{
    push_decimal(text, count)?;
    text.extend_from_slice(b" valid mlids dumped ")?;
    text.push(b'\n')?;
    Ok(())
}
