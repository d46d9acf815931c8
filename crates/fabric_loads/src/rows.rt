//! The LFT that a switch holds, as rows of a dump.

ghost use Rattle.std.specs.Prelude.{ℕ, List, ◌≡◌, ◌+◌, ◌<◌, ◌++◌, length, map, IfOk, OnOk};
ghost use Rattle.dump_file.specs.declared.row.Row.{Row};
ghost use Rattle.topo_file.specs.declared.node.Node.{Node};
ghost use Rattle.fabric_loads.specs.HeldRows.{destination_of, held_entry, is_switchs, row_for, row_if, rows_from};

use agent_rules::{LINEAR_TABLE, MULTICAST_TABLE};
use dump_file::{Destination, Row};
use fabric_parts::NO_PORT;
use std::alloc::{AllocError, Global};
use switch_model::Switch;
use topo_file::Node;

/// Whether a switch of the topology has this GUID.
fn is_switchs(nodes: &[Node], guid: u64) -> bool
    ensures { result ≡ is_switchs nodes.now guid }
{
    nodes
        .iter()
        .any(|node| node.node_type.is_switch() && node.guid == guid)
}

/// Whose the LID of the end port of this GUID is.
fn destination_of(nodes: &[Node], guid: u64) -> Destination
    ensures { result ≡ destination_of nodes.now guid }
{
    if is_switchs(nodes, guid) {
        Destination::Switch { guid }
    } else {
        Destination::ChannelAdapter { guid }
    }
}

/// Whose LIDs they are, from LID 1 on.
pub(crate) fn destinations(
    alloc: Global,
    nodes: &[Node],
    guids: &[u64],
) -> Result<Vec<Destination>, AllocError>
    ensures { IfOk result (λ all. all.items ≡ map (destination_of nodes.now) guids.now) }
{
    guids
        .iter()
        .map(|guid| destination_of(nodes, *guid))
        .collect(alloc)
}

/// The entry of a LID.
fn held_entry(held: &Switch<LINEAR_TABLE, MULTICAST_TABLE>, lid: u16) -> u8
    ensures { result ≡ held_entry held.now lid }
{
    match held.linear().get(usize::from(lid)) {
        Some(entry) => *entry,
        None => NO_PORT,
    }
}

/// Adds the row of a LID, if it leads somewhere.
fn push_row(
    rows: &mut Vec<Row>,
    held: &Switch<LINEAR_TABLE, MULTICAST_TABLE>,
    lid: u16,
    destination: Destination,
) -> Result<(), AllocError>
    ensures { OnOk result ((nodes : List Node) (guid : ℕ) → destination ≡ destination_of nodes guid
        → rows.new.items ≡ rows.old.items ++ row_if nodes lid guid (held_entry held.now lid)) }
{
    let port = held_entry(held, lid);
    if port == NO_PORT {
        return Ok(());
    }
    rows.push(Row {
        lid,
        port,
        destination,
    })?;
    Ok(())
}

/// The rows of a switch, if LIDs are of these end ports, from LID 1 on.
pub(crate) fn rows_of(
    alloc: Global,
    held: &Switch<LINEAR_TABLE, MULTICAST_TABLE>,
    all: &[Destination],
) -> Result<Vec<Row>, AllocError>
    requires { length all.now < 65535 }
    ensures { IfOk result (λ rows. (nodes : List Node) (guids : List ℕ) → all.now ≡ map (destination_of nodes) guids
        → rows.items ≡ rows_from nodes held.now 1 guids) }
{
    let mut rows = Vec::new(alloc);
    for index in 0..all.len() {
        push_row(&mut rows, held, index as u16 + 1, all[index])?;
    }
    Ok(rows)
}
