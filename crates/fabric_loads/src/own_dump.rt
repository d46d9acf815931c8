//! The LFTs of a fabric as a dump.

ghost use Rattle.std.specs.Prelude.{◌≡◌, ◌≤◌, ◌+◌, ◌++◌, flat_map, length, map, IfOk, OnOk};
ghost use Rattle.std.specs.List.{range_with_len};
ghost use Rattle.std.specs.Option.{option_to_list};
ghost use Rattle.lid_assign.specs.Lids.{guid_in};
ghost use Rattle.fabric_parts.specs.declared.limits.TheConstants.{ADAPTER_PORTS, SWITCHES};
ghost use Rattle.fabric_loads.specs.HeldRows.{destination_of};
ghost use Rattle.fabric_loads.specs.OwnDump.{held_table, own_dump, own_table, own_table_at};

use crate::rows::{destinations, rows_of};
use dump_file::{Destination, Dump, RowList, Table};
use fabric_parts::{ADAPTER_PORTS, SWITCHES};
use fabric_wire::{Fabric, Node};
use lid_assign::Lids;
use std::alloc::{AllocError, Global};
use topo_file::{Node as PlannedNode, Topology};

/// The GUIDs of the end ports, from LID 1 on.
fn guids_of(alloc: Global, lids: &Lids) -> Result<Vec<u64>, AllocError>
    ensures guids { IfOk result (λ guids. guids.items ≡ lids.now) }
    ensures few { length lids.now ≤ SWITCHES + ADAPTER_PORTS }
{
    lids.known_distinct();
    let mut guids = Vec::new(alloc);
    for before in 0..(SWITCHES + ADAPTER_PORTS) as u16 {
        push_guid(&mut guids, lids, before + 1)?;
    }
    Ok(guids)
}

/// Adds the GUID of the end port that has the LID, if there is one.
fn push_guid(guids: &mut Vec<u64>, lids: &Lids, lid: u16) -> Result<(), AllocError>
    ensures { OnOk result (guids.new.items ≡ guids.old.items ++ option_to_list (guid_in lids.now lid)) }
{
    match lids.port_of(lid) {
        Some(guid) => {
            guids.push(guid)?;
            Ok(())
        }
        None => Ok(()),
    }
}

/// Whose the LIDs are, for the tables of all switches.
#[derive(Clone, Copy)]
struct Owners<'a> {
    nodes: &'a [PlannedNode],
    guids: &'a [u64],
    destinations: &'a [Destination],
}

/// Adds the table of a node of this GUID, if it is a switch.
fn push_table(
    alloc: Global,
    tables: &mut Vec<Table>,
    owners: Owners<'_>,
    guid: u64,
    node: &Node,
) -> Result<(), AllocError>
    requires owners { owners.destinations.now ≡ map (destination_of owners.nodes.now) owners.guids.now }
    requires few { length owners.guids.now ≤ SWITCHES + ADAPTER_PORTS }
    ensures { OnOk result (tables.new.items ≡ tables.old.items ++ own_table owners.entry.nodes.now owners.entry.guids.now guid node.now) }
{
    let Node::Switch(held) = node else {
        return Ok(());
    };
    let rows = rows_of(alloc, held.as_switch(), owners.destinations)?;
    tables.push(Table {
        line: 0,
        guid,
        top: owners.guids.len() as u16,
        rows: RowList::of(rows),
    })?;
    Ok(())
}

/// Adds the table of the node that is held there, of this GUID, if it is a switch.
fn push_table_held(
    alloc: Global,
    tables: &mut Vec<Table>,
    owners: Owners<'_>,
    guid: u64,
    held: &[Node],
    place: usize,
) -> Result<(), AllocError>
    requires owners { owners.destinations.now ≡ map (destination_of owners.nodes.now) owners.guids.now }
    requires few { length owners.guids.now ≤ SWITCHES + ADAPTER_PORTS }
    ensures { OnOk result (tables.new.items ≡ tables.old.items
        ++ held_table owners.entry.nodes.now owners.entry.guids.now held.now place guid) }
{
    match held.get(place) {
        Some(node) => push_table(alloc, tables, owners, guid, node),
        None => Ok(()),
    }
}

/// Adds the table of the node there, if it is a switch.
fn push_table_at(
    alloc: Global,
    tables: &mut Vec<Table>,
    owners: Owners<'_>,
    held: &[Node],
    place: usize,
) -> Result<(), AllocError>
    requires owners { owners.destinations.now ≡ map (destination_of owners.nodes.now) owners.guids.now }
    requires few { length owners.guids.now ≤ SWITCHES + ADAPTER_PORTS }
    ensures { OnOk result (tables.new.items ≡ tables.old.items ++ own_table_at owners.entry.nodes.now owners.entry.guids.now held.now place) }
{
    match owners.nodes.get(place) {
        Some(planned) => push_table_held(alloc, tables, owners, planned.guid, held, place),
        None => Ok(()),
    }
}

fn tables_of(alloc: Global, owners: Owners<'_>, held: &[Node]) -> Result<Vec<Table>, AllocError>
    requires owners { owners.destinations.now ≡ map (destination_of owners.nodes.now) owners.guids.now }
    requires few { length owners.guids.now ≤ SWITCHES + ADAPTER_PORTS }
    ensures { IfOk result (λ tables. tables.items ≡ flat_map (own_table_at owners.entry.nodes.now owners.entry.guids.now held.now)
        (range_with_len 0 (length owners.entry.nodes.now))) }
{
    let mut tables = Vec::new(alloc);
    for place in 0..owners.nodes.len() {
        push_table_at(alloc, &mut tables, owners, held, place)?;
    }
    Ok(tables)
}

/// The dump of the LFTs that the switches of a topology's fabric hold. It can only run out of memory.
pub(crate) fn own_dump(
    alloc: Global,
    topology: &Topology,
    lids: &Lids,
    fabric: &Fabric,
) -> Result<Dump, AllocError>
    ensures { IfOk result (λ dump. dump ≡ own_dump topology.now lids.now fabric.now) }
{
    topology.known_sound();
    let guids = guids_of(alloc, lids)?;
    let destinations = destinations(alloc, topology.nodes(), &guids)?;
    let owners = Owners {
        nodes: topology.nodes(),
        guids: &guids,
        destinations: &destinations,
    };
    let tables = tables_of(alloc, owners, fabric.nodes())?;
    Dump::of(alloc, tables)
}
