//! The masks of the broadcast groups of partitions that change.

ghost use Rattle.std.specs.Prelude.{◌≡◌, ◌==◌, ◌++◌, [], get_or, position, IfOk, OnOk};
ghost use Rattle.std.specs.List.{enumerate_from, flat_map, list_any, range_with_len};
ghost use Rattle.cable_cuts.specs.Masks.{AreGroupMasks, AreMasksOfAll, has_bit, is_member, is_other, mask_by, mask_change_at, mask_changes, mask_changes_at, mask_held, mask_of, member_lids};
ghost use Rattle.table_push.specs.TreeSteps.{IsTree};
ghost use Rattle.updn_routes.specs.Subnet.{guids_of};

use fabric_parts::{NodeType, SWITCHES};
use partition_file::Heading;
use std::alloc::{AllocError, Global};
use subnet_model::{Configuration, SubnetPort};
use table_push::{Tree, port_masks, tree_of};
use updn_routes::Routes;

/// A mask that changes: that of a switch for the broadcast group of a partition.
#[derive(Clone, Copy, Debug, PartialEq, Eq)]
pub struct MaskChange {
    /// The LID of the switch.
    pub switch: u16,
    /// The number of the partition.
    pub partition: usize,
}

/// The masks of the broadcast groups of all partitions, if all members of a partition receive what is sent to its group.
#[derive(Drop)]
pub(crate) struct GroupMasks {
    /// The GUIDs of the switches, by their places in the graph.
    guids: Vec<u64>,
    /// For each partition, by its number, the masks of the switches.
    masks: Vec<[u64; SWITCHES]>,
}

/// The masks that differ if other routes take the place of these, if all members of a partition receive what is sent to its
/// group: by switches, in the order of the list, and then by partitions. It can only run out of memory.
pub(crate) fn mask_changes(
    alloc: Global,
    configuration: &Configuration,
    routes: &Routes,
    others: &Routes,
) -> Result<Vec<MaskChange>, AllocError>
    ensures { IfOk result (λ all. all.items
        ≡ mask_changes configuration.now (mask_by configuration.now.ports routes.now) (mask_by configuration.now.ports others.now)) }
{
    let before = group_masks(alloc, configuration, routes)?;
    let after = group_masks(alloc, configuration, others)?;
    changes_between(alloc, configuration, &before, &after)
}

/// The masks of all groups by these routes.
fn group_masks(
    alloc: Global,
    configuration: &Configuration,
    routes: &Routes,
) -> Result<GroupMasks, AllocError>
    ensures { IfOk result (AreGroupMasks configuration.now routes.now) }
{
    routes.graph().known_graph();
    let tree = tree_of(routes);
    let guids = guids_of(alloc, routes)?;
    let masks = masks_of_all(alloc, configuration, routes, &tree)?;
    Ok(GroupMasks { guids, masks })
}

/// The GUIDs of the switches, by their places in the graph.
fn guids_of(alloc: Global, routes: &Routes) -> Result<Vec<u64>, AllocError>
    ensures { IfOk result (λ guids. guids.items ≡ guids_of routes.now.graph) }
{
    let switches = routes.graph().switches();
    switches.iter().map(|switch| switch.guid).collect(alloc)
}

/// For each partition, by its number, the masks of the switches.
fn masks_of_all(
    alloc: Global,
    configuration: &Configuration,
    routes: &Routes,
    tree: &Tree,
) -> Result<Vec<[u64; SWITCHES]>, AllocError>
    requires { IsTree routes.now tree.now 64 }
    ensures { IfOk result (λ all. AreMasksOfAll configuration.now.ports routes.now configuration.now.partitions all.items) }
{
    let mut all = Vec::new(alloc);
    for heading in configuration.partitions() {
        let lids = member_lids(alloc, configuration.ports(), heading.base)?;
        all.push(port_masks(routes, tree, &lids))?;
    }
    Ok(all)
}

/// The LIDs of the members of a partition.
fn member_lids(alloc: Global, ports: &[SubnetPort], base: u16) -> Result<Vec<u16>, AllocError>
    ensures { IfOk result (λ lids. lids.items ≡ member_lids base ports.now) }
{
    ports
        .iter()
        .filter(|port| is_member(port, base))
        .map(|port| port.lid)
        .collect(alloc)
}

/// Whether an end port of a channel adapter holds a key of that base.
fn is_member(port: &SubnetPort, base: u16) -> bool
    ensures { result ≡ is_member base port.now }
{
    !port.node_type.is_switch() && port.keys.has_base(base)
}

/// The masks that differ if these others take the place of masks.
fn changes_between(
    alloc: Global,
    configuration: &Configuration,
    before: &GroupMasks,
    after: &GroupMasks,
) -> Result<Vec<MaskChange>, AllocError>
    ensures { IfOk result (λ all. all.items ≡ mask_changes configuration.now (mask_held before.now) (mask_held after.now)) }
{
    let mut all = Vec::new(alloc);
    for switch in configuration.ports() {
        push_changes_of(&mut all, configuration, switch, before, after)?;
    }
    Ok(all)
}

/// The changes at the node of an end port, if it is a switch.
fn push_changes_of(
    all: &mut Vec<MaskChange>,
    configuration: &Configuration,
    switch: &SubnetPort,
    before: &GroupMasks,
    after: &GroupMasks,
) -> Result<(), AllocError>
    ensures { OnOk result (all.new.items ≡ all.old.items
        ++ mask_changes_at configuration.now.partitions (mask_held before.now) (mask_held after.now) switch.now) }
{
    match switch.node_type {
        NodeType::Switch => push_changes_at(all, configuration, switch, before, after),
        NodeType::ChannelAdapter => Ok(()),
    }
}

/// The changes at a switch.
fn push_changes_at(
    all: &mut Vec<MaskChange>,
    configuration: &Configuration,
    switch: &SubnetPort,
    before: &GroupMasks,
    after: &GroupMasks,
) -> Result<(), AllocError>
    ensures { OnOk result (all.new.items ≡ all.old.items
        ++ flat_map (mask_change_at (mask_held before.now) (mask_held after.now) switch.now)
        (enumerate_from 0 configuration.now.partitions)) }
{
    for (number, heading) in configuration.partitions().iter().enumerate() {
        push_change(all, switch, number, heading, before, after)?;
    }
    Ok(())
}

/// The change at a switch for a partition, if it has a group and its mask changes.
fn push_change(
    all: &mut Vec<MaskChange>,
    switch: &SubnetPort,
    number: usize,
    heading: &Heading,
    before: &GroupMasks,
    after: &GroupMasks,
) -> Result<(), AllocError>
    ensures { OnOk result (all.new.items
        ≡ all.old.items ++ mask_change_at (mask_held before.now) (mask_held after.now) switch.now (number, heading.now)) }
{
    let was = before.mask_of(number, switch.guid);
    let becomes = after.mask_of(number, switch.guid);
    if heading.group.is_some() && differ(was, becomes) {
        all.push(MaskChange {
            switch: switch.lid,
            partition: number,
        })?;
    }
    Ok(())
}

impl GroupMasks {
    /// The mask of the switch of that GUID for the group of a partition; 0 if there is no such switch, or no such partition.
    fn mask_of(&self, number: usize, guid: u64) -> u64
        ensures { result ≡ mask_of self.now number guid }
    {
        match place_of(&self.guids, guid) {
            Some(place) => mask_at(&self.masks, number, place),
            None => 0,
        }
    }
}

/// The place of the switch of that GUID.
fn place_of(guids: &[u64], guid: u64) -> Option<usize>
    ensures { result ≡ position (λ one. guid == one) guids.now }
{
    guids.iter().position(|one| guid == *one)
}

/// The mask at a place of those with that number.
fn mask_at(masks: &[[u64; SWITCHES]], number: usize, place: usize) -> u64
    ensures { result ≡ get_or (get_or masks.now number []) place 0 }
{
    match masks.get(number) {
        Some(of_switches) => match of_switches.get(place) {
            Some(mask) => *mask,
            None => 0,
        },
        None => 0,
    }
}

/// Whether some port is in one of two masks and not in the other.
fn differ(was: u64, becomes: u64) -> bool
    ensures { result ≡ list_any (λ port. is_other (has_bit was port) (has_bit becomes port)) (range_with_len 0 48) }
{
    (0..48).any(|port| has_bit(was, port) != has_bit(becomes, port))
}

/// Whether a port is in a mask.
fn has_bit(mask: u64, port: u8) -> bool
    ensures { result ≡ has_bit mask port }
{
    port < 64 && (mask >> port) % 2 == 1
}
