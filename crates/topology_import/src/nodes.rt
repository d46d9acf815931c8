//! The nodes of the topology, before they have names.

ghost use Rattle.std.specs.Prelude.{◌≡◌, ◌++◌, map, IfOk, OnOk};
ghost use Rattle.std.specs.Option.{option_copied};
ghost use Rattle.topology_import.specs.Nodes.{adapter_guid, adapter_meant, first_taken, is_taken, KnowsSwitch, KnowsSwitches, switch_at, switch_guid, switch_guid_at, switch_if_one, switch_meant, switches};

use crate::ends::{EndList, guid_of};
use fabric_parts::NodeType;
use indexmap::IndexSet;
use netdiscover_file::{Discovery, Node, PortLine};
use std::alloc::{AllocError, Global};
use std::marker::Model;

/// A node of the topology, except its name.
#[derive(Clone, Copy)]
pub(crate) struct Meant {
    pub(crate) node_type: NodeType,
    pub(crate) guid: u64,
    pub(crate) ports: u8,
    /// The place of the node that it is among those of the discovery; of an adapter, of that of its first port.
    pub(crate) node: usize,
    /// The line of its header; of an adapter, that of its first port.
    pub(crate) line: usize,
}

/// The GUID of a switch's port 0, or if that is not reported the node's.
fn switch_guid(node: &Node) -> u64
    ensures { result ≡ switch_guid node.now }
{
    node.port_guid.unwrap_or(node.id.guid)
}

/// The GUID that the switch there has in the topology, or 0 if there is none.
pub fn switch_guid_at(nodes: &[Node], place: usize) -> u64
    ensures { result ≡ switch_guid_at nodes.now place }
{
    match nodes.get(place) {
        Some(node) => switch_guid(node),
        None => 0,
    }
}

fn switch_meant(place: usize, node: &Node) -> Meant
    ensures { result ≡ switch_meant place node.now }
{
    Meant {
        node_type: NodeType::Switch,
        guid: switch_guid(node),
        ports: node.ports,
        node: place,
        line: node.line,
    }
}

pub(crate) fn adapter_guid(first: &PortLine) -> u64
    ensures { result ≡ adapter_guid first.now }
{
    guid_of(first).saturating_sub(1)
}

fn adapter_meant(ends: &EndList, first: &PortLine) -> Meant
    ensures { result ≡ adapter_meant ends.now first.now }
{
    Meant {
        node_type: NodeType::ChannelAdapter,
        guid: adapter_guid(first),
        ports: ends.ports_from(guid_of(first)),
        node: first.port.node,
        line: first.line,
    }
}

fn push_if_switch(list: &mut Vec<Meant>, place: usize, node: &Node) -> Result<(), AllocError>
    ensures { OnOk result (list.new.items ≡ list.old.items ++ switch_if_one place node.now) }
{
    if node.id.kind.is_switch() {
        list.push(switch_meant(place, node))?;
    }
    Ok(())
}

fn switches(alloc: Global, nodes: &[Node]) -> Result<Vec<Meant>, AllocError>
    ensures { IfOk result (λ list. list.items ≡ switches nodes.now) }
{
    let mut list = Vec::new(alloc);
    for place in 0..nodes.len() {
        push_switch_at(&mut list, nodes, place)?;
    }
    Ok(list)
}

fn push_switch_at(list: &mut Vec<Meant>, nodes: &[Node], place: usize) -> Result<(), AllocError>
    ensures { OnOk result (list.new.items ≡ list.old.items ++ switch_at nodes.now place) }
{
    match nodes.get(place) {
        Some(node) => push_if_switch(list, place, node),
        None => Ok(()),
    }
}

fn push_adapters(
    list: &mut Vec<Meant>,
    ends: &EndList,
    firsts: &[PortLine],
) -> Result<(), AllocError>
    ensures { OnOk result (list.new.items ≡ list.old.items ++ map (adapter_meant ends.now) firsts.now) }
{
    for first in firsts {
        list.push(adapter_meant(ends, first))?;
    }
    Ok(())
}

/// Switches in the order of the discovery, then adapters in that of the lines of their first ports.
pub(crate) fn nodes_meant(
    alloc: Global,
    discovery: &Discovery,
    ends: &EndList,
    firsts: &[PortLine],
) -> Result<Vec<Meant>, AllocError>
    ensures { IfOk result (λ list. list.items ≡ switches discovery.now.nodes ++ map (adapter_meant ends.now) firsts.now) }
{
    let mut list = switches(alloc, discovery.nodes())?;
    push_adapters(&mut list, ends, firsts)?;
    Ok(list)
}

/// The nodes of a discovery, of which the GUIDs of switches are found in constant time.
#[derive(Drop)]
pub(crate) struct SwitchGuids<'a> {
    nodes: &'a [Node],
    // The GUIDs of switches and of their ports 0.
    guids: IndexSet<u64>,
}

impl<'a> Model for SwitchGuids<'a> {
    ghost use Rattle.std.specs.Prelude.{List};
    ghost use Rattle.netdiscover_file.specs.declared.node.Node.{Node};
    ghost use Rattle.topology_import.specs.Nodes.{KnowsSwitches};

    ghost Value = { List Node };

    ghost view = { λ switches. switches.nodes.now };

    ghost invariant = { λ switches. KnowsSwitches switches.guids.keys switches.nodes.now };
}

impl<'a> SwitchGuids<'a> {
    pub(crate) fn new(alloc: Global, nodes: &'a [Node]) -> Result<SwitchGuids<'a>, AllocError>
        ensures { IfOk result (λ switches. switches ≡ nodes.now) }
    {
        let guids = switch_guids(alloc, nodes)?;
        Ok(SwitchGuids { nodes, guids })
    }

    fn is_taken(&self, guid: u64) -> bool
        ensures { result ≡ is_taken self.now guid }
    {
        guid == 0 || self.guids.contains(&guid)
    }

    /// The first port of the first adapter whose GUID would be 0 or a switch's.
    pub(crate) fn first_taken<'b>(&self, firsts: &'b [PortLine]) -> Option<&'b PortLine>
        ensures { option_copied result ≡ first_taken self.now firsts.now }
    {
        firsts
            .iter()
            .find(|first| self.is_taken(adapter_guid(*first)))
    }
}

fn switch_guids(alloc: Global, nodes: &[Node]) -> Result<IndexSet<u64>, AllocError>
    ensures { IfOk result (λ guids. KnowsSwitches guids.keys nodes.now) }
{
    let mut guids = IndexSet::new(alloc);
    for node in nodes {
        know_switch(&mut guids, node)?;
    }
    Ok(guids)
}

/// Notes the GUIDs of a node, if it is a switch.
fn know_switch(guids: &mut IndexSet<u64>, node: &Node) -> Result<(), AllocError>
    ensures { OnOk result (KnowsSwitch guids.old.keys node.now guids.new.keys) }
{
    if !node.id.kind.is_switch() {
        return Ok(());
    }
    guids.insert(node.id.guid)?;
    guids.insert(switch_guid(node))?;
    Ok(())
}
