//! The nodes of a discovery.

ghost use Rattle.std.specs.Prelude.{◌≡◌, [], ◌∷◌, ◌++◌, true, None, IfOk, IfSome, OnErr, OnOk};
ghost use Rattle.netdiscover_file.specs.Node.{is_node_at, is_switch_at, last_place, node_seen, place_of, port_at, ports_at, says_same, says_same_at};
ghost use Rattle.netdiscover_file.specs.Sound.{is_port};

use crate::ends::NodeId;
use crate::port::{is_same_guid, is_same_lid};
use fabric_parts::PortRef;
use indexmap::IndexSet;
use std::alloc::{AllocError, Global};
use std::marker::Model;

/// The name of a node: its description, whatever bytes it has.
#[derive(Debug, Drop)]
pub struct NodeName {
    bytes: Vec<u8>,
}

impl Model for NodeName {
    ghost use Rattle.std.specs.Prelude.{ℕ, List};

    ghost Value = { List ℕ };

    ghost view = { λ name. name.bytes.items };
}

impl NodeName {
    fn new(alloc: Global, name: &[u8]) -> Result<NodeName, AllocError>
        ensures { IfOk result (λ it. it ≡ name.now) }
    {
        let bytes = Vec::from_slice(alloc, name)?;
        Ok(NodeName { bytes })
    }

    /// The name as it stands in the text.
    pub fn as_bytes(&self) -> &[u8]
        ensures { result.now ≡ self.now }
    {
        self.bytes.as_slice()
    }
}

/// A node, as its header reports it.
#[derive(Debug, Drop)]
pub struct Node {
    /// What it is, and its GUID, which no other node has.
    pub id: NodeId,
    /// How many ports it has, which count from 1.
    pub ports: u8,
    /// Its name, which others may have too.
    pub name: NodeName,
    /// Of a switch the LID of its port 0.
    pub lid: Option<u16>,
    /// Of a switch the GUID of its port 0, if a line reports it.
    pub port_guid: Option<u64>,
    /// The line of its header.
    pub line: usize,
}

/// What a header says of a node, before it is one.
#[derive(Clone, Copy)]
pub(crate) struct NewNode<'a> {
    pub(crate) id: NodeId,
    pub(crate) ports: u8,
    pub(crate) name: &'a [u8],
    pub(crate) lid: Option<u16>,
    pub(crate) port_guid: Option<u64>,
    pub(crate) line: usize,
}

/// Nodes with different GUIDs, in the order in which they were added, and found by GUID in constant
/// time.
#[derive(Debug, Drop)]
pub(crate) struct NodeList {
    // The GUIDs again, each at the place of its node.
    guids: IndexSet<u64>,
    nodes: Vec<Node>,
}

impl Model for NodeList {
    ghost use Rattle.std.specs.Prelude.{◌≡◌, List, map};
    ghost use Rattle.netdiscover_file.specs.declared.node.Node.{Node};

    ghost Value = { List Node };

    ghost view = { λ list. list.nodes.items };

    ghost invariant = { λ list. list.guids.keys ≡ map (λ node. node.id.guid) list.nodes.items };
}

impl NodeList {
    pub(crate) fn new(alloc: Global) -> NodeList
        ensures { result ≡ [] }
    {
        NodeList {
            guids: IndexSet::new(alloc),
            nodes: Vec::new(alloc),
        }
    }

    pub(crate) fn as_slice(&self) -> &[Node]
        ensures { result.now ≡ self.now }
    {
        self.nodes.as_slice()
    }

    /// Where the node of this GUID stands, looked up in constant time.
    pub(crate) fn place_of(&self, guid: u64) -> Option<usize>
        ensures { result ≡ place_of guid self.now }
    {
        self.guids.get_index_of(&guid)
    }

    /// Adds a node at the end. It can only run out of memory, and then the list stays as it was.
    pub(crate) fn push(&mut self, alloc: Global, node: &NewNode) -> Result<(), AllocError>
        requires new { place_of node.now.id.guid self.old ≡ None }
        ensures ok { OnOk result (self.new ≡ self.old ++ node_seen node.now ∷ []) }
        ensures err { OnErr result (self.new ≡ self.old) }
    {
        let name = NodeName::new(alloc, node.name)?;
        self.nodes.reserve(1)?;
        self.guids.insert(node.id.guid)?;
        self.nodes.push(Node {
            id: node.id,
            ports: node.ports,
            name,
            lid: node.lid,
            port_guid: node.port_guid,
            line: node.line,
        })?;
        Ok(())
    }
}

/// Where the last node stands.
pub(crate) fn last_place(nodes: &[Node]) -> Option<usize>
    ensures { result ≡ last_place nodes.now }
{
    if nodes.is_empty() {
        return None;
    }
    Some(nodes.len() - 1)
}

/// Whether the node there is a switch.
pub(crate) fn is_switch_at(nodes: &[Node], place: usize) -> bool
    ensures { result ≡ is_switch_at nodes.now place }
{
    match nodes.get(place) {
        Some(node) => node.id.kind.is_switch(),
        None => false,
    }
}

/// Whether this node stands there.
pub(crate) fn is_node_at(nodes: &[Node], place: usize, id: NodeId) -> bool
    ensures { result ≡ is_node_at nodes.now place id }
{
    match nodes.get(place) {
        Some(node) => node.id.is_same(id),
        None => false,
    }
}

/// Whether both headers say the same, on whatever lines.
fn says_same(node: &Node, other: &NewNode) -> bool
    ensures { result ≡ says_same node.now (node_seen other.now) }
{
    node.id.is_same(other.id)
        && (node.ports == other.ports
            && (node.name.as_bytes() == other.name
                && (is_same_lid(node.lid, other.lid)
                    && is_same_guid(node.port_guid, other.port_guid))))
}

/// Whether the header of the node there says the same.
pub(crate) fn says_same_at(nodes: &[Node], place: usize, node: &NewNode) -> bool
    ensures { result ≡ says_same_at nodes.now place (node_seen node.now) }
{
    match nodes.get(place) {
        Some(other) => says_same(other, node),
        None => false,
    }
}

/// How many ports the node there has.
fn ports_at(nodes: &[Node], place: usize) -> u8
    ensures { result ≡ ports_at nodes.now place }
{
    match nodes.get(place) {
        Some(node) => node.ports,
        None => 0,
    }
}

/// The port of this number at the node there, if there is one.
pub(crate) fn port_at(nodes: &[Node], place: usize, number: u128) -> Option<PortRef>
    ensures value { result ≡ port_at nodes.now place number }
    ensures is_port { IfSome result (λ port. is_port nodes.now port ≡ true) }
    ensures there { IfSome result (λ port. port.node ≡ place) }
{
    if number < 1 || number > u128::from(ports_at(nodes, place)) {
        return None;
    }
    Some(PortRef {
        node: place,
        port: number as u8,
    })
}
