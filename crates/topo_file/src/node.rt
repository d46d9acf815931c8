//! The nodes of a topology.

ghost use Rattle.std.specs.Prelude.{◌≡◌, ◌≤◌, ◌<◌, ◌^◌, ◌+◌, length, [], ◌∷◌, ◌++◌, None, IfOk, OnOk, OnErr};
ghost use Rattle.topo_file.specs.Node.{HasGuids, guid_at, is_switch, is_switch_at, lacks_guids, last_guid, name_at, place_of, port_guid, port_guids, ports_at, shares_guid, switch_count};
ghost use Rattle.topo_file.specs.Guids.{KnowMore, KnowSame};
ghost use Rattle.std.specs.List.{list_any};
ghost use Rattle.topo_file.specs.NewNode.{seen};
ghost use Rattle.fabric_parts.specs.declared.limits.TheConstants.{NAME_BYTES};

use fabric_parts::NodeType;
use indexmap::IndexSet;
use std::alloc::{AllocError, Global};
use std::marker::Model;

/// The name of a node: 1 to 32 letters, digits, `_`, `-` and `.`.
#[derive(Debug, Drop)]
pub struct Name {
    bytes: Vec<u8>,
}

impl Model for Name {
    ghost use Rattle.std.specs.Prelude.{ℕ, List};

    ghost Value = { List ℕ };

    ghost use Rattle.std.specs.Prelude.{◌≤◌, length};
    ghost use Rattle.fabric_parts.specs.declared.limits.TheConstants.{NAME_BYTES};

    ghost view = { λ name. name.bytes.items };

    ghost invariant = { λ name. length name.bytes.items ≤ NAME_BYTES };
}

impl Name {
    fn new(alloc: Global, word: &[u8]) -> Result<Name, AllocError>
        requires { length word.now ≤ NAME_BYTES }
        ensures { IfOk result (λ name. name ≡ word.now) }
    {
        let bytes = Vec::from_slice(alloc, word)?;
        Ok(Name { bytes })
    }

    /// The name as it is written.
    pub fn as_bytes(&self) -> &[u8]
        ensures value { result.now ≡ self.now }
        ensures short { length result.now ≤ NAME_BYTES }
    {
        self.bytes.as_slice()
    }
}

/// A node of the fabric.
#[derive(Debug, Drop)]
pub struct Node {
    /// Its name, which no other node has.
    pub name: Name,
    /// What it is.
    pub node_type: NodeType,
    /// The GUID of the node. A switch uses it for its port 0 too; for an adapter's ports see
    /// [`Node::port_guid`].
    pub guid: u64,
    /// How many ports it has, which count from 1.
    pub ports: u8,
}

impl Node {
    /// Whether it is a switch.
    pub fn is_switch(&self) -> bool
        ensures { result ≡ is_switch self.now }
    {
        self.node_type.is_switch()
    }

    /// The GUID of a port of this adapter: port `p` has the GUID that is `p` above its node's.
    pub fn port_guid(&self, number: u8) -> u64
        requires fits { port_guid self.now number < 2 ^ 64 }
        ensures { result ≡ port_guid self.now number }
    {
        self.guid + u64::from(number)
    }
}

/// The name of the node there, or no name if there is none.
pub fn name_at(nodes: &[Node], place: usize) -> &[u8]
    ensures value { result.now ≡ name_at nodes.now place }
    ensures short { length result.now ≤ NAME_BYTES }
{
    match nodes.get(place) {
        Some(node) => node.name.as_bytes(),
        None => &[],
    }
}

/// What a line says of a node, before it is one.
#[derive(Clone, Copy)]
pub(crate) struct NewNode<'a> {
    pub(crate) name: &'a [u8],
    pub(crate) node_type: NodeType,
    pub(crate) guid: u64,
    pub(crate) ports: u8,
}

impl NewNode<'_> {
    ghost use Rattle.topo_file.specs.NewNode.{seen};
    ghost use Rattle.topo_file.specs.Node.{last_guid};

    /// The last GUID that the node uses, which may be past 64 bits.
    fn last_guid(&self) -> u128
        ensures { result ≡ last_guid (seen self.now) }
    {
        u128::from(self.guid) + u128::from(port_guids(self.node_type, self.ports))
    }
}

/// Nodes with different names, in the order in which they were added; names and GUIDs are found in constant time.
#[derive(Debug, Drop)]
pub(crate) struct NodeList {
    // The names again, each at the place of its node.
    names: IndexSet<Vec<u8>>,
    // The GUIDs of all nodes.
    guids: IndexSet<u64>,
    nodes: Vec<Node>,
}

impl Model for NodeList {
    ghost use Rattle.std.specs.Prelude.{◌≡◌, List, map};
    ghost use Rattle.topo_file.specs.declared.node.Node.{Node};
    ghost use Rattle.topo_file.specs.Guids.{KnowsGuids};

    ghost Value = { List Node };

    ghost view = { λ list. list.nodes.items };

    ghost invariant = { λ list. (map (λ key. key.items) list.names.keys ≡ map (λ node. node.name) list.nodes.items)
        × KnowsGuids list.guids.keys list.nodes.items };
}

impl NodeList {
    pub(crate) fn new(alloc: Global) -> NodeList
        ensures { result ≡ [] }
    {
        NodeList {
            names: IndexSet::new(alloc),
            guids: IndexSet::new(alloc),
            nodes: Vec::new(alloc),
        }
    }

    pub(crate) fn as_slice(&self) -> &[Node]
        ensures { result.now ≡ self.now }
    {
        self.nodes.as_slice()
    }

    /// Where the node of this name stands, looked up in constant time.
    pub(crate) fn place_of(&self, name: &[u8]) -> Option<usize>
        ensures { result ≡ place_of name.now self.now }
    {
        self.names.get_index_of(name)
    }

    /// Whether a GUID of the node is used already, or does not fit, in constant time.
    pub(crate) fn lacks_guids(&self, node: &NewNode) -> bool
        ensures { result ≡ lacks_guids self.now (seen node.now) }
    {
        node.last_guid() > u128::from(u64::MAX) || self.shares_some_guid(node)
    }

    fn shares_some_guid(&self, node: &NewNode) -> bool
        requires { HasGuids (seen node.now) }
        ensures { result ≡ list_any (λ other. shares_guid (seen node.now) other) self.now }
    {
        for number in 0..u64::from(port_guids(node.node_type, node.ports)) + 1 {
            if self.guids.contains(&(node.guid + number)) {
                return true;
            }
        }
        false
    }

    /// Adds a node at the end. It can only run out of memory, and then the list stays as it was.
    pub(crate) fn push(&mut self, alloc: Global, node: &NewNode) -> Result<(), AllocError>
        requires new { place_of node.now.name.now self.old ≡ None }
        requires short { length node.now.name.now ≤ NAME_BYTES }
        requires guids { HasGuids (seen node.now) }
        ensures ok { OnOk result (self.new ≡ self.old ++ seen node.now ∷ []) }
        ensures err { OnErr result (self.new ≡ self.old) }
    {
        let key = Vec::from_slice(alloc, node.name)?;
        let name = Name::new(alloc, node.name)?;
        self.nodes.reserve(1)?;
        self.names.reserve(1)?;
        know_guids(&mut self.guids, node)?;
        self.names.insert(key)?;
        self.nodes.push(Node {
            name,
            node_type: node.node_type,
            guid: node.guid,
            ports: node.ports,
        })?;
        Ok(())
    }
}

/// Whether the node there is a switch.
pub fn is_switch_at(nodes: &[Node], place: usize) -> bool
    ensures { result ≡ is_switch_at nodes.now place }
{
    match nodes.get(place) {
        Some(node) => node.is_switch(),
        None => false,
    }
}

/// The GUID of the node there, or 0 if there is none.
pub fn guid_at(nodes: &[Node], place: usize) -> u64
    ensures { result ≡ guid_at nodes.now place }
{
    match nodes.get(place) {
        Some(node) => node.guid,
        None => 0,
    }
}

/// How many ports the node there has.
pub fn ports_at(nodes: &[Node], place: usize) -> u8
    ensures { result ≡ ports_at nodes.now place }
{
    match nodes.get(place) {
        Some(node) => node.ports,
        None => 0,
    }
}

/// How many ports of such a node have a GUID of their own.
fn port_guids(node_type: NodeType, ports: u8) -> u8
    ensures { result ≡ port_guids node_type ports }
{
    match node_type {
        NodeType::Switch => 0,
        NodeType::ChannelAdapter => ports,
    }
}

/// Notes the GUIDs of a node. It can only run out of memory, and then all is as before.
fn know_guids(guids: &mut IndexSet<u64>, node: &NewNode) -> Result<(), AllocError>
    requires { HasGuids (seen node.now) }
    ensures ok { OnOk result (KnowMore (seen node.now) guids.old.keys guids.new.keys) }
    ensures err { OnErr result (KnowSame guids.old.keys guids.new.keys) }
{
    let count = usize::from(port_guids(node.node_type, node.ports)) + 1;
    guids.reserve(count)?;
    for number in 0..count {
        guids.insert(node.guid + number as u64)?;
    }
    Ok(())
}

/// How many switches there are.
pub(crate) fn switch_count(nodes: &[Node]) -> usize
    ensures { result ≡ switch_count nodes.now }
{
    nodes.iter().filter(|node| node.is_switch()).count()
}
