//! The nodes of the topology, with their names.

ghost use Rattle.std.specs.Prelude.{◌≡◌, ◌++◌, [], ◌∷◌, slice_get, OnOk};
ghost use Rattle.std.specs.Option.{option_map_or};
ghost use Rattle.topology_import.specs.Names.{has_name, planned};
ghost use Rattle.topology_import.specs.Text.{name_with, place_with};

use crate::index::GuidIndex;
use crate::nodes::Meant;
use fabric_parts::NodeType;
use indexmap::IndexSet;
use std::alloc::{AllocError, Global};
use std::marker::Model;

/// The name of a node.
#[derive(Drop)]
pub(crate) struct Name {
    bytes: Vec<u8>,
}

impl Model for Name {
    ghost use Rattle.std.specs.Prelude.{ℕ, List};

    ghost Value = { List ℕ };

    ghost view = { λ name. name.bytes.items };
}

impl Name {
    pub(crate) fn new(bytes: Vec<u8>) -> Name
        ensures { result ≡ bytes.items }
    {
        Name { bytes }
    }

    pub(crate) fn as_bytes(&self) -> &[u8]
        ensures { result.now ≡ self.now }
    {
        self.bytes.as_slice()
    }
}

/// A node of the topology.
#[derive(Drop)]
pub struct Planned {
    pub(crate) name: Name,
    pub(crate) node_type: NodeType,
    pub(crate) guid: u64,
    pub(crate) ports: u8,
    pub(crate) node: usize,
    pub(crate) line: usize,
}

/// Nodes in the order in which they were added, found by GUID and by name in constant time.
#[derive(Drop)]
pub(crate) struct PlannedList {
    // The GUIDs again, each at the place of its node.
    guids: GuidIndex,
    // The names that there are.
    names: IndexSet<Vec<u8>>,
    nodes: Vec<Planned>,
}

impl Model for PlannedList {
    ghost use Rattle.std.specs.Prelude.{ℕ, ◌≡◌, List, map};
    ghost use Rattle.std.specs.List.{list_any};
    ghost use Rattle.std.specs.Str.{bytes_eq};
    ghost use Rattle.topology_import.specs.declared.planned.Planned.{Planned};
    ghost use Rattle.topology_import.specs.Names.{has_name};

    ghost Value = { List Planned };

    ghost view = { λ list. list.nodes.items };

    ghost invariant = { λ list. (list.guids ≡ map (λ node. node.guid) list.nodes.items)
        × ((name : List ℕ) → list_any (λ key. bytes_eq name key.items) list.names.keys ≡ has_name list.nodes.items name) };
}

impl PlannedList {
    pub(crate) fn new(alloc: Global) -> PlannedList
        ensures { result ≡ [] }
    {
        PlannedList {
            guids: GuidIndex::new(alloc),
            names: IndexSet::new(alloc),
            nodes: Vec::new(alloc),
        }
    }

    pub(crate) fn as_slice(&self) -> &[Planned]
        ensures { result.now ≡ self.now }
    {
        self.nodes.as_slice()
    }

    /// Whether a node has this name.
    pub(crate) fn has_name(&self, name: &[u8]) -> bool
        ensures { result ≡ has_name self.now name.now }
    {
        self.names.contains(name)
    }

    fn place_with(&self, guid: u64) -> Option<usize>
        ensures { result ≡ place_with guid self.now }
    {
        self.guids.place_of(guid)
    }

    /// The name of the node of this GUID.
    pub(crate) fn name_with(&self, guid: u64) -> &[u8]
        ensures { result.now ≡ name_with guid self.now }
    {
        match self.place_with(guid) {
            Some(place) => name_at(self.as_slice(), place),
            None => &[],
        }
    }

    /// Adds a node of this name at the end. It can only run out of memory.
    pub(crate) fn push(
        &mut self,
        alloc: Global,
        name: Vec<u8>,
        node: Meant,
    ) -> Result<(), AllocError>
        ensures { OnOk result (self.new ≡ self.old ++ planned name.items node ∷ []) }
    {
        let key = Vec::from_slice(alloc, name.as_slice())?;
        self.nodes.reserve(1)?;
        self.names.reserve(1)?;
        self.guids.push(node.guid)?;
        self.names.insert(key)?;
        self.nodes.push(Planned {
            name: Name::new(name),
            node_type: node.node_type,
            guid: node.guid,
            ports: node.ports,
            node: node.node,
            line: node.line,
        })?;
        Ok(())
    }
}

/// The name of the node there, or no name if there is none.
fn name_at(nodes: &[Planned], place: usize) -> &[u8]
    ensures { result.now ≡ option_map_or (λ node. node.name) (slice_get nodes.now place) [] }
{
    match nodes.get(place) {
        Some(node) => node.name.as_bytes(),
        None => &[],
    }
}
