//! What a graph holds.

ghost use Rattle.std.specs.Prelude.{◌≡◌, ◌==◌, true, [], ◌∷◌, ◌++◌, length, find, position, IfOk, OnOk};
ghost use Rattle.std.specs.Option.{option_copied};
ghost use Rattle.sweep.specs.Graph.{IsGraph, end_guids, is_joined};
ghost use Rattle.sweep.specs.Joined.{AllJoined};

use crate::agreement::{end_guids, has_a_nearer_switch};
use crate::path::Path;
use crate::switch_list::SwitchList;
use fabric_parts::PortRef;
use std::alloc::{AllocError, Global};
use std::marker::Model;

/// A switch of a graph.
#[derive(Debug, Drop)]
pub struct GraphSwitch {
    /// Its GUID.
    pub guid: u64,
    /// How many ports it has, port 0 not counted.
    pub num_ports: u8,
    /// Its NodeDescription.
    pub name: [u8; 64],
    /// The path by which it was found.
    pub path: Path,
}

impl GraphSwitch {
    /// The same switch again.
    pub(crate) fn copied(&self) -> GraphSwitch
        ensures { result ≡ self.now }
    {
        GraphSwitch {
            guid: self.guid,
            num_ports: self.num_ports,
            name: self.name,
            path: self.path.copied(),
        }
    }
}

/// A port of a channel adapter, with a cable.
#[derive(Debug, Drop)]
pub struct GraphPort {
    /// The GUID of the adapter.
    pub node_guid: u64,
    /// Its own GUID.
    pub port_guid: u64,
    /// Its number.
    pub number: u8,
    /// How many ports the adapter has.
    pub num_ports: u8,
    /// Its NodeDescription.
    pub name: [u8; 64],
    /// The port of a switch at the other end of its cable, the switch by its place in the graph.
    pub at: PortRef,
}

impl GraphPort {
    /// The same port again.
    pub(crate) fn copied(&self) -> GraphPort
        ensures { result ≡ self.now }
    {
        GraphPort {
            node_guid: self.node_guid,
            port_guid: self.port_guid,
            number: self.number,
            num_ports: self.num_ports,
            name: self.name,
            at: self.at,
        }
    }
}

/// A port of a switch with a cable to another switch.
#[derive(Clone, Copy, Debug, PartialEq, Eq)]
pub struct GraphLink {
    /// Its number.
    pub port: u8,
    /// The port at the other end, of a switch by its place in the graph.
    pub to: PortRef,
}

/// The links of a switch, in the order of its ports.
#[derive(Debug, Drop)]
pub struct GraphRow {
    links: Vec<GraphLink>,
}

impl Model for GraphRow {
    ghost use Rattle.std.specs.Prelude.{List};
    ghost use Rattle.sweep.specs.declared.graph.GraphLink.{GraphLink};

    ghost Value = { List GraphLink };

    ghost view = { λ row. row.links.items };
}

impl GraphRow {
    /// No link.
    pub(crate) fn new(alloc: Global) -> GraphRow
        ensures { result ≡ [] }
    {
        GraphRow {
            links: Vec::new(alloc),
        }
    }

    /// These links.
    pub(crate) fn of(links: Vec<GraphLink>) -> GraphRow
        ensures { result ≡ links.items }
    {
        GraphRow { links }
    }

    /// The links.
    pub fn as_slice(&self) -> &[GraphLink]
        ensures { result.now ≡ self.now }
    {
        &self.links
    }

    /// Adds a link. It can only run out of memory.
    pub(crate) fn push(&mut self, link: GraphLink) -> Result<(), AllocError>
        ensures ok { OnOk result (self.new ≡ self.old ++ link ∷ []) }
    {
        self.links.push(link)?;
        Ok(())
    }
}

/// What a subnet manager knows of a fabric: its switches in the order of their discovery, the links between
/// them, and the ports of channel adapters that are attached to them.
///
/// `specs/Graph.antt` says what holds of every graph, whatever wire it came over.
#[derive(Debug)]
pub struct Graph {
    pub(crate) manager: u64,
    pub(crate) switches: SwitchList,
    pub(crate) rows: Vec<GraphRow>,
    pub(crate) ports: Vec<GraphPort>,
}

// As derived, but by one call: else what owns one is proved to let go of each of its parts, on each way out.
impl Drop for Graph {
    fn drop(self) {
        let Graph {
            manager: _,
            switches: _,
            rows: _,
            ports: _,
        } = self;
    }
}

impl Model for Graph {
    ghost use Rattle.sweep.specs.Graph.{GraphState, IsGraph, graph_with};

    ghost Value = { GraphState };

    ghost view = { λ graph. graph_with graph.manager graph.switches graph.rows.items graph.ports.items };

    ghost invariant = { λ graph. IsGraph (graph_with graph.manager graph.switches graph.rows.items graph.ports.items) };
}

impl Graph {
    /// The GUID of the SM port.
    pub fn manager(&self) -> u64
        ensures { result ≡ self.now.manager }
    {
        self.manager
    }

    /// The switches, in the order of their discovery.
    pub fn switches(&self) -> &[GraphSwitch]
        ensures { result.now ≡ self.now.switches }
    {
        self.switches.as_slice()
    }

    /// The place of the switch with this GUID, looked up in constant time.
    pub fn place_of(&self, guid: u64) -> Option<usize>
        ensures { result ≡ position (λ switch. switch.guid == guid) self.now.switches }
    {
        self.switches.place_of(guid)
    }

    /// The switch with this GUID, looked up in constant time.
    pub fn switch(&self, guid: u64) -> Option<&GraphSwitch>
        ensures { option_copied result ≡ find (λ switch. switch.guid == guid) self.now.switches }
    {
        match self.place_of(guid) {
            Some(place) => Some(&self.switches()[place]),
            None => None,
        }
    }

    /// For each switch its links, in the same order; so each cable between two switches is in two rows.
    pub fn rows(&self) -> &[GraphRow]
        ensures { result.now ≡ self.now.rows }
    {
        &self.rows
    }

    /// The ports of channel adapters that have a cable, in the order in which they were met.
    pub fn ports(&self) -> &[GraphPort]
        ensures { result.now ≡ self.now.ports }
    {
        &self.ports
    }

    /// The GUIDs of the ends of packets: those of the switches, and then those of the ports. It can only run out of
    /// memory.
    pub fn end_guids(&self, alloc: Global) -> Result<Vec<u64>, AllocError>
        ensures { IfOk result (λ guids. guids.items ≡ end_guids self.now.switches self.now.ports) }
    {
        end_guids(alloc, self.switches(), &self.ports)
    }

    /// Whether each switch but the first has a link to one that was found earlier. Then links join all switches.
    pub(crate) fn is_joined(&self) -> bool
        ensures order { result ≡ is_joined self.now.rows }
        ensures joined { result ≡ true → AllJoined self.now.rows }
    {
        has_a_nearer_switch(&self.rows)
    }

    /// What holds of every graph, whatever wire it came over.
    pub fn known_graph(&self)
        ensures { IsGraph self.now }
    {
        let _ = &self.manager;
    }
}
