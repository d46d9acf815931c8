//! How far a sweep has come.

ghost use Rattle.std.specs.Prelude.{◌≡◌, ◌<◌, ◌≤◌, ◌==◌, ◌⊎◌, true, false, [], ◌∷◌, ◌++◌, length, find, position, slice_get, None, option_map, IfOk, IfErr, OnOk, IfSome};
ghost use Rattle.std.specs.Result.{IsErrOf};
ghost use Rattle.fabric_parts.specs.Cable.{is_same_port};
ghost use Rattle.fabric_parts.specs.declared.cable.PortRef.{PortRef};
ghost use Rattle.sweep.specs.Graph.{IsGraph, count_at, graph_with, is_linked};
ghost use Rattle.sweep.specs.Survey.{SurveyState};
ghost use Rattle.sweep.specs.declared.fault.SweepFault.TheVariants.{NoMemory, TooManyNodes, WrongReply};
ghost use Rattle.fabric_parts.specs.declared.limits.TheConstants.{ADAPTER_PORTS, SWITCHES};

use crate::agreement::{are_a_graph, count_at, links_at};
use crate::fault::SweepFault;
use crate::graph::{Graph, GraphLink, GraphPort, GraphRow, GraphSwitch};
use crate::path::Path;
use crate::switch_list::SwitchList;
use fabric_parts::{ADAPTER_PORTS, PortRef, SWITCHES};
use std::alloc::{AllocError, Global};
use std::marker::Model;

/// The switches that were found, the links of those that were asked, and the ports of channel adapters that
/// were met.
#[derive(Drop)]
pub(crate) struct Survey {
    switches: SwitchList,
    rows: Vec<GraphRow>,
    ports: Vec<GraphPort>,
}

impl Model for Survey {
    ghost use Rattle.sweep.specs.Survey.{SurveyState};

    ghost Value = { SurveyState };

    ghost view = { λ survey. record { switches = survey.switches; rows = survey.rows.items; ports = survey.ports.items } };
}

impl Survey {
    /// Nothing was found.
    pub(crate) fn new(alloc: Global) -> Survey
        ensures { result ≡ record { switches = []; rows = []; ports = [] } }
    {
        Survey {
            switches: SwitchList::new(alloc),
            rows: Vec::new(alloc),
            ports: Vec::new(alloc),
        }
    }

    /// How many ports the switch at that place has, and the path to it.
    pub(crate) fn way_to(&self, place: usize) -> Option<(u8, Path)>
        ensures { result ≡ option_map (λ switch. (switch.num_ports, switch.path)) (slice_get self.now.switches place) }
    {
        way_to(self.switches.as_slice(), place)
    }

    /// How many ports the switch at that place has; none, if there is no switch.
    pub(crate) fn count_at(&self, place: usize) -> u8
        ensures { result ≡ count_at self.now.switches place }
    {
        count_at(self.switches.as_slice(), place)
    }

    /// The place of the switch with this GUID, looked up in constant time.
    pub(crate) fn place_of(&self, guid: u64) -> Option<usize>
        ensures { result ≡ position (λ switch. switch.guid == guid) self.now.switches }
    {
        self.switches.place_of(guid)
    }

    /// Adds a switch whose GUID is new, and gives its place. `TooManyNodes` if there is no room.
    pub(crate) fn add_switch(&mut self, switch: GraphSwitch) -> Result<usize, SweepFault>
        requires new { position (λ known. known.guid == switch.guid) self.old.switches ≡ None }
        ensures place { IfOk result (λ place. place ≡ length self.old.switches) }
        ensures ok { OnOk result (self.new ≡ record self.old { switches = self.old.switches ++ switch ∷ [] }) }
        ensures room { OnOk result (length self.old.switches < SWITCHES) }
        ensures full { IsErrOf result TooManyNodes → SWITCHES ≤ length self.old.switches }
        ensures err { IfErr result (λ fault. (fault ≡ NoMemory) ⊎ (fault ≡ TooManyNodes)) }
    {
        let place = self.switches.as_slice().len();
        if place >= SWITCHES {
            return Err(SweepFault::TooManyNodes);
        }
        self.switches.push(switch)?;
        Ok(place)
    }

    /// Adds a port. `TooManyNodes` if there is no room.
    pub(crate) fn add_port(&mut self, port: GraphPort) -> Result<(), SweepFault>
        ensures ok { OnOk result (self.new ≡ record self.old { ports = self.old.ports ++ port ∷ [] }) }
        ensures room { OnOk result (length self.old.ports < ADAPTER_PORTS) }
        ensures full { IsErrOf result TooManyNodes → ADAPTER_PORTS ≤ length self.old.ports }
        ensures err { IfErr result (λ fault. (fault ≡ NoMemory) ⊎ (fault ≡ TooManyNodes)) }
    {
        if self.ports.len() >= ADAPTER_PORTS {
            return Err(SweepFault::TooManyNodes);
        }
        self.ports.push(port)?;
        Ok(())
    }

    /// Adds the links of a switch. It can only run out of memory.
    pub(crate) fn add_row(&mut self, row: GraphRow) -> Result<(), AllocError>
        ensures ok { OnOk result (self.new ≡ record self.old { rows = self.old.rows ++ row ∷ [] }) }
    {
        self.rows.push(row)?;
        Ok(())
    }

    /// A port that a link to this one was seen from.
    pub(crate) fn seen_from(&self, there: PortRef) -> Option<PortRef>
        ensures some { IfSome result (λ here. is_linked self.now.rows here there ≡ true) }
        ensures none { result ≡ None → (here : PortRef) → is_linked self.now.rows here there ≡ false }
    {
        seen_from(&self.rows, there)
    }

    /// The graph of what was found. `WrongReply` if that is none, since replies contradict one another.
    pub(crate) fn into_graph(self, alloc: Global, manager: u64) -> Result<Graph, SweepFault>
        ensures ok { IfOk result (λ graph. graph ≡ graph_with manager self.switches self.rows self.ports) }
        ensures wrong { IsErrOf result WrongReply → IsGraph (graph_with manager self.switches self.rows self.ports) → ⊥ }
        ensures err { IfErr result (λ fault. (fault ≡ NoMemory) ⊎ (fault ≡ WrongReply)) }
    {
        let Survey {
            switches,
            rows,
            ports,
        } = self;
        if !are_a_graph(alloc, manager, &switches, &rows, &ports)? {
            return Err(SweepFault::WrongReply);
        }
        Ok(Graph {
            manager,
            switches,
            rows,
            ports,
        })
    }
}

/// How many ports the switch at that place has, and the path to it.
fn way_to(switches: &[GraphSwitch], place: usize) -> Option<(u8, Path)>
    ensures { result ≡ option_map (λ switch. (switch.num_ports, switch.path)) (slice_get switches.now place) }
{
    match switches.get(place) {
        Some(switch) => Some((switch.num_ports, switch.path.copied())),
        None => None,
    }
}

/// The port of that switch whose link leads there.
fn port_to(links: &[GraphLink], there: PortRef) -> Option<u8>
    ensures { result ≡ option_map (λ link. link.port) (find (λ link. is_same_port link.to there) links.now) }
{
    links
        .iter()
        .find(|link| link.to == there)
        .map(|link| link.port)
}

/// A port whose link leads there.
fn seen_from(rows: &[GraphRow], there: PortRef) -> Option<PortRef>
    ensures some { IfSome result (λ here. is_linked rows.now here there ≡ true) }
    ensures none { result ≡ None → (here : PortRef) → is_linked rows.now here there ≡ false }
{
    for node in 0..rows.len() {
        if let Some(port) = port_to(links_at(rows, node), there) {
            return Some(PortRef { node, port });
        }
    }
    None
}
