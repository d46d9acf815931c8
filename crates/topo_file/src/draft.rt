//! A topology of which lines are still to come.

ghost use Rattle.std.specs.Prelude.{◌≡◌, true, false, None, IfOk, OnOk};
ghost use Rattle.std.specs.Option.{ok_or};
ghost use Rattle.topo_file.specs.declared.fault.TopologyCause.TheVariants.{UnknownNode, NoSuchPort};
ghost use Rattle.topo_file.specs.Node.{HasGuids, is_one_too_many, is_switch_at, place_of};
ghost use Rattle.topo_file.specs.NewNode.{seen};
ghost use Rattle.topo_file.specs.Cable.{port_at};
ghost use Rattle.topo_file.specs.Sound.{is_port};
ghost use Rattle.step_results.specs.Gives.{seen_by};
ghost use Rattle.topo_file.specs.Topology.{is_root, new_node, new_cable, new_root, new_manager, nothing};

use crate::cable::{CableList, may_join, port_at};
use crate::fault::TopologyCause;
use crate::node::{NewNode, NodeList, is_switch_at};
use fabric_parts::{Cable, Limits, NodeType, PortRef};
use std::alloc::Global;
use std::marker::Model;

/// The SM port, and the line that places it there.
#[derive(Clone, Copy, Debug)]
pub(crate) struct Manager {
    pub(crate) port: PortRef,
    pub(crate) line: usize,
}

/// What the lines so far declare.
#[derive(Drop)]
pub(crate) struct Draft {
    pub(crate) limits: Limits,
    pub(crate) nodes: NodeList,
    pub(crate) cables: CableList,
    // The places of their switches among the nodes.
    pub(crate) roots: Vec<usize>,
    pub(crate) manager: Option<Manager>,
    // How many switches there are, and how many ports the adapters have, all together.
    pub(crate) switches: usize,
    pub(crate) ports: usize,
}

impl Model for Draft {
    ghost use Rattle.std.specs.Prelude.{◌≡◌};
    ghost use Rattle.topo_file.specs.Node.{adapter_ports, switch_count};
    ghost use Rattle.topo_file.specs.Topology.{DraftState};
    ghost use Rattle.topo_file.specs.Sound.{IsSoundSoFar};

    ghost Value = { DraftState };

    ghost view = { λ draft. record { limits = draft.limits; nodes = draft.nodes; cables = draft.cables; roots = draft.roots.items; manager = draft.manager } };

    ghost invariant = { λ draft. IsSoundSoFar
        (record { limits = draft.limits; nodes = draft.nodes; cables = draft.cables; roots = draft.roots.items; manager = draft.manager })
        × (draft.switches ≡ switch_count draft.nodes) × (draft.ports ≡ adapter_ports draft.nodes) };
}

impl Draft {
    pub(crate) fn new(alloc: Global, limits: Limits) -> Draft
        ensures { result ≡ nothing limits }
    {
        Draft {
            limits,
            nodes: NodeList::new(alloc),
            cables: CableList::new(alloc),
            roots: Vec::new(alloc),
            manager: None,
            switches: 0,
            ports: 0,
        }
    }

    /// Judges a node against those before it.
    pub(crate) fn new_node(&self, node: &NewNode) -> Result<(), TopologyCause>
        ensures value { seen_by (λ _. seen node.now) result ≡ new_node self.now.limits self.now.nodes (seen node.now) }
        ensures new { IfOk result (λ _. place_of node.now.name.now self.now.nodes ≡ None) }
        ensures guids { OnOk result (HasGuids (seen node.now)) }
        ensures room { OnOk result (is_one_too_many self.now.limits self.now.nodes node.now.node_type node.now.ports ≡ false) }
    {
        if self.nodes.place_of(node.name).is_some() {
            return Err(TopologyCause::DuplicateName);
        }
        if self.nodes.lacks_guids(node) {
            return Err(TopologyCause::DuplicateGuid);
        }
        if self.is_one_too_many(node.node_type, node.ports) {
            return Err(TopologyCause::OverLimit);
        }
        Ok(())
    }

    /// Whether one more node of this type is past the limits.
    #[tactic(auto, using(crate::proofs::WithinLemmas::few_ports))]
    fn is_one_too_many(&self, node_type: NodeType, ports: u8) -> bool
        ensures { result ≡ is_one_too_many self.now.limits self.now.nodes node_type ports }
    {
        match node_type {
            NodeType::Switch => self.switches >= self.limits.switches(),
            NodeType::ChannelAdapter => {
                self.ports + usize::from(ports) > self.limits.adapter_ports()
            }
        }
    }

    /// The cable between two ports, judged against what was declared before it.
    pub(crate) fn new_cable(&self, first: PortRef, second: PortRef) -> Result<Cable, TopologyCause>
        ensures value { result ≡ new_cable self.now.nodes self.now.cables first second }
        ensures same { IfOk result (λ cable. cable ≡ record { first = first; second = second }) }
    {
        if self.cables.is_cabled(first) || self.cables.is_cabled(second) {
            return Err(TopologyCause::PortTaken);
        }
        if !may_join(self.nodes.as_slice(), first.node, second.node) {
            return Err(TopologyCause::WrongCableEnds);
        }
        Ok(Cable { first, second })
    }

    /// The root at this place, judged against what was declared before it.
    pub(crate) fn new_root(&self, place: usize) -> Result<usize, TopologyCause>
        ensures value { result ≡ new_root self.now.nodes self.now.roots place }
        ensures switch { IfOk result (λ root. is_switch_at self.now.nodes root ≡ true) }
        ensures own { IfOk result (λ root. is_root self.now.roots root ≡ false) }
    {
        if !is_switch_at(self.nodes.as_slice(), place) {
            return Err(TopologyCause::RootNotSwitch);
        }
        if is_root(&self.roots, place) {
            return Err(TopologyCause::DuplicateName);
        }
        Ok(place)
    }

    /// The manager on this port, judged against what was declared before it.
    pub(crate) fn new_manager(&self, number: usize, port: PortRef) -> Result<Manager, TopologyCause>
        ensures value { result ≡ new_manager self.now.nodes self.now.manager number port }
        ensures same { IfOk result (λ manager. manager.port ≡ port) }
        ensures on_adapter { IfOk result (λ _. is_switch_at self.now.nodes port.node ≡ false) }
    {
        if self.manager.is_some() || is_switch_at(self.nodes.as_slice(), port.node) {
            return Err(TopologyCause::WrongManager);
        }
        Ok(Manager { port, line: number })
    }

    pub(crate) fn node_named(&self, name: &[u8]) -> Result<usize, TopologyCause>
        ensures { result ≡ ok_or (place_of name.now self.now.nodes) UnknownNode }
    {
        self.nodes.place_of(name).ok_or(TopologyCause::UnknownNode)
    }

    pub(crate) fn port_at(&self, place: usize, number: u128) -> Result<PortRef, TopologyCause>
        ensures value { result ≡ ok_or (port_at self.now.nodes place number) NoSuchPort }
        ensures is_port { IfOk result (λ port. is_port self.now.nodes port ≡ true) }
    {
        port_at(self.nodes.as_slice(), place, number).ok_or(TopologyCause::NoSuchPort)
    }
}

/// Whether the node there is one of the roots.
fn is_root(roots: &[usize], place: usize) -> bool
    ensures { result ≡ is_root roots.now place }
{
    roots.iter().any(|root| place == *root)
}
