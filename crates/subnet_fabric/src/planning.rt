//! What would become of a fabric with a cable cut, or mended. That is planned over the graph of its routes: no SMP is sent, and
//! nothing changes.

ghost use Rattle.std.specs.Prelude.{◌≡◌, ◌==◌, true, IfOk};
ghost use Rattle.std.specs.List.{list_all, list_any};
ghost use Rattle.smp_wire.specs.FabricState.{FabricState};
ghost use Rattle.smp_wire.specs.Good.{IsGood};
ghost use Rattle.subnet_fabric.specs.BringUp.{root_guids};
ghost use Rattle.subnet_fabric.specs.Planning.{IsPlan, IsPlannedBy, MayBePlanned, MayBePlannedIn, RoutesGive, is_routed, planned, planned_in, port_in, routes_in};
ghost use Rattle.subnet_fabric.specs.SetUp.{IsByRule, IsLaidOut};
ghost use Rattle.sweep.specs.Joined.{AllJoined};
ghost use Rattle.sweep.specs.OfFabric.{IsLayoutOf};
ghost use Rattle.updn_routes.specs.Subnet.{guids_of};

use crate::bring_up::root_guids;
use fabric_parts::{Cable, PortRef};
use lid_assign::assign;
use std::alloc::{AllocError, Global};
use sweep::Graph;
use topo_file::{Topology, guid_at};
use updn_routes::{RouteFault, Routes, TieRule, routes};

/// What would become of a fabric with a cable cut, or mended.
#[derive(Debug, Drop)]
pub enum Planned {
    /// It can be set up, and packets go by these routes.
    Routed(Routes),
    /// Cables do not join all its switches, or one is too far from the subnet manager for any SMP.
    NotWhole,
    /// From a switch that carries adapters' ports no up/down path leads to one of these. Of all such pairs this is the first, by
    /// the switch's LID and then by the port's.
    NoLegalPath {
        /// The switch's LID.
        switch: u16,
        /// The LID of the adapter's port.
        port: u16,
    },
}

impl Planned {
    /// Whether the fabric can be set up.
    pub fn is_routed(&self) -> bool
        ensures { result ≡ is_routed self.now }
    {
        match self {
            Planned::Routed(_) => true,
            Planned::NotWhole => false,
            Planned::NoLegalPath { .. } => false,
        }
    }

    /// The routes, if it can be set up.
    pub(crate) fn into_routes(self) -> Option<Routes>
        ensures { result ≡ routes_in self }
    {
        match self {
            Planned::Routed(routes) => Some(routes),
            Planned::NotWhole => None,
            Planned::NoLegalPath { .. } => None,
        }
    }
}

/// The routes that the fabric of these routes would have, from the topology's roots and by their rule of ties, with the cable between
/// two of its switches cut, or mended; or why it would have none. Nothing is sent. It can only run out of memory.
pub fn plan(
    alloc: Global,
    topology: &Topology,
    routes: &Routes,
    cable: Cable,
    up: bool,
) -> Result<Planned, AllocError>
    requires may { MayBePlannedIn topology.now cable up routes.now.graph }
    requires named { list_all (λ root. list_any (λ guid. guid == root) (guids_of routes.now.graph)) (root_guids topology.now) ≡ true }
    ensures all { (fabric : FabricState) → IsGood fabric → IsLayoutOf (planned_in topology.now cable up routes.now.graph) fabric
        → IfOk result (IsPlan fabric (root_guids topology.now)) }
    ensures ruled { IfOk result (IsPlannedBy routes.now.between.rule) }
{
    let graph = routes.graph();
    graph.known_graph();
    let first = port_in(topology, graph, cable.first);
    let second = port_in(topology, graph, cable.second);
    let planned = changed(alloc, graph, first, second, up)?;
    planned.known_graph();
    if !planned.is_whole(alloc)? {
        return Ok(Planned::NotWhole);
    }
    let roots = root_guids(alloc, topology)?;
    routed(alloc, planned, &roots, routes.between().rule())
}

/// The port of a switch of the topology, as the graph has it.
fn port_in(topology: &Topology, graph: &Graph, at: PortRef) -> PortRef
    ensures { result ≡ port_in topology.now graph.now at }
{
    let guid = guid_at(topology.nodes(), at.node);
    PortRef {
        node: graph.place_of(guid).unwrap_or(0),
        port: at.port,
    }
}

/// The graph with the cable cut, or mended. It can only run out of memory.
fn changed(
    alloc: Global,
    graph: &Graph,
    a: PortRef,
    b: PortRef,
    up: bool,
) -> Result<Graph, AllocError>
    requires { MayBePlanned up a b graph.now }
    ensures { IfOk result (λ other. other ≡ planned up a b graph.now) }
{
    if up {
        graph.with(alloc, a, b)
    } else {
        graph.without(alloc, a, b)
    }
}

/// What these roots make of a fabric that is laid out so: its routes, or the first pair that has none. It can only run out of memory.
fn routed(alloc: Global, graph: Graph, roots: &[u64], rule: TieRule) -> Result<Planned, AllocError>
    requires joined { AllJoined graph.rows }
    requires named { list_all (λ root. list_any (λ guid. guid == root) (guids_of graph)) roots.now ≡ true }
    ensures all { (fabric : FabricState) → IsGood fabric → IsLaidOut fabric graph → IfOk result (RoutesGive fabric roots.now) }
    ensures ruled { IfOk result (IsPlannedBy rule) }
{
    let lids = assign(alloc, &graph)?;
    match routes(alloc, graph, lids, roots, rule) {
        Ok(routes) => {
            routes.known_of_graph();
            routes.between().known_routes();
            Ok(Planned::Routed(routes))
        }
        Err(RouteFault::NoLegalPath { switch, port }) => Ok(Planned::NoLegalPath { switch, port }),
        Err(RouteFault::NoMemory) => Err(AllocError),
    }
}
