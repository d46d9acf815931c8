//! How a fabric is set up over any wire: the fabric may be one that only answers SMPs.

ghost use Rattle.std.specs.Prelude.{ℕ, ◌≡◌, ◌≤◌, ◌<◌, true, length, slice_get, IfOk, IfErr, List, Some};
ghost use Rattle.std.specs.Option.{ForSome};
ghost use Rattle.fabric_parts.specs.declared.lid.TheConstants.{LAST_UNICAST_LID};
ghost use Rattle.smp_wire.specs.FabricState.{FabricState};
ghost use Rattle.smp_wire.specs.Good.{IsGood};
ghost use Rattle.subnet_fabric.specs.BringUp.{root_guids};
ghost use Rattle.subnet_fabric.specs.Managing.{are_found, is_found, AreAsked, AreManaged, RoutesAreAsked, SetsUpAsked};
ghost use Rattle.subnet_fabric.specs.SetUp.{IsByRule, IsFound, IsNotSetUp};
ghost use Rattle.sweep.specs.Joined.{AllJoined};
ghost use Rattle.sweep.specs.Sweeps.{IsSweepable};

use crate::bring_up::root_guids;
use crate::fault::FabricFault;
use fabric_parts::LAST_UNICAST_LID;
use lid_assign::{Lids, assign};
use pkey_rules::{KeyTable, PARTITIONS};
use smp_wire::SmpWire;
use std::alloc::Global;
use sweep::{Graph, SweepFault, sweep};
use table_push::{known_to_lead_home, push_all_counting};
use topo_file::Topology;
use updn_routes::{Routes, TieRule, routes};

/// A fabric behind a wire that is set up.
#[derive(Drop)]
pub struct Managed {
    /// Its routes.
    pub routes: Routes,
    /// How many ports of its switches do not enforce partitions, of those that channel adapters are attached to. Only the
    /// channel adapter keeps partitions apart there.
    pub not_enforcing: usize,
}

/// Sets up the fabric behind a wire as the one of a topology, whose end ports have these GUIDs in order of LID, and these
/// keys: [`set_up_over`] from the topology's roots, by that rule of ties.
pub fn manage<W: SmpWire>(
    alloc: Global,
    wire: &mut W,
    topology: &Topology,
    ports: &[u64],
    keys: &[KeyTable<PARTITIONS>],
    rule: TieRule,
) -> Result<Managed, FabricFault>
    ensures managed { IfOk result (λ managed. AreManaged (root_guids topology.now) ports.now managed.routes) }
    ensures ruled { IfOk result (λ managed. IsByRule rule managed.routes) }
    ensures few { IfOk result (λ managed. managed.not_enforcing ≤ length managed.routes.graph.ports) }
    ensures over { ForSome (W.fabric wire.old) (λ fabric. IsSweepable fabric
        → SetsUpAsked fabric ports.now (root_guids topology.now) keys.now (W.fabric wire.new) result) }
{
    let roots = root_guids(alloc, topology)?;
    set_up_over(alloc, wire, &roots, ports, keys, rule)
}

/// Sets up the fabric behind a wire: sweeps it, names its end ports by LIDs, computes routes from the roots, which are named
/// by their GUIDs, and pushes ports, P_Key tables and LFTs. Its end ports have to be those that are asked
/// for; their GUIDs and their keys stand in order of LID. The rule says which of its ties a switch takes. Switches that do not
/// enforce partitions are no fault: it counts their ports.
///
/// It returns over every wire. Before anything is pushed, replies that are no fabric's are a fault of the sweep, and
/// `WrongReply` so are other end ports, and a root that is no switch of it. Over a wire that stands for a good fabric it does
/// what [`set_up`](crate::set_up) does, if that has these end ports and roots, and counts no port.
pub fn set_up_over<W: SmpWire>(
    alloc: Global,
    wire: &mut W,
    roots: &[u64],
    ports: &[u64],
    keys: &[KeyTable<PARTITIONS>],
    rule: TieRule,
) -> Result<Managed, FabricFault>
    ensures managed { IfOk result (λ managed. AreManaged roots.now ports.now managed.routes) }
    ensures ruled { IfOk result (λ managed. IsByRule rule managed.routes) }
    ensures few { IfOk result (λ managed. managed.not_enforcing ≤ length managed.routes.graph.ports) }
    ensures over { ForSome (W.fabric wire.old) (λ fabric. IsSweepable fabric
        → SetsUpAsked fabric ports.now roots.now keys.now (W.fabric wire.new) result) }
{
    let graph = graph_over(alloc, wire)?;
    let routes = routes_asked(alloc, graph, roots, ports, rule)?;
    known_to_lead_home(&routes);
    match push_all_counting(wire, &routes, keys) {
        Ok(not_enforcing) => Ok(Managed {
            routes,
            not_enforcing,
        }),
        Err(fault) => Err(FabricFault::Push(fault)),
    }
}

/// What a sweep of the fabric behind a wire finds; the fabric stays as it is.
pub(crate) fn graph_over<W: SmpWire>(alloc: Global, wire: &mut W) -> Result<Graph, FabricFault>
    ensures joined { IfOk result (λ graph. AllJoined graph.rows) }
    ensures found { ForSome (W.fabric wire.old) (λ fabric. IsSweepable fabric → IfOk result (IsFound fabric)) }
    ensures fault { ForSome (W.fabric wire.old) (λ fabric. IsSweepable fabric
        → IfErr result (λ fault. (roots : List ℕ) → IsNotSetUp fabric roots fault)) }
    ensures left { ForSome (W.fabric wire.old) (λ fabric. IsGood fabric → W.fabric wire.new ≡ Some fabric) }
{
    Ok(sweep(alloc, wire)?)
}

/// The routes of a graph from these roots, by its LIDs, if its end ports are these.
fn routes_asked(
    alloc: Global,
    graph: Graph,
    roots: &[u64],
    ports: &[u64],
    rule: TieRule,
) -> Result<Routes, FabricFault>
    requires joined { AllJoined graph.rows }
    ensures asked { IfOk result (AreAsked roots.now ports.now) }
    ensures ruled { IfOk result (IsByRule rule) }
    ensures over { (fabric : FabricState) → IsFound fabric graph → RoutesAreAsked fabric ports.now roots.now result }
{
    let lids = assign(alloc, &graph)?;
    let is_asked = is_as_asked(&graph, &lids, roots, ports);
    if !is_asked {
        return Err(FabricFault::Sweep(SweepFault::WrongReply));
    }
    Ok(routes(alloc, graph, lids, roots, rule)?)
}

/// Whether these are the end ports of the graph, and these roots are switches of it.
fn is_as_asked(graph: &Graph, lids: &Lids, roots: &[u64], ports: &[u64]) -> bool
    ensures same { result ≡ true → lids.now ≡ ports.now }
    ensures found { result ≡ true → are_found graph.now roots.now ≡ true }
    ensures all { lids.now ≡ ports.now → are_found graph.now roots.now ≡ true → result ≡ true }
{
    are_of(lids, ports) && are_found(graph, roots)
}

/// Whether the LIDs are those of these GUIDs, in order.
fn are_of(lids: &Lids, ports: &[u64]) -> bool
    ensures same { result ≡ true → lids.now ≡ ports.now }
    ensures all { lids.now ≡ ports.now → result ≡ true }
{
    lids.known_distinct();
    if ports.len() >= usize::from(LAST_UNICAST_LID) {
        return false;
    }
    for (place, guid) in ports.iter().enumerate() {
        let is_there = is_at(lids, place, *guid);
        if !is_there {
            return false;
        }
    }
    guid_at(lids, ports.len()).is_none()
}

/// Whether this GUID has the LID at that place.
fn is_at(lids: &Lids, place: usize, guid: u64) -> bool
    requires { place < LAST_UNICAST_LID }
    ensures yes { result ≡ true → slice_get lids.now place ≡ Some guid }
    ensures no { slice_get lids.now place ≡ Some guid → result ≡ true }
{
    match guid_at(lids, place) {
        Some(other) => other == guid,
        None => false,
    }
}

/// The GUID that has the LID at that place.
fn guid_at(lids: &Lids, place: usize) -> Option<u64>
    requires { place < LAST_UNICAST_LID }
    ensures { result ≡ slice_get lids.now place }
{
    lids.port_of(place as u16 + 1)
}

/// Whether each of these GUIDs is one of a switch of the graph.
fn are_found(graph: &Graph, roots: &[u64]) -> bool
    ensures { result ≡ are_found graph.now roots.now }
{
    roots.iter().all(|root| is_found(graph, *root))
}

fn is_found(graph: &Graph, root: u64) -> bool
    ensures { result ≡ is_found graph.now root }
{
    graph.switches().iter().any(|switch| switch.guid == root)
}
