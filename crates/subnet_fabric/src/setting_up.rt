//! How a fabric is set up, whatever its agents hold.

ghost use Rattle.std.specs.Prelude.{ℕ, ◌≡◌, ◌==◌, true, IfOk, IfErr, List};
ghost use Rattle.std.specs.Option.{ForSome};
ghost use Rattle.subnet_fabric.specs.Planning.{ArePlannedOver};
ghost use Rattle.std.specs.List.{list_all, list_any};
ghost use Rattle.smp_wire.specs.FabricState.{FabricState};
ghost use Rattle.subnet_fabric.specs.SetUp.{IsByRule, IsFound, IsNotSetUp, RoutesAre, SetsUp, are_switches};
ghost use Rattle.sweep.specs.Joined.{AllJoined};
ghost use Rattle.sweep.specs.Sweeps.{IsSweepable};
ghost use Rattle.updn_routes.specs.Subnet.{guids_of};

use crate::fault::FabricFault;
use crate::same_graph::is_same_graph;
use fabric_wire::Fabric;
use lid_assign::assign;
use pkey_rules::{KeyTable, PARTITIONS};
use std::alloc::Global;
use sweep::{Graph, sweep};
use table_push::{known_to_lead_home, push_all};
use updn_routes::{Routes, TieRule, routes};

/// Sets up a good fabric whose links show and whose switches are joined, whatever was pushed before: sweeps it, names its end
/// ports by LIDs, computes routes from the roots, which are named by their GUIDs, and pushes ports, P_Key tables and
/// LFTs. The keys of the end ports stand in order of LID; the rule says which of its ties a switch takes.
///
/// `Sweep` if and only if a cable is too far from the SM for any SMP or the fabric is too big, and `NoLegalPath` if and only
/// if the roots leave a port without a path; then, and if an allocation fails, the fabric is as it was.
pub fn set_up(
    alloc: Global,
    fabric: &mut Fabric,
    roots: &[u64],
    keys: &[KeyTable<PARTITIONS>],
    rule: TieRule,
) -> Result<Routes, FabricFault>
    requires swept { IsSweepable fabric.old }
    requires roots { are_switches fabric.old roots.now ≡ true }
    ensures all { SetsUp fabric.old roots.now keys.now fabric.new result }
    ensures ruled { IfOk result (IsByRule rule) }
{
    set_up_by(alloc, fabric, roots, keys, rule, None)
}

/// Sets it up so by routes that were planned, if a sweep finds the graph that they were planned over; else by new ones.
pub(crate) fn set_up_by(
    alloc: Global,
    fabric: &mut Fabric,
    roots: &[u64],
    keys: &[KeyTable<PARTITIONS>],
    rule: TieRule,
    planned: Option<Routes>,
) -> Result<Routes, FabricFault>
    requires swept { IsSweepable fabric.old }
    requires roots { are_switches fabric.old roots.now ≡ true }
    requires planned { ForSome planned (ArePlannedOver fabric.old roots.now) }
    requires ruled { ForSome planned (IsByRule rule) }
    ensures all { SetsUp fabric.old roots.now keys.now fabric.new result }
    ensures ruled { IfOk result (IsByRule rule) }
{
    let graph = graph_of(alloc, fabric)?;
    let routes = routes_by(alloc, graph, roots, rule, planned)?;
    known_to_lead_home(&routes);
    match push_all(fabric, &routes, keys) {
        Ok(()) => Ok(routes),
        Err(fault) => Err(FabricFault::Push(fault)),
    }
}

/// What a sweep of the fabric finds; the fabric stays as it is.
fn graph_of(alloc: Global, fabric: &mut Fabric) -> Result<Graph, FabricFault>
    requires { IsSweepable fabric.old }
    ensures found { IfOk result (IsFound fabric.old) }
    ensures fault { IfErr result (λ fault. (roots : List ℕ) → IsNotSetUp fabric.old roots fault) }
    ensures left { fabric.new ≡ fabric.old }
{
    Ok(sweep(alloc, fabric)?)
}

/// The routes of a graph from these roots, by its LIDs.
fn routes_of(
    alloc: Global,
    graph: Graph,
    roots: &[u64],
    rule: TieRule,
) -> Result<Routes, FabricFault>
    requires joined { AllJoined graph.rows }
    requires named { list_all (λ root. list_any (λ guid. guid == root) (guids_of graph)) roots.now ≡ true }
    ensures all { (fabric : FabricState) → IsFound fabric graph → RoutesAre fabric roots.now result }
    ensures ruled { IfOk result (IsByRule rule) }
{
    let lids = assign(alloc, &graph)?;
    Ok(routes(alloc, graph, lids, roots, rule)?)
}

/// The planned routes, if they were planned over this graph; else those that are computed of it.
fn routes_by(
    alloc: Global,
    graph: Graph,
    roots: &[u64],
    rule: TieRule,
    planned: Option<Routes>,
) -> Result<Routes, FabricFault>
    requires joined { AllJoined graph.rows }
    requires named { list_all (λ root. list_any (λ guid. guid == root) (guids_of graph)) roots.now ≡ true }
    requires ruled { ForSome planned (IsByRule rule) }
    ensures all { (fabric : FabricState) → IsFound fabric graph → ForSome planned (ArePlannedOver fabric roots.now) → RoutesAre fabric roots.now result }
    ensures ruled { IfOk result (IsByRule rule) }
{
    match planned {
        Some(routes) => planned_or_new(alloc, graph, roots, rule, routes),
        None => routes_of(alloc, graph, roots, rule),
    }
}

fn planned_or_new(
    alloc: Global,
    graph: Graph,
    roots: &[u64],
    rule: TieRule,
    planned: Routes,
) -> Result<Routes, FabricFault>
    requires joined { AllJoined graph.rows }
    requires named { list_all (λ root. list_any (λ guid. guid == root) (guids_of graph)) roots.now ≡ true }
    requires ruled { IsByRule rule planned }
    ensures all { (fabric : FabricState) → IsFound fabric graph → ArePlannedOver fabric roots.now planned → RoutesAre fabric roots.now result }
    ensures ruled { IfOk result (IsByRule rule) }
{
    if is_same_graph(&graph, planned.graph()) {
        return Ok(planned);
    }
    routes_of(alloc, graph, roots, rule)
}
