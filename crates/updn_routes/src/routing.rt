//! How routes are computed.

ghost use Rattle.std.specs.Prelude.{ℕ, ◌≡◌, ◌≤◌, ◌==◌, true, length, IfErr, IfOk};
ghost use Rattle.std.specs.List.{list_all, list_any};
ghost use Rattle.lid_assign.specs.Lids.{AreLids, end_ports};
ghost use Rattle.sweep.specs.Joined.{AllJoined};
ghost use Rattle.updn_routes.specs.Fabric.{IsFabric};
ghost use Rattle.updn_routes.specs.Fault.{IsFaultOf};
ghost use Rattle.updn_routes.specs.Order.{AreRanks};
ghost use Rattle.updn_routes.specs.Routes.{AllReached, AreRoutesOf, all_attached, order_of};
ghost use Rattle.updn_routes.specs.Subnet.{guids_of, homes_of, rows_of};
ghost use Rattle.updn_routes.specs.Tree.{AreDepths};
ghost use Rattle.fabric_parts.specs.declared.limits.TheConstants.{SWITCHES};
ghost use Rattle.fabric_parts.specs.declared.lid.TheConstants.{LAST_UNICAST_LID};

use crate::answer::SwitchRoutes;
use crate::cabling::{guids_of, homes_of, rows_of};
use crate::distance::distances;
use crate::fault::RouteFault;
use crate::place::{all_downs, all_ups, places};
use crate::root::{marked_first_root, marked_roots};
use crate::row::Row;
use crate::subnet_routes::Routes;
use crate::table::all_tables;
use crate::tie_rule::{TieRule, numbers};
use fabric_parts::PortRef;
use lid_assign::Lids;
use std::alloc::{AllocError, Global};
use sweep::Graph;

/// The routes of a graph whose switches are joined, by its LIDs; they keep both. The roots are GUIDs of switches of
/// the graph, in the order in which they are named; if there are none, the switch of least GUID is the root. The rule says
/// which of its ties a switch takes.
///
/// `NoLegalPath` if and only if some switch that carries adapters' ports has no up/down path to one of these.
pub fn routes(
    alloc: Global,
    graph: Graph,
    lids: Lids,
    roots: &[u64],
    rule: TieRule,
) -> Result<Routes, RouteFault>
    requires joined { AllJoined graph.rows }
    requires lids { AreLids (end_ports graph) lids }
    requires named { list_all (λ root. list_any (λ guid. guid == root) (guids_of graph)) roots.now ≡ true }
    ensures graph { IfOk result (λ routes. routes.graph ≡ graph) }
    ensures lids { IfOk result (λ routes. routes.lids ≡ lids) }
    ensures made { IfOk result (λ routes. AreRoutesOf (rows_of graph) (guids_of graph) roots.now (homes_of graph lids) routes.between) }
    ensures ruled { IfOk result (λ routes. routes.between.rule ≡ rule) }
    ensures reached { IfOk result (λ routes. AllReached (rows_of graph) (order_of routes.between) (homes_of graph lids)) }
    ensures fault { IfErr result (λ fault. IsFaultOf (rows_of graph) (guids_of graph) roots.now (homes_of graph lids) fault) }
{
    let between = routes_between(alloc, &graph, &lids, roots, rule)?;
    Ok(Routes {
        graph,
        lids,
        between,
    })
}

/// The routes between the switches of a graph, with its LIDs.
fn routes_between(
    alloc: Global,
    graph: &Graph,
    lids: &Lids,
    roots: &[u64],
    rule: TieRule,
) -> Result<SwitchRoutes, RouteFault>
    requires joined { AllJoined graph.now.rows }
    requires lids { AreLids (end_ports graph.now) lids.now }
    requires named { list_all (λ root. list_any (λ guid. guid == root) (guids_of graph.now)) roots.now ≡ true }
    ensures made { IfOk result (λ routes. AreRoutesOf (rows_of graph.now) (guids_of graph.now) roots.now
        (homes_of graph.now lids.now) routes) }
    ensures ruled { IfOk result (λ routes. routes.rule ≡ rule) }
    ensures reached { IfOk result (λ routes. AllReached (rows_of graph.now) (order_of routes) (homes_of graph.now lids.now)) }
    ensures fault { IfErr result (λ fault. IsFaultOf (rows_of graph.now) (guids_of graph.now) roots.now
        (homes_of graph.now lids.now) fault) }
{
    graph.known_graph();
    lids.known_distinct();
    let rows = rows_of(alloc, graph)?;
    let guids = guids_of(alloc, graph)?;
    let homes = homes_of(alloc, graph, lids)?;
    routes_over(alloc, rows, guids, roots, homes, rule)
}

/// The routes over these cables: the links of each switch and its GUID, the GUIDs of the roots in the order in
/// which they are named, and where each LID is attached, from LID 1 on.
///
/// `NoLegalPath` if and only if some switch that carries adapters' ports has no up/down path to one of these.
pub fn routes_over(
    alloc: Global,
    rows: Vec<Row>,
    guids: Vec<u64>,
    roots: &[u64],
    homes: Vec<PortRef>,
    rule: TieRule,
) -> Result<SwitchRoutes, RouteFault>
    requires fabric { IsFabric rows.items guids.items roots.now }
    requires few { length rows.items ≤ SWITCHES }
    requires hang { all_attached homes.items (length rows.items) ≡ true }
    requires few_lids { length homes.items ≤ LAST_UNICAST_LID }
    ensures made { IfOk result (λ routes. AreRoutesOf rows.items guids.items roots.now homes.items routes) }
    ensures ruled { IfOk result (λ routes. routes.rule ≡ rule) }
    ensures reached { IfOk result (λ routes. AllReached rows.items (order_of routes) homes.items) }
    ensures fault { IfErr result (λ fault. IsFaultOf rows.items guids.items roots.now homes.items fault) }
{
    let routes = all_routes(alloc, rows, guids, roots, homes, rule)?;
    match routes.first_gap() {
        None => Ok(routes),
        Some((switch, port)) => Err(RouteFault::NoLegalPath { switch, port }),
    }
}

/// The routes, whether or not each adapter's port is reached.
fn all_routes(
    alloc: Global,
    rows: Vec<Row>,
    guids: Vec<u64>,
    roots: &[u64],
    homes: Vec<PortRef>,
    rule: TieRule,
) -> Result<SwitchRoutes, AllocError>
    requires fabric { IsFabric rows.items guids.items roots.now }
    requires few { length rows.items ≤ SWITCHES }
    requires hang { all_attached homes.items (length rows.items) ≡ true }
    requires few_lids { length homes.items ≤ LAST_UNICAST_LID }
    ensures made { IfOk result (λ routes. AreRoutesOf rows.items guids.items roots.now homes.items routes) }
    ensures ruled { IfOk result (λ routes. routes.rule ≡ rule) }
{
    let ranks = ranks(alloc, &rows, &guids, roots)?;
    let depths = depths(alloc, &rows, &guids, roots)?;
    let places = places(alloc, &ranks, &guids)?;
    let downs = all_downs(alloc, &rows, &places)?;
    let ups = all_ups(alloc, &rows, &places)?;
    let tables = all_tables(alloc, &downs, &ups)?;
    let numbers = numbers(alloc, rule, &places, &homes)?;
    Ok(SwitchRoutes {
        rows,
        guids,
        ranks,
        depths,
        places,
        tables,
        homes,
        rule,
        numbers,
    })
}

/// How far each switch is from the nearest root.
fn ranks(
    alloc: Global,
    rows: &[Row],
    guids: &[u64],
    roots: &[u64],
) -> Result<Vec<usize>, AllocError>
    requires { IsFabric rows.now guids.now roots.now }
    ensures { IfOk result (λ ranks. AreRanks rows.now guids.now roots.now ranks.items) }
{
    let marks = marked_roots(alloc, guids, roots)?;
    distances(alloc, rows, &marks)
}

/// How far each switch is from the first root.
fn depths(
    alloc: Global,
    rows: &[Row],
    guids: &[u64],
    roots: &[u64],
) -> Result<Vec<usize>, AllocError>
    requires { IsFabric rows.now guids.now roots.now }
    ensures { IfOk result (λ depths. AreDepths rows.now guids.now roots.now depths.items) }
{
    let marks = marked_first_root(alloc, guids, roots)?;
    distances(alloc, rows, &marks)
}
