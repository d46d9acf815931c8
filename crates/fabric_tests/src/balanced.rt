//! How many pairs of adapters' ports the most loaded link of a fat tree carries, by each rule of ties.

ghost use Rattle.std.specs.Prelude.{◌≤◌, ◌<◌};
ghost use Rattle.sweep.specs.Joined.{AllJoined};

use fabric_parts::PortRef;
use lid_assign::assign;
use std::alloc::Global;
use std::process::Abort;
use std::test::Fail;
use sweep::{Graph, sweep};
use test_fabrics::fat_tree_of;
use updn_routes::{Routes, TieRule, are_switches, routes};

/// The routes of a fat tree of so many leaves, whose spines are the roots.
fn routes_by(alloc: Global, leaves: u16, rule: TieRule) -> Result<Routes, Fail>
    requires some { 0 < leaves }
    requires few { leaves ≤ 32 }
{
    let mut fabric = fat_tree_of(alloc, leaves)?;
    match sweep(alloc, &mut fabric) {
        Ok(graph) => routes_below_spines(alloc, graph, rule),
        Err(_) => Err("a graph")?,
    }
}

fn routes_below_spines(alloc: Global, graph: Graph, rule: TieRule) -> Result<Routes, Fail>
    requires joined { AllJoined graph.rows }
{
    let guids = graph.switches().iter().map(|switch| switch.guid);
    let spines = guids.filter(|guid| *guid >= 2000).collect(alloc);
    let roots: Vec<u64> = spines.or(Err("memory"))?;
    let lids = assign(alloc, &graph).or(Err("LIDs"))?;
    if !are_switches(&graph, &roots) {
        return Err("roots that are switches")?;
    }
    Ok(routes(alloc, graph, lids, &roots, rule).or(Err("routes"))?)
}

/// Where an adapter's LID is attached; none if it is a switch's own.
fn adapter_home(routes: &Routes, lid: u16) -> Option<PortRef> {
    routes.between().home_of(lid).filter(|home| home.port != 0)
}

/// The switch to which a link of a switch leads.
fn far_switch(routes: &Routes, place: usize, port: u8) -> Option<usize> {
    let links = routes.graph().rows().get(place)?.as_slice();
    let link = links.iter().find(|link| link.port == port)?;
    Some(link.to.node)
}

/// Counts a pair at each link that its packets go over.
fn count_way(
    routes: &Routes,
    from: PortRef,
    lid: u16,
    to: PortRef,
    loads: &mut [u32],
) -> Result<(), Fail> {
    let mut place = from.node;
    for _ in 0..128 {
        if place == to.node {
            return Ok(());
        }
        let Some(port) = routes.next_hop(place, lid) else {
            return Err("a next hop")?;
        };
        let index = place.saturating_mul(64).saturating_add(usize::from(port));
        if index < loads.len() {
            loads[index] = loads[index].saturating_add(1);
        }
        let Some(next) = far_switch(routes, place, port) else {
            return Err("a link")?;
        };
        place = next;
    }
    Err("a way that ends")?
}

/// Counts the pairs of one adapter's port with all others.
fn count_from(routes: &Routes, from: u16, lids: u16, loads: &mut [u32]) -> Result<(), Fail> {
    let Some(start) = adapter_home(routes, from) else {
        return Ok(());
    };
    for lid in 1..lids {
        if let Some(end) = adapter_home(routes, lid) {
            count_way(routes, start, lid, end, loads)?;
        }
    }
    Ok(())
}

/// The greatest count of a link.
#[inline(never)]
fn most_loaded(alloc: Global, routes: &Routes, lids: u16) -> Result<u32, Fail> {
    let mut loads: Vec<u32> = (0..4096).map(|_| 0).collect(alloc).or(Err("memory"))?;
    for from in 1..lids {
        count_from(routes, from, lids, &mut loads)?;
    }
    Ok(loads.iter().fold(0, |most, load| most.max(*load)))
}

/// A tree of 8 switches and 32 adapters has 40 LIDs. By the least port the links up of a leaf carry all that leaves it for one spine;
/// by turns they share it.
#[test]
fn balanced_links_share_what_one_carried(rt: HostRuntime) -> Result<(), Fail> {
    let least = routes_by(rt.alloc(), 4, TieRule::LeastPort)?;
    assert!(&rt; most_loaded(rt.alloc(), &least, 41)? == 192);
    let balanced = routes_by(rt.alloc(), 4, TieRule::Balanced)?;
    assert!(&rt; most_loaded(rt.alloc(), &balanced, 41)? == 48);
    Ok(())
}
