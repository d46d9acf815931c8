//! Fat trees that are read, swept and routed. `bench/measure` counts the instructions of each call of the functions that are
//! not inlined.

ghost use Rattle.std.specs.Prelude.{◌≤◌, ◌<◌, length};
ghost use Rattle.sweep.specs.Joined.{AllJoined};

use attr_tables::SmpAttribute;
use fabric_wire::{CountingWire, Fabric, get_attribute};
use lid_assign::assign;
use std::alloc::Global;
use std::process::Abort;
use std::test::Fail;
use sweep::{Graph, sweep};
use test_fabrics::fat_tree_of;
use updn_routes::{Routes, TieRule, are_switches, routes};

/// Reads NodeInfo along 320 paths, of each as many hops as are asked for: to the leaf of the subnet
/// manager, up to a spine, down to a leaf, and on to one of its adapters or spines.
fn read_along_paths(rt: &impl Abort, fabric: &mut Fabric, hops: usize)
    requires { hops ≤ 4 }
{
    for leaf in 0..32u8 {
        // The spine of this number is on the port 9 + spine of leaf 0, and on some port of this leaf.
        let spine = if leaf < 28 { leaf } else { 0 };
        let down = (spine + 32 - leaf) % 32 + 1;
        for last in 1..11u8 {
            let path = [1, 9 + spine, down, last];
            let read = get_attribute(fabric, 1, SmpAttribute::NodeInfo, 0, &path[..hops]);
            assert!(rt; read.is_ok());
        }
    }
}

/// A fat tree, and nothing of it.
#[inline(never)]
fn is_made(alloc: Global, leaves: u16) -> Result<(), Fail>
    requires some { 0 < leaves }
    requires few { leaves ≤ 32 }
{
    fat_tree_of(alloc, leaves)?;
    Ok(())
}

/// The greatest fabric, read along its paths.
#[inline(never)]
fn is_read(rt: &impl Abort, alloc: Global, hops: usize) -> Result<(), Fail>
    requires { hops ≤ 4 }
{
    read_along_paths(rt, &mut fat_tree_of(alloc, 32)?, hops);
    Ok(())
}

/// At the subnet manager's own port, and along 320 paths of 4 hops.
#[test]
fn a_fat_tree_is_read(rt: HostRuntime) -> Result<(), Fail> {
    is_read(&rt, rt.alloc(), 0)?;
    is_read(&rt, rt.alloc(), 4)
}

/// How many SMPs a sweep of a fat tree takes. Of each switch 36 ports are asked for PortInfo, what is behind each port with
/// a cable for NodeInfo, the SM port and its switch before that, and each node for its name.
fn smps_of(leaves: u16) -> u64
    requires { leaves ≤ 32 }
{
    let switches = 2 * u64::from(leaves);
    let adapters = 8 * u64::from(leaves);
    let links = 2 * u64::from(leaves * leaves.min(28));
    37 * switches + 2 * adapters + links + 2
}

/// A fat tree, swept. The greatest has 4,674 SMPs for that; 4,900 are allowed.
#[inline(never)]
fn is_swept(rt: &impl Abort, alloc: Global, leaves: u16) -> Result<(), Fail>
    requires some { 0 < leaves }
    requires few { leaves ≤ 32 }
{
    let wire = fat_tree_of(alloc, leaves)?;
    let mut counting = CountingWire { wire, count: 0 };
    sweep(alloc, &mut counting).or(Err("a graph"))?;
    assert!(rt; counting.count == smps_of(leaves));
    Ok(())
}

/// Routes of a fat tree, whose spines are the roots: each leaf sends up what is for an adapter of another.
#[inline(never)]
fn is_routed(rt: &impl Abort, alloc: Global, leaves: u16) -> Result<(), Fail>
    requires some { 0 < leaves }
    requires few { leaves ≤ 32 }
{
    let mut fabric = fat_tree_of(alloc, leaves)?;
    leaves_know_the_way(rt, &routes_over(alloc, &mut fabric)?);
    Ok(())
}

/// The routes of what a sweep finds, with the spines as roots.
fn routes_over(alloc: Global, fabric: &mut Fabric) -> Result<Routes, Fail> {
    match sweep(alloc, fabric) {
        Ok(graph) => routes_below_spines(alloc, graph),
        Err(_) => Err("a graph")?,
    }
}

fn routes_below_spines(alloc: Global, graph: Graph) -> Result<Routes, Fail>
    requires joined { AllJoined graph.rows }
{
    let guids = graph.switches().iter().map(|switch| switch.guid);
    let spines = guids.filter(|guid| *guid >= 2000).collect(alloc);
    let roots: Vec<u64> = spines.or(Err("memory"))?;
    routes_of(alloc, graph, &roots)
}

fn routes_of(alloc: Global, graph: Graph, roots: &[u64]) -> Result<Routes, Fail>
    requires joined { AllJoined graph.rows }
{
    let lids = assign(alloc, &graph).or(Err("LIDs"))?;
    if !are_switches(&graph, roots) {
        return Err("roots that are switches")?;
    }
    Ok(routes(alloc, graph, lids, roots, TieRule::LeastPort).or(Err("routes"))?)
}

/// The SM port is attached to port 1 of the first leaf. Each leaf knows the way there; a spine that has
/// no cable to that leaf does not.
fn leaves_know_the_way(rt: &impl Abort, routes: &Routes) {
    assert!(rt; routes.next_hop(0, 1) == Some(1));
    for (place, switch) in routes.graph().switches().iter().enumerate() {
        assert!(rt; switch.guid >= 2000 || routes.next_hop(place, 1).is_some());
    }
}

/// The sizes of one function stand together: `bench/measure` counts from the end of one call to that of the next.
#[test]
fn fat_trees_of_8_16_and_64_switches_are_swept_and_routed(rt: HostRuntime) -> Result<(), Fail> {
    is_made(rt.alloc(), 4)?;
    is_made(rt.alloc(), 8)?;
    is_made(rt.alloc(), 32)?;
    is_swept(&rt, rt.alloc(), 4)?;
    is_swept(&rt, rt.alloc(), 8)?;
    is_swept(&rt, rt.alloc(), 32)?;
    is_routed(&rt, rt.alloc(), 4)?;
    is_routed(&rt, rt.alloc(), 8)?;
    is_routed(&rt, rt.alloc(), 32)
}
