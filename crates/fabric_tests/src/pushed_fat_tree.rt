//! Fat trees whose pushes are counted. `bench/measure` counts the instructions of each push.

ghost use Rattle.std.specs.Prelude.{◌≤◌, ◌<◌};

use crate::fixtures::{Push, keys_of, routes_over};
use fabric_wire::{CountingWire, Fabric, SmpWire};
use std::alloc::Global;
use std::process::Abort;
use std::test::Fail;
use test_fabrics::fat_tree_of;
use updn_routes::Routes;

/// How many SMPs a push takes over a fat tree. Ports: two for port 0 of each switch and two for its LinearFDBTop, four for
/// each end of a cable. Keys: four for each switch, and for each end of a cable to an adapter, of which three ask whether an empty
/// block is there. LFTs: one a block. An MLID range
/// of multicast tables: one for each position of each switch.
fn smps_of(push: &Push, leaves: u16) -> u64
    requires { leaves ≤ 32 }
{
    let switches = 2 * u64::from(leaves);
    let adapters = 8 * u64::from(leaves);
    let links = 2 * u64::from(leaves * leaves.min(28));
    let ports = 4 * switches + 4 * (links + 2 * adapters);
    let keys = 4 * (switches + 2 * adapters);
    let linear = 8 * switches;
    match push {
        Push::Nothing => 0,
        Push::Ports => ports,
        Push::Keys => keys,
        Push::Linear => linear,
        Push::Multicast => 3 * switches,
        Push::All => ports + keys + linear,
    }
}

/// The spines.
fn roots_of(alloc: Global, leaves: u16) -> Result<Vec<u64>, Fail>
    requires { leaves ≤ 32 }
{
    let mut roots = Vec::new(alloc);
    for spine in 0..leaves {
        roots.push(2000 + u64::from(spine)).or(Err("memory"))?;
    }
    Ok(roots)
}

/// The routes of a fat tree, with the spines as roots.
fn routed<W: SmpWire>(alloc: Global, wire: &mut W, leaves: u16) -> Result<Routes, Fail>
    requires { leaves ≤ 32 }
{
    let roots = roots_of(alloc, leaves)?;
    routes_over(alloc, wire, &roots)
}

/// One push over a fat tree that is made, swept and routed for it. `bench/measure` counts the instructions of each call.
#[inline(never)]
fn is_pushed(rt: &impl Abort, alloc: Global, leaves: u16, push: &Push) -> Result<(), Fail>
    requires some { 0 < leaves }
    requires few { leaves ≤ 32 }
{
    let mut fabric = fat_tree_of(alloc, leaves)?;
    let routes = routed(alloc, &mut fabric, leaves)?;
    let count = count_of(alloc, fabric, &routes, leaves, push)?;
    assert!(rt; count == smps_of(push, leaves));
    Ok(())
}

/// How many SMPs the push takes.
fn count_of(
    alloc: Global,
    wire: Fabric,
    routes: &Routes,
    leaves: u16,
    push: &Push,
) -> Result<u64, Fail>
    requires { leaves ≤ 32 }
{
    let keys = keys_of(alloc, 10 * leaves)?;
    let mut counting = CountingWire { wire, count: 0 };
    push.over(&mut counting, routes, &keys).or(Err("a push"))?;
    Ok(counting.count)
}

/// None, and each push alone.
const PUSHES: [Push; 5] = [
    Push::Nothing,
    Push::Ports,
    Push::Keys,
    Push::Linear,
    Push::Multicast,
];

#[test]
fn fat_trees_of_8_16_and_64_switches_have_what_is_pushed(rt: HostRuntime) -> Result<(), Fail> {
    for leaves in [4, 8, 32] {
        for push in PUSHES.iter() {
            is_pushed(&rt, rt.alloc(), leaves, push)?;
        }
    }
    Ok(())
}
