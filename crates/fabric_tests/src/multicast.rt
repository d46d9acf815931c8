//! Blocks of masks that change are set, and no others.

use crate::fixtures::{TWO, found, routes_over};
use fabric_wire::{CountingWire, Fabric};
use std::alloc::Global;
use std::process::Abort;
use std::test::Fail;
use subnet_model::GroupReceiver;
use table_push::push_changed;
use test_fabrics::fat_tree_of;
use updn_routes::Routes;

/// Pushes what changes in the MLID range of partition 1, by one SMP for each block that is reported to differ.
fn change(
    rt: &impl Abort,
    wire: &mut CountingWire<Fabric>,
    routes: &Routes,
    before: &[GroupReceiver],
    after: &[GroupReceiver],
) -> Result<u32, Fail> {
    wire.count = 0;
    let count = push_changed(wire, routes, 1, before, after).or(Err("a push"))?;
    assert!(rt; wire.count == u64::from(count));
    Ok(count)
}

/// h1.
const ONE: [GroupReceiver; 1] = [GroupReceiver {
    mlid: 0xc020,
    lid: 4,
}];

/// h1 joins a group, h2 does, both join again, and the group ends: A and B have another mask each time, or the same.
const CHANGES: [(&[GroupReceiver], &[GroupReceiver], u32); 4] = [
    (&[], &ONE, 2),
    (&ONE, &TWO, 2),
    (&TWO, &TWO, 0),
    (&TWO, &[], 2),
];

fn counts_are_reported(
    rt: &impl Abort,
    wire: &mut CountingWire<Fabric>,
    routes: &Routes,
) -> Result<(), Fail> {
    for (before, after, count) in CHANGES {
        assert!(rt; change(rt, wire, routes, before, after)? == count);
    }
    Ok(())
}

#[test]
fn blocks_of_the_switches_that_change_are_set(rt: HostRuntime) -> Result<(), Fail> {
    let (wire, routes) = found(rt.alloc())?;
    let mut counting = CountingWire { wire, count: 0 };
    counts_are_reported(&rt, &mut counting, &routes)
}

/// The adapters of a fat tree of eight leaves but the subnet manager's, whose LIDs stand behind those of the 16 switches:
/// each receives of so many groups.
fn of_all(alloc: Global, groups: u16) -> Result<Vec<GroupReceiver>, Fail> {
    let mut receivers = Vec::new(alloc);
    for number in 0..63 * (groups & 63) {
        let one = GroupReceiver {
            mlid: 0xc020 + number / 63,
            lid: 18 + number % 63,
        };
        receivers.push(one).or(Err("memory"))?;
    }
    Ok(receivers)
}

/// All adapters join so many groups and leave them, and each of the 16 switches has a mask in between.
fn groups_of_all_end(
    rt: &impl Abort,
    alloc: Global,
    wire: &mut CountingWire<Fabric>,
    routes: &Routes,
) -> Result<(), Fail> {
    for groups in [1u16, 32] {
        let receivers = of_all(alloc, groups)?;
        let begun = change(rt, wire, routes, &[], &receivers)?;
        assert!(rt; begun >= 16);
        assert!(rt; change(rt, wire, routes, &receivers, &[])? == begun);
    }
    Ok(())
}

fn few_and_many_end(
    rt: &impl Abort,
    alloc: Global,
    wire: &mut CountingWire<Fabric>,
) -> Result<(), Fail> {
    let routes = routes_over(alloc, wire, &[])?;
    groups_of_all_end(rt, alloc, wire, &routes)
}

/// Groups of all adapters of eight leaves end, so few that masks are made switch by switch, or so many that they are made
/// for all switches at once.
#[test]
fn groups_on_eight_switches_end(rt: HostRuntime) -> Result<(), Fail> {
    let wire = fat_tree_of(rt.alloc(), 8)?;
    few_and_many_end(&rt, rt.alloc(), &mut CountingWire { wire, count: 0 })
}
