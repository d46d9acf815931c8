//! Cycles of lanes.

ghost use Rattle.std.specs.Prelude.{◌≡◌, ◌++◌, IfOk, OnOk, flat_map, length, map, option_map};
ghost use Rattle.std.specs.List.{enumerate_from};
ghost use Rattle.audit_lanes.specs.Deadlock.{graph_of, lane_at, lane_deadlock, nexts};
ghost use Rattle.audit_lanes.specs.Keys.{all_groups, group_behind, group_of, next_if, numbered_at, waits_by};
ghost use Rattle.audit_loops.specs.Cycle.{cycle};
ghost use Rattle.audit_lanes.specs.Lanes.{lane, waits};
ghost use Rattle.fabric_parts.specs.Cable.{far_end, port};

use crate::hop::Trace;
use crate::lane::{Lane, all_lanes};
use crate::waits::Waits;
use audit_loops::cycle::{NextList, cycle};
use audit_net::{Aim, Net};
use fabric_parts::PortRef;
use std::alloc::{AllocError, Global};
use std::marker::Model;

/// Lanes of one node, each with its place among all.
#[derive(Drop)]
struct Group {
    lanes: Vec<(usize, Lane)>,
}

impl Model for Group {
    ghost use Rattle.std.specs.Prelude.{ℕ, List};
    ghost use Rattle.audit_lanes.specs.declared.lane.Lane.{Lane};

    ghost Value = { List (ℕ × Lane) };

    ghost view = { λ group. group.lanes.items };
}

impl Group {
    fn of(lanes: Vec<(usize, Lane)>) -> Group
        ensures { result ≡ lanes.items }
    {
        Group { lanes }
    }

    fn as_slice(&self) -> &[(usize, Lane)]
        ensures { result.now ≡ self.now }
    {
        self.lanes.as_slice()
    }
}

/// The lanes of the node there. A place that is no node's has no group, so all lanes are looked through.
fn group_of<'g>(groups: &'g [Group], all: &'g [(usize, Lane)], place: usize) -> &'g [(usize, Lane)]
    ensures { result.now ≡ group_of groups.now all.now place }
{
    match groups.get(place) {
        Some(group) => group.as_slice(),
        None => all,
    }
}

/// The lanes at the other end of a cable.
fn group_behind<'g>(
    groups: &'g [Group],
    all: &'g [(usize, Lane)],
    there: Option<PortRef>,
) -> &'g [(usize, Lane)]
    ensures { result.now ≡ group_behind groups.now all.now there }
{
    match there {
        Some(there) => group_of(groups, all, there.node),
        None => &[],
    }
}

/// All lanes, each with its place.
fn numbered(alloc: Global, all: &[Lane]) -> Result<Vec<(usize, Lane)>, AllocError>
    ensures { IfOk result (λ some. some.items ≡ enumerate_from 0 all.now) }
{
    all.iter().copied().enumerate().collect(alloc)
}

/// The lanes of this node.
fn numbered_at(alloc: Global, all: &[Lane], place: usize) -> Result<Vec<(usize, Lane)>, AllocError>
    ensures { IfOk result (λ some. some.items ≡ numbered_at all.now place) }
{
    all.iter()
        .copied()
        .enumerate()
        .filter(|(_, lane)| lane.at.node == place)
        .collect(alloc)
}

/// The lanes of each node.
fn groups(net: &Net<'_>, alloc: Global, all: &[Lane]) -> Result<Vec<Group>, AllocError>
    ensures { IfOk result (λ groups. groups.items ≡ all_groups net.now all.now) }
{
    let mut groups = Vec::new(alloc);
    for place in 0..net.plan().nodes().len() {
        let group = numbered_at(alloc, all, place)?;
        groups.push(Group::of(group))?;
    }
    Ok(groups)
}

fn push_next(
    waits: &Waits<'_, '_>,
    nexts: &mut Vec<usize>,
    first: Lane,
    second: (usize, Lane),
) -> Result<(), AllocError>
    ensures { OnOk result (nexts.new.items ≡ nexts.old.items ++ next_if waits.now first second) }
{
    if waits.wait(first, second.1) {
        nexts.push(second.0)?;
    }
    Ok(())
}

/// The places of the lanes of this group that the first one waits for.
fn nexts_among(
    waits: &Waits<'_, '_>,
    alloc: Global,
    group: &[(usize, Lane)],
    first: Lane,
) -> Result<Vec<usize>, AllocError>
    ensures { IfOk result (λ places. places.items ≡ flat_map (next_if waits.now first) group.now) }
{
    let mut nexts = Vec::new(alloc);
    for second in group {
        push_next(waits, &mut nexts, first, *second)?;
    }
    Ok(nexts)
}

/// The places of all lanes that this one waits for: they are at the other end of its cable.
fn nexts(
    waits: &Waits<'_, '_>,
    alloc: Global,
    all: &[Lane],
    numbered: &[(usize, Lane)],
    groups: &[Group],
    first: Lane,
) -> Result<Vec<usize>, AllocError>
    requires numbered { numbered.now ≡ enumerate_from 0 all.now }
    requires groups { groups.now ≡ all_groups waits.now.net all.now }
    ensures { IfOk result (λ places. places.items ≡ nexts (waits_by waits.now) all.now first) }
{
    let there = waits.net().links().far_end(first.at);
    let places = nexts_among(waits, alloc, group_behind(groups, numbered, there), first)?;
    Ok(places)
}

fn graph_of(waits: &Waits<'_, '_>, alloc: Global, all: &[Lane]) -> Result<Vec<NextList>, AllocError>
    ensures { IfOk result (λ graph. graph.items ≡ graph_of (waits_by waits.now) all.now) }
{
    let numbered = numbered(alloc, all)?;
    let groups = groups(waits.net(), alloc, all)?;
    let mut graph = Vec::new(alloc);
    for first in all {
        let places = nexts(waits, alloc, all, &numbered, &groups, *first)?;
        graph.push(NextList::of(places))?;
    }
    Ok(graph)
}

/// The lane there, or none of the fabric if there is none.
fn lane_at(all: &[Lane], place: usize) -> Lane
    ensures { result ≡ lane_at all.now place }
{
    match all.get(place) {
        Some(lane) => *lane,
        None => Lane {
            at: PortRef { node: 0, port: 0 },
            vl: 0,
        },
    }
}

fn at_places(alloc: Global, all: &[Lane], places: &[usize]) -> Result<Vec<Lane>, AllocError>
    ensures { IfOk result (λ ring. ring.items ≡ map (lane_at all.now) places.now) }
{
    places
        .iter()
        .map(|place| lane_at(all, *place))
        .collect(alloc)
}

/// Of each lane the places of those that it waits for.
fn waiting(
    net: &Net<'_>,
    alloc: Global,
    aims: &[Aim],
    traces: &[Trace],
    all: &[Lane],
) -> Result<Vec<NextList>, AllocError>
    ensures { IfOk result (λ graph. graph.items ≡ graph_of (waits net.now aims.now traces.now) all.now) }
{
    let waits = Waits::of(alloc, net, aims, traces)?;
    let graph = graph_of(&waits, alloc, all)?;
    Ok(graph)
}

fn deadlock_by(
    alloc: Global,
    all: &[Lane],
    graph: &[NextList],
) -> Result<Option<Vec<Lane>>, AllocError>
    ensures { IfOk result (λ found. option_map (λ ring. ring.items) found ≡ option_map (map (lane_at all.now)) (cycle graph.now)) }
{
    match cycle(alloc, graph)? {
        Some(places) => Ok(Some(at_places(alloc, all, &places)?)),
        None => Ok(None),
    }
}

/// A cycle of lanes, each of which waits for the next, if there is one.
pub(crate) fn lane_deadlock(
    net: &Net<'_>,
    alloc: Global,
    aims: &[Aim],
    traces: &[Trace],
) -> Result<Option<Vec<Lane>>, AllocError>
    ensures { IfOk result (λ found. option_map (λ ring. ring.items) found ≡ lane_deadlock net.now aims.now traces.now) }
{
    let all = all_lanes(net, alloc)?;
    let graph = waiting(net, alloc, aims, traces, &all)?;
    let found = deadlock_by(alloc, &all, &graph)?;
    Ok(found)
}
