//! The loads of all channels.

ghost use Rattle.std.specs.Prelude.{List, [], ◌≡◌, ◌<◌, ◌-◌, ◌*◌, length, flat_map, map, IfOk, OnOk};
ghost use Rattle.audit_net.specs.Net.{NetState};
ghost use Rattle.audit_loads.specs.Counts.{counts_of};
ghost use Rattle.audit_loads.specs.Loads.{loaded, loads};
ghost use Rattle.audit_loads.specs.Sources.{Pair, entrances, pairs_by, pairs_in, pairs_to};
ghost use Rattle.audit_loads.specs.Talk.{may_talk};
ghost use Rattle.audit_loads.specs.Walk.{of_pairs, target_of, AreBelow, AreSums, GrowBy, HasSums};

use crate::counting::{Counts, counted_by, no_pairs, plus};
use crate::loaded::Loaded;
use crate::sources::Entrance;
use crate::sums::{blank_sums, sum_at, zeros};
use crate::talk::Talk;
use crate::walk::{Flow, add_way};
use audit_loops::all_channels;
use audit_net::{Aim, Net};
use fabric_parts::PortRef;
use std::alloc::{AllocError, Global};

/// A LID, and the end port that has it.
#[derive(Clone, Copy)]
pub(crate) struct Target {
    pub(crate) lid: u16,
    pub(crate) end: PortRef,
}

/// The LID of a host's port.
pub(crate) fn target_of(net: &Net<'_>, aim: &Aim) -> Option<Target>
    ensures { result ≡ target_of net.now aim.now }
{
    let aim = *aim;
    match aim.end {
        Some(end) if net.plan().is_host(end.node) => Some(Target { lid: aim.lid, end }),
        _ => None,
    }
}

/// Where packets go, and between which ports they do.
#[derive(Clone, Copy)]
struct Destination<'a> {
    target: Target,
    talk: &'a Talk,
}

/// Adds what goes to a LID from one switch, and counts it.
fn add_from(
    net: &Net<'_>,
    sums: &mut [usize],
    marks: &mut [usize],
    stamp: usize,
    one: &Entrance,
    to: Destination<'_>,
) -> Result<Counts, AllocError>
    requires stamp { 0 < stamp }
    requires fresh { AreBelow (stamp - 1) marks.old }
    requires long { length sums.old ≡ length marks.old * 256 }
    ensures long { length marks.new ≡ length marks.old }
    ensures below { AreBelow stamp marks.new }
    ensures sums { OnOk result (GrowBy (of_pairs net.now (pairs_in (may_talk to.entry.talk.now) to.entry.target.lid to.entry.target.end one.now))
        sums.old sums.new) }
    ensures counts { IfOk result (λ counts. counts
        ≡ counts_of net.now (pairs_in (may_talk to.entry.talk.now) to.entry.target.lid to.entry.target.end one.now)) }
{
    let flow = Flow {
        lid: to.target.lid,
        place: one.place(),
        count: one.senders(to.talk, to.target.end),
    };
    if flow.count == 0 {
        return Ok(no_pairs());
    }
    add_way(net, sums, marks, stamp, flow)?;
    let found = net.fate(flow.lid, to.target.end, flow.place);
    Ok(counted_by(found, flow.count))
}

/// Adds what goes to a LID from all these switches, and counts it.
fn add_from_all(
    net: &Net<'_>,
    alloc: Global,
    sums: &mut [usize],
    all: &[Entrance],
    talk: &Talk,
    target: Target,
) -> Result<Counts, AllocError>
    requires { length sums.old ≡ length net.now.plan.nodes * 256 }
    ensures sums { OnOk result (GrowBy (of_pairs net.now (flat_map (pairs_in (may_talk talk.now) target.lid target.end) all.now)) sums.old sums.new) }
    ensures counts { IfOk result (λ counts. counts ≡ counts_of net.now (flat_map (pairs_in (may_talk talk.now) target.lid target.end) all.now)) }
{
    let to = Destination { target, talk };
    let mut marks = zeros(alloc, net.plan().nodes().len())?;
    let mut counts = no_pairs();
    for (index, one) in all.iter().enumerate() {
        let more = add_from(net, sums, &mut marks, index + 1, one, to)?;
        counts = plus(counts, more)?;
    }
    Ok(counts)
}

/// Adds what goes to a LID, if it is that of a host's port, and counts it.
fn add_to(
    net: &Net<'_>,
    alloc: Global,
    sums: &mut [usize],
    all: &[Entrance],
    talk: &Talk,
    aim: &Aim,
) -> Result<Counts, AllocError>
    requires all { all.now ≡ entrances net.now }
    requires long { length sums.old ≡ length net.now.plan.nodes * 256 }
    ensures sums { OnOk result (GrowBy (of_pairs net.now (pairs_to net.now (may_talk talk.now) aim.now)) sums.old sums.new) }
    ensures counts { IfOk result (λ counts. counts ≡ counts_of net.now (pairs_to net.now (may_talk talk.now) aim.now)) }
{
    match target_of(net, aim) {
        Some(target) => add_from_all(net, alloc, sums, all, talk, target),
        None => Ok(no_pairs()),
    }
}

/// Adds to blank sums, for each port of each node, how many pairs go out of it, and counts all pairs.
fn add_all(
    net: &Net<'_>,
    alloc: Global,
    sums: &mut [usize],
    all: &[Entrance],
    talk: &Talk,
    aims: &[Aim],
) -> Result<Counts, AllocError>
    requires all { all.now ≡ entrances net.now }
    requires blank { HasSums net.now [] sums.old }
    ensures sums { OnOk result (HasSums net.now (pairs_by net.now (may_talk talk.now) aims.now) sums.new) }
    ensures counts { IfOk result (λ counts. counts ≡ counts_of net.now (pairs_by net.now (may_talk talk.now) aims.now)) }
{
    let mut counts = no_pairs();
    for aim in aims {
        let more = add_to(net, alloc, sums, all, talk, aim)?;
        counts = plus(counts, more)?;
    }
    Ok(counts)
}

fn loaded_by(sums: &[usize], at: PortRef) -> Loaded
    ensures { (net : NetState) (pairs : List Pair) → AreSums net pairs sums.now → result ≡ loaded net pairs at }
{
    Loaded {
        load: sum_at(sums, at.node, at.port),
        at,
    }
}

/// These ports, and how many pairs go over each by these sums.
fn loaded_all(
    alloc: Global,
    channels: &[PortRef],
    sums: &[usize],
) -> Result<Vec<Loaded>, AllocError>
    ensures { IfOk result (λ found. (net : NetState) (pairs : List Pair) → AreSums net pairs sums.now → found.items ≡ map (loaded net pairs) channels.now) }
{
    let mut found = Vec::new(alloc);
    for at in channels {
        found.push(loaded_by(sums, *at))?;
    }
    Ok(found)
}

/// The channels with how many pairs go over each, and how many pairs there are.
pub(crate) fn loads(
    net: &Net<'_>,
    alloc: Global,
    all: &[Entrance],
    talk: &Talk,
    aims: &[Aim],
) -> Result<(Vec<Loaded>, Counts), AllocError>
    requires { all.now ≡ entrances net.now }
    ensures loads { IfOk result (λ found. found.0.items ≡ loads net.now (pairs_by net.now (may_talk talk.now) aims.now)) }
    ensures counts { IfOk result (λ found. found.1 ≡ counts_of net.now (pairs_by net.now (may_talk talk.now) aims.now)) }
{
    let mut sums = blank_sums(alloc, net.plan().nodes().len())?;
    let counts = add_all(net, alloc, &mut sums, all, talk, aims)?;
    let channels = all_channels(net, alloc)?;
    let loads = loaded_all(alloc, &channels, &sums)?;
    Ok((loads, counts))
}
