//! What packets come to from each switch to each LID that is an end port's.

ghost use Rattle.std.specs.Prelude.{◌≡◌, ◌++◌, true, filter, IfOk, OnOk};
ghost use Rattle.audit_routes.specs.Pairs.{all_reached, between_hosts, count_of, in_transit, is_fate, pair_at, pairs_at, pairs_by, to_aggregation, to_switches};
ghost use Rattle.audit_plan.specs.Attached.{carries_host};
ghost use Rattle.audit_routes.specs.Verdict.{is_lost, is_lost_by, some_lost, some_unknown};

use audit_net::{Aim, Fate, Net};
use std::alloc::{AllocError, Global};

/// A switch and a LID of an end port.
#[derive(Clone, Copy)]
pub(crate) struct Pair {
    /// Whether a host is attached to the switch.
    pub(crate) from_hosts: bool,
    /// Whether the end port is a host's.
    pub(crate) to_host: bool,
    /// Whether the end port is a switch's.
    pub(crate) to_switch: bool,
    /// What packets come to.
    pub(crate) fate: Fate,
}

fn push_pair(
    net: &Net<'_>,
    pairs: &mut Vec<Pair>,
    place: usize,
    from_hosts: bool,
    aim: &Aim,
) -> Result<(), AllocError>
    requires { from_hosts ≡ carries_host net.now.plan place }
    ensures { OnOk result (pairs.new.items ≡ pairs.old.items ++ pair_at net.now place aim.now) }
{
    let aim = *aim;
    if let Some(end) = aim.end {
        pairs.push(Pair {
            from_hosts,
            to_host: net.plan().is_host(end.node),
            to_switch: net.plan().is_switch_at(end.node),
            fate: net.fate(aim.lid, end, place),
        })?;
    }
    Ok(())
}

fn push_pairs(
    net: &Net<'_>,
    pairs: &mut Vec<Pair>,
    aims: &[Aim],
    place: usize,
) -> Result<(), AllocError>
    ensures { OnOk result (pairs.new.items ≡ pairs.old.items ++ pairs_at net.now aims.now place) }
{
    let from_hosts = net.links().carries_host(place);
    for aim in aims {
        push_pair(net, pairs, place, from_hosts, aim)?;
    }
    Ok(())
}

/// All pairs.
pub(crate) fn pairs(net: &Net<'_>, alloc: Global, aims: &[Aim]) -> Result<Vec<Pair>, AllocError>
    ensures { IfOk result (λ pairs. pairs.items ≡ pairs_by net.now aims.now) }
{
    let mut pairs = Vec::new(alloc);
    for place in net.switches() {
        push_pairs(net, &mut pairs, aims, *place)?;
    }
    Ok(pairs)
}

fn is_fate(a: Fate, b: Fate) -> bool
    ensures { result ≡ is_fate a b }
{
    match (a, b) {
        (Fate::Reached, Fate::Reached)
        | (Fate::Hole, Fate::Hole)
        | (Fate::Nowhere, Fate::Nowhere)
        | (Fate::Wrong, Fate::Wrong)
        | (Fate::Loop, Fate::Loop)
        | (Fate::Unknown, Fate::Unknown) => true,
        _ => false,
    }
}

/// The pairs from switches to which a host is attached to LIDs of hosts' ports.
pub(crate) fn between_hosts(alloc: Global, pairs: &[Pair]) -> Result<Vec<Pair>, AllocError>
    ensures { IfOk result (λ some. some.items ≡ between_hosts pairs.now) }
{
    pairs
        .iter()
        .copied()
        .filter(|pair| pair.to_host && pair.from_hosts)
        .collect(alloc)
}

/// The pairs from the other switches to LIDs of hosts' ports.
pub(crate) fn in_transit(alloc: Global, pairs: &[Pair]) -> Result<Vec<Pair>, AllocError>
    ensures { IfOk result (λ some. some.items ≡ in_transit pairs.now) }
{
    pairs
        .iter()
        .copied()
        .filter(|pair| pair.to_host && !pair.from_hosts)
        .collect(alloc)
}

/// The pairs whose LIDs are aggregation nodes'.
pub(crate) fn to_aggregation(alloc: Global, pairs: &[Pair]) -> Result<Vec<Pair>, AllocError>
    ensures { IfOk result (λ some. some.items ≡ to_aggregation pairs.now) }
{
    pairs
        .iter()
        .copied()
        .filter(|pair| !pair.to_host && !pair.to_switch)
        .collect(alloc)
}

/// The pairs whose LIDs are switches'.
pub(crate) fn to_switches(alloc: Global, pairs: &[Pair]) -> Result<Vec<Pair>, AllocError>
    ensures { IfOk result (λ some. some.items ≡ to_switches pairs.now) }
{
    pairs
        .iter()
        .copied()
        .filter(|pair| pair.to_switch)
        .collect(alloc)
}

pub(crate) fn count_of(fate: Fate, pairs: &[Pair]) -> usize
    ensures { result ≡ count_of fate pairs.now }
{
    pairs.iter().filter(|pair| is_fate(fate, pair.fate)).count()
}

/// Whether packets that come to this are lost.
pub(crate) fn is_lost_by(fate: Fate) -> bool
    ensures { result ≡ is_lost_by fate }
{
    !(is_fate(Fate::Reached, fate) || is_fate(Fate::Unknown, fate))
}

fn is_lost(pair: &Pair) -> bool
    ensures { result ≡ is_lost pair.now }
{
    is_lost_by(pair.fate)
}

pub(crate) fn some_lost(pairs: &[Pair]) -> bool
    ensures { result ≡ some_lost pairs.now }
{
    pairs.iter().any(is_lost)
}

pub(crate) fn some_unknown(pairs: &[Pair]) -> bool
    ensures { result ≡ some_unknown pairs.now }
{
    pairs.iter().any(|pair| is_fate(Fate::Unknown, pair.fate))
}

pub(crate) fn all_reached(pairs: &[Pair]) -> bool
    ensures { result ≡ all_reached pairs.now }
{
    pairs.iter().all(|pair| is_fate(Fate::Reached, pair.fate))
}
