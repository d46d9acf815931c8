//! Second copies of packets.

ghost use Rattle.std.specs.Prelude.{◌≡◌, ◌<◌, ◌==◌, ◌||◌, ◌++◌, nat_lt, true, length, map, ℕ, IfOk, OnOk, None};
ghost use Rattle.std.specs.List.{list_all, list_any};
ghost use Rattle.fabric_parts.specs.Cable.{port};
ghost use Rattle.topo_file.specs.Rounds.{is_marked};
ghost use Rattle.audit_multicast.specs.Copies.{again, copy_of, entrances, hop, leads_to_end, next_outs, node_behind, second_copy, takes_packets};
ghost use Rattle.audit_multicast.specs.Ways.{outs};

use crate::ways::push_outs;
use audit_net::Net;
use audit_plan::ports_at;
use fabric_parts::PortRef;
use mft_file::Ports;
use std::alloc::{AllocError, Global};

/// A packet that comes to a switch twice.
#[derive(Clone, Copy)]
pub struct SecondCopy {
    /// The place of the switch at which it enters.
    pub from: usize,
    /// The place of the switch to which it comes twice.
    pub at: usize,
}

/// Whether the port's cable leads to an end port.
pub(crate) fn leads_to_end(net: &Net<'_>, at: PortRef) -> bool
    ensures { result ≡ leads_to_end net.now at }
{
    match net.links().far_end(at) {
        Some(there) => !net.plan().is_switch_at(there.node),
        None => false,
    }
}

/// Whether an end port is attached to the switch there.
fn takes_packets(net: &Net<'_>, place: usize) -> bool
    ensures { result ≡ takes_packets net.now place }
{
    for number in 0..ports_at(net.plan().nodes(), place) {
        let at = PortRef {
            node: place,
            port: number + 1,
        };
        if leads_to_end(net, at) {
            return true;
        }
    }
    false
}

/// The switches at which packets enter.
pub(crate) fn entrances(alloc: Global, net: &Net<'_>) -> Result<Vec<usize>, AllocError>
    ensures { IfOk result (λ places. places.items ≡ entrances net.now) }
{
    net.switches()
        .iter()
        .copied()
        .filter(|place| takes_packets(net, *place))
        .collect(alloc)
}

/// The node at the other end of the port's cable.
pub(crate) fn node_behind(net: &Net<'_>, at: PortRef) -> usize
    ensures { result ≡ node_behind net.now at }
{
    match net.links().far_end(at) {
        Some(there) => there.node,
        None => 0,
    }
}

/// Marks a place, and returns whether it was marked.
pub(crate) fn meet(met: &mut [bool], place: usize) -> bool
    requires { place < length met.old }
    ensures before { result ≡ is_marked met.old place }
    ensures long { length met.new ≡ length met.old }
    ensures marked { (other : ℕ) → is_marked met.new other ≡ (is_marked met.old other || (place == other)) }
{
    let before = met[place];
    met[place] = true;
    before
}

/// Marks the nodes to which these ports lead. Returns the first that was marked before, and then stops.
fn meet_all(net: &Net<'_>, met: &mut [bool], front: &[PortRef]) -> Option<usize>
    requires { list_all (λ at. nat_lt (node_behind net.now at) (length met.old)) front.now ≡ true }
    ensures first { result ≡ again (is_marked met.old) (map (node_behind net.now) front.now) }
    ensures long { length met.new ≡ length met.old }
    ensures marked { result ≡ None → (other : ℕ)
        → is_marked met.new other ≡ (is_marked met.old other || list_any (λ place. place == other) (map (node_behind net.now) front.now)) }
{
    for at in front {
        let place = node_behind(net, *at);
        if meet(met, place) {
            return Some(place);
        }
    }
    None
}

/// Adds the ports by which a copy leaves next, if it left by this port.
fn push_next_outs(
    net: &Net<'_>,
    masks: &[Ports],
    at: PortRef,
    ports: &mut Vec<PortRef>,
) -> Result<(), AllocError>
    ensures { OnOk result (ports.new.items ≡ ports.old.items ++ next_outs net.now masks.now at) }
{
    match net.links().far_end(at) {
        Some(there) => push_outs(net, masks, there, ports),
        None => Ok(()),
    }
}

/// The ports by which these copies leave next.
fn hop(
    alloc: Global,
    net: &Net<'_>,
    masks: &[Ports],
    front: &[PortRef],
) -> Result<Vec<PortRef>, AllocError>
    ensures { IfOk result (λ next. next.items ≡ hop net.now masks.now front.now) }
{
    let mut next = Vec::new(alloc);
    for at in front {
        push_next_outs(net, masks, *at, &mut next)?;
    }
    Ok(next)
}

/// A mark for each node, of which that of this place alone is set.
pub(crate) fn met_first(alloc: Global, nodes: usize, place: usize) -> Result<Vec<bool>, AllocError>
    requires { place < nodes }
    ensures long { IfOk result (λ met. length met.items ≡ nodes) }
    ensures marked { IfOk result (λ met. (other : ℕ) → is_marked met.items other ≡ (place == other)) }
{
    let mut met = vec![in alloc; false; nodes]?;
    meet(&mut met, place);
    Ok(met)
}

/// The ports by which a packet of an end port at the switch there leaves.
fn first_outs(
    alloc: Global,
    net: &Net<'_>,
    masks: &[Ports],
    place: usize,
) -> Result<Vec<PortRef>, AllocError>
    ensures { IfOk result (λ front. front.items ≡ outs net.now masks.now (port place 0)) }
{
    let mut front = Vec::new(alloc);
    let here = PortRef {
        node: place,
        port: 0,
    };
    push_outs(net, masks, here, &mut front)?;
    Ok(front)
}

/// The first switch to which a packet that enters at this one comes again, if there is one.
#[tactic(auto, unfolding(crate::specs::Copies::second_copy))]
fn second_copy(
    alloc: Global,
    net: &Net<'_>,
    masks: &[Ports],
    place: usize,
) -> Result<Option<usize>, AllocError>
    requires { place < length net.now.plan.nodes }
    ensures { IfOk result (λ found. found ≡ second_copy net.now masks.now place) }
{
    let mut met = met_first(alloc, net.plan().nodes().len(), place)?;
    let mut front = first_outs(alloc, net, masks, place)?;
    for _ in 0..net.plan().nodes().len() {
        if front.as_slice().is_empty() {
            return Ok(None);
        }
        if let Some(again) = meet_all(net, &mut met, &front) {
            return Ok(Some(again));
        }
        front = hop(alloc, net, masks, &front)?;
    }
    Ok(None)
}

/// The first of these switches from which a packet comes to some switch twice, with that one, if there is one.
#[tactic(auto, unfolding(crate::specs::Copies::copy_of))]
pub(crate) fn copy_of(
    alloc: Global,
    net: &Net<'_>,
    masks: &[Ports],
    places: &[usize],
) -> Result<Option<SecondCopy>, AllocError>
    requires { places.now ≡ entrances net.now }
    ensures { IfOk result (λ found. found ≡ copy_of net.now masks.now) }
{
    for place in places {
        if let Some(at) = second_copy(alloc, net, masks, *place)? {
            return Ok(Some(SecondCopy { from: *place, at }));
        }
    }
    Ok(None)
}
