//! Loops by port masks.

ghost use Rattle.std.specs.Prelude.{◌≡◌, get_or, map, IfOk, option_map};
ghost use Rattle.fabric_parts.specs.Cable.{port};
ghost use Rattle.audit_multicast.specs.Loops.{all_outs, graph_of, loop_among, loop_of, nexts};

use crate::found::Ring;
use crate::ways::{comes_to, push_outs};
use audit_loops::channel_at;
use audit_loops::cycle::{NextList, cycle};
use audit_net::Net;
use fabric_parts::PortRef;
use mft_file::Ports;
use std::alloc::{AllocError, Global};

/// All ports by which packets leave a switch for another one.
pub(crate) fn all_outs(
    alloc: Global,
    net: &Net<'_>,
    masks: &[Ports],
) -> Result<Vec<PortRef>, AllocError>
    ensures { IfOk result (λ all. all.items ≡ all_outs net.now masks.now) }
{
    let mut all = Vec::new(alloc);
    for place in net.switches() {
        let here = PortRef {
            node: *place,
            port: 0,
        };
        push_outs(net, masks, here, &mut all)?;
    }
    Ok(all)
}

/// The places of those by which the packets of a port leave next.
fn nexts(
    alloc: Global,
    net: &Net<'_>,
    all: &[PortRef],
    first: PortRef,
) -> Result<Vec<usize>, AllocError>
    ensures { IfOk result (λ places. places.items ≡ nexts net.now all.now first) }
{
    all.iter()
        .copied()
        .enumerate()
        .filter(|(_, second)| comes_to(net, first, *second))
        .map(|(place, _)| place)
        .collect(alloc)
}

fn graph_of(alloc: Global, net: &Net<'_>, all: &[PortRef]) -> Result<Vec<NextList>, AllocError>
    ensures { IfOk result (λ graph. graph.items ≡ graph_of net.now all.now) }
{
    let mut graph = Vec::new(alloc);
    for first in all {
        let places = nexts(alloc, net, all, *first)?;
        graph.push(NextList::of(places))?;
    }
    Ok(graph)
}

fn at_places(alloc: Global, all: &[PortRef], places: &[usize]) -> Result<Vec<PortRef>, AllocError>
    ensures { IfOk result (λ ring. ring.items ≡ map (λ place. get_or all.now place (port 0 0)) places.now) }
{
    places
        .iter()
        .map(|place| channel_at(all, *place))
        .collect(alloc)
}

fn loop_among(alloc: Global, net: &Net<'_>, all: &[PortRef]) -> Result<Option<Ring>, AllocError>
    ensures { IfOk result (λ found. found ≡ loop_among net.now all.now) }
{
    let graph = graph_of(alloc, net, all)?;
    match cycle(alloc, &graph)? {
        Some(places) => {
            let ring = at_places(alloc, all, &places)?;
            Ok(Some(Ring::of(ring)))
        }
        None => Ok(None),
    }
}

/// A loop by these masks, if there is one.
#[tactic(auto, unfolding(crate::specs::Loops::loop_of))]
pub(crate) fn loop_of(
    alloc: Global,
    net: &Net<'_>,
    masks: &[Ports],
) -> Result<Option<Ring>, AllocError>
    ensures { IfOk result (λ found. found ≡ loop_of net.now masks.now) }
{
    let all = all_outs(alloc, net, masks)?;
    loop_among(alloc, net, &all)
}
