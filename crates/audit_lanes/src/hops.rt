//! Where packets of path records go.

ghost use Rattle.std.specs.Prelude.{◌≡◌, IfOk};
ghost use Rattle.std.specs.Option.{option_and_then};
ghost use Rattle.fabric_parts.specs.Cable.{far_end};
ghost use Rattle.audit_net.specs.declared.entry.Entry.TheVariants.{Out};
ghost use Rattle.audit_lanes.specs.Hops.{counts, enough_hops, goes_on, hop_by, hops_from, hops_of, hops_within, step_by, step_of, step_to, traces};
ghost use Rattle.audit_lanes.specs.Tables.{others_end};

use crate::hop::{Crossing, Hop, Step, Trace};
use crate::tables::Tables;
use audit_net::{Entry, Net};
use fabric_parts::PortRef;
use sl2vl_file::PathSl;
use std::alloc::{AllocError, Global};

fn hop_by(tables: &Tables<'_>, sl: u8, at: PortRef, output: u8) -> Hop
    ensures { result ≡ hop_by tables.now sl at output }
{
    let crossing = Crossing::of(at, output);
    Hop {
        crossing,
        sl,
        vl: tables.vl_of(crossing, sl),
    }
}

fn goes_on(net: &Net<'_>, hop: Hop, there: PortRef) -> bool
    ensures { result ≡ goes_on net.now hop there }
{
    net.plan().is_switch_at(there.node) && !hop.is_dropped()
}

/// The hop, and where it leads, unless its port has no cable.
fn step_to(net: &Net<'_>, hop: Hop, there: Option<PortRef>) -> Option<Step>
    ensures { result ≡ step_to net.now hop there }
{
    let there = there?;
    let next = if goes_on(net, hop, there) {
        Some(there)
    } else {
        None
    };
    Some(Step { hop, next })
}

fn step_out(net: &Net<'_>, tables: &Tables<'_>, sl: u8, at: PortRef, number: u8) -> Option<Step>
    ensures { result ≡ step_by net.now tables.now sl at (Out number) }
{
    if number == 0 {
        return None;
    }
    let there = net.links().far_end(PortRef {
        node: at.node,
        port: number,
    });
    step_to(net, hop_by(tables, sl, at, number), there)
}

/// The hop of packets that come into a switch at this port.
fn step_of(net: &Net<'_>, tables: &Tables<'_>, path: PathSl, at: PortRef) -> Option<Step>
    ensures { result ≡ step_of net.now tables.now path at }
{
    match net.entry(path.destination, at.node) {
        Entry::Out(number) => step_out(net, tables, path.sl, at, number),
        Entry::Missing | Entry::Unreported => None,
    }
}

/// How far packets are followed: what they do farther on they did before.
fn enough_hops(net: &Net<'_>) -> usize
    ensures { result ≡ enough_hops net.now }
{
    net.switches().len() + 2
}

/// All hops from there on; of packets that loop, as many as are enough.
fn hops_within(
    alloc: Global,
    net: &Net<'_>,
    tables: &Tables<'_>,
    path: PathSl,
    start: PortRef,
) -> Result<Vec<Hop>, AllocError>
    ensures { IfOk result (λ hops. hops.items ≡ hops_within net.now tables.now path (enough_hops net.now) start) }
{
    let mut hops = Vec::new(alloc);
    let mut at = start;
    for _ in 0..enough_hops(net) {
        let Some(step) = step_of(net, tables, path, at) else {
            return Ok(hops);
        };
        hops.push(step.hop)?;
        let Some(next) = step.next else {
            return Ok(hops);
        };
        at = next;
    }
    Ok(hops)
}

/// Whether both LIDs of a path record are of end ports of the fabric that are not switches'.
pub(crate) fn counts(net: &Net<'_>, tables: &Tables<'_>, path: PathSl) -> bool
    ensures { result ≡ counts net.now tables.now.aims path }
{
    tables.others_end(net, path.source).is_some()
        && tables.others_end(net, path.destination).is_some()
}

fn hops_from(
    alloc: Global,
    net: &Net<'_>,
    tables: &Tables<'_>,
    path: PathSl,
    at: Option<PortRef>,
) -> Result<Vec<Hop>, AllocError>
    ensures { IfOk result (λ hops. hops.items ≡ hops_from net.now tables.now path at) }
{
    match at {
        Some(at) if net.plan().is_switch_at(at.node) => hops_within(alloc, net, tables, path, at),
        _ => Ok(Vec::new(alloc)),
    }
}

/// The port of a switch at which packets from this LID come into the fabric.
fn entrance(net: &Net<'_>, tables: &Tables<'_>, source: u16) -> Option<PortRef>
    ensures { result ≡ option_and_then (far_end net.now.plan.cables) (others_end net.now tables.now.aims source) }
{
    let end = tables.others_end(net, source)?;
    net.links().far_end(end)
}

fn hops_of(
    alloc: Global,
    net: &Net<'_>,
    tables: &Tables<'_>,
    path: PathSl,
) -> Result<Vec<Hop>, AllocError>
    ensures { IfOk result (λ hops. hops.items ≡ hops_of net.now tables.now path) }
{
    if !counts(net, tables, path) {
        return Ok(Vec::new(alloc));
    }
    let at = entrance(net, tables, path.source);
    hops_from(alloc, net, tables, path, at)
}

/// The hops of each path record.
pub(crate) fn traces(
    alloc: Global,
    net: &Net<'_>,
    tables: &Tables<'_>,
    paths: &[PathSl],
) -> Result<Vec<Trace>, AllocError>
    ensures { IfOk result (λ all. all.items ≡ traces net.now tables.now paths.now) }
{
    let mut all = Vec::new(alloc);
    for path in paths {
        let hops = hops_of(alloc, net, tables, *path)?;
        all.push(Trace::of(hops))?;
    }
    Ok(all)
}
