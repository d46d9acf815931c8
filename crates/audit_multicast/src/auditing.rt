//! The audit of LFTs and MFTs over a topology or a discovery.

ghost use Rattle.std.specs.Prelude.{◌≡◌, map, IfOk};
ghost use Rattle.audit_multicast.specs.Audit.{all_found, audit_multicast, audit_multicast_found, audit_with, found_by, found_of, with_multicast};
ghost use Rattle.audit_multicast.specs.Copies.{entrances};

use crate::copies::{copy_of, entrances};
use crate::cuts::cut_of;
use crate::found::Found;
use crate::lines::push_multicast;
use crate::loops::loop_of;
use crate::masks::{masks_of, mlids_of};
use crate::verdict::{all_are_safe, multicast_verdict, push_verdict};
use audit_net::Net;
use audit_plan::Plan;
use audit_routes::{Audit, Findings, findings};
use dump_file::Dump;
use mft_file::{Mfts, Ports};
use netdiscover_file::Discovery;
use std::alloc::{AllocError, Global};
use topo_file::LargeTopology;

fn found_by(
    alloc: Global,
    net: &Net<'_>,
    mlid: u16,
    masks: &[Ports],
    places: &[usize],
) -> Result<Found, AllocError>
    requires { places.now ≡ entrances net.now }
    ensures { IfOk result (λ found. found ≡ found_by net.now mlid masks.now) }
{
    let ring = loop_of(alloc, net, masks)?;
    let copy = copy_of(alloc, net, masks, places)?;
    let cut = cut_of(alloc, net, masks)?;
    Ok(Found {
        mlid,
        ring,
        copy,
        cut,
    })
}

fn found_of(
    alloc: Global,
    net: &Net<'_>,
    mfts: &Mfts,
    mlid: u16,
    places: &[usize],
) -> Result<Found, AllocError>
    requires { places.now ≡ entrances net.now }
    ensures { IfOk result (λ found. found ≡ found_of net.now mfts.now.tables mlid) }
{
    let masks = masks_of(alloc, net, mfts, mlid)?;
    found_by(alloc, net, mlid, &masks, places)
}

fn found_of_all(
    alloc: Global,
    net: &Net<'_>,
    mfts: &Mfts,
    mlids: &[u16],
) -> Result<Vec<Found>, AllocError>
    ensures { IfOk result (λ all. all.items ≡ map (found_of net.now mfts.now.tables) mlids.now) }
{
    let places = entrances(alloc, net)?;
    let mut all = Vec::new(alloc);
    for mlid in mlids {
        all.push(found_of(alloc, net, mfts, *mlid, &places)?)?;
    }
    Ok(all)
}

#[tactic(auto, unfolding(crate::specs::Audit::all_found))]
fn all_found(alloc: Global, net: &Net<'_>, mfts: &Mfts) -> Result<Vec<Found>, AllocError>
    ensures { IfOk result (λ all. all.items ≡ all_found net.now mfts.now.tables) }
{
    let mlids = mlids_of(alloc, mfts.tables())?;
    found_of_all(alloc, net, mfts, &mlids)
}

fn with_multicast(
    alloc: Global,
    net: &Net<'_>,
    mfts: &Mfts,
    routes: Findings,
    all: &[Found],
) -> Result<Audit, AllocError>
    ensures { IfOk result (λ found. found ≡ with_multicast net.now mfts.now.tables routes all.now) }
{
    let Findings { mut text, verdict } = routes;
    push_multicast(net, &mut text, mfts, all)?;
    let multicast = multicast_verdict(net, mfts, all);
    push_verdict(alloc, &mut text, verdict, multicast)?;
    Ok(Audit::of(text, all_are_safe(verdict, multicast)))
}

#[tactic(auto, unfolding(crate::specs::Audit::audit_with))]
fn audit_with(alloc: Global, net: &Net<'_>, mfts: &Mfts, all: bool) -> Result<Audit, AllocError>
    ensures { IfOk result (λ found. found ≡ audit_with all net.now mfts.now.tables) }
{
    let routes = findings(net, alloc, all)?;
    let found = all_found(alloc, net, mfts)?;
    with_multicast(alloc, net, mfts, routes, &found)
}

fn audited(
    alloc: Global,
    plan: &Plan,
    dump: &Dump,
    mfts: &Mfts,
    all: bool,
) -> Result<Audit, AllocError>
    ensures { IfOk result (λ found. found ≡ audit_with all (record { plan = plan.now; dump = dump.now }) mfts.now.tables) }
{
    let net = Net::new(alloc, plan, dump)?;
    audit_with(alloc, &net, mfts, all)
}

/// Judges the LFTs and MFTs that two dumps show over a topology. It can only run out of memory.
///
/// What is reported is stated in `specs/Audit.antt`: what an audit of the LFTs alone prints before its verdict (with `all`, each line
/// by switch and LID), then what is wrong with the MFTs, then the verdict on both. Of each MLID a packet is followed from each switch to which an end port is
/// attached, loops are looked for among the ports of its masks, and from each member it is looked where packets come to.
pub fn audit_multicast(
    alloc: Global,
    topology: &LargeTopology,
    dump: &Dump,
    mfts: &Mfts,
    all: bool,
) -> Result<Audit, AllocError>
    ensures { IfOk result (λ found. found ≡ audit_multicast all topology.now dump.now mfts.now) }
{
    let plan = Plan::of(alloc, topology)?;
    audited(alloc, &plan, dump, mfts, all)
}

/// The same over a discovery. It can only run out of memory.
pub fn audit_multicast_found(
    alloc: Global,
    found: &Discovery,
    dump: &Dump,
    mfts: &Mfts,
    all: bool,
) -> Result<Audit, AllocError>
    ensures { IfOk result (λ audit. audit ≡ audit_multicast_found all found.now dump.now mfts.now) }
{
    let plan = Plan::found(alloc, found)?;
    audited(alloc, &plan, dump, mfts, all)
}
