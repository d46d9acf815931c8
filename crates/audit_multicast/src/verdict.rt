//! The verdict of an audit that judges multicast too.

ghost use Rattle.std.specs.Prelude.{◌≡◌, ◌++◌, IfOk, OnOk};
ghost use Rattle.std.specs.List.{list_all, list_any};
ghost use Rattle.topo_file.specs.Connectivity.{switches};
ghost use Rattle.audit_multicast.specs.Lines.{has_copy, has_cut, has_ring};
ghost use Rattle.audit_multicast.specs.Verdict.{all_are_safe, all_reasons, all_verdict_line, all_words, has_mft, is_of_fabric, joined, multicast_verdict};

use crate::found::Found;
use crate::lines::mft_at;
use audit_net::Net;
use audit_routes::{Verdict, add_reason, has_switch, push_outcome, reasons};
use mft_file::{MaskTable, Mfts};
use std::alloc::{AllocError, Global};

/// What the verdict on multicast rests on.
#[derive(Clone, Copy)]
pub(crate) struct MulticastVerdict {
    /// Each MFT is of a switch of the fabric.
    is_same: bool,
    /// Each switch has an MFT.
    is_known: bool,
    /// Packets to some MLID loop.
    has_loops: bool,
    /// Packets to some MLID come to a switch twice.
    has_copies: bool,
    /// What some end port to which masks lead sends does not come to another one.
    has_cuts: bool,
}

fn is_of_fabric(net: &Net<'_>, table: &MaskTable) -> bool
    ensures { result ≡ is_of_fabric net.now table.now }
{
    has_switch(table.guid, net.plan().nodes())
}

fn all_are_of_fabric(net: &Net<'_>, tables: &[MaskTable]) -> bool
    ensures { result ≡ list_all (is_of_fabric net.now) tables.now }
{
    tables.iter().all(|table| is_of_fabric(net, table))
}

fn has_mft(net: &Net<'_>, mfts: &Mfts, place: usize) -> bool
    ensures { result ≡ has_mft net.now mfts.now.tables place }
{
    mft_at(net, mfts, place).is_some()
}

fn all_have_mfts(net: &Net<'_>, mfts: &Mfts) -> bool
    ensures { result ≡ list_all (has_mft net.now mfts.now.tables) (switches net.now.plan.nodes) }
{
    net.switches()
        .iter()
        .all(|place| has_mft(net, mfts, *place))
}

fn some_have_rings(all: &[Found]) -> bool
    ensures { result ≡ list_any has_ring all.now }
{
    all.iter().any(|found| found.has_ring())
}

fn some_have_copies(all: &[Found]) -> bool
    ensures { result ≡ list_any has_copy all.now }
{
    all.iter().any(|found| found.has_copy())
}

fn some_have_cuts(all: &[Found]) -> bool
    ensures { result ≡ list_any has_cut all.now }
{
    all.iter().any(|found| found.has_cut())
}

/// The verdict on multicast, by what is found of each MLID.
pub(crate) fn multicast_verdict(net: &Net<'_>, mfts: &Mfts, all: &[Found]) -> MulticastVerdict
    ensures { result ≡ multicast_verdict net.now mfts.now.tables all.now }
{
    MulticastVerdict {
        is_same: all_are_of_fabric(net, mfts.tables()),
        is_known: all_have_mfts(net, mfts),
        has_loops: some_have_rings(all),
        has_copies: some_have_copies(all),
        has_cuts: some_have_cuts(all),
    }
}

fn joined(routes: Verdict, multicast: MulticastVerdict) -> Verdict
    ensures { result ≡ joined routes multicast }
{
    routes.and(multicast.is_same, multicast.is_known)
}

/// Whether the routes are safe, and multicast too.
pub(crate) fn all_are_safe(routes: Verdict, multicast: MulticastVerdict) -> bool
    ensures { result ≡ all_are_safe routes multicast }
{
    joined(routes, multicast).is_safe()
        && !multicast.has_loops
        && !multicast.has_copies
        && !multicast.has_cuts
}

#[tactic(auto, unfolding(crate::specs::Verdict::all_reasons))]
fn all_reasons(
    alloc: Global,
    routes: Verdict,
    multicast: MulticastVerdict,
) -> Result<Vec<u8>, AllocError>
    ensures { IfOk result (λ text. text.items ≡ all_reasons routes multicast) }
{
    let mut text = reasons(alloc, joined(routes, multicast))?;
    add_reason(&mut text, !multicast.has_loops, b"multicast-loop")?;
    add_reason(&mut text, !multicast.has_copies, b"multicast-copies")?;
    add_reason(&mut text, !multicast.has_cuts, b"multicast-cut")?;
    Ok(text)
}

#[tactic(auto, unfolding(crate::specs::Verdict::all_words))]
fn push_words(
    alloc: Global,
    text: &mut Vec<u8>,
    routes: Verdict,
    multicast: MulticastVerdict,
) -> Result<(), AllocError>
    ensures { OnOk result (text.new.items ≡ text.old.items ++ all_words routes multicast) }
{
    let reasons = all_reasons(alloc, routes, multicast)?;
    push_outcome(text, all_are_safe(routes, multicast), &reasons)
}

/// Adds the last line.
#[tactic(auto, unfolding(crate::specs::Verdict::all_verdict_line))]
pub(crate) fn push_verdict(
    alloc: Global,
    text: &mut Vec<u8>,
    routes: Verdict,
    multicast: MulticastVerdict,
) -> Result<(), AllocError>
    ensures { OnOk result (text.new.items ≡ text.old.items ++ all_verdict_line routes multicast) }
{
    text.extend_from_slice(b"verdict: ")?;
    push_words(alloc, text, routes, multicast)?;
    text.extend_from_slice(
        b", as if all packets used one virtual lane; credit loops of multicast are not judged\n",
    )
}
