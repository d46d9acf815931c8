//! Which lanes wait for which.

ghost use Rattle.std.specs.Prelude.{◌≡◌, ◌||◌, true, IfOk, OnOk};
ghost use Rattle.std.specs.List.{list_any};
ghost use Rattle.indexmap.specs.IndexSet.{contains};
ghost use Rattle.audit_loops.specs.Channels.{leads_to};
ghost use Rattle.audit_lanes.specs.Keys.{KnowsChannels, KnowsPairs, has_pair, is_same_channels, lid_takes, takes_channels, two_channels, waits_by};
ghost use Rattle.audit_lanes.specs.Lanes.{is_same_pair, some_take, unplaced_take};
ghost use Rattle.audit_lanes.specs.declared.lane.ChannelPair.{ChannelPair};
ghost use Rattle.audit_lanes.specs.declared.lane.LanePair.{LanePair};

use crate::hop::{Hop, Trace};
use crate::lane::{ChannelPair, Lane, LanePair, pairs_of};
use crate::tables::unplaced_lids;
use audit_net::{Aim, Entry, Net};
use fabric_parts::PortRef;
use indexmap::IndexSet;
use std::alloc::{AllocError, Global};
use std::marker::Model;

/// Adds these pairs.
fn note_pairs(known: &mut IndexSet<LanePair>, pairs: &[LanePair]) -> Result<(), AllocError>
    ensures { OnOk result ((pair : LanePair) → contains is_same_pair known.new pair
        ≡ (contains is_same_pair known.old pair || list_any (is_same_pair pair) pairs.now)) }
{
    for pair in pairs {
        known.insert(*pair)?;
    }
    Ok(())
}

fn note_hops(alloc: Global, known: &mut IndexSet<LanePair>, hops: &[Hop]) -> Result<(), AllocError>
    ensures { OnOk result ((pair : LanePair) → contains is_same_pair known.new pair
        ≡ (contains is_same_pair known.old pair || has_pair pair hops.now)) }
{
    let pairs = pairs_of(alloc, hops)?;
    note_pairs(known, &pairs)
}

/// Each two lanes that packets of a record take one behind the other.
fn known_pairs(alloc: Global, traces: &[Trace]) -> Result<IndexSet<LanePair>, AllocError>
    ensures { IfOk result (λ known. KnowsPairs known traces.now) }
{
    let mut known = IndexSet::new(alloc);
    for trace in traces {
        note_hops(alloc, &mut known, trace.as_slice())?;
    }
    Ok(known)
}

/// The channel by which the switch there forwards the LID, and that by which the switch behind it does.
fn two_channels(net: &Net<'_>, lid: u16, place: usize) -> Option<ChannelPair>
    ensures { result ≡ two_channels net.now lid place }
{
    let Entry::Out(number) = net.entry(lid, place) else {
        return None;
    };
    let first = PortRef {
        node: place,
        port: number,
    };
    let there = net.links().far_end(first)?;
    match net.entry(lid, there.node) {
        Entry::Out(next) => Some(ChannelPair {
            first,
            second: PortRef {
                node: there.node,
                port: next,
            },
        }),
        _ => None,
    }
}

fn note_two(
    known: &mut IndexSet<ChannelPair>,
    net: &Net<'_>,
    lid: u16,
    place: usize,
) -> Result<(), AllocError>
    ensures { OnOk result ((pair : ChannelPair) → contains is_same_channels known.new pair
        ≡ (contains is_same_channels known.old pair || takes_channels net.now pair lid place)) }
{
    if let Some(pair) = two_channels(net, lid, place) {
        known.insert(pair)?;
    }
    Ok(())
}

/// Adds what a LID takes from each node on.
fn note_lid(known: &mut IndexSet<ChannelPair>, net: &Net<'_>, lid: u16) -> Result<(), AllocError>
    ensures { OnOk result ((pair : ChannelPair) → contains is_same_channels known.new pair
        ≡ (contains is_same_channels known.old pair || lid_takes net.now pair lid)) }
{
    for place in 0..net.plan().nodes().len() {
        note_two(known, net, lid, place)?;
    }
    Ok(())
}

/// Each two channels that one of these LIDs takes one behind the other.
fn known_channels(
    alloc: Global,
    net: &Net<'_>,
    lids: &[u16],
) -> Result<IndexSet<ChannelPair>, AllocError>
    ensures { IfOk result (λ known. KnowsChannels known net.now lids.now) }
{
    let mut known = IndexSet::new(alloc);
    for lid in lids {
        note_lid(&mut known, net, *lid)?;
    }
    Ok(known)
}

/// What lanes wait by: two lanes of packets of a record, or two channels of a LID of which no record can be.
#[derive(Drop)]
pub(crate) struct Waits<'n, 'a> {
    net: &'n Net<'a>,
    aims: &'n [Aim],
    traces: &'n [Trace],
    pairs: IndexSet<LanePair>,
    channels: IndexSet<ChannelPair>,
}

impl<'n, 'a> Model for Waits<'n, 'a> {
    ghost use Rattle.audit_lanes.specs.Keys.{KnowsChannels, KnowsPairs, WaitsState};
    ghost use Rattle.audit_lanes.specs.Tables.{unplaced_lids};

    ghost Value = { WaitsState };

    ghost view = { λ known. record { net = known.net.now; aims = known.aims.now; traces = known.traces.now } };

    ghost invariant = { λ known. KnowsPairs known.pairs known.traces.now
        × KnowsChannels known.channels known.net.now (unplaced_lids known.aims.now) };
}

impl<'n, 'a> Waits<'n, 'a> {
    pub(crate) fn of(
        alloc: Global,
        net: &'n Net<'a>,
        aims: &'n [Aim],
        traces: &'n [Trace],
    ) -> Result<Waits<'n, 'a>, AllocError>
        ensures { IfOk result (λ known. known ≡ record { net = net.now; aims = aims.now; traces = traces.now }) }
    {
        let pairs = known_pairs(alloc, traces)?;
        let lids = unplaced_lids(alloc, aims)?;
        let channels = known_channels(alloc, net, &lids)?;
        Ok(Waits {
            net,
            aims,
            traces,
            pairs,
            channels,
        })
    }

    /// The fabric.
    pub(crate) fn net(&self) -> &Net<'a>
        ensures { result.now ≡ self.now.net }
    {
        self.net
    }

    fn some_take(&self, first: Lane, second: Lane) -> bool
        ensures { result ≡ some_take self.now.traces first second }
    {
        self.pairs.contains(&LanePair { first, second })
    }

    fn unplaced_take(&self, first: PortRef, second: PortRef) -> bool
        requires { leads_to self.now.net first second.node ≡ true }
        ensures { result ≡ unplaced_take self.now.net self.now.aims first second }
    {
        self.channels.contains(&ChannelPair { first, second })
    }

    fn leads_to(&self, at: PortRef, place: usize) -> bool
        ensures { result ≡ leads_to self.now.net at place }
    {
        match self.net.links().far_end(at) {
            Some(there) => there.node == place,
            None => false,
        }
    }

    /// Whether the first lane waits for the second.
    pub(crate) fn wait(&self, first: Lane, second: Lane) -> bool
        ensures { result ≡ waits_by self.now first second }
    {
        self.leads_to(first.at, second.at.node)
            && (self.some_take(first, second) || self.unplaced_take(first.at, second.at))
    }
}
