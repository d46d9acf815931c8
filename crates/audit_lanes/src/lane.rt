//! Lanes: the VLs of channels.

ghost use Rattle.std.specs.Prelude.{◌≡◌, ◌++◌, None, IfOk, OnOk, map};
ghost use Rattle.std.specs.List.{range_with_len};
ghost use Rattle.audit_loops.specs.Channels.{channels};
ghost use Rattle.audit_lanes.specs.Lanes.{lane, lane_of, lanes, lanes_of, pair_by, pairs_after};

use crate::hop::Hop;
use audit_loops::all_channels;
use audit_net::Net;
use fabric_parts::PortRef;
use std::alloc::{AllocError, Global};

/// A channel, and a VL of it.
#[derive(Clone, Copy, Debug, PartialEq, Eq, Hash)]
pub struct Lane {
    /// The channel: a port of a switch that has a cable to a switch.
    pub at: PortRef,
    /// The VL.
    pub vl: u8,
}

/// Two lanes one behind the other.
#[derive(Clone, Copy, Debug, PartialEq, Eq, Hash)]
pub(crate) struct LanePair {
    pub(crate) first: Lane,
    pub(crate) second: Lane,
}

/// Two channels one behind the other.
#[derive(Clone, Copy, Debug, PartialEq, Eq, Hash)]
pub(crate) struct ChannelPair {
    pub(crate) first: PortRef,
    pub(crate) second: PortRef,
}

/// The lane of a hop, if its VL is known.
fn lane_of(hop: Hop) -> Option<Lane>
    ensures { result ≡ lane_of hop }
{
    let vl = hop.vl?;
    Some(Lane { at: hop.out(), vl })
}

fn push_pair(
    pairs: &mut Vec<LanePair>,
    first: Option<Lane>,
    second: Option<Lane>,
) -> Result<(), AllocError>
    ensures { OnOk result (pairs.new.items ≡ pairs.old.items ++ pair_by first second) }
{
    if let (Some(first), Some(second)) = (first, second) {
        pairs.push(LanePair { first, second })?;
    }
    Ok(())
}

/// The lanes of hops one behind the other.
pub(crate) fn pairs_of(alloc: Global, hops: &[Hop]) -> Result<Vec<LanePair>, AllocError>
    ensures { IfOk result (λ pairs. pairs.items ≡ pairs_after None hops.now) }
{
    let mut pairs = Vec::new(alloc);
    let mut before = None;
    for hop in hops {
        let lane = lane_of(*hop);
        push_pair(&mut pairs, before, lane)?;
        before = lane;
    }
    Ok(pairs)
}

fn push_lanes(lanes: &mut Vec<Lane>, at: PortRef) -> Result<(), AllocError>
    ensures { OnOk result (lanes.new.items ≡ lanes.old.items ++ lanes_of at) }
{
    for vl in 0..15u8 {
        lanes.push(Lane { at, vl })?;
    }
    Ok(())
}

/// All lanes, in the order of channels, and then of VLs.
pub(crate) fn all_lanes(net: &Net<'_>, alloc: Global) -> Result<Vec<Lane>, AllocError>
    ensures { IfOk result (λ all. all.items ≡ lanes net.now) }
{
    let channels = all_channels(net, alloc)?;
    let mut lanes = Vec::new(alloc);
    for at in &channels {
        push_lanes(&mut lanes, *at)?;
    }
    Ok(lanes)
}
