//! Of which LIDs there are path records, and which SLs and VLs their packets use.

ghost use Rattle.std.specs.Prelude.{◌≡◌, ◌++◌, IfOk, OnOk, filter, map};
ghost use Rattle.std.specs.List.{list_any};
ghost use Rattle.audit_lanes.specs.Hops.{some_hop};
ghost use Rattle.audit_lanes.specs.Keys.{KnowsRecords};
ghost use Rattle.audit_lanes.specs.Records.{has_record, is_on, is_pair, lacking_from, owned, records, records_from, sls, uses_sl, uses_vl, vls};

use crate::hop::{Hop, Trace};
use crate::hops::counts;
use crate::owned::{LidPair, OwnedLid, has_record, is_pair, known_records, lacks_record};
use crate::tables::Tables;
use audit_net::Net;
use indexmap::IndexSet;
use sl2vl_file::PathSl;
use std::alloc::{AllocError, Global};

fn push_records_from(
    records: &mut Vec<bool>,
    known: &IndexSet<LidPair>,
    paths: &[PathSl],
    all: &[OwnedLid],
    a: &OwnedLid,
) -> Result<(), AllocError>
    requires { KnowsRecords known.now paths.now }
    ensures { OnOk result (records.new.items ≡ records.old.items ++ records_from paths.now all.now a.now) }
{
    for b in all {
        if is_pair(a, b) {
            records.push(has_record(known, paths, a, b))?;
        }
    }
    Ok(())
}

/// Of each two end ports whether a record is of them.
pub(crate) fn records(
    alloc: Global,
    paths: &[PathSl],
    all: &[OwnedLid],
) -> Result<Vec<bool>, AllocError>
    ensures { IfOk result (λ found. found.items ≡ records paths.now all.now) }
{
    let known = known_records(alloc, paths)?;
    let mut records = Vec::new(alloc);
    for a in all {
        push_records_from(&mut records, &known, paths, all, a)?;
    }
    Ok(records)
}

/// The destinations to which there is no record from one source.
pub(crate) fn lacking_from(
    alloc: Global,
    known: &IndexSet<LidPair>,
    paths: &[PathSl],
    all: &[OwnedLid],
    a: &OwnedLid,
) -> Result<Vec<OwnedLid>, AllocError>
    requires { KnowsRecords known.now paths.now }
    ensures { IfOk result (λ lacking. lacking.items ≡ lacking_from paths.now all.now a.now) }
{
    all.iter()
        .copied()
        .filter(|b| lacks_record(known, paths, a, b))
        .collect(alloc)
}

fn uses_sl(net: &Net<'_>, tables: &Tables<'_>, paths: &[PathSl], sl: u8) -> bool
    ensures { result ≡ uses_sl net.now tables.now.aims paths.now sl }
{
    paths
        .iter()
        .any(|path| path.sl == sl && counts(net, tables, *path))
}

/// The SLs of path records, as they rise.
#[tactic(auto, unfolding(crate::specs::Records::sls))]
pub(crate) fn sls(
    alloc: Global,
    net: &Net<'_>,
    tables: &Tables<'_>,
    paths: &[PathSl],
) -> Result<Vec<u8>, AllocError>
    ensures { IfOk result (λ found. found.items ≡ sls net.now tables.now.aims paths.now) }
{
    (0..16u8)
        .filter(|sl| uses_sl(net, tables, paths, *sl))
        .collect(alloc)
}

fn is_on(vl: u8, hop: &Hop) -> bool
    ensures { result ≡ is_on vl hop.now }
{
    match hop.vl {
        Some(other) => other == vl,
        None => false,
    }
}

fn some_is_on(vl: u8, hops: &[Hop]) -> bool
    ensures { result ≡ list_any (is_on vl) hops.now }
{
    hops.iter().any(|hop| is_on(vl, hop))
}

fn uses_vl(traces: &[Trace], vl: u8) -> bool
    ensures { result ≡ uses_vl traces.now vl }
{
    traces.iter().any(|trace| some_is_on(vl, trace.as_slice()))
}

/// The VLs of their hops, as they rise.
#[tactic(auto, unfolding(crate::specs::Records::vls))]
pub(crate) fn vls(alloc: Global, traces: &[Trace]) -> Result<Vec<u8>, AllocError>
    ensures { IfOk result (λ found. found.items ≡ vls traces.now) }
{
    (0..15u8).filter(|vl| uses_vl(traces, *vl)).collect(alloc)
}
