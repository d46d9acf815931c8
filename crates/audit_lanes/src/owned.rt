//! LIDs of end ports of the fabric that are not switches'.

ghost use Rattle.std.specs.Prelude.{◌≡◌, ◌++◌, ◌||◌, IfOk, OnOk};
ghost use Rattle.indexmap.specs.IndexSet.{contains};
ghost use Rattle.audit_lanes.specs.Keys.{KnowsRecords};
ghost use Rattle.audit_lanes.specs.Records.{has_record, is_pair, lacks_record, owned, owned_of};

use audit_net::{Aim, Net};
use fabric_parts::PortRef;
use indexmap::IndexSet;
use sl2vl_file::PathSl;
use std::alloc::{AllocError, Global};

/// A LID, and the end port that has it.
#[derive(Clone, Copy, Debug)]
pub(crate) struct OwnedLid {
    pub(crate) lid: u16,
    pub(crate) end: PortRef,
}

/// The two LIDs of a path.
#[derive(Clone, Copy, Debug, PartialEq, Eq, Hash)]
pub(crate) struct LidPair {
    pub(crate) source: u16,
    pub(crate) destination: u16,
}

fn push_owned(net: &Net<'_>, all: &mut Vec<OwnedLid>, aim: &Aim) -> Result<(), AllocError>
    ensures { OnOk result (all.new.items ≡ all.old.items ++ owned_of net.now aim.now) }
{
    let aim = *aim;
    if let Some(end) = aim.end {
        if !net.plan().is_switch_at(end.node) {
            all.push(OwnedLid { lid: aim.lid, end })?;
        }
    }
    Ok(())
}

/// All of them.
pub(crate) fn owned(net: &Net<'_>, alloc: Global, aims: &[Aim]) -> Result<Vec<OwnedLid>, AllocError>
    ensures { IfOk result (λ all. all.items ≡ owned net.now aims.now) }
{
    let mut all = Vec::new(alloc);
    for aim in aims {
        push_owned(net, &mut all, aim)?;
    }
    Ok(all)
}

/// The LIDs of each path record.
pub(crate) fn known_records(
    alloc: Global,
    paths: &[PathSl],
) -> Result<IndexSet<LidPair>, AllocError>
    ensures { IfOk result (λ known. KnowsRecords known paths.now) }
{
    let mut known = IndexSet::new(alloc);
    for path in paths {
        known.insert(LidPair {
            source: path.source,
            destination: path.destination,
        })?;
    }
    Ok(known)
}

/// Whether these are two end ports.
pub(crate) fn is_pair(a: &OwnedLid, b: &OwnedLid) -> bool
    ensures { result ≡ is_pair a.now b.now }
{
    a.end != b.end
}

/// Whether a record is of the first as source and the second as destination.
pub(crate) fn has_record(
    known: &IndexSet<LidPair>,
    paths: &[PathSl],
    a: &OwnedLid,
    b: &OwnedLid,
) -> bool
    requires { KnowsRecords known.now paths.now }
    ensures { result ≡ has_record paths.now a.now b.now }
{
    known.contains(&LidPair {
        source: a.lid,
        destination: b.lid,
    })
}

pub(crate) fn lacks_record(
    known: &IndexSet<LidPair>,
    paths: &[PathSl],
    a: &OwnedLid,
    b: &OwnedLid,
) -> bool
    requires { KnowsRecords known.now paths.now }
    ensures { result ≡ lacks_record paths.now a.now b.now }
{
    is_pair(a, b) && !has_record(known, paths, a, b)
}
