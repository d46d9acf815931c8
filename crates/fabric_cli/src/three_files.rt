//! The audit of LFTs with a third file: its files, and its output.

ghost use Rattle.std.specs.Prelude.{ℕ, ◌≡◌, List, [], ◌∷◌, Some, IfErr, IfOk, IfSome, OnOk};
ghost use Rattle.dump_file.specs.Dump.{dump_of};
ghost use Rattle.fabric_cli.specs.Faults.{IsOfFiles, IsOfRun, NamesUnread};
ghost use Rattle.fabric_cli.specs.Files.{ForBytes, OpensAll, OpensInOrder};
ghost use Rattle.fabric_cli.specs.Serving.{dump_ending, ended, found_lanes_by, found_multicast_by, found_three_by, found_three_with, lanes_by, lanes_stop, mfts_stop, multicast_by, EndsIn};
ghost use Rattle.fabric_cli.specs.Serving.{three_by, three_from, three_over, three_viewed, three_with};
ghost use Rattle.fabric_parts.specs.declared.limits.Limits.TheVariants.{Large};
ghost use Rattle.mft_file.specs.Mfts.{mfts_of};
ghost use Rattle.sl2vl_file.specs.Lanes.{lanes_of};
ghost use Rattle.netdiscover_file.specs.Discovery.{discovery_of};
ghost use Rattle.step_results.specs.TextGives.{TextGives};
ghost use Rattle.topo_file.specs.Topology.{topology_within};

use crate::faults::{ForeignCause, Stop};
use crate::files::Files;
use crate::outputs::{DumpOutput, discovery_stop, dump_stop, topology_stop};
use crate::reading::{read_dump, read_file};
use audit_lanes::{audit_lanes, audit_lanes_found};
use audit_multicast::{audit_multicast, audit_multicast_found};
use cli_args::ThirdFile;
use dump_file::{Dump, DumpFault};
use fabric_parts::Limits;
use mft_file::MftFault;
use netdiscover_file::{Discovery, is_discovery};
use sl2vl_file::LanesFault;
use std::alloc::Global;
use text_streams::TextSize;
use topo_file::LargeTopology;

/// The names of the files.
#[derive(Clone, Copy)]
pub struct ThreeFiles<'a> {
    /// The topology, or what `ibnetdiscover` printed.
    pub fabric: &'a str,
    /// What `dump_fts` printed.
    pub dump: &'a str,
    /// The third file.
    pub third: &'a str,
}

/// What was read of the files.
#[derive(Drop)]
pub struct ThreeTexts {
    /// The topology, or what `ibnetdiscover` printed.
    pub fabric: Vec<u8>,
    /// What `dump_fts` printed, or its first fault.
    pub dump: Result<Dump, DumpFault>,
    /// The third file.
    pub third: Vec<u8>,
}

/// What three named files have: each is opened once, and may be big. The text of the dump is not kept.
pub fn read_three_files<'a, F: Files>(
    alloc: Global,
    files: &mut F,
    fabric: &'a str,
    dump: &'a str,
    third: &'a str,
) -> Result<ThreeTexts, Stop<'a>>
    ensures order { OpensInOrder (F.opened files.old) (F.opened files.new) (fabric.entry.now ∷ dump.entry.now ∷ third.entry.now ∷ []) }
    ensures all { OnOk result (OpensAll (F.opened files.old) (F.opened files.new) (fabric.entry.now ∷ dump.entry.now ∷ third.entry.now ∷ [])) }
    ensures fabric { IfOk result (λ read. IfSome (F.reported files.old) (λ file. file fabric.entry.now ≡ Some read.fabric.items)) }
    ensures dump { IfOk result (λ read. ForBytes (F.reported files.old) dump.entry.now
        (λ tables. TextGives (λ dump. dump) read.dump (dump_of tables))) }
    ensures third { IfOk result (λ read. IfSome (F.reported files.old) (λ file. file third.entry.now ≡ Some read.third.items)) }
    ensures fault { IfErr result IsOfFiles }
    ensures unread { IfErr result (NamesUnread (F.reported files.old) (F.reads files.old)
        (F.opened files.old) (F.opened files.new) (fabric.entry.now ∷ dump.entry.now ∷ third.entry.now ∷ [])) }
{
    let fabric = read_file(alloc, files, fabric, TextSize::Big)?;
    let dump = read_dump(alloc, files, dump)?;
    let third = read_file(alloc, files, third, TextSize::Big)?;
    Ok(ThreeTexts {
        fabric,
        dump,
        third,
    })
}

fn mfts_stop<'a>(fault: MftFault) -> Stop<'a>
    ensures reported { result ≡ mfts_stop fault }
    ensures fault { IsOfRun result }
{
    match fault {
        MftFault::NoMemory => Stop::NoMemory,
        MftFault::At { line, cause } => Stop::Foreign {
            line,
            cause: ForeignCause::Masks(cause),
        },
    }
}

fn lanes_stop<'a>(fault: LanesFault) -> Stop<'a>
    ensures reported { result ≡ lanes_stop fault }
    ensures fault { IsOfRun result }
{
    match fault {
        LanesFault::NoMemory => Stop::NoMemory,
        LanesFault::At { line, cause } => Stop::Foreign {
            line,
            cause: ForeignCause::Lanes(cause),
        },
    }
}

fn multicast_by<'a>(
    alloc: Global,
    plan: &LargeTopology,
    dump: &Dump,
    mfts: &[u8],
    all: bool,
) -> Result<DumpOutput, Stop<'a>>
    ensures exact { EndsIn dump_ending (ended (multicast_by all plan.now dump.now (mfts_of mfts.now))) result }
    ensures fault { IfErr result IsOfRun }
{
    match mft_file::read(alloc, mfts) {
        Ok(mfts) => Ok(DumpOutput::Audited(audit_multicast(alloc, plan, dump, &mfts, all)?)),
        Err(fault) => Err(mfts_stop(fault)),
    }
}

fn lanes_by<'a>(
    alloc: Global,
    plan: &LargeTopology,
    dump: &Dump,
    lanes: &[u8],
    all: bool,
) -> Result<DumpOutput, Stop<'a>>
    ensures exact { EndsIn dump_ending (ended (lanes_by all plan.now dump.now (lanes_of lanes.now))) result }
    ensures fault { IfErr result IsOfRun }
{
    match sl2vl_file::read(alloc, lanes) {
        Ok(lanes) => Ok(DumpOutput::Audited(audit_lanes(alloc, plan, dump, &lanes, all)?)),
        Err(fault) => Err(lanes_stop(fault)),
    }
}

fn three_by<'a>(
    alloc: Global,
    third: ThirdFile,
    plan: &LargeTopology,
    dump: &Dump,
    file: &[u8],
) -> Result<DumpOutput, Stop<'a>>
    ensures exact { EndsIn dump_ending (ended (three_by third plan.now dump.now file.now)) result }
    ensures fault { IfErr result IsOfRun }
{
    match third {
        ThirdFile::Mfts { all } => multicast_by(alloc, plan, dump, file, all),
        ThirdFile::Lanes { all } => lanes_by(alloc, plan, dump, file, all),
    }
}

fn three_with<'a>(
    alloc: Global,
    third: ThirdFile,
    plan: &LargeTopology,
    dump: &Result<Dump, DumpFault>,
    file: &[u8],
) -> Result<DumpOutput, Stop<'a>>
    ensures exact { (tables : List ℕ) → TextGives (λ dump. dump) dump.now (dump_of tables)
        → EndsIn dump_ending (ended (three_with third plan.now (dump_of tables) file.now)) result }
    ensures fault { IfErr result IsOfRun }
{
    match dump {
        Ok(dump) => three_by(alloc, third, plan, dump, file),
        Err(fault) => Err(dump_stop(*fault)),
    }
}

fn three_over<'a>(
    alloc: Global,
    third: ThirdFile,
    topology: &[u8],
    dump: &Result<Dump, DumpFault>,
    file: &[u8],
) -> Result<DumpOutput, Stop<'a>>
    ensures exact { (tables : List ℕ) → TextGives (λ dump. dump) dump.now (dump_of tables)
        → EndsIn dump_ending (ended (three_over third (topology_within Large topology.now) tables file.now)) result }
    ensures fault { IfErr result IsOfRun }
{
    match topo_file::read_within(alloc, topology, Limits::Large) {
        Ok(plan) => three_with(alloc, third, &plan, dump, file),
        Err(fault) => Err(topology_stop(fault)),
    }
}

fn found_multicast_by<'a>(
    alloc: Global,
    found: &Discovery,
    dump: &Dump,
    mfts: &[u8],
    all: bool,
) -> Result<DumpOutput, Stop<'a>>
    ensures exact { EndsIn dump_ending (ended (found_multicast_by all found.now dump.now (mfts_of mfts.now))) result }
    ensures fault { IfErr result IsOfRun }
{
    match mft_file::read(alloc, mfts) {
        Ok(mfts) => Ok(DumpOutput::Audited(audit_multicast_found(alloc, found, dump, &mfts, all)?)),
        Err(fault) => Err(mfts_stop(fault)),
    }
}

fn found_lanes_by<'a>(
    alloc: Global,
    found: &Discovery,
    dump: &Dump,
    lanes: &[u8],
    all: bool,
) -> Result<DumpOutput, Stop<'a>>
    ensures exact { EndsIn dump_ending (ended (found_lanes_by all found.now dump.now (lanes_of lanes.now))) result }
    ensures fault { IfErr result IsOfRun }
{
    match sl2vl_file::read(alloc, lanes) {
        Ok(lanes) => Ok(DumpOutput::Audited(audit_lanes_found(alloc, found, dump, &lanes, all)?)),
        Err(fault) => Err(lanes_stop(fault)),
    }
}

fn found_three_by<'a>(
    alloc: Global,
    third: ThirdFile,
    found: &Discovery,
    dump: &Dump,
    file: &[u8],
) -> Result<DumpOutput, Stop<'a>>
    ensures exact { EndsIn dump_ending (ended (found_three_by third found.now dump.now file.now)) result }
    ensures fault { IfErr result IsOfRun }
{
    match third {
        ThirdFile::Mfts { all } => found_multicast_by(alloc, found, dump, file, all),
        ThirdFile::Lanes { all } => found_lanes_by(alloc, found, dump, file, all),
    }
}

fn found_three_with<'a>(
    alloc: Global,
    third: ThirdFile,
    found: &Discovery,
    dump: &Result<Dump, DumpFault>,
    file: &[u8],
) -> Result<DumpOutput, Stop<'a>>
    ensures exact { (tables : List ℕ) → TextGives (λ dump. dump) dump.now (dump_of tables)
        → EndsIn dump_ending (ended (found_three_with third found.now (dump_of tables) file.now)) result }
    ensures fault { IfErr result IsOfRun }
{
    match dump {
        Ok(dump) => found_three_by(alloc, third, found, dump, file),
        Err(fault) => Err(dump_stop(*fault)),
    }
}

fn three_from<'a>(
    alloc: Global,
    third: ThirdFile,
    netdiscover: &[u8],
    dump: &Result<Dump, DumpFault>,
    file: &[u8],
) -> Result<DumpOutput, Stop<'a>>
    ensures exact { (tables : List ℕ) → TextGives (λ dump. dump) dump.now (dump_of tables)
        → EndsIn dump_ending (ended (three_from third (discovery_of netdiscover.now) tables file.now)) result }
    ensures fault { IfErr result IsOfRun }
{
    match netdiscover_file::read(alloc, netdiscover) {
        Ok(found) => found_three_with(alloc, third, &found, dump, file),
        Err(fault) => Err(discovery_stop(fault)),
    }
}

/// The audit of LFTs and of what a third file has, for a topology, or for what `ibnetdiscover` printed. The dump was read
/// before, and its fault counts once the first file has none.
pub fn three_viewed<'a>(
    alloc: Global,
    third: ThirdFile,
    fabric: &[u8],
    dump: &Result<Dump, DumpFault>,
    file: &[u8],
) -> Result<DumpOutput, Stop<'a>>
    ensures exact { (tables : List ℕ) → TextGives (λ dump. dump) dump.now (dump_of tables)
        → EndsIn dump_ending (ended (three_viewed third fabric.now tables file.now)) result }
    ensures fault { IfErr result IsOfRun }
{
    if is_discovery(fabric) {
        return three_from(alloc, third, fabric, dump, file);
    }
    three_over(alloc, third, fabric, dump, file)
}
