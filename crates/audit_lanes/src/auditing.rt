//! The audit by virtual lanes over a topology or a discovery.

ghost use Rattle.std.specs.Prelude.{◌≡◌, ◌++◌, IfOk, OnOk, option_map};
ghost use Rattle.audit_net.specs.Lids.{aims};
ghost use Rattle.audit_lanes.specs.Audit.{audit_lanes, audit_lanes_found, audit_with, closing_lines, found_with, lane_findings, with_lanes};
ghost use Rattle.audit_lanes.specs.Lines.{counts_line, crossing_lines, no_path_lines, ring_line};
ghost use Rattle.audit_lanes.specs.Records.{owned, records, sls, vls};

use crate::graph::lane_deadlock;
use crate::hop::Trace;
use crate::hops::traces;
use crate::lane::Lane;
use crate::lines::{push_comments, push_count, push_crossing_lines, push_no_path_lines, push_ring};
use crate::owned::owned;
use crate::records::{records, sls, vls};
use crate::tables::Tables;
use crate::verdict::{LaneVerdict, all_are_safe, lane_verdict, push_verdict};
use audit_net::{Aim, Net, aims};
use audit_plan::Plan;
use audit_routes::{Audit, Findings, Verdict, findings};
use dump_file::Dump;
use netdiscover_file::Discovery;
use sl2vl_file::{Lanes, PathSl};
use std::alloc::{AllocError, Global};
use std::marker::Model;
use topo_file::LargeTopology;

/// What is found of lanes: the lines, and what the verdict rests on.
#[derive(Drop)]
struct LaneFindings {
    text: Vec<u8>,
    verdict: LaneVerdict,
}

impl Model for LaneFindings {
    ghost use Rattle.audit_lanes.specs.Audit.{LaneFindings as LaneFindingsState};

    ghost Value = { LaneFindingsState };

    ghost view = { λ found. record { text = found.text.items; verdict = found.verdict } };
}

/// What is counted: of each pair whether a path record is of it, and the SLs and VLs.
#[derive(Drop)]
struct Counted {
    records: Vec<bool>,
    sls: Vec<u8>,
    vls: Vec<u8>,
}

fn count_all(
    alloc: Global,
    net: &Net<'_>,
    tables: &Tables<'_>,
    paths: &[PathSl],
    traces: &[Trace],
) -> Result<Counted, AllocError>
    ensures records { IfOk result (λ counted. counted.records.items ≡ records paths.now (owned net.now tables.now.aims)) }
    ensures sls { IfOk result (λ counted. counted.sls.items ≡ sls net.now tables.now.aims paths.now) }
    ensures vls { IfOk result (λ counted. counted.vls.items ≡ vls traces.now) }
{
    let all = owned(net, alloc, tables.aims())?;
    let records = records(alloc, paths, &all)?;
    let sls = sls(alloc, net, tables, paths)?;
    let vls = vls(alloc, traces)?;
    Ok(Counted { records, sls, vls })
}

#[tactic(auto, unfolding(crate::specs::Lines::counts_line))]
fn push_counts(
    text: &mut Vec<u8>,
    net: &Net<'_>,
    aims: &[Aim],
    paths: &[PathSl],
    traces: &[Trace],
    counted: &Counted,
) -> Result<(), AllocError>
    requires records { counted.now.records.items ≡ records paths.now (owned net.now aims.now) }
    requires sls { counted.now.sls.items ≡ sls net.now aims.now paths.now }
    requires vls { counted.now.vls.items ≡ vls traces.now }
    ensures { OnOk result (text.new.items ≡ text.old.items ++ counts_line net.now aims.now paths.now traces.now) }
{
    push_count(text, &counted.records, &counted.sls, &counted.vls)
}

/// The lines before that of the counts.
fn lines_before(
    alloc: Global,
    net: &Net<'_>,
    aims: &[Aim],
    paths: &[PathSl],
    traces: &[Trace],
    ring: &Option<Vec<Lane>>,
) -> Result<Vec<u8>, AllocError>
    ensures { IfOk result (λ text. text.items
        ≡ ring_line net.now (option_map (λ lanes. lanes.items) ring.now) ++ no_path_lines net.now aims.now paths.now ++ crossing_lines net.now traces.now) }
{
    let mut text = Vec::new(alloc);
    push_ring(net, &mut text, ring)?;
    push_no_path_lines(alloc, net, &mut text, aims, paths)?;
    push_crossing_lines(alloc, net, &mut text, traces)?;
    Ok(text)
}

#[tactic(auto, unfolding(crate::specs::Audit::lane_text))]
fn found_with(
    alloc: Global,
    net: &Net<'_>,
    tables: &Tables<'_>,
    paths: &[PathSl],
    all: &[Trace],
) -> Result<LaneFindings, AllocError>
    ensures { IfOk result (λ found. found ≡ found_with net.now tables.now.aims paths.now all.now) }
{
    let aims = tables.aims();
    let ring = lane_deadlock(net, alloc, aims, all)?;
    let counted = count_all(alloc, net, tables, paths, all)?;
    let mut text = lines_before(alloc, net, aims, paths, all, &ring)?;
    push_counts(&mut text, net, aims, paths, all, &counted)?;
    let verdict = lane_verdict(net, aims, paths, &counted.records, all, &ring);
    Ok(LaneFindings { text, verdict })
}

#[tactic(auto, unfolding(crate::specs::Audit::lane_findings))]
fn lane_findings(alloc: Global, net: &Net<'_>, lanes: &Lanes) -> Result<LaneFindings, AllocError>
    ensures { IfOk result (λ found. found ≡ lane_findings net.now lanes.now) }
{
    let aims = aims(net, alloc)?;
    let tables = Tables::new(alloc, &aims, lanes.rows())?;
    let all = traces(alloc, net, &tables, lanes.paths())?;
    found_with(alloc, net, &tables, lanes.paths(), &all)
}

#[tactic(auto, unfolding(crate::specs::Audit::closing_lines))]
fn push_closing(
    alloc: Global,
    text: &mut Vec<u8>,
    routes: Verdict,
    lanes: LaneVerdict,
) -> Result<(), AllocError>
    ensures { OnOk result (text.new.items ≡ text.old.items ++ closing_lines routes lanes) }
{
    push_comments(text, routes.is_free(), lanes.frees())?;
    push_verdict(alloc, text, routes, lanes)
}

fn with_lanes(alloc: Global, routes: Findings, lanes: &LaneFindings) -> Result<Audit, AllocError>
    ensures { IfOk result (λ found. found ≡ with_lanes routes lanes.now) }
{
    let Findings { mut text, verdict } = routes;
    text.extend_from_slice(lanes.text.as_slice())?;
    push_closing(alloc, &mut text, verdict, lanes.verdict)?;
    Ok(Audit::of(text, all_are_safe(verdict, lanes.verdict)))
}

#[tactic(auto, unfolding(crate::specs::Audit::audit_with))]
fn audit_with(alloc: Global, net: &Net<'_>, lanes: &Lanes, all: bool) -> Result<Audit, AllocError>
    ensures { IfOk result (λ found. found ≡ audit_with all net.now lanes.now) }
{
    let routes = findings(net, alloc, all)?;
    let found = lane_findings(alloc, net, lanes)?;
    with_lanes(alloc, routes, &found)
}

fn audited(
    alloc: Global,
    plan: &Plan,
    dump: &Dump,
    lanes: &Lanes,
    all: bool,
) -> Result<Audit, AllocError>
    ensures { IfOk result (λ found. found ≡ audit_with all (record { plan = plan.now; dump = dump.now }) lanes.now) }
{
    let net = Net::new(alloc, plan, dump)?;
    audit_with(alloc, &net, lanes, all)
}

/// Judges the LFTs that a dump shows over a topology, by the virtual lanes that SL-to-VL mapping tables and path records give their
/// packets. It can only run out of memory.
///
/// What is reported is stated in `specs/Audit.antt`: what an audit of the LFTs alone prints before its verdict (with `all`, each line
/// by switch and LID), then a cycle of lanes that wait for one another, what records and tables lack, counts, and the verdict by lanes. Packets of each record are followed once.
pub fn audit_lanes(
    alloc: Global,
    topology: &LargeTopology,
    dump: &Dump,
    lanes: &Lanes,
    all: bool,
) -> Result<Audit, AllocError>
    ensures { IfOk result (λ found. found ≡ audit_lanes all topology.now dump.now lanes.now) }
{
    let plan = Plan::of(alloc, topology)?;
    audited(alloc, &plan, dump, lanes, all)
}

/// The same over a discovery. It can only run out of memory.
pub fn audit_lanes_found(
    alloc: Global,
    found: &Discovery,
    dump: &Dump,
    lanes: &Lanes,
    all: bool,
) -> Result<Audit, AllocError>
    ensures { IfOk result (λ audit. audit ≡ audit_lanes_found all found.now dump.now lanes.now) }
{
    let plan = Plan::found(alloc, found)?;
    audited(alloc, &plan, dump, lanes, all)
}
