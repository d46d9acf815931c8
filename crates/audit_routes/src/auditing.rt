//! The audit of a dump over a topology or a discovery.

ghost use Rattle.std.specs.Prelude.{◌≡◌, ◌<◌, ◌++◌, length, flat_map, IfOk, OnOk, option_map};
ghost use Rattle.audit_routes.specs.Audit.{aggregation_line, audit, audit_discovery, audit_of, closing_word, closing_words, count_line, counts_by, deadlock_words, decides_nothing};
ghost use Rattle.audit_routes.specs.Audit.{findings_by, findings_of, lines_by, lost_part, other_part};
ghost use Rattle.audit_routes.specs.Audit.{port_word, reached_part, ring_line, ring_lines};

use crate::asks::push_asks;
use crate::deciding::{push_by_switch, push_unknown, push_unreached};
use crate::lines::{push_files, push_lid, push_port};
use crate::loops::{Loops, aims_of_others, closing, loops_of};
use crate::outcome::{Audit, Findings};
use crate::pairs::{Pair, between_hosts, count_of, in_transit, pairs, to_aggregation, to_switches};
use crate::verdict::{push_verdict, verdict_by};
use audit_net::{Aim, Fate, Net, aims};
use audit_plan::Plan;
use dump_file::Dump;
use fabric_parts::PortRef;
use netdiscover_file::Discovery;
use std::alloc::{AllocError, Global};
use text_words::push_decimal;
use topo_file::LargeTopology;

fn deadlock_words(locks: bool) -> &'static [u8]
    ensures { result.now ≡ deadlock_words locks }
{
    if locks {
        b", deadlock"
    } else {
        b", no deadlock"
    }
}

#[tactic(auto, unfolding(crate::specs::Audit::reached_part))]
fn push_reached(text: &mut Vec<u8>, pairs: &[Pair]) -> Result<(), AllocError>
    ensures { OnOk result (text.new.items ≡ text.old.items ++ reached_part pairs.now) }
{
    push_decimal(text, pairs.len())?;
    text.extend_from_slice(b" pairs, ")?;
    push_decimal(text, count_of(Fate::Reached, pairs))?;
    text.extend_from_slice(b" reached, ")
}

#[tactic(auto, unfolding(crate::specs::Audit::lost_part))]
fn push_lost(text: &mut Vec<u8>, pairs: &[Pair]) -> Result<(), AllocError>
    ensures { OnOk result (text.new.items ≡ text.old.items ++ lost_part pairs.now) }
{
    push_decimal(text, count_of(Fate::Hole, pairs))?;
    text.extend_from_slice(b" holes, ")?;
    push_decimal(text, count_of(Fate::Nowhere, pairs))?;
    text.extend_from_slice(b" nowhere, ")?;
    push_decimal(text, count_of(Fate::Wrong, pairs))?;
    text.extend_from_slice(b" wrong, ")
}

#[tactic(auto, unfolding(crate::specs::Audit::other_part))]
fn push_others(text: &mut Vec<u8>, pairs: &[Pair]) -> Result<(), AllocError>
    ensures { OnOk result (text.new.items ≡ text.old.items ++ other_part pairs.now) }
{
    push_decimal(text, count_of(Fate::Loop, pairs))?;
    text.extend_from_slice(b" loops, ")?;
    push_decimal(text, count_of(Fate::Unknown, pairs))?;
    text.extend_from_slice(b" unknown")
}

#[tactic(auto, unfolding(crate::specs::Audit::count_line))]
fn push_count_line(
    text: &mut Vec<u8>,
    title: &[u8],
    pairs: &[Pair],
    words: &[u8],
) -> Result<(), AllocError>
    ensures { OnOk result (text.new.items ≡ text.old.items ++ count_line title.now pairs.now words.now) }
{
    text.extend_from_slice(title)?;
    push_reached(text, pairs)?;
    push_lost(text, pairs)?;
    push_others(text, pairs)?;
    text.extend_from_slice(words)?;
    text.push(b'\n')?;
    Ok(())
}

#[tactic(auto, unfolding(crate::specs::Audit::aggregation_line))]
fn push_aggregation(text: &mut Vec<u8>, pairs: &[Pair]) -> Result<(), AllocError>
    ensures { OnOk result (text.new.items ≡ text.old.items ++ aggregation_line pairs.now) }
{
    if pairs.is_empty() {
        return Ok(());
    }
    push_count_line(text, b"aggregation: ", pairs, b"")
}

#[tactic(auto, unfolding(crate::specs::Audit::counts_by))]
fn push_counts(
    alloc: Global,
    text: &mut Vec<u8>,
    pairs: &[Pair],
    deciding: bool,
    further: bool,
) -> Result<(), AllocError>
    ensures { OnOk result (text.new.items ≡ text.old.items ++ counts_by pairs.now deciding further) }
{
    let between = between_hosts(alloc, pairs)?;
    push_count_line(text, b"adapters: ", &between, deadlock_words(deciding))?;
    let transit = in_transit(alloc, pairs)?;
    push_count_line(text, b"transit: ", &transit, b"")?;
    let reducing = to_aggregation(alloc, pairs)?;
    push_aggregation(text, &reducing)?;
    let own = to_switches(alloc, pairs)?;
    push_count_line(text, b"switches: ", &own, b"")?;
    push_count_line(text, b"audit: ", pairs, deadlock_words(deciding || further))
}

fn audited(alloc: Global, plan: &Plan, dump: &Dump, all: bool) -> Result<Audit, AllocError>
    ensures { IfOk result (λ found. found ≡ audit_of all (record { plan = plan.now; dump = dump.now })) }
{
    let net = Net::new(alloc, plan, dump)?;
    audited_net(&net, alloc, all)
}

fn push_port_word(net: &Net<'_>, text: &mut Vec<u8>, port: PortRef) -> Result<(), AllocError>
    ensures { OnOk result (text.new.items ≡ text.old.items ++ port_word net.now port) }
{
    text.extend_from_slice(b" ")?;
    push_port(net, text, port)
}

/// Adds ports, each behind a blank.
pub fn push_port_words(
    net: &Net<'_>,
    text: &mut Vec<u8>,
    ring: &[PortRef],
) -> Result<(), AllocError>
    ensures { OnOk result (text.new.items ≡ text.old.items ++ flat_map (port_word net.now) ring.now) }
{
    for port in ring {
        push_port_word(net, text, *port)?;
    }
    Ok(())
}

fn push_closing_word(
    net: &Net<'_>,
    text: &mut Vec<u8>,
    decides: bool,
    aims: &[Aim],
    ring: &[PortRef],
    index: usize,
) -> Result<(), AllocError>
    requires { index < length ring.now }
    ensures { OnOk result (text.new.items ≡ text.old.items ++ closing_word net.now decides aims.now ring.now index) }
{
    if let Some(aim) = closing(net, decides, aims, ring, index) {
        text.extend_from_slice(b" ")?;
        push_lid(net, text, aim.lid, aim.end)?;
    }
    Ok(())
}

fn push_closing_words(
    net: &Net<'_>,
    text: &mut Vec<u8>,
    decides: bool,
    aims: &[Aim],
    ring: &[PortRef],
) -> Result<(), AllocError>
    ensures { OnOk result (text.new.items ≡ text.old.items ++ closing_words net.now decides aims.now ring.now) }
{
    for index in 0..ring.len() {
        push_closing_word(net, text, decides, aims, ring, index)?;
    }
    Ok(())
}

fn push_ring_line(
    net: &Net<'_>,
    text: &mut Vec<u8>,
    words: &[u8],
    decides: bool,
    aims: &[Aim],
    ring: &Option<Vec<PortRef>>,
) -> Result<(), AllocError>
    ensures { OnOk result (text.new.items ≡ text.old.items ++ ring_line net.now words.now decides aims.now (option_map (λ ports. ports.items) ring.now)) }
{
    if let Some(ports) = ring {
        text.extend_from_slice(words)?;
        push_port_words(net, text, ports.as_slice())?;
        text.extend_from_slice(b" by LIDs")?;
        push_closing_words(net, text, decides, aims, ports.as_slice())?;
        text.push(b'\n')?;
    }
    Ok(())
}

#[tactic(auto, unfolding(crate::specs::Audit::ring_lines))]
fn push_ring_lines(
    net: &Net<'_>,
    alloc: Global,
    text: &mut Vec<u8>,
    aims: &[Aim],
    loops: &Loops,
) -> Result<(), AllocError>
    ensures { OnOk result (text.new.items ≡ text.old.items ++ ring_lines net.now aims.now loops.now) }
{
    let some = aims_of_others(net, alloc, aims)?;
    push_ring_line(net, text, b"deadlock", true, &some, loops.deciding())?;
    let words = b"deadlock aggregation-lids";
    push_ring_line(net, text, words, false, &some, loops.aggregation())?;
    push_ring_line(
        net,
        text,
        b"deadlock switch-lids",
        false,
        aims,
        loops.switches(),
    )
}

#[tactic(auto, unfolding(crate::specs::Audit::lines_by))]
fn push_lines(
    net: &Net<'_>,
    alloc: Global,
    text: &mut Vec<u8>,
    aims: &[Aim],
    loops: &Loops,
) -> Result<(), AllocError>
    ensures { OnOk result (text.new.items ≡ text.old.items ++ lines_by net.now aims.now loops.now) }
{
    push_files(net, text, aims)?;
    push_unreached(net, alloc, text, aims)?;
    push_unknown(net, alloc, text, aims)?;
    push_asks(net, text, aims)?;
    push_ring_lines(net, alloc, text, aims, loops)
}

/// Whether a cycle was found that decides nothing.
fn decides_nothing(loops: &Loops) -> bool
    ensures { result ≡ decides_nothing loops.now }
{
    loops.aggregation().is_some() || loops.switches().is_some()
}

/// What is printed before the verdict, and what that rests on, by the cycles that were found.
#[tactic(auto, unfolding(crate::specs::Audit::body_by))]
fn findings_by(
    net: &Net<'_>,
    alloc: Global,
    aims: &[Aim],
    loops: &Loops,
    all: bool,
) -> Result<Findings, AllocError>
    ensures { IfOk result (λ found. found ≡ findings_by all net.now aims.now loops.now) }
{
    let mut text = Vec::new(alloc);
    push_lines(net, alloc, &mut text, aims, loops)?;
    push_by_switch(net, alloc, &mut text, aims, all)?;
    let pairs = pairs(net, alloc, aims)?;
    let deciding = loops.deciding().is_some();
    push_counts(alloc, &mut text, &pairs, deciding, decides_nothing(loops))?;
    let verdict = verdict_by(net, alloc, aims, &pairs, loops.deciding())?;
    Ok(Findings { text, verdict })
}

/// What is printed before the verdict, with all lines by switch and LID or with their number, and what the verdict rests on. It can
/// only run out of memory.
#[tactic(auto, unfolding(crate::specs::Audit::findings_of))]
pub fn findings(net: &Net<'_>, alloc: Global, all: bool) -> Result<Findings, AllocError>
    ensures { IfOk result (λ found. found ≡ findings_of all net.now) }
{
    let aims = aims(net, alloc)?;
    let loops = loops_of(net, alloc, &aims)?;
    let found = findings_by(net, alloc, &aims, &loops, all)?;
    Ok(found)
}

#[tactic(auto, unfolding(crate::specs::Audit::audit_of, crate::specs::Audit::findings_of, crate::specs::Audit::text_by))]
fn audited_net(net: &Net<'_>, alloc: Global, all: bool) -> Result<Audit, AllocError>
    ensures { IfOk result (λ found. found ≡ audit_of all net.now) }
{
    let Findings { mut text, verdict } = findings(net, alloc, all)?;
    push_verdict(alloc, &mut text, verdict)?;
    Ok(Audit::of(text, verdict.is_safe()))
}

/// Judges the routes that a dump shows over a topology. It can only run out of memory.
///
/// What is reported is stated in `specs/Audit.antt`: first what the two lack of one another, then the LIDs that hosts' packets
/// do not come to and those with unknown entries, and a cycle of channels that wait for one another. With `all`, what is wrong at
/// each switch with each LID comes next, else how many lines that is; then counts, and the verdict. Time is that of following
/// each LID from each switch, and of looking for cycles among the channels that are on one or lead to one.
pub fn audit(
    alloc: Global,
    topology: &LargeTopology,
    dump: &Dump,
    all: bool,
) -> Result<Audit, AllocError>
    ensures { IfOk result (λ found. found ≡ audit all topology.now dump.now) }
{
    let plan = Plan::of(alloc, topology)?;
    audited(alloc, &plan, dump, all)
}

/// The same over a discovery, which is no fabric to be simulated: no limit applies but those of its text. Routers are end ports
/// there, as channel adapters are, and a name is the description of a node. It can only run out of memory.
pub fn audit_discovery(
    alloc: Global,
    found: &Discovery,
    dump: &Dump,
    all: bool,
) -> Result<Audit, AllocError>
    ensures { IfOk result (λ audit. audit ≡ audit_discovery all found.now dump.now) }
{
    let plan = Plan::found(alloc, found)?;
    audited(alloc, &plan, dump, all)
}
