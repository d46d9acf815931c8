//! The lines on virtual lanes.

ghost use Rattle.std.specs.Prelude.{◌≡◌, ◌++◌, ◌<◌, IfOk, OnOk, count_by, flat_map, option_map};
ghost use Rattle.std.specs.List.{range_with_len};
ghost use Rattle.audit_lanes.specs.Lines.{count_line, crossing_lines, crossing_text, crossings, crossings_at, crossings_by, dropped_line, dropped_lines, dropped_text};
ghost use Rattle.audit_lanes.specs.Lines.{freed_line, judged_line, lane_word, more_words, no_path_by, no_path_line, no_path_lines, no_path_text, no_row_line, no_row_text};
ghost use Rattle.audit_lanes.specs.Lines.{number_word, number_words, numbers_words, owned_text, pairs_words, recorded_words, ring_line, ring_text};

use crate::hop::{Crossing, DroppedAt, Trace};
use crate::lane::Lane;
use crate::owned::{OwnedLid, known_records, owned};
use crate::records::lacking_from;
use crate::troubles::Troubles;
use audit_net::{Aim, Net};
use audit_plan::ports_at;
use audit_routes::{push_lid, push_name, push_port};
use sl2vl_file::PathSl;
use std::alloc::{AllocError, Global};
use text_words::push_decimal;

#[tactic(auto, unfolding(crate::specs::Lines::lane_word))]
fn push_lane(net: &Net<'_>, text: &mut Vec<u8>, lane: Lane) -> Result<(), AllocError>
    ensures { OnOk result (text.new.items ≡ text.old.items ++ lane_word net.now lane) }
{
    text.extend_from_slice(b" ")?;
    push_port(net, text, lane.at)?;
    text.extend_from_slice(b" VL ")?;
    push_decimal(text, usize::from(lane.vl))
}

fn push_lanes(net: &Net<'_>, text: &mut Vec<u8>, ring: &[Lane]) -> Result<(), AllocError>
    ensures { OnOk result (text.new.items ≡ text.old.items ++ flat_map (lane_word net.now) ring.now) }
{
    for lane in ring {
        push_lane(net, text, *lane)?;
    }
    Ok(())
}

#[tactic(auto, unfolding(crate::specs::Lines::ring_text))]
fn push_ring_text(net: &Net<'_>, text: &mut Vec<u8>, ring: &[Lane]) -> Result<(), AllocError>
    ensures { OnOk result (text.new.items ≡ text.old.items ++ ring_text net.now ring.now) }
{
    text.extend_from_slice(b"lanes deadlock")?;
    push_lanes(net, text, ring)?;
    text.push(b'\n')?;
    Ok(())
}

/// Adds the cycle of lanes that was found.
pub(crate) fn push_ring(
    net: &Net<'_>,
    text: &mut Vec<u8>,
    ring: &Option<Vec<Lane>>,
) -> Result<(), AllocError>
    ensures { OnOk result (text.new.items ≡ text.old.items ++ ring_line net.now (option_map (λ lanes. lanes.items) ring.now)) }
{
    match ring {
        Some(lanes) => push_ring_text(net, text, lanes.as_slice()),
        None => Ok(()),
    }
}

fn push_owned(net: &Net<'_>, text: &mut Vec<u8>, one: OwnedLid) -> Result<(), AllocError>
    ensures { OnOk result (text.new.items ≡ text.old.items ++ owned_text net.now one) }
{
    push_lid(net, text, one.lid, Some(one.end))
}

#[tactic(auto, unfolding(crate::specs::Lines::more_words))]
fn push_more(text: &mut Vec<u8>, count: usize) -> Result<(), AllocError>
    ensures { OnOk result (text.new.items ≡ text.old.items ++ more_words count) }
{
    if count == 0 {
        return Ok(());
    }
    text.extend_from_slice(b" and ")?;
    push_decimal(text, count)?;
    text.extend_from_slice(b" more")
}

#[tactic(auto, unfolding(crate::specs::Lines::no_path_text))]
fn push_no_path_text(
    net: &Net<'_>,
    text: &mut Vec<u8>,
    source: OwnedLid,
    first: OwnedLid,
    more: usize,
) -> Result<(), AllocError>
    ensures { OnOk result (text.new.items ≡ text.old.items ++ no_path_text net.now source first more) }
{
    text.extend_from_slice(b"lanes no-path ")?;
    push_owned(net, text, source)?;
    text.extend_from_slice(b" ")?;
    push_owned(net, text, first)?;
    push_more(text, more)?;
    text.push(b'\n')?;
    Ok(())
}

fn push_no_path_by(
    net: &Net<'_>,
    text: &mut Vec<u8>,
    source: OwnedLid,
    lacking: &[OwnedLid],
) -> Result<(), AllocError>
    ensures { OnOk result (text.new.items ≡ text.old.items ++ no_path_by net.now source lacking.now) }
{
    match lacking {
        [first, rest @ ..] => push_no_path_text(net, text, source, *first, rest.len()),
        [] => Ok(()),
    }
}

fn push_no_paths(
    alloc: Global,
    net: &Net<'_>,
    text: &mut Vec<u8>,
    paths: &[PathSl],
    all: &[OwnedLid],
) -> Result<(), AllocError>
    ensures { OnOk result (text.new.items ≡ text.old.items ++ flat_map (no_path_line net.now paths.now all.now) all.now) }
{
    let known = known_records(alloc, paths)?;
    for source in all {
        let lacking = lacking_from(alloc, &known, paths, all, source)?;
        push_no_path_by(net, text, *source, &lacking)?;
    }
    Ok(())
}

/// Adds a line for each source of which some pair has no path record.
#[tactic(auto, unfolding(crate::specs::Lines::no_path_lines))]
pub(crate) fn push_no_path_lines(
    alloc: Global,
    net: &Net<'_>,
    text: &mut Vec<u8>,
    aims: &[Aim],
    paths: &[PathSl],
) -> Result<(), AllocError>
    ensures { OnOk result (text.new.items ≡ text.old.items ++ no_path_lines net.now aims.now paths.now) }
{
    let all = owned(net, alloc, aims)?;
    push_no_paths(alloc, net, text, paths, &all)
}

fn push_crossings_by(
    net: &Net<'_>,
    crossings: &mut Vec<Crossing>,
    place: usize,
    input: u8,
) -> Result<(), AllocError>
    requires { input < 255 }
    ensures { OnOk result (crossings.new.items ≡ crossings.old.items ++ crossings_by net.now place input) }
{
    for before in 0..ports_at(net.plan().nodes(), place) {
        crossings.push(Crossing {
            place,
            input: input + 1,
            output: before + 1,
        })?;
    }
    Ok(())
}

fn push_crossings_at(
    net: &Net<'_>,
    crossings: &mut Vec<Crossing>,
    place: usize,
) -> Result<(), AllocError>
    ensures { OnOk result (crossings.new.items ≡ crossings.old.items ++ crossings_at net.now place) }
{
    for input in 0..ports_at(net.plan().nodes(), place) {
        push_crossings_by(net, crossings, place, input)?;
    }
    Ok(())
}

/// Each two ports of each switch.
fn crossings(net: &Net<'_>, alloc: Global) -> Result<Vec<Crossing>, AllocError>
    ensures { IfOk result (λ all. all.items ≡ crossings net.now) }
{
    let mut crossings = Vec::new(alloc);
    for place in net.switches() {
        push_crossings_at(net, &mut crossings, *place)?;
    }
    Ok(crossings)
}

#[tactic(auto, unfolding(crate::specs::Lines::crossing_text))]
fn push_crossing(net: &Net<'_>, text: &mut Vec<u8>, here: Crossing) -> Result<(), AllocError>
    ensures { OnOk result (text.new.items ≡ text.old.items ++ crossing_text net.now here) }
{
    push_name(net, text, here.place)?;
    text.extend_from_slice(b" in ")?;
    push_decimal(text, usize::from(here.input))?;
    text.extend_from_slice(b" out ")?;
    push_decimal(text, usize::from(here.output))
}

#[tactic(auto, unfolding(crate::specs::Lines::no_row_text))]
fn push_no_row_text(net: &Net<'_>, text: &mut Vec<u8>, here: Crossing) -> Result<(), AllocError>
    ensures { OnOk result (text.new.items ≡ text.old.items ++ no_row_text net.now here) }
{
    text.extend_from_slice(b"lanes no-row ")?;
    push_crossing(net, text, here)?;
    text.push(b'\n')?;
    Ok(())
}

fn push_no_row(
    net: &Net<'_>,
    text: &mut Vec<u8>,
    troubles: &Troubles<'_>,
    here: Crossing,
) -> Result<(), AllocError>
    ensures { OnOk result (text.new.items ≡ text.old.items ++ no_row_line net.now troubles.now here) }
{
    if troubles.lack_row(here) {
        return push_no_row_text(net, text, here);
    }
    Ok(())
}

fn push_no_rows(
    net: &Net<'_>,
    text: &mut Vec<u8>,
    troubles: &Troubles<'_>,
    crossings: &[Crossing],
) -> Result<(), AllocError>
    ensures { OnOk result (text.new.items ≡ text.old.items ++ flat_map (no_row_line net.now troubles.now) crossings.now) }
{
    for here in crossings {
        push_no_row(net, text, troubles, *here)?;
    }
    Ok(())
}

#[tactic(auto, unfolding(crate::specs::Lines::dropped_text))]
fn push_dropped_text(
    net: &Net<'_>,
    text: &mut Vec<u8>,
    here: Crossing,
    sl: u8,
) -> Result<(), AllocError>
    ensures { OnOk result (text.new.items ≡ text.old.items ++ dropped_text net.now here sl) }
{
    text.extend_from_slice(b"lanes dropped ")?;
    push_crossing(net, text, here)?;
    text.extend_from_slice(b" SL ")?;
    push_decimal(text, usize::from(sl))?;
    text.push(b'\n')?;
    Ok(())
}

fn push_dropped(
    net: &Net<'_>,
    text: &mut Vec<u8>,
    troubles: &Troubles<'_>,
    one: DroppedAt,
) -> Result<(), AllocError>
    ensures { OnOk result (text.new.items ≡ text.old.items ++ dropped_line net.now troubles.now one.crossing one.sl) }
{
    if troubles.drop_sl(one) {
        return push_dropped_text(net, text, one.crossing, one.sl);
    }
    Ok(())
}

fn push_dropped_sls(
    net: &Net<'_>,
    text: &mut Vec<u8>,
    troubles: &Troubles<'_>,
    here: Crossing,
) -> Result<(), AllocError>
    ensures { OnOk result (text.new.items ≡ text.old.items ++ flat_map (dropped_line net.now troubles.now here) (range_with_len 0 16)) }
{
    for sl in 0..16u8 {
        let one = DroppedAt { crossing: here, sl };
        push_dropped(net, text, troubles, one)?;
    }
    Ok(())
}

#[tactic(auto, unfolding(crate::specs::Lines::dropped_lines))]
fn push_dropped_at(
    net: &Net<'_>,
    text: &mut Vec<u8>,
    troubles: &Troubles<'_>,
    here: Crossing,
) -> Result<(), AllocError>
    ensures { OnOk result (text.new.items ≡ text.old.items ++ dropped_lines net.now troubles.now here) }
{
    if troubles.drop_some(here) {
        return push_dropped_sls(net, text, troubles, here);
    }
    Ok(())
}

fn push_all_dropped(
    net: &Net<'_>,
    text: &mut Vec<u8>,
    troubles: &Troubles<'_>,
    crossings: &[Crossing],
) -> Result<(), AllocError>
    ensures { OnOk result (text.new.items ≡ text.old.items ++ flat_map (dropped_lines net.now troubles.now) crossings.now) }
{
    for here in crossings {
        push_dropped_at(net, text, troubles, *here)?;
    }
    Ok(())
}

/// Adds a line for each two ports of a switch of which a row is lacking, and for those between which packets are dropped.
#[tactic(auto, unfolding(crate::specs::Lines::crossing_lines))]
pub(crate) fn push_crossing_lines(
    alloc: Global,
    net: &Net<'_>,
    text: &mut Vec<u8>,
    traces: &[Trace],
) -> Result<(), AllocError>
    ensures { OnOk result (text.new.items ≡ text.old.items ++ crossing_lines net.now traces.now) }
{
    let crossings = crossings(net, alloc)?;
    let troubles = Troubles::of(alloc, traces)?;
    push_no_rows(net, text, &troubles, &crossings)?;
    push_all_dropped(net, text, &troubles, &crossings)
}

fn push_number(text: &mut Vec<u8>, number: u8) -> Result<(), AllocError>
    ensures { OnOk result (text.new.items ≡ text.old.items ++ number_word number) }
{
    text.extend_from_slice(b" ")?;
    push_decimal(text, usize::from(number))
}

fn push_each(text: &mut Vec<u8>, numbers: &[u8]) -> Result<(), AllocError>
    ensures { OnOk result (text.new.items ≡ text.old.items ++ flat_map number_word numbers.now) }
{
    for number in numbers {
        push_number(text, *number)?;
    }
    Ok(())
}

fn push_numbers(text: &mut Vec<u8>, numbers: &[u8]) -> Result<(), AllocError>
    ensures { OnOk result (text.new.items ≡ text.old.items ++ number_words numbers.now) }
{
    if numbers.is_empty() {
        return text.extend_from_slice(b" none");
    }
    push_each(text, numbers)
}

fn count_of(all: &[bool]) -> usize
    ensures { result ≡ count_by (λ is. is) all.now }
{
    all.iter().filter(|is| **is).count()
}

#[tactic(auto, unfolding(crate::specs::Lines::pairs_words))]
fn push_pairs(text: &mut Vec<u8>, all: &[bool]) -> Result<(), AllocError>
    ensures { OnOk result (text.new.items ≡ text.old.items ++ pairs_words all.now) }
{
    text.extend_from_slice(b"lanes: ")?;
    push_decimal(text, all.len())?;
    text.extend_from_slice(b" pairs, ")
}

#[tactic(auto, unfolding(crate::specs::Lines::recorded_words))]
fn push_recorded(text: &mut Vec<u8>, all: &[bool]) -> Result<(), AllocError>
    ensures { OnOk result (text.new.items ≡ text.old.items ++ recorded_words all.now) }
{
    push_decimal(text, count_of(all))?;
    text.extend_from_slice(b" with a path record")
}

#[tactic(auto, unfolding(crate::specs::Lines::numbers_words))]
fn push_all_numbers(text: &mut Vec<u8>, sls: &[u8], vls: &[u8]) -> Result<(), AllocError>
    ensures { OnOk result (text.new.items ≡ text.old.items ++ numbers_words sls.now vls.now) }
{
    text.extend_from_slice(b", SLs")?;
    push_numbers(text, sls)?;
    text.extend_from_slice(b", VLs")?;
    push_numbers(text, vls)?;
    text.push(b'\n')?;
    Ok(())
}

/// Adds how many pairs there are, and which SLs and VLs their packets use.
#[tactic(auto, unfolding(crate::specs::Lines::count_line))]
pub(crate) fn push_count(
    text: &mut Vec<u8>,
    all: &[bool],
    sls: &[u8],
    vls: &[u8],
) -> Result<(), AllocError>
    ensures { OnOk result (text.new.items ≡ text.old.items ++ count_line all.now sls.now vls.now) }
{
    push_pairs(text, all)?;
    push_recorded(text, all)?;
    push_all_numbers(text, sls, vls)
}

fn push_freed(text: &mut Vec<u8>, by_entries: bool, by_lanes: bool) -> Result<(), AllocError>
    ensures { OnOk result (text.new.items ≡ text.old.items ++ freed_line by_entries by_lanes) }
{
    if !by_entries && by_lanes {
        return text.extend_from_slice(
            b"# lanes: by virtual lanes the deadlock above does not happen\n",
        );
    }
    Ok(())
}

#[tactic(auto, unfolding(crate::specs::Lines::judged_line))]
fn push_judged(text: &mut Vec<u8>) -> Result<(), AllocError>
    ensures { OnOk result (text.new.items ≡ text.old.items ++ judged_line) }
{
    text.extend_from_slice(
        b"# lanes: packets of a path record use its SL; other packets are not judged\n",
    )
}

/// Adds the comments before the verdict.
pub(crate) fn push_comments(
    text: &mut Vec<u8>,
    by_entries: bool,
    by_lanes: bool,
) -> Result<(), AllocError>
    ensures { OnOk result (text.new.items ≡ text.old.items ++ freed_line by_entries by_lanes ++ judged_line) }
{
    push_freed(text, by_entries, by_lanes)?;
    push_judged(text)
}
