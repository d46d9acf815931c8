//! What is printed.

ghost use Rattle.std.specs.Prelude.{◌≡◌, ◌++◌, ◌<◌, ◌/◌, flat_map, length, IfOk, OnOk};
ghost use Rattle.std.specs.List.{fold};
ghost use Rattle.audit_plan.specs.Plan.{PlanState};
ghost use Rattle.audit_plan.specs.Levels.{levels_of};
ghost use Rattle.audit_loads.specs.Loads.{greater, least_of, lesser, loads, mean_of, most_of, ratio_of, total_of};
ghost use Rattle.audit_loads.specs.Text.{level_line, level_means, level_text, level_words, levels_text, way_word};
ghost use Rattle.audit_loads.specs.Counts.{counts_of};
ghost use Rattle.audit_loads.specs.Sources.{pairs_by};
ghost use Rattle.audit_loads.specs.Talk.{may_talk};
ghost use Rattle.audit_loads.specs.Text.{end_text, hundredths, least_line, load_line, load_of_plan, load_text, load_text_found, load_text_of, loads_of, loads_of_plan, mean_line, most_line, pairs_line, summary, text_by, text_of};

use crate::counting::Counts;
use crate::levels::{Way, of_level};
use crate::loaded::Loaded;
use crate::loads::loads;
use crate::order::ordered;
use crate::sources::entrances;
use crate::talk::Talk;
use audit_net::{Aim, Net, aims};
use audit_plan::{LEVELS, Plan, levels_of};
use audit_routes::push_port;
use dump_file::Dump;
use fabric_parts::PortRef;
use netdiscover_file::Discovery;
use std::alloc::{AllocError, Global};
use text_words::push_decimal;
use topo_file::LargeTopology;

fn push_end(net: &Net<'_>, text: &mut Vec<u8>, end: Option<PortRef>) -> Result<(), AllocError>
    ensures { OnOk result (text.new.items ≡ text.old.items ++ end_text net.now end) }
{
    match end {
        Some(at) => push_port(net, text, at),
        None => Ok(()),
    }
}

#[tactic(auto, unfolding(crate::specs::Text::load_line))]
fn push_load(net: &Net<'_>, text: &mut Vec<u8>, one: Loaded) -> Result<(), AllocError>
    ensures { OnOk result (text.new.items ≡ text.old.items ++ load_line net.now one) }
{
    text.extend_from_slice(b"load ")?;
    push_port(net, text, one.at)?;
    text.extend_from_slice(b" ")?;
    push_end(net, text, net.links().far_end(one.at))?;
    text.extend_from_slice(b" ")?;
    push_decimal(text, one.load)?;
    text.push(b'\n')?;
    Ok(())
}

fn push_loads(net: &Net<'_>, text: &mut Vec<u8>, all: &[Loaded]) -> Result<(), AllocError>
    ensures { OnOk result (text.new.items ≡ text.old.items ++ flat_map (load_line net.now) all.now) }
{
    for one in all {
        push_load(net, text, *one)?;
    }
    Ok(())
}

fn greater(most: usize, one: &Loaded) -> usize
    ensures { result ≡ greater most one.now }
{
    let one = *one;
    if most < one.load { one.load } else { most }
}

fn lesser(least: usize, one: &Loaded) -> usize
    ensures { result ≡ lesser least one.now }
{
    let one = *one;
    if one.load < least { one.load } else { least }
}

fn most_of(all: &[Loaded]) -> usize
    ensures { result ≡ most_of all.now }
{
    all.iter().fold(0, |most, one| greater(most, one))
}

fn least_of(all: &[Loaded]) -> usize
    ensures { result ≡ least_of all.now }
{
    all.iter()
        .fold(most_of(all), |least, one| lesser(least, one))
}

/// The sum of the loads. One that is too great is refused as if memory ran out.
fn total_of(all: &[Loaded]) -> Result<u128, AllocError>
    ensures { IfOk result (λ total. total ≡ total_of all.now) }
{
    let mut total = 0u128;
    for one in all {
        let Some(more) = total.checked_add(one.load as u128) else {
            return Err(AllocError);
        };
        total = more;
    }
    Ok(total)
}

fn mean_of(all: &[Loaded]) -> Result<usize, AllocError>
    requires { 0 < length all.now }
    ensures { IfOk result (λ mean. mean ≡ mean_of all.now) }
{
    let Some(hundredfold) = total_of(all)?.checked_mul(100) else {
        return Err(AllocError);
    };
    usize::try_from(hundredfold / all.len() as u128).map_err(|_| AllocError)
}

#[tactic(auto, unfolding(crate::specs::Text::most_line))]
fn push_most(text: &mut Vec<u8>, all: &[Loaded]) -> Result<(), AllocError>
    ensures { OnOk result (text.new.items ≡ text.old.items ++ most_line all.now) }
{
    text.extend_from_slice(b"most ")?;
    push_decimal(text, most_of(all))?;
    text.push(b'\n')?;
    Ok(())
}

#[tactic(auto, unfolding(crate::specs::Text::least_line))]
fn push_least(text: &mut Vec<u8>, all: &[Loaded]) -> Result<(), AllocError>
    ensures { OnOk result (text.new.items ≡ text.old.items ++ least_line all.now) }
{
    text.extend_from_slice(b"least ")?;
    push_decimal(text, least_of(all))?;
    text.push(b'\n')?;
    Ok(())
}

/// How many times the mean the greatest load is, in hundredths.
fn ratio_of(all: &[Loaded]) -> Result<usize, AllocError>
    ensures { IfOk result (λ ratio. ratio ≡ ratio_of all.now) }
{
    let total = total_of(all)?;
    if total == 0 {
        return Ok(0);
    }
    let Some(product) = (most_of(all) as u128).checked_mul(all.len() as u128) else {
        return Err(AllocError);
    };
    let Some(hundredfold) = product.checked_mul(100) else {
        return Err(AllocError);
    };
    usize::try_from(hundredfold / total).map_err(|_| AllocError)
}

fn push_hundredths(text: &mut Vec<u8>, number: usize) -> Result<(), AllocError>
    ensures { OnOk result (text.new.items ≡ text.old.items ++ hundredths number) }
{
    push_decimal(text, number / 100)?;
    text.extend_from_slice(b".")?;
    push_decimal(text, number % 100 / 10)?;
    push_decimal(text, number % 10)
}

#[tactic(auto, unfolding(crate::specs::Text::mean_line))]
fn push_mean(text: &mut Vec<u8>, all: &[Loaded]) -> Result<(), AllocError>
    requires { 0 < length all.now }
    ensures { OnOk result (text.new.items ≡ text.old.items ++ mean_line all.now) }
{
    text.extend_from_slice(b"mean ")?;
    push_hundredths(text, mean_of(all)?)?;
    text.push(b'\n')?;
    Ok(())
}

fn push_summary(text: &mut Vec<u8>, all: &[Loaded]) -> Result<(), AllocError>
    ensures { OnOk result (text.new.items ≡ text.old.items ++ summary all.now) }
{
    if all.is_empty() {
        return Ok(());
    }
    push_most(text, all)?;
    push_least(text, all)?;
    push_mean(text, all)
}

fn way_word(way: Way) -> &'static [u8]
    ensures { result.now ≡ way_word way }
{
    match way {
        Way::Up => b" up",
        Way::Across => b" across",
        Way::Down => b" down",
    }
}

#[tactic(auto, unfolding(crate::specs::Text::level_words))]
fn push_level_words(
    text: &mut Vec<u8>,
    level: usize,
    way: Way,
    all: &[Loaded],
) -> Result<(), AllocError>
    ensures { OnOk result (text.new.items ≡ text.old.items ++ level_words level way all.now) }
{
    text.extend_from_slice(b"level ")?;
    push_decimal(text, level)?;
    text.extend_from_slice(way_word(way))?;
    text.extend_from_slice(b" most ")?;
    push_decimal(text, most_of(all))
}

#[tactic(auto, unfolding(crate::specs::Text::level_means))]
fn push_level_means(text: &mut Vec<u8>, all: &[Loaded]) -> Result<(), AllocError>
    requires { 0 < length all.now }
    ensures { OnOk result (text.new.items ≡ text.old.items ++ level_means all.now) }
{
    text.extend_from_slice(b" mean ")?;
    push_hundredths(text, mean_of(all)?)?;
    text.extend_from_slice(b" ratio ")?;
    push_hundredths(text, ratio_of(all)?)?;
    text.push(b'\n')?;
    Ok(())
}

#[tactic(auto, unfolding(crate::specs::Text::level_line))]
fn push_level(text: &mut Vec<u8>, level: usize, way: Way, all: &[Loaded]) -> Result<(), AllocError>
    ensures { OnOk result (text.new.items ≡ text.old.items ++ level_line level way all.now) }
{
    if all.is_empty() {
        return Ok(());
    }
    push_level_words(text, level, way, all)?;
    push_level_means(text, all)
}

#[tactic(auto, unfolding(crate::specs::Text::level_text))]
fn push_level_of(
    net: &Net<'_>,
    alloc: Global,
    text: &mut Vec<u8>,
    levels: &[usize],
    all: &[Loaded],
    level: usize,
) -> Result<(), AllocError>
    requires { levels.now ≡ levels_of net.now.plan }
    ensures { OnOk result (text.new.items ≡ text.old.items ++ level_text net.now all.now level) }
{
    let up = of_level(net, alloc, levels, all, level, Way::Up)?;
    push_level(text, level, Way::Up, &up)?;
    let across = of_level(net, alloc, levels, all, level, Way::Across)?;
    push_level(text, level, Way::Across, &across)?;
    let down = of_level(net, alloc, levels, all, level, Way::Down)?;
    push_level(text, level, Way::Down, &down)
}

fn push_levels(
    net: &Net<'_>,
    alloc: Global,
    text: &mut Vec<u8>,
    all: &[Loaded],
) -> Result<(), AllocError>
    ensures { OnOk result (text.new.items ≡ text.old.items ++ levels_text net.now all.now) }
{
    let levels = levels_of(net.links(), alloc)?;
    for level in 0..LEVELS {
        push_level_of(net, alloc, text, &levels, all, level)?;
    }
    Ok(())
}

#[tactic(auto, unfolding(crate::specs::Text::pairs_line))]
fn push_pairs(text: &mut Vec<u8>, counts: Counts) -> Result<(), AllocError>
    ensures { OnOk result (text.new.items ≡ text.old.items ++ pairs_line counts) }
{
    text.extend_from_slice(b"pairs ")?;
    push_decimal(text, counts.pairs)?;
    text.extend_from_slice(b", lost ")?;
    push_decimal(text, counts.lost)?;
    text.extend_from_slice(b", unknown ")?;
    push_decimal(text, counts.unknown)?;
    text.push(b'\n')?;
    Ok(())
}

#[tactic(auto, unfolding(crate::specs::Text::text_of))]
fn text_of(
    net: &Net<'_>,
    alloc: Global,
    loads: Vec<Loaded>,
    counts: Counts,
) -> Result<Vec<u8>, AllocError>
    ensures { IfOk result (λ text. text.items ≡ text_of net.now loads.items counts) }
{
    let mut rest = Vec::new(alloc);
    push_summary(&mut rest, &loads)?;
    push_levels(net, alloc, &mut rest, &loads)?;
    push_pairs(&mut rest, counts)?;
    let lines = ordered(loads)?;
    let mut text = Vec::new(alloc);
    push_loads(net, &mut text, &lines)?;
    text.extend_from_slice(&rest)?;
    Ok(text)
}

#[tactic(auto, unfolding(crate::specs::Text::text_by))]
fn text_by(net: &Net<'_>, alloc: Global, talk: &Talk, aims: &[Aim]) -> Result<Vec<u8>, AllocError>
    ensures { IfOk result (λ text. text.items ≡ text_by net.now (pairs_by net.now (may_talk talk.now) aims.now)) }
{
    let entrances = entrances(net, alloc)?;
    let (loads, counts) = loads(net, alloc, &entrances, talk, aims)?;
    let text = text_of(net, alloc, loads, counts)?;
    Ok(text)
}

#[tactic(auto, unfolding(crate::specs::Text::load_text_of))]
fn load_text_of(net: &Net<'_>, alloc: Global, talk: &Talk) -> Result<Vec<u8>, AllocError>
    ensures { IfOk result (λ text. text.items ≡ load_text_of net.now (may_talk talk.now)) }
{
    let aims = aims(net, alloc)?;
    let text = text_by(net, alloc, talk, &aims)?;
    Ok(text)
}

/// How many pairs go over each direction of a cable between two switches, by the LFTs that a dump shows. A pair is a host's port that
/// sends, and a LID of another host's port to which it does. It can only run out of memory; a number of 2^64 pairs or more is refused
/// as if it did.
pub fn load_of_plan(
    alloc: Global,
    plan: &Plan,
    dump: &Dump,
    talk: &Talk,
) -> Result<Vec<u8>, AllocError>
    ensures { IfOk result (λ text. text.items ≡ load_of_plan plan.now dump.now (may_talk talk.now)) }
{
    let net = Net::new(alloc, plan, dump)?;
    let text = load_text_of(&net, alloc, talk)?;
    Ok(text)
}

#[tactic(auto, unfolding(crate::specs::Text::loads_of))]
fn loads_of(net: &Net<'_>, alloc: Global, talk: &Talk) -> Result<Vec<Loaded>, AllocError>
    ensures { IfOk result (λ found. found.items ≡ loads_of net.now (may_talk talk.now)) }
{
    let aims = aims(net, alloc)?;
    let entrances = entrances(net, alloc)?;
    let (found, _) = loads(net, alloc, &entrances, talk, &aims)?;
    Ok(found)
}

/// The loads that [`load_of_plan`] prints: the channels in the order of switches and then of ports, and how many pairs go over each.
pub fn loads_of_plan(
    alloc: Global,
    plan: &Plan,
    dump: &Dump,
    talk: &Talk,
) -> Result<Vec<Loaded>, AllocError>
    ensures { IfOk result (λ found. found.items ≡ loads_of_plan plan.now dump.now (may_talk talk.now)) }
{
    let net = Net::new(alloc, plan, dump)?;
    let found = loads_of(&net, alloc, talk)?;
    Ok(found)
}

/// What [`load_of_plan`] prints over a topology, for all pairs.
pub fn load_text(
    alloc: Global,
    topology: &LargeTopology,
    dump: &Dump,
) -> Result<Vec<u8>, AllocError>
    ensures { IfOk result (λ text. text.items ≡ load_text topology.now dump.now) }
{
    let plan = Plan::of(alloc, topology)?;
    load_of_plan(alloc, &plan, dump, &Talk::of_all())
}

/// What it prints over a discovery.
pub fn load_text_found(alloc: Global, found: &Discovery, dump: &Dump) -> Result<Vec<u8>, AllocError>
    ensures { IfOk result (λ text. text.items ≡ load_text_found found.now dump.now) }
{
    let plan = Plan::found(alloc, found)?;
    load_of_plan(alloc, &plan, dump, &Talk::of_all())
}
