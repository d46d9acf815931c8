//! The credit loops of a fabric: that which decides, and those that decide nothing.

ghost use Rattle.std.specs.Prelude.{◌≡◌, ◌||◌, ◌<◌, length, filter, is_some, option_map, IfOk};
ghost use Rattle.audit_routes.specs.Loops.{aggregation_credit_loop, behind, closes, closing, counts_at, course_of, courses_of, credit_loop, leaves_by_both, lids_of, loops_of};
ghost use Rattle.audit_routes.specs.Loops.{switches_credit_loop};
ghost use Rattle.audit_routes.specs.Verdict.{is_aggregations, is_others, is_reducing};
ghost use Rattle.std.specs.List.{list_any};

use audit_loops::{Course, channel_at, deadlock, deadlock_on, leaves_by};
use audit_net::{Aim, Net};
use fabric_parts::PortRef;
use std::alloc::{AllocError, Global};
use std::marker::Model;

/// The cycles of channels that were found.
#[derive(Drop)]
pub(crate) struct Loops {
    deciding: Option<Vec<PortRef>>,
    aggregation: Option<Vec<PortRef>>,
    switches: Option<Vec<PortRef>>,
}

impl Model for Loops {
    ghost use Rattle.std.specs.Prelude.{option_map};
    ghost use Rattle.audit_routes.specs.Loops.{LoopsState};

    ghost Value = { LoopsState };

    ghost view = { λ loops. record {
      deciding = option_map (λ ring. ring.items) loops.deciding;
      aggregation = option_map (λ ring. ring.items) loops.aggregation;
      switches = option_map (λ ring. ring.items) loops.switches;
    } };
}

impl Loops {
    /// That along all LIDs but the switches' own, each where it counts: it decides.
    pub(crate) fn deciding(&self) -> &Option<Vec<PortRef>>
        ensures { option_map (λ ring. ring.items) result.now ≡ self.now.deciding }
    {
        &self.deciding
    }

    /// That along the same LIDs, if there is no such, as if each counted everywhere.
    pub(crate) fn aggregation(&self) -> &Option<Vec<PortRef>>
        ensures { option_map (λ ring. ring.items) result.now ≡ self.now.aggregation }
    {
        &self.aggregation
    }

    /// That along all LIDs, if there is neither.
    pub(crate) fn switches(&self) -> &Option<Vec<PortRef>>
        ensures { option_map (λ ring. ring.items) result.now ≡ self.now.switches }
    {
        &self.switches
    }
}

/// The LIDs of these.
pub fn lids_of(alloc: Global, aims: &[Aim]) -> Result<Vec<u16>, AllocError>
    ensures { IfOk result (λ lids. lids.items ≡ lids_of aims.now) }
{
    aims.iter().map(|aim| aim.lid).collect(alloc)
}

/// Whether it is no LID of a switch.
pub fn is_others(net: &Net<'_>, aim: &Aim) -> bool
    ensures { result ≡ is_others net.now aim.now }
{
    match aim.end {
        Some(end) => !net.plan().is_switch_at(end.node),
        None => true,
    }
}

fn is_reducing(net: &Net<'_>, end: PortRef) -> bool
    ensures { result ≡ is_reducing net.now end }
{
    !net.plan().is_switch_at(end.node) && !net.plan().is_host(end.node)
}

fn is_aggregations(net: &Net<'_>, aim: &Aim) -> bool
    ensures { result ≡ is_aggregations net.now aim.now }
{
    match aim.end {
        Some(end) => is_reducing(net, end),
        None => false,
    }
}

fn some_are_aggregations(net: &Net<'_>, aims: &[Aim]) -> bool
    ensures { result ≡ list_any (is_aggregations net.now) aims.now }
{
    aims.iter().any(|aim| is_aggregations(net, aim))
}

/// Those that are no switch's.
pub(crate) fn aims_of_others(
    net: &Net<'_>,
    alloc: Global,
    aims: &[Aim],
) -> Result<Vec<Aim>, AllocError>
    ensures { IfOk result (λ some. some.items ≡ filter (is_others net.now) aims.now) }
{
    aims.iter()
        .copied()
        .filter(|aim| is_others(net, aim))
        .collect(alloc)
}

/// All LIDs but the switches' own.
pub(crate) fn other_lids(net: &Net<'_>, alloc: Global, aims: &[Aim]) -> Result<Vec<u16>, AllocError>
    ensures { IfOk result (λ lids. lids.items ≡ lids_of (filter (is_others net.now) aims.now)) }
{
    let some = aims_of_others(net, alloc, aims)?;
    lids_of(alloc, &some)
}

/// Where the entries of the LID count.
fn course_of(net: &Net<'_>, alloc: Global, aim: &Aim) -> Result<Course, AllocError>
    ensures { IfOk result (λ course. course ≡ course_of net.now aim.now) }
{
    let aim = *aim;
    if is_aggregations(net, &aim) {
        Course::from_hosts(net, alloc, aim.lid)
    } else {
        Ok(Course::everywhere(aim.lid))
    }
}

fn courses_of(net: &Net<'_>, alloc: Global, aims: &[Aim]) -> Result<Vec<Course>, AllocError>
    ensures { IfOk result (λ courses. courses.items ≡ courses_of net.now aims.now) }
{
    let mut courses = Vec::new(alloc);
    for aim in aims {
        let course = course_of(net, alloc, aim)?;
        courses.push(course)?;
    }
    Ok(courses)
}

fn credit_loop(
    net: &Net<'_>,
    alloc: Global,
    aims: &[Aim],
) -> Result<Option<Vec<PortRef>>, AllocError>
    ensures { IfOk result (λ found. option_map (λ ring. ring.items) found ≡ credit_loop net.now aims.now) }
{
    let some = aims_of_others(net, alloc, aims)?;
    let courses = courses_of(net, alloc, &some)?;
    deadlock_on(net, alloc, &courses)
}

/// Without aggregation nodes there is no other cycle.
#[tactic(auto, using(crate::proofs::LoopLemmas::no_aggregation, crate::proofs::LoopLemmas::no_deciding, crate::proofs::LoopLemmas::after_none))]
fn aggregation_credit_loop(
    net: &Net<'_>,
    alloc: Global,
    aims: &[Aim],
    decided: bool,
) -> Result<Option<Vec<PortRef>>, AllocError>
    requires { decided ≡ is_some (credit_loop net.now aims.now) }
    ensures { IfOk result (λ found. option_map (λ ring. ring.items) found ≡ aggregation_credit_loop net.now aims.now) }
{
    if decided {
        return Ok(None);
    }
    if !some_are_aggregations(net, aims) {
        return Ok(None);
    }
    let lids = other_lids(net, alloc, aims)?;
    deadlock(net, alloc, &lids)
}

#[tactic(auto, using(crate::proofs::LoopLemmas::no_switches, crate::proofs::LoopLemmas::after_both))]
fn switches_credit_loop(
    net: &Net<'_>,
    alloc: Global,
    aims: &[Aim],
    found: bool,
) -> Result<Option<Vec<PortRef>>, AllocError>
    requires { found ≡ (is_some (credit_loop net.now aims.now) || is_some (aggregation_credit_loop net.now aims.now)) }
    ensures { IfOk result (λ found. option_map (λ ring. ring.items) found ≡ switches_credit_loop net.now aims.now) }
{
    if found {
        return Ok(None);
    }
    let lids = lids_of(alloc, aims)?;
    deadlock(net, alloc, &lids)
}

/// All of them.
pub(crate) fn loops_of(net: &Net<'_>, alloc: Global, aims: &[Aim]) -> Result<Loops, AllocError>
    ensures { IfOk result (λ loops. loops ≡ loops_of net.now aims.now) }
{
    let deciding = credit_loop(net, alloc, aims)?;
    let aggregation = aggregation_credit_loop(net, alloc, aims, deciding.is_some())?;
    let found = deciding.is_some() || aggregation.is_some();
    let switches = switches_credit_loop(net, alloc, aims, found)?;
    Ok(Loops {
        deciding,
        aggregation,
        switches,
    })
}

/// The channel behind this one in a cycle; behind the last one is the first.
fn behind(ring: &[PortRef], index: usize) -> PortRef
    requires { index < length ring.now }
    ensures { result ≡ behind ring.now index }
{
    if index + 1 < ring.len() {
        channel_at(ring, index + 1)
    } else {
        channel_at(ring, 0)
    }
}

fn leaves_by_both(net: &Net<'_>, a: PortRef, b: PortRef, aim: &Aim) -> bool
    ensures { result ≡ leaves_by_both net.now a b aim.now }
{
    let aim = *aim;
    leaves_by(net, a, aim.lid) && leaves_by(net, b, aim.lid)
}

fn counts_at(net: &Net<'_>, place: usize, aim: &Aim) -> bool
    ensures { result ≡ counts_at net.now place aim.now }
{
    let aim = *aim;
    !is_aggregations(net, &aim) || net.hosts_come(aim.lid, place)
}

fn closes(net: &Net<'_>, decides: bool, a: PortRef, b: PortRef, aim: &Aim) -> bool
    ensures { result ≡ closes net.now decides a b aim.now }
{
    leaves_by_both(net, a, b, aim) && (!decides || counts_at(net, a.node, aim))
}

/// The LID by which a channel of a cycle waits for the one behind it; if the cycle decides, one that counts there.
pub(crate) fn closing(
    net: &Net<'_>,
    decides: bool,
    aims: &[Aim],
    ring: &[PortRef],
    index: usize,
) -> Option<Aim>
    requires { index < length ring.now }
    ensures { result ≡ closing net.now decides aims.now ring.now index }
{
    let here = channel_at(ring, index);
    let next = behind(ring, index);
    aims.iter()
        .copied()
        .find(|aim| closes(net, decides, here, next, aim))
}
