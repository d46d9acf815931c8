//! Groups that are cut.

ghost use Rattle.std.specs.Prelude.{◌≡◌, ◌++◌, ◌==◌, ◌||◌, ◌<◌, false, true, nat_lt, flat_map, length, map, ℕ, IfOk, OnOk};
ghost use Rattle.std.specs.List.{list_all, list_any};
ghost use Rattle.fabric_parts.specs.Cable.{port};
ghost use Rattle.topo_file.specs.Rounds.{is_marked};
ghost use Rattle.audit_multicast.specs.Cuts.{arrives, cut_by, cut_from, cut_of, first_cut, first_member, has_members, is_member, member_switches, members_at};
ghost use Rattle.audit_multicast.specs.Copies.{node_behind};
ghost use Rattle.audit_multicast.specs.Loops.{all_outs};
ghost use Rattle.audit_multicast.specs.Scanning.{member_behind};
ghost use Rattle.audit_multicast.specs.Spreading.{all_before, group_of, nodes_behind, places_before, spread_marks, spread_on, unless_met};

use crate::copies::{leads_to_end, meet, met_first, node_behind};
use crate::loops::all_outs;
use crate::ways::{comes_to, is_set};
use audit_loops::channel_at;
use audit_loops::cycle::{NextList, are_same, some_marked};
use audit_net::Net;
use audit_plan::ports_at;
use fabric_parts::PortRef;
use mft_file::Ports;
use std::alloc::{AllocError, Global};
use std::marker::Model;
use topo_file::is_marked;

/// What a member sends, and another one does not receive.
#[derive(Clone, Copy)]
pub struct Cut {
    /// The switch port to which the sender is attached.
    pub from: PortRef,
    /// The switch port to which the first member is attached that does not receive it.
    pub at: PortRef,
    /// How many more do not receive it.
    pub more: usize,
}

/// What is looked up of an MLID.
#[derive(Drop)]
struct Group {
    outs: Vec<PortRef>,
    before: Vec<NextList>,
    places: Vec<usize>,
}

impl Model for Group {
    ghost use Rattle.audit_multicast.specs.Spreading.{GroupState};

    ghost Value = { GroupState };

    ghost view = { λ group. record { outs = group.outs.items; before = group.before.items; places = group.places.items } };
}

impl Group {
    fn of(alloc: Global, net: &Net<'_>, masks: &[Ports]) -> Result<Group, AllocError>
        ensures { IfOk result (λ group. group ≡ group_of net.now masks.now) }
    {
        let outs = all_outs(alloc, net, masks)?;
        let before = all_before(alloc, net, &outs)?;
        let places = member_switches(alloc, net, masks)?;
        Ok(Group {
            outs,
            before,
            places,
        })
    }

    fn outs(&self) -> &[PortRef]
        ensures { result.now ≡ self.now.outs }
    {
        self.outs.as_slice()
    }

    fn before(&self) -> &[NextList]
        ensures { result.now ≡ self.now.before }
    {
        self.before.as_slice()
    }

    fn places(&self) -> &[usize]
        ensures { result.now ≡ self.now.places }
    {
        self.places.as_slice()
    }
}

fn is_member(net: &Net<'_>, masks: &[Ports], at: PortRef) -> bool
    ensures { result ≡ is_member net.now masks.now at }
{
    is_set(masks, at) && leads_to_end(net, at)
}

/// Adds the port behind this number, if it is a member's.
fn push_member(
    net: &Net<'_>,
    masks: &[Ports],
    place: usize,
    members: &mut Vec<PortRef>,
    before: u8,
) -> Result<(), AllocError>
    requires { before < 255 }
    ensures { OnOk result (members.new.items ≡ members.old.items ++ member_behind net.now masks.now place before) }
{
    let at = PortRef {
        node: place,
        port: before + 1,
    };
    if is_member(net, masks, at) {
        members.push(at)?;
    }
    Ok(())
}

/// Adds the ports of the switch there that are in its mask and lead to end ports.
fn push_members(
    net: &Net<'_>,
    masks: &[Ports],
    place: usize,
    members: &mut Vec<PortRef>,
) -> Result<(), AllocError>
    ensures { OnOk result (members.new.items ≡ members.old.items ++ members_at net.now masks.now place) }
{
    for number in 0..ports_at(net.plan().nodes(), place) {
        push_member(net, masks, place, members, number)?;
    }
    Ok(())
}

fn has_members(net: &Net<'_>, masks: &[Ports], place: usize) -> bool
    ensures { result ≡ has_members net.now masks.now place }
{
    for number in 0..ports_at(net.plan().nodes(), place) {
        let at = PortRef {
            node: place,
            port: number + 1,
        };
        if is_member(net, masks, at) {
            return true;
        }
    }
    false
}

#[tactic(auto, unfolding(crate::specs::Cuts::member_switches))]
fn member_switches(alloc: Global, net: &Net<'_>, masks: &[Ports]) -> Result<Vec<usize>, AllocError>
    ensures { IfOk result (λ places. places.items ≡ member_switches net.now masks.now) }
{
    net.switches()
        .iter()
        .copied()
        .filter(|place| has_members(net, masks, *place))
        .collect(alloc)
}

/// The places of the ports after which packets leave by this one.
fn places_before(
    alloc: Global,
    net: &Net<'_>,
    all: &[PortRef],
    out: PortRef,
) -> Result<Vec<usize>, AllocError>
    ensures { IfOk result (λ places. places.items ≡ places_before net.now all.now out) }
{
    all.iter()
        .copied()
        .enumerate()
        .filter(|(_, before)| comes_to(net, *before, out))
        .map(|(place, _)| place)
        .collect(alloc)
}

fn all_before(alloc: Global, net: &Net<'_>, all: &[PortRef]) -> Result<Vec<NextList>, AllocError>
    ensures { IfOk result (λ before. before.items ≡ all_before net.now all.now) }
{
    let mut before = Vec::new(alloc);
    for out in all {
        let places = places_before(alloc, net, all, *out)?;
        before.push(NextList::of(places))?;
    }
    Ok(before)
}

/// A mark for each port by which what enters at the switch there leaves at once.
fn first_marks(alloc: Global, all: &[PortRef], place: usize) -> Result<Vec<bool>, AllocError>
    ensures { IfOk result (λ marks. marks.items ≡ map (λ out. out.node == place) all.now) }
{
    all.iter().map(|out| out.node == place).collect(alloc)
}

/// One hop more.
fn spread_on(alloc: Global, before: &[NextList], marks: &[bool]) -> Result<Vec<bool>, AllocError>
    ensures { IfOk result (λ next. next.items ≡ spread_on before.now marks.now) }
{
    before
        .iter()
        .enumerate()
        .map(|(at, places)| is_marked(marks, at) || some_marked(marks, places.as_slice()))
        .collect(alloc)
}

/// A mark for each of these ports by which what enters at the switch there leaves, after whatever number of hops.
fn spread(
    alloc: Global,
    net: &Net<'_>,
    all: &[PortRef],
    before: &[NextList],
    place: usize,
) -> Result<Vec<bool>, AllocError>
    requires { before.now ≡ all_before net.now all.now }
    ensures { IfOk result (λ marks. marks.items ≡ spread_marks net.now all.now place (length all.now)) }
{
    let mut marks = first_marks(alloc, all, place)?;
    for _hop in 0..all.len() {
        let next = spread_on(alloc, before, &marks)?;
        if are_same(&next, &marks) {
            return Ok(marks);
        }
        marks = next;
    }
    Ok(marks)
}

/// The switches to which packets come that leave by the ports that are marked.
fn nodes_behind(
    alloc: Global,
    net: &Net<'_>,
    all: &[PortRef],
    marks: &[bool],
) -> Result<Vec<usize>, AllocError>
    ensures { IfOk result (λ places. places.items ≡ nodes_behind net.now marks.now all.now) }
{
    all.iter()
        .copied()
        .enumerate()
        .filter(|(at, _)| is_marked(marks, *at))
        .map(|(_, out)| node_behind(net, out))
        .collect(alloc)
}

/// Marks these nodes.
fn meet_each(met: &mut [bool], places: &[usize])
    requires { list_all (λ place. nat_lt place (length met.old)) places.now ≡ true }
    ensures long { length met.new ≡ length met.old }
    ensures marked { (other : ℕ) → is_marked met.new other ≡ (is_marked met.old other || list_any (λ place. place == other) places.now) }
{
    for place in places {
        meet(met, *place);
    }
}

/// A mark for each of so many nodes, of which those of these places are set.
fn met_at(
    alloc: Global,
    nodes: usize,
    place: usize,
    places: &[usize],
) -> Result<Vec<bool>, AllocError>
    requires place { place < nodes }
    requires places { list_all (λ one. nat_lt one nodes) places.now ≡ true }
    ensures { IfOk result (λ met. (there : ℕ) → is_marked met.items there ≡ ((place == there) || list_any (λ one. one == there) places.now)) }
{
    let mut met = met_first(alloc, nodes, place)?;
    meet_each(&mut met, places);
    Ok(met)
}

/// A mark for each switch to which what enters at this one comes.
fn arrivals(
    alloc: Global,
    net: &Net<'_>,
    all: &[PortRef],
    before: &[NextList],
    place: usize,
) -> Result<Vec<bool>, AllocError>
    requires outs { list_all (λ at. nat_lt (node_behind net.now at) (length net.now.plan.nodes)) all.now ≡ true }
    requires before { before.now ≡ all_before net.now all.now }
    requires place { place < length net.now.plan.nodes }
    ensures { IfOk result (λ met. (there : ℕ) → is_marked met.items there ≡ arrives net.now all.now place there) }
{
    let marks = spread(alloc, net, all, before, place)?;
    let places = nodes_behind(alloc, net, all, &marks)?;
    let met = met_at(alloc, net.plan().nodes().len(), place, &places)?;
    Ok(met)
}

/// Adds the members at the switch there, if what enters at `place` does not come to it.
fn push_missed_at(
    net: &Net<'_>,
    masks: &[Ports],
    met: &[bool],
    there: usize,
    missed: &mut Vec<PortRef>,
) -> Result<(), AllocError>
    ensures { OnOk result (missed.new.items ≡ missed.old.items ++ unless_met net.now masks.now met.now there) }
{
    if is_marked(met, there) {
        return Ok(());
    }
    push_members(net, masks, there, missed)
}

/// The members that do not receive what a member at the switch there sends.
fn missed_by(
    alloc: Global,
    net: &Net<'_>,
    masks: &[Ports],
    met: &[bool],
    places: &[usize],
) -> Result<Vec<PortRef>, AllocError>
    ensures { IfOk result (λ missed. missed.items ≡ flat_map (unless_met net.now masks.now met.now) places.now) }
{
    let mut missed = Vec::new(alloc);
    for there in places {
        push_missed_at(net, masks, met, *there, &mut missed)?;
    }
    Ok(missed)
}

fn cut_by(from: PortRef, missed: &[PortRef]) -> Option<Cut>
    ensures { result ≡ cut_by from missed.now }
{
    let [at, rest @ ..] = missed else {
        return None;
    };
    Some(Cut {
        from,
        at: *at,
        more: rest.len(),
    })
}

fn first_member(
    alloc: Global,
    net: &Net<'_>,
    masks: &[Ports],
    place: usize,
) -> Result<PortRef, AllocError>
    ensures { IfOk result (λ first. first ≡ first_member net.now masks.now place) }
{
    let mut members = Vec::new(alloc);
    push_members(net, masks, place, &mut members)?;
    Ok(channel_at(&members, 0))
}

/// What a member at the switch there sends and others do not receive, if there is such.
#[tactic(auto, unfolding(crate::specs::Cuts::cut_from))]
fn cut_from(
    alloc: Global,
    net: &Net<'_>,
    masks: &[Ports],
    group: &Group,
    place: usize,
) -> Result<Option<Cut>, AllocError>
    requires group { group.now ≡ group_of net.now masks.now }
    requires place { place < length net.now.plan.nodes }
    ensures { IfOk result (λ found. found ≡ cut_from net.now masks.now (all_outs net.now masks.now) (member_switches net.now masks.now) place) }
{
    let met = arrivals(alloc, net, group.outs(), group.before(), place)?;
    let missed = missed_by(alloc, net, masks, &met, group.places())?;
    let from = first_member(alloc, net, masks, place)?;
    Ok(cut_by(from, &missed))
}

#[tactic(auto, unfolding(crate::specs::Cuts::cut_of))]
fn first_cut(
    alloc: Global,
    net: &Net<'_>,
    masks: &[Ports],
    group: &Group,
    places: &[usize],
) -> Result<Option<Cut>, AllocError>
    requires group { group.now ≡ group_of net.now masks.now }
    requires places { places.now ≡ member_switches net.now masks.now }
    ensures { IfOk result (λ found. found ≡ cut_of net.now masks.now) }
{
    for place in places {
        if let Some(cut) = cut_from(alloc, net, masks, group, *place)? {
            return Ok(Some(cut));
        }
    }
    Ok(None)
}

/// What the first member sends and others do not receive, if there is such.
pub(crate) fn cut_of(
    alloc: Global,
    net: &Net<'_>,
    masks: &[Ports],
) -> Result<Option<Cut>, AllocError>
    ensures { IfOk result (λ found. found ≡ cut_of net.now masks.now) }
{
    let group = Group::of(alloc, net, masks)?;
    let found = first_cut(alloc, net, masks, &group, group.places())?;
    Ok(found)
}
