//! The channels of a fabric, and which depend on which.

ghost use Rattle.std.specs.Prelude.{◌≡◌, ◌==◌, ◌&&◌, ◌||◌, ◌++◌, ◌<◌, ◌≤◌, length, map, flat_map, get_or, option_map, IfOk, OnOk, ℕ};
ghost use Rattle.audit_loops.specs.Channels.{channels, channels_of, deadlock, deadlock_on, dependencies, depends_on, is_channel, leads_to, leaves_by, nexts};
ghost use Rattle.audit_loops.specs.Courses.{everywhere};
ghost use Rattle.audit_loops.specs.Waits.{KnowsTaken, all_groups, are_ports, channel_behind, group_at, group_of, if_switch, is_taken, next_if, numbered_at, takes, two_ports};
ghost use Rattle.fabric_parts.specs.Cable.{far_end, port};

use crate::courses::Course;
use crate::cycle::{NextList, cycle};
use audit_net::{Entry, Net, blank};
use audit_plan::ports_at;
use fabric_parts::PortRef;
use std::alloc::{AllocError, Global};
use std::marker::Model;
use topo_file::is_marked;

/// Channels of one node, each with its place among all.
#[derive(Drop)]
struct Group {
    channels: Vec<(usize, PortRef)>,
}

impl Model for Group {
    ghost use Rattle.std.specs.Prelude.{ℕ, List};
    ghost use Rattle.fabric_parts.specs.declared.cable.PortRef.{PortRef};

    ghost Value = { List (ℕ × PortRef) };

    ghost view = { λ group. group.channels.items };
}

impl Group {
    fn of(channels: Vec<(usize, PortRef)>) -> Group
        ensures { result ≡ channels.items }
    {
        Group { channels }
    }

    fn as_slice(&self) -> &[(usize, PortRef)]
        ensures { result.now ≡ self.now }
    {
        self.channels.as_slice()
    }
}

fn group_of(groups: &[Group], place: usize) -> &[(usize, PortRef)]
    ensures { result.now ≡ group_of groups.now place }
{
    match groups.get(place) {
        Some(group) => group.as_slice(),
        None => &[],
    }
}

/// The channels of this node.
fn numbered_at(
    alloc: Global,
    all: &[PortRef],
    place: usize,
) -> Result<Vec<(usize, PortRef)>, AllocError>
    ensures { IfOk result (λ some. some.items ≡ numbered_at all.now place) }
{
    all.iter()
        .copied()
        .enumerate()
        .filter(|(_, channel)| channel.node == place)
        .collect(alloc)
}

/// Whether some LID takes these two ports, by the marks of the switch of the first one.
fn is_taken(marks: &[bool], number: u8, next: u8) -> bool
    ensures value { result ≡ is_taken marks.now number next }
    ensures number { number < 256 }
    ensures next { next < 256 }
{
    is_marked(marks, usize::from(number) * 256 + usize::from(next))
}

fn mark_taken(marks: &mut [bool], number: u8, next: u8)
    requires { 65536 ≤ length marks.old }
    ensures long { length marks.new ≡ length marks.old }
    ensures marked { (one other : ℕ) → one < 256 → other < 256
        → is_taken marks.new one other ≡ (is_taken marks.old one other || ((number == one) && (next == other))) }
{
    marks[usize::from(number) * 256 + usize::from(next)] = true;
}

/// Whether the port's cable leads to a switch.
pub fn is_channel(net: &Net<'_>, at: PortRef) -> bool
    ensures { result ≡ is_channel net.now at }
{
    match net.links().far_end(at) {
        Some(there) => net.plan().is_switch_at(there.node),
        None => false,
    }
}

fn push_channels_of(
    net: &Net<'_>,
    channels: &mut Vec<PortRef>,
    place: usize,
) -> Result<(), AllocError>
    ensures { OnOk result (channels.new.items ≡ channels.old.items ++ channels_of net.now place) }
{
    for number in 0..ports_at(net.plan().nodes(), place) {
        push_channel(net, channels, place, number)?;
    }
    Ok(())
}

/// Adds the port behind this number, if it is a channel.
fn push_channel(
    net: &Net<'_>,
    channels: &mut Vec<PortRef>,
    place: usize,
    before: u8,
) -> Result<(), AllocError>
    requires { before < 255 }
    ensures { OnOk result (channels.new.items ≡ channels.old.items ++ channel_behind net.now place before) }
{
    let at = PortRef {
        node: place,
        port: before + 1,
    };
    if is_channel(net, at) {
        channels.push(at)?;
    }
    Ok(())
}

/// The ports of switches that have a cable to a switch, in the order of switches, and then of ports.
pub fn all_channels(net: &Net<'_>, alloc: Global) -> Result<Vec<PortRef>, AllocError>
    ensures { IfOk result (λ all. all.items ≡ channels net.now) }
{
    let mut channels = Vec::new(alloc);
    for place in net.switches() {
        push_channels_of(net, &mut channels, *place)?;
    }
    Ok(channels)
}

/// The switch behind a port, if the port is a channel.
fn switch_behind(net: &Net<'_>, at: PortRef) -> Option<PortRef>
    ensures { result ≡ if_switch net.now (far_end net.now.plan.cables at) }
{
    match net.links().far_end(at) {
        Some(there) if net.plan().is_switch_at(there.node) => Some(there),
        _ => None,
    }
}

fn group_at(
    net: &Net<'_>,
    alloc: Global,
    all: &[PortRef],
    place: usize,
) -> Result<Vec<(usize, PortRef)>, AllocError>
    ensures { IfOk result (λ group. group.items ≡ group_at net.now all.now place) }
{
    if net.plan().is_switch_at(place) {
        numbered_at(alloc, all, place)
    } else {
        Ok(Vec::new(alloc))
    }
}

/// The channels of each node.
fn groups(net: &Net<'_>, alloc: Global, all: &[PortRef]) -> Result<Vec<Group>, AllocError>
    ensures { IfOk result (λ groups. groups.items ≡ all_groups net.now all.now) }
{
    let mut groups = Vec::new(alloc);
    for place in 0..net.plan().nodes().len() {
        let group = group_at(net, alloc, all, place)?;
        groups.push(Group::of(group))?;
    }
    Ok(groups)
}

/// The port by which the switch there forwards the LID, and that by which the switch behind it does.
fn two_ports(net: &Net<'_>, lid: u16, place: usize) -> Option<(u8, u8)>
    ensures { result ≡ two_ports net.now place lid }
{
    let Entry::Out(number) = net.entry(lid, place) else {
        return None;
    };
    let there = net.links().far_end(PortRef {
        node: place,
        port: number,
    })?;
    match net.entry(lid, there.node) {
        Entry::Out(next) => Some((number, next)),
        _ => None,
    }
}

fn mark_two(net: &Net<'_>, marks: &mut [bool], lid: u16, place: usize)
    requires { 65536 ≤ length marks.old }
    ensures long { length marks.new ≡ length marks.old }
    ensures marked { (number next : ℕ) → number < 256 → next < 256
        → is_taken marks.new number next ≡ (is_taken marks.old number next || are_ports number next (two_ports net.now place lid)) }
{
    if let Some((number, next)) = two_ports(net, lid, place) {
        mark_taken(marks, number, next);
    }
}

/// Marks the two ports that the LID takes, if its entry counts at the switch there.
fn mark_course(net: &Net<'_>, marks: &mut [bool], course: &Course, place: usize)
    requires { 65536 ≤ length marks.old }
    ensures long { length marks.new ≡ length marks.old }
    ensures marked { (number next : ℕ) → number < 256 → next < 256
        → is_taken marks.new number next ≡ (is_taken marks.old number next || takes net.now place number next course.now) }
{
    if course.counts(place) {
        mark_two(net, marks, course.lid(), place);
    }
}

/// A mark for each two ports that one of these LIDs takes, from the switch there on.
fn taken(
    net: &Net<'_>,
    alloc: Global,
    courses: &[Course],
    place: usize,
) -> Result<Vec<bool>, AllocError>
    ensures { IfOk result (λ marks. KnowsTaken net.now courses.now place marks.items) }
{
    let mut marks = blank(alloc, 65536)?;
    for course in courses {
        mark_course(net, &mut marks, course, place);
    }
    Ok(marks)
}

/// Whether the switch of this port forwards the LID out of it.
pub fn leaves_by(net: &Net<'_>, at: PortRef, lid: u16) -> bool
    ensures { result ≡ leaves_by net.now at lid }
{
    match net.entry(lid, at.node) {
        Entry::Out(number) => number == at.port,
        Entry::Missing | Entry::Unreported => false,
    }
}

fn leads_to(net: &Net<'_>, at: PortRef, place: usize) -> bool
    ensures { result ≡ leads_to net.now at place }
{
    match net.links().far_end(at) {
        Some(there) => there.node == place,
        None => false,
    }
}

/// Whether the first channel depends on the second, by the marks of the switch of the first.
fn depends(
    net: &Net<'_>,
    courses: &[Course],
    marks: &[bool],
    first: PortRef,
    second: PortRef,
) -> bool
    requires { KnowsTaken net.now courses.now first.node marks.now }
    ensures { result ≡ depends_on net.now courses.now first second }
{
    leads_to(net, first, second.node) && is_taken(marks, first.port, second.port)
}

fn push_next(
    net: &Net<'_>,
    nexts: &mut Vec<usize>,
    courses: &[Course],
    marks: &[bool],
    first: PortRef,
    second: (usize, PortRef),
) -> Result<(), AllocError>
    requires { KnowsTaken net.now courses.now first.node marks.now }
    ensures { OnOk result (nexts.new.items ≡ nexts.old.items ++ next_if net.now courses.now first second) }
{
    if depends(net, courses, marks, first, second.1) {
        nexts.push(second.0)?;
    }
    Ok(())
}

/// The places of the channels of this group that the first one depends on.
fn nexts(
    net: &Net<'_>,
    alloc: Global,
    courses: &[Course],
    marks: &[bool],
    group: &[(usize, PortRef)],
    first: PortRef,
) -> Result<Vec<usize>, AllocError>
    requires { KnowsTaken net.now courses.now first.node marks.now }
    ensures { IfOk result (λ places. places.items ≡ flat_map (next_if net.now courses.now first) group.now) }
{
    let mut nexts = Vec::new(alloc);
    for second in group {
        push_next(net, &mut nexts, courses, marks, first, *second)?;
    }
    Ok(nexts)
}

/// Adds what each channel of the switch there depends on.
fn push_dependencies(
    net: &Net<'_>,
    alloc: Global,
    graph: &mut Vec<NextList>,
    courses: &[Course],
    groups: &[Group],
    place: usize,
) -> Result<(), AllocError>
    requires { groups.now ≡ all_groups net.now (channels net.now) }
    ensures { OnOk result (graph.new.items ≡ graph.old.items ++ map (nexts net.now courses.now) (channels_of net.now place)) }
{
    let marks = taken(net, alloc, courses, place)?;
    for number in 0..ports_at(net.plan().nodes(), place) {
        let at = PortRef {
            node: place,
            port: number + 1,
        };
        if let Some(there) = switch_behind(net, at) {
            let nexts = nexts(
                net,
                alloc,
                courses,
                &marks,
                group_of(groups, there.node),
                at,
            )?;
            graph.push(NextList::of(nexts))?;
        }
    }
    Ok(())
}

fn dependencies(
    net: &Net<'_>,
    alloc: Global,
    courses: &[Course],
    all: &[PortRef],
) -> Result<Vec<NextList>, AllocError>
    requires { all.now ≡ channels net.now }
    ensures { IfOk result (λ graph. graph.items ≡ dependencies net.now courses.now) }
{
    let groups = groups(net, alloc, all)?;
    let mut graph = Vec::new(alloc);
    for place in net.switches() {
        push_dependencies(net, alloc, &mut graph, courses, &groups, *place)?;
    }
    Ok(graph)
}

/// A cycle of channels along these LIDs, each of which counts at some switches, if there is one. Each channel waits for the next.
pub fn deadlock_on(
    net: &Net<'_>,
    alloc: Global,
    courses: &[Course],
) -> Result<Option<Vec<PortRef>>, AllocError>
    ensures { IfOk result (λ found. option_map (λ ring. ring.items) found ≡ deadlock_on net.now courses.now) }
{
    let channels = all_channels(net, alloc)?;
    let graph = dependencies(net, alloc, courses, &channels)?;
    match cycle(alloc, &graph)? {
        Some(places) => Ok(Some(at_places(alloc, &channels, &places)?)),
        None => Ok(None),
    }
}

/// Such a cycle along LIDs that count at all switches.
pub fn deadlock(
    net: &Net<'_>,
    alloc: Global,
    lids: &[u16],
) -> Result<Option<Vec<PortRef>>, AllocError>
    ensures { IfOk result (λ found. option_map (λ ring. ring.items) found ≡ deadlock net.now lids.now) }
{
    let courses = all_everywhere(alloc, lids)?;
    deadlock_on(net, alloc, &courses)
}

fn all_everywhere(alloc: Global, lids: &[u16]) -> Result<Vec<Course>, AllocError>
    ensures { IfOk result (λ courses. courses.items ≡ map everywhere lids.now) }
{
    lids.iter()
        .map(|lid| Course::everywhere(*lid))
        .collect(alloc)
}

/// The channel there, or no port of a switch if there is none.
pub fn channel_at(channels: &[PortRef], place: usize) -> PortRef
    ensures { result ≡ get_or channels.now place (port 0 0) }
{
    match channels.get(place) {
        Some(channel) => *channel,
        None => PortRef { node: 0, port: 0 },
    }
}

fn at_places(
    alloc: Global,
    channels: &[PortRef],
    places: &[usize],
) -> Result<Vec<PortRef>, AllocError>
    ensures { IfOk result (λ ring. ring.items ≡ map (λ place. get_or channels.now place (port 0 0)) places.now) }
{
    places
        .iter()
        .map(|place| channel_at(channels, *place))
        .collect(alloc)
}
