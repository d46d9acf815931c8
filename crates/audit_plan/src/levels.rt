//! The levels of switches.

ghost use Rattle.std.specs.Prelude.{◌≡◌, ◌<◌, length, map, IfOk};
ghost use Rattle.std.specs.List.{range_with_len};
ghost use Rattle.topo_file.specs.Rounds.{is_marked};
ghost use Rattle.audit_plan.specs.Attached.{carries_host};
ghost use Rattle.audit_plan.specs.Levels.{is_next, leads_near, level_at, level_by, levels_of, rounds_of, some_lead};

use crate::links::Links;
use crate::plan::ports_at;
use fabric_parts::PortRef;
use std::alloc::{AllocError, Global};
use std::marker::Model;
use topo_file::is_marked;

/// How many levels there are, from 0 on. Switches that are farther from hosts are of none.
pub const LEVELS: usize = 16;

/// For each node whether it is near.
#[derive(Drop)]
struct Round {
    marks: Vec<bool>,
}

impl Model for Round {
    ghost use Rattle.std.specs.Prelude.{List, Bool};

    ghost Value = { List Bool };

    ghost view = { λ round. round.marks.items };
}

impl Round {
    fn of(marks: Vec<bool>) -> Round
        ensures { result ≡ marks.items }
    {
        Round { marks }
    }

    fn is_marked(&self, place: usize) -> bool
        ensures { result ≡ is_marked self.now place }
    {
        is_marked(self.marks.as_slice(), place)
    }
}

fn first_marks(links: &Links<'_>, alloc: Global) -> Result<Vec<bool>, AllocError>
    ensures { IfOk result (λ marks. marks.items ≡ map (carries_host links.now) (range_with_len 0 (length links.now.nodes))) }
{
    let mut marks = Vec::new(alloc);
    for place in 0..links.plan().nodes().len() {
        marks.push(links.carries_host(place))?;
    }
    Ok(marks)
}

/// Whether the link at the port behind this number leads to a switch that is marked.
fn leads_near(links: &Links<'_>, marks: &[bool], place: usize, before: u8) -> bool
    requires { before < 255 }
    ensures { result ≡ leads_near links.now (is_marked marks.now) place before }
{
    let at = PortRef {
        node: place,
        port: before + 1,
    };
    match links.far_end(at) {
        Some(there) => links.plan().is_switch_at(there.node) && is_marked(marks, there.node),
        None => false,
    }
}

fn some_lead(links: &Links<'_>, marks: &[bool], place: usize) -> bool
    ensures { result ≡ some_lead links.now (is_marked marks.now) place }
{
    for before in 0..ports_at(links.plan().nodes(), place) {
        if leads_near(links, marks, place, before) {
            return true;
        }
    }
    false
}

fn is_next(links: &Links<'_>, marks: &[bool], place: usize) -> bool
    ensures { result ≡ is_next links.now marks.now place }
{
    is_marked(marks, place) || some_lead(links, marks, place)
}

fn next_marks(links: &Links<'_>, alloc: Global, marks: &[bool]) -> Result<Vec<bool>, AllocError>
    ensures { IfOk result (λ next. next.items ≡ map (is_next links.now marks.now) (range_with_len 0 (length links.now.nodes))) }
{
    let mut next = Vec::new(alloc);
    for place in 0..links.plan().nodes().len() {
        next.push(is_next(links, marks, place))?;
    }
    Ok(next)
}

/// Which nodes are near over at most 0 links, over at most 1, and so on.
fn rounds(links: &Links<'_>, alloc: Global) -> Result<Vec<Round>, AllocError>
    ensures { IfOk result (λ rounds. rounds.items ≡ rounds_of links.now) }
{
    let mut rounds = Vec::new(alloc);
    let mut marks = first_marks(links, alloc)?;
    for _count in 0..LEVELS {
        let next = next_marks(links, alloc, &marks)?;
        rounds.push(Round::of(marks))?;
        marks = next;
    }
    Ok(rounds)
}

fn level_by(rounds: &[Round], place: usize) -> usize
    ensures { result ≡ level_by rounds.now place }
{
    rounds
        .iter()
        .filter(|round| !round.is_marked(place))
        .count()
}

fn levels_by(alloc: Global, rounds: &[Round], count: usize) -> Result<Vec<usize>, AllocError>
    ensures { IfOk result (λ levels. levels.items ≡ map (level_by rounds.now) (range_with_len 0 count)) }
{
    (0..count)
        .map(|place| level_by(rounds, place))
        .collect(alloc)
}

/// The level of each node. It can only run out of memory.
pub fn levels_of(links: &Links<'_>, alloc: Global) -> Result<Vec<usize>, AllocError>
    ensures { IfOk result (λ levels. levels.items ≡ levels_of links.now) }
{
    let rounds = rounds(links, alloc)?;
    let levels = levels_by(alloc, &rounds, links.plan().nodes().len())?;
    Ok(levels)
}

/// The level of the node there, or that of none.
pub fn level_at(levels: &[usize], place: usize) -> usize
    ensures { result ≡ level_at levels.now place }
{
    match levels.get(place) {
        Some(level) => *level,
        None => LEVELS,
    }
}
