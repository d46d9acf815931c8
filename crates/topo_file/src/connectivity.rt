//! Whether cables join all switches.

ghost use Rattle.std.specs.Prelude.{ℕ, ◌≡◌, ◌↔◌, ◌==◌, ◌&&◌, ◌||◌, true, IfOk, length, map, nat_lt, position};
ghost use Rattle.std.specs.List.{list_all, zip};
ghost use Rattle.topo_file.specs.Node.{is_switch, is_switch_at, switch_count};
ghost use Rattle.topo_file.specs.Connectivity.{AllJoined, is_connected};
ghost use Rattle.topo_file.specs.Rounds.{after_rounds, is_marked, is_same, is_same_mark, kept, leads_to_all, marks_all, only, spread};

use crate::node::{Node, is_switch_at, switch_count};
use fabric_parts::Cable;
use std::alloc::{AllocError, Global};

/// Whether cables between switches join all switches; an adapter with several ports joins none.
#[tactic(auto, using(crate::proofs::WalkLemmas::tested, crate::proofs::WalkLemmas::joined_if, crate::proofs::WalkLemmas::if_joined))]
pub fn is_connected(alloc: Global, nodes: &[Node], cables: &[Cable]) -> Result<bool, AllocError>
    ensures value { IfOk result (λ answer. answer ≡ is_connected nodes.now cables.now) }
    // Some walk over cables leads from each switch to each other.
    ensures walks { IfOk result (λ answer. answer ≡ true ↔ AllJoined nodes.now cables.now) }
{
    leads_to_all(alloc, nodes, cables)
}

/// Whether each switch is reached from the first.
fn leads_to_all(alloc: Global, nodes: &[Node], cables: &[Cable]) -> Result<bool, AllocError>
    ensures { IfOk result (λ answer. answer ≡ leads_to_all nodes.now cables.now) }
{
    let Some(place) = first_switch(nodes) else {
        return Ok(true);
    };
    let marks = after_rounds(alloc, nodes, cables, place)?;
    Ok(marks_all(nodes, &marks))
}

fn first_switch(nodes: &[Node]) -> Option<usize>
    ensures { result ≡ position is_switch nodes.now }
{
    nodes.iter().position(|node| node.is_switch())
}

/// The switches that are reached from this place in as many rounds as there are switches. After a round that marks no
/// other switch none does.
fn after_rounds(
    alloc: Global,
    nodes: &[Node],
    cables: &[Cable],
    place: usize,
) -> Result<Vec<bool>, AllocError>
    ensures { IfOk result (λ marks. marks.items ≡ after_rounds nodes.now cables.now place (switch_count nodes.now)) }
{
    let mut marks = only(alloc, nodes, place)?;
    for _ in 0..switch_count(nodes) {
        let next = spread(alloc, nodes, cables, &marks)?;
        if is_same(&next, &marks) {
            return Ok(next);
        }
        marks = next;
    }
    Ok(marks)
}

/// Whether the same places are marked.
fn is_same(one: &[bool], other: &[bool]) -> bool
    ensures { result ≡ is_same one.now other.now }
{
    one.len() == other.len() && is_same_at_each(one, other)
}

fn is_same_at_each(one: &[bool], other: &[bool]) -> bool
    ensures { result ≡ list_all is_same_mark (zip one.now other.now) }
{
    one.iter()
        .zip(other.iter())
        .all(|(a, b)| is_same_mark(*a, *b))
}

fn is_same_mark(a: bool, b: bool) -> bool
    ensures { result ≡ is_same_mark (a, b) }
{
    (a && b) || (!a && !b)
}

fn only(alloc: Global, nodes: &[Node], place: usize) -> Result<Vec<bool>, AllocError>
    ensures { IfOk result (λ marks. marks.items ≡ only nodes.now place) }
{
    nodes
        .iter()
        .enumerate()
        .map(|(index, _)| index == place)
        .collect(alloc)
}

/// One more round: what was marked, and the switches that a cable joins to it.
fn spread(
    alloc: Global,
    nodes: &[Node],
    cables: &[Cable],
    marks: &[bool],
) -> Result<Vec<bool>, AllocError>
    ensures { IfOk result (λ next. next.items ≡ spread nodes.now cables.now marks.now) }
{
    let mut next = kept(alloc, nodes, marks)?;
    for cable in cables {
        mark_along(&mut next, nodes, marks, cable.first.node, cable.second.node);
        mark_along(&mut next, nodes, marks, cable.second.node, cable.first.node);
    }
    Ok(next)
}

/// The switches that are marked.
fn kept(alloc: Global, nodes: &[Node], marks: &[bool]) -> Result<Vec<bool>, AllocError>
    ensures { IfOk result (λ next. next.items ≡ kept nodes.now marks.now) }
{
    nodes
        .iter()
        .enumerate()
        .map(|(place, node)| node.is_switch() && is_marked(marks, place))
        .collect(alloc)
}

/// Marks the end of a cable if it is a switch and the other end was marked.
#[tactic(auto, using(crate::proofs::RoundLemmas::marked_more, crate::proofs::RoundLemmas::marked_none))]
fn mark_along(next: &mut Vec<bool>, nodes: &[Node], marks: &[bool], from: usize, to: usize)
    ensures length { length next.new.items ≡ length next.old.items }
    ensures marks { (place : ℕ) → is_marked next.new.items place
        ≡ (is_marked next.old.items place
        || ((to == place) && ((is_marked marks.now from && is_switch_at nodes.now to) && nat_lt to (length next.old.items)))) }
{
    if is_marked(marks, from) && is_switch_at(nodes, to) && to < next.len() {
        next[to] = true;
    }
}

/// Whether what has this number is marked.
pub fn is_marked(marks: &[bool], place: usize) -> bool
    ensures { result ≡ is_marked marks.now place }
{
    match marks.get(place) {
        Some(mark) => *mark,
        None => false,
    }
}

fn marks_all(nodes: &[Node], marks: &[bool]) -> bool
    ensures { result ≡ marks_all nodes.now marks.now }
{
    nodes.iter().enumerate().all(|(place, node)| !node.is_switch() || is_marked(marks, place))
}
