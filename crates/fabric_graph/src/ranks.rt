//! The ranks of switches, as rows.

ghost use Rattle.std.specs.Prelude.{◌≡◌, ◌++◌, IfOk, OnOk, flat_map};
ghost use Rattle.fabric_graph.specs.Ranks.{has_rank, member, rank_at, rank_count, rank_line, rank_of, ranks_of, row, row_head, row_if, row_of, row_words};

use std::alloc::{AllocError, Global};
use text_words::{push_decimal, push_quoted};
use topo_file::{Node, name_at};
use updn_routes::Routes;

/// How far a switch is from the nearest root, if routes know it; a channel adapter has no rank.
fn rank_of(routes: &Routes, node: &Node) -> Option<usize>
    ensures { result ≡ rank_of routes.now node.now }
{
    if !node.is_switch() {
        return None;
    }
    let place = routes.graph().place_of(node.guid)?;
    Some(routes.between().rank_of(place))
}

/// How many ranks have rows: each is less than the number of switches.
pub(crate) fn rank_count(routes: &Routes) -> usize
    ensures { result ≡ rank_count routes.now }
{
    routes.graph().switches().len()
}

/// The ranks of nodes, by their places. It can only run out of memory.
pub(crate) fn ranks_of(
    alloc: Global,
    routes: &Routes,
    nodes: &[Node],
) -> Result<Vec<Option<usize>>, AllocError>
    ensures { IfOk result (λ ranks. ranks.items ≡ ranks_of routes.now nodes.now) }
{
    nodes
        .iter()
        .map(|node| rank_of(routes, node))
        .collect(alloc)
}

/// The rank of the node there, if it has one.
pub(crate) fn rank_at(ranks: &[Option<usize>], place: usize) -> Option<usize>
    ensures { result ≡ rank_at ranks.now place }
{
    match ranks.get(place) {
        Some(rank) => *rank,
        None => None,
    }
}

fn has_rank(ranks: &[Option<usize>], rank: usize, place: usize) -> bool
    ensures { result ≡ has_rank ranks.now rank place }
{
    match rank_at(ranks, place) {
        Some(own) => own == rank,
        None => false,
    }
}

/// The places of the switches of that rank. It can only run out of memory.
#[tactic(auto, unfolding(crate::specs::Ranks::row_of))]
pub(crate) fn row_of(
    alloc: Global,
    ranks: &[Option<usize>],
    rank: usize,
) -> Result<Vec<usize>, AllocError>
    ensures { IfOk result (λ places. places.items ≡ row_of ranks.now rank) }
{
    (0..ranks.len())
        .filter(|place| has_rank(ranks, rank, *place))
        .collect(alloc)
}

/// Adds the row of the switches of that rank, if there are some.
pub(crate) fn push_rank_line(
    alloc: Global,
    text: &mut Vec<u8>,
    nodes: &[Node],
    ranks: &[Option<usize>],
    boxed: bool,
    rank: usize,
) -> Result<(), AllocError>
    ensures { OnOk result (text.new.items ≡ text.old.items ++ rank_line nodes.now ranks.now boxed rank) }
{
    let places = row_of(alloc, ranks, rank)?;
    push_row_if(text, nodes, boxed, rank, places.as_slice())
}

fn push_row_if(
    text: &mut Vec<u8>,
    nodes: &[Node],
    boxed: bool,
    rank: usize,
    places: &[usize],
) -> Result<(), AllocError>
    ensures { OnOk result (text.new.items ≡ text.old.items ++ row_if nodes.now boxed rank places.now) }
{
    match places {
        [] => Ok(()),
        [_, ..] => push_row(text, nodes, boxed, rank, places),
    }
}

#[tactic(auto, unfolding(crate::specs::Ranks::row))]
fn push_row(
    text: &mut Vec<u8>,
    nodes: &[Node],
    boxed: bool,
    rank: usize,
    places: &[usize],
) -> Result<(), AllocError>
    ensures { OnOk result (text.new.items ≡ text.old.items ++ row nodes.now boxed rank places.now) }
{
    push_row_head(text, boxed, rank)?;
    push_members(text, nodes, places)?;
    text.extend_from_slice(b" }\n")
}

fn push_row_head(text: &mut Vec<u8>, boxed: bool, rank: usize) -> Result<(), AllocError>
    ensures { OnOk result (text.new.items ≡ text.old.items ++ row_head boxed rank) }
{
    if boxed {
        text.extend_from_slice(b"  subgraph cluster_rank")?;
        push_decimal(text, rank)?;
        text.extend_from_slice(b" { rank=same")
    } else {
        text.extend_from_slice(b"  { rank=")?;
        text.extend_from_slice(row_words(rank))
    }
}

fn row_words(rank: usize) -> &'static [u8]
    ensures { result.now ≡ row_words rank }
{
    if rank == 0 { b"min" } else { b"same" }
}

fn push_members(text: &mut Vec<u8>, nodes: &[Node], places: &[usize]) -> Result<(), AllocError>
    ensures { OnOk result (text.new.items ≡ text.old.items ++ flat_map (member nodes.now) places.now) }
{
    for place in places {
        push_member(text, nodes, *place)?;
    }
    Ok(())
}

fn push_member(text: &mut Vec<u8>, nodes: &[Node], place: usize) -> Result<(), AllocError>
    ensures { OnOk result (text.new.items ≡ text.old.items ++ member nodes.now place) }
{
    text.extend_from_slice(b"; ")?;
    push_quoted(text, name_at(nodes, place))
}
