//! Rows of switches that are joined all to all, and the cables for which thick edges stand.

ghost use Rattle.std.specs.Prelude.{◌≡◌, ◌+◌, ◌<◌, ◌^◌, IfOk, count_by, length};
ghost use Rattle.std.specs.List.{list_all, range_with_len};
ghost use Rattle.fabric_graph.specs.Rows.{are_cabled, are_joined, is_cabled_to_all, is_merged, is_next, is_ordinary, is_plain, is_thick};
ghost use Rattle.fabric_graph.specs.Rows.{joins_rows, leads_down, may_count, may_count_at, picture_of, thick_edges, thickness, upper_of, upper_rank};
ghost use Rattle.topo_file.specs.Connectivity.{joins};

use crate::cables::{Edges, is_crowded, is_cut};
use crate::ranks::{rank_at, row_of};
use cable_looks::{Look, look_at};
use fabric_parts::Cable;
use fabric_wire::Fabric;
use std::alloc::{AllocError, Global};

/// How many cables the thick edge below each rank counts, of so many ranks. It can only run out of memory.
pub(crate) fn thick_edges(
    alloc: Global,
    edges: Edges<'_>,
    ranks: usize,
) -> Result<Vec<usize>, AllocError>
    ensures { IfOk result (λ thick. thick.items
        ≡ thick_edges (picture_of edges.entry.topology.now edges.entry.ranks.now edges.entry.fabric.now edges.entry.looks.now) ranks) }
{
    let mut thick = Vec::new(alloc);
    for rank in 0..ranks {
        thick.push(thickness(alloc, edges, rank)?)?;
    }
    Ok(thick)
}

/// How many cables the thick edge counts between the row of that rank and the next.
fn thickness(alloc: Global, edges: Edges<'_>, rank: usize) -> Result<usize, AllocError>
    requires { rank + 1 < 2 ^ 64 }
    ensures { IfOk result (λ count. count
        ≡ thickness (picture_of edges.entry.topology.now edges.entry.ranks.now edges.entry.fabric.now edges.entry.looks.now) rank) }
{
    if joins_rows(alloc, edges, rank)? {
        Ok(count_of(edges, rank))
    } else {
        Ok(0)
    }
}

/// Whether the row of that rank and the next are joined all to all in a crowded picture.
fn joins_rows(alloc: Global, edges: Edges<'_>, rank: usize) -> Result<bool, AllocError>
    requires { rank + 1 < 2 ^ 64 }
    ensures { IfOk result (λ joined. joined
        ≡ joins_rows (picture_of edges.entry.topology.now edges.entry.ranks.now edges.entry.fabric.now edges.entry.looks.now) rank) }
{
    let cables = edges.topology.cables();
    if !is_crowded(cables.len()) {
        return Ok(false);
    }
    let uppers = row_of(alloc, edges.ranks, rank)?;
    let lowers = row_of(alloc, edges.ranks, rank + 1)?;
    Ok(are_joined(cables, uppers.as_slice(), lowers.as_slice()))
}

fn are_joined(cables: &[Cable], uppers: &[usize], lowers: &[usize]) -> bool
    ensures { result ≡ are_joined cables.now uppers.now lowers.now }
{
    uppers.len() >= 2 && lowers.len() >= 2 && all_cabled(cables, uppers, lowers)
}

/// Whether each switch of the one row is cabled to each of the other.
fn all_cabled(cables: &[Cable], uppers: &[usize], lowers: &[usize]) -> bool
    ensures { result ≡ list_all (is_cabled_to_all cables.now lowers.now) uppers.now }
{
    uppers
        .iter()
        .all(|upper| is_cabled_to_all(cables, lowers, *upper))
}

fn is_cabled_to_all(cables: &[Cable], lowers: &[usize], upper: usize) -> bool
    ensures { result ≡ is_cabled_to_all cables.now lowers.now upper }
{
    lowers.iter().all(|lower| are_cabled(cables, upper, *lower))
}

fn are_cabled(cables: &[Cable], one: usize, other: usize) -> bool
    ensures { result ≡ are_cabled cables.now one other }
{
    cables.iter().any(|cable| joins(one, other, cable))
}

/// Whether the cable joins these two nodes.
fn joins(one: usize, other: usize, cable: &Cable) -> bool
    ensures { result ≡ joins one other cable.now }
{
    let first = cable.first.node;
    let second = cable.second.node;
    (first == one && second == other) || (first == other && second == one)
}

/// How many cables lead from the row of that rank to the next, and are drawn as all others.
fn count_of(edges: Edges<'_>, rank: usize) -> usize
    ensures { result
        ≡ count_by (may_count_at (picture_of edges.entry.topology.now edges.entry.ranks.now edges.entry.fabric.now edges.entry.looks.now) rank)
        (range_with_len 0 (length edges.entry.topology.now.cables)) }
{
    (0..edges.topology.cables().len())
        .filter(|place| may_count_at(edges, rank, *place))
        .count()
}

fn may_count_at(edges: Edges<'_>, rank: usize, place: usize) -> bool
    ensures { result
        ≡ may_count_at (picture_of edges.entry.topology.now edges.entry.ranks.now edges.entry.fabric.now edges.entry.looks.now) rank place }
{
    match edges.topology.cables().get(place) {
        Some(cable) => may_count(edges, rank, look_at(edges.looks, place), cable),
        None => false,
    }
}

fn may_count(edges: Edges<'_>, rank: usize, look: Look, cable: &Cable) -> bool
    ensures { result
        ≡ may_count (picture_of edges.entry.topology.now edges.entry.ranks.now edges.entry.fabric.now edges.entry.looks.now) rank look cable.now }
{
    leads_down(edges.ranks, rank, cable) && is_ordinary(edges.fabric, look, cable)
}

/// Whether the cable leads from the row of that rank to the next.
fn leads_down(ranks: &[Option<usize>], rank: usize, cable: &Cable) -> bool
    ensures { result ≡ leads_down ranks.now rank cable.now }
{
    match upper_rank(ranks, cable) {
        Some(upper) => upper == rank,
        None => false,
    }
}

/// The rank of the upper end, if the lower end has the next one.
fn upper_rank(ranks: &[Option<usize>], cable: &Cable) -> Option<usize>
    ensures { result ≡ upper_rank ranks.now cable.now }
{
    upper_of(
        rank_at(ranks, cable.first.node),
        rank_at(ranks, cable.second.node),
    )
}

fn upper_of(one: Option<usize>, other: Option<usize>) -> Option<usize>
    ensures { result ≡ upper_of one other }
{
    match (one, other) {
        (Some(one), Some(other)) if is_next(one, other) => Some(one),
        (Some(one), Some(other)) if is_next(other, one) => Some(other),
        _ => None,
    }
}

/// Whether the second rank is that below the first.
fn is_next(rank: usize, other: usize) -> bool
    ensures { result ≡ is_next rank other }
{
    match other.checked_sub(1) {
        Some(before) => before == rank,
        None => false,
    }
}

/// Whether the cable is drawn as all others.
fn is_ordinary(fabric: &Fabric, look: Look, cable: &Cable) -> bool
    ensures { result ≡ is_ordinary fabric.now look cable.now }
{
    is_plain(look) && !is_cut(fabric, cable)
}

fn is_plain(look: Look) -> bool
    ensures { result ≡ is_plain look }
{
    matches!(look, Look::Plain)
}

/// Whether there is a thick edge between the row of that rank and the next.
pub(crate) fn is_thick(thick: &[usize], rank: usize) -> bool
    ensures { result ≡ is_thick thick.now rank }
{
    match thick.get(rank) {
        Some(count) => *count > 0,
        None => false,
    }
}

/// Whether a thick edge stands for the cable.
pub(crate) fn is_merged(edges: Edges<'_>, thick: &[usize], look: Look, cable: &Cable) -> bool
    ensures { result
        ≡ is_merged thick.now (picture_of edges.entry.topology.now edges.entry.ranks.now edges.entry.fabric.now edges.entry.looks.now) look cable.now }
{
    match upper_rank(edges.ranks, cable) {
        Some(rank) => is_thick(thick, rank) && is_ordinary(edges.fabric, look, cable),
        None => false,
    }
}
