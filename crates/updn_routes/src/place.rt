//! Switches by their places in the order, and their links by whether they lead down or up.

ghost use Rattle.std.specs.Prelude.{◌≡◌, map, [], length, get_or, IfOk};
ghost use Rattle.std.specs.List.{range_with_len};
ghost use Rattle.std.specs.Option.{option_map_or};
ghost use Rattle.updn_routes.specs.Cabling.{links_of};
ghost use Rattle.updn_routes.specs.Order.{place_of, precedes};
ghost use Rattle.updn_routes.specs.Places.{placed_link};
ghost use Rattle.updn_routes.specs.Tables.{all_downs, all_ups, downs_at, links_at, place_at, places_of, switch_at, ups_at};

use crate::link::Link;
use crate::row::{Row, links_of};
use std::alloc::{AllocError, Global};

/// The place of each switch. It can only run out of memory.
pub(crate) fn places(
    alloc: Global,
    ranks: &[usize],
    guids: &[u64],
) -> Result<Vec<usize>, AllocError>
    ensures { IfOk result (λ places. places.items ≡ places_of ranks.now guids.now) }
{
    (0..guids.len())
        .map(|switch| place_of(ranks, guids, switch))
        .collect(alloc)
}

/// How many switches come before this one.
fn place_of(ranks: &[usize], guids: &[u64], switch: usize) -> usize
    ensures { result ≡ place_of (precedes ranks.now guids.now) (length guids.now) switch }
{
    (0..guids.len())
        .filter(|other| precedes(ranks, guids, *other, switch))
        .count()
}

/// Whether the one switch comes before the other: by rank, and if ranks are equal by GUID.
fn precedes(ranks: &[usize], guids: &[u64], one: usize, other: usize) -> bool
    ensures { result ≡ precedes ranks.now guids.now one other }
{
    let rank = rank_of(ranks, one);
    let other_rank = rank_of(ranks, other);
    rank < other_rank || (rank == other_rank && guid_of(guids, one) < guid_of(guids, other))
}

fn rank_of(ranks: &[usize], switch: usize) -> usize
    ensures { result ≡ get_or ranks.now switch 0 }
{
    match ranks.get(switch) {
        Some(rank) => *rank,
        None => 0,
    }
}

pub(crate) fn guid_of(guids: &[u64], switch: usize) -> u64
    ensures { result ≡ get_or guids.now switch 0 }
{
    match guids.get(switch) {
        Some(guid) => *guid,
        None => 0,
    }
}

/// The place of a switch, and past all of them if there is no such switch.
pub(crate) fn place_at(places: &[usize], switch: usize) -> usize
    ensures { result ≡ place_at places.now switch }
{
    match places.get(switch) {
        Some(place) => *place,
        None => places.len(),
    }
}

/// The switch at a place.
fn switch_at(places: &[usize], place: usize) -> Option<usize>
    ensures { result ≡ switch_at places.now place }
{
    places.iter().position(|other| *other == place)
}

/// The links of the switch at a place.
fn own_links<'a>(rows: &'a [Row], places: &[usize], place: usize) -> &'a [Link]
    ensures { result.now ≡ option_map_or (links_of rows.now) (switch_at places.now place) [] }
{
    match switch_at(places, place) {
        Some(switch) => links_of(rows, switch),
        None => &[],
    }
}

/// A link, to a place.
fn placed_link(places: &[usize], link: &Link) -> Link
    ensures { result ≡ placed_link (place_at places.now) link.now }
{
    Link {
        port: link.port,
        to: place_at(places, link.to),
    }
}

/// The links of the switch at a place that lead down.
fn downs_at(
    alloc: Global,
    rows: &[Row],
    places: &[usize],
    place: usize,
) -> Result<Vec<Link>, AllocError>
    ensures { IfOk result (λ links. links.items ≡ downs_at rows.now places.now place) }
{
    own_links(rows, places, place)
        .iter()
        .map(|link| placed_link(places, link))
        .filter(|link| place < link.to)
        .collect(alloc)
}

/// The links of the switch at a place that lead up.
fn ups_at(
    alloc: Global,
    rows: &[Row],
    places: &[usize],
    place: usize,
) -> Result<Vec<Link>, AllocError>
    ensures { IfOk result (λ links. links.items ≡ ups_at rows.now places.now place) }
{
    own_links(rows, places, place)
        .iter()
        .map(|link| placed_link(places, link))
        .filter(|link| link.to < place)
        .collect(alloc)
}

/// The links that lead down, place by place. It can only run out of memory.
pub(crate) fn all_downs(
    alloc: Global,
    rows: &[Row],
    places: &[usize],
) -> Result<Vec<Row>, AllocError>
    ensures { IfOk result (λ downs. downs.items ≡ all_downs rows.now places.now) }
{
    let mut downs = Vec::new(alloc);
    for place in 0..places.len() {
        downs.push(Row::of(downs_at(alloc, rows, places, place)?))?;
    }
    Ok(downs)
}

/// The links that lead up, place by place. It can only run out of memory.
pub(crate) fn all_ups(alloc: Global, rows: &[Row], places: &[usize]) -> Result<Vec<Row>, AllocError>
    ensures { IfOk result (λ ups. ups.items ≡ all_ups rows.now places.now) }
{
    let mut ups = Vec::new(alloc);
    for place in 0..places.len() {
        ups.push(Row::of(ups_at(alloc, rows, places, place)?))?;
    }
    Ok(ups)
}
