//! How far switches are from some of them.

ghost use Rattle.std.specs.Prelude.{◌≡◌, ◌<◌, true, map, length, IfOk};
ghost use Rattle.std.specs.List.{list_any};
ghost use Rattle.std.specs.Option.{unwrap_or};
ghost use Rattle.sweep.specs.Rounds.{is_exactly};
ghost use Rattle.updn_routes.specs.Cabling.{AllJoined, is_cabling, links_of};
ghost use Rattle.updn_routes.specs.Order.{AreDistances};
ghost use Rattle.updn_routes.specs.Rounds.{at_first, found_at, further, is_marked, spread};

use crate::link::Link;
use crate::row::{Row, links_of};
use std::alloc::{AllocError, Global};

/// How many cables lead from each switch to the nearest that is marked. It can only run out of memory.
#[tactic(auto, using(crate::proofs::RoundLemmas::found_first, crate::proofs::RoundLemmas::found_more, crate::proofs::RoundLemmas::found_all))]
pub(crate) fn distances(
    alloc: Global,
    rows: &[Row],
    marks: &[bool],
) -> Result<Vec<usize>, AllocError>
    requires cabling { is_cabling rows.now ≡ true }
    requires joined { AllJoined rows.now }
    requires count { length marks.now ≡ length rows.now }
    requires some { list_any (λ is. is) marks.now ≡ true }
    ensures { IfOk result (λ found. AreDistances rows.now (is_marked marks.now) found.items) }
{
    let mut found = at_first(alloc, marks)?;
    for round in 0..rows.len() {
        found = spread(alloc, rows, &found, round)?;
    }
    all_found(alloc, &found)
}

/// The marked switches alone, at distance 0.
fn at_first(alloc: Global, marks: &[bool]) -> Result<Vec<Option<usize>>, AllocError>
    ensures { IfOk result (λ found. found.items ≡ map at_first marks.now) }
{
    marks
        .iter()
        .map(|is| if *is { Some(0) } else { None })
        .collect(alloc)
}

/// The distances as they are after one more round.
fn spread(
    alloc: Global,
    rows: &[Row],
    found: &[Option<usize>],
    round: usize,
) -> Result<Vec<Option<usize>>, AllocError>
    requires { round < length rows.now }
    ensures { IfOk result (λ next. next.items ≡ spread rows.now found.now round) }
{
    (0..rows.len())
        .map(|switch| further(rows, found, round, switch))
        .collect(alloc)
}

/// What the round finds of a switch.
fn further(rows: &[Row], found: &[Option<usize>], round: usize, switch: usize) -> Option<usize>
    requires { round < length rows.now }
    ensures { result ≡ further rows.now found.now round switch }
{
    match found_at(found, switch) {
        Some(distance) => Some(distance),
        None if is_next_to(links_of(rows, switch), found, round) => Some(round + 1),
        None => None,
    }
}

/// Whether some link leads to a switch at that distance.
fn is_next_to(links: &[Link], found: &[Option<usize>], distance: usize) -> bool
    ensures { result ≡ list_any (λ link. is_exactly (found_at found.now link.to) distance) links.now }
{
    links
        .iter()
        .any(|link| found_at(found, link.to) == Some(distance))
}

/// The distance of a switch, if it is found.
fn found_at(found: &[Option<usize>], switch: usize) -> Option<usize>
    ensures { result ≡ found_at found.now switch }
{
    match found.get(switch) {
        Some(distance) => *distance,
        None => None,
    }
}

/// The distances, once all are found.
fn all_found(alloc: Global, found: &[Option<usize>]) -> Result<Vec<usize>, AllocError>
    ensures { IfOk result (λ distances. distances.items ≡ map (λ one. unwrap_or one 0) found.now) }
{
    found.iter().map(|one| one.unwrap_or(0)).collect(alloc)
}
