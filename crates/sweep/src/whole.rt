//! Whether the cables of a graph serve to sweep it: how far its switches are from the subnet manager's, found breadth
//! first over its links. The paths by which the switches were found say nothing of it once a cable is gone.

ghost use Rattle.std.specs.Prelude.{◌≡◌, ◌<◌, ℕ, ◌==◌, ◌&&◌, length, find, option_map, IfOk};
ghost use Rattle.std.specs.Bool.{Decides};
ghost use Rattle.std.specs.List.{list_all, list_any};
ghost use Rattle.std.specs.Option.{is_some};
ghost use Rattle.sweep.specs.Recabled.{IsWhole, manager_switch};
ghost use Rattle.sweep.specs.Rounds.{AreDistances, AreInside, are_served, found_at, further, is_exactly, is_reached, is_served, or_further, serve};

use crate::agreement::links_at;
use crate::graph::{Graph, GraphLink, GraphPort, GraphRow};
use crate::path::PATH_HOPS;
use std::alloc::{AllocError, Global};

impl Graph {
    /// Whether its cables join all its switches, and an SMP goes over each of them: whether a sweep of a fabric that has
    /// these cables finds all of it. It can only run out of memory.
    pub fn is_whole(&self, alloc: Global) -> Result<bool, AllocError>
        ensures { IfOk result (λ whole. Decides whole (IsWhole self.now)) }
    {
        let found = distances(alloc, &self.rows, self.manager_switch())?;
        Ok(serve(&self.rows, &self.ports, &found))
    }

    /// The place of the switch to which the SM port is attached.
    fn manager_switch(&self) -> usize
        ensures { result ≡ manager_switch self.now }
    {
        switch_of(&self.ports, self.manager).unwrap_or(0)
    }
}

/// The place of the switch to which the first port with that GUID is attached.
fn switch_of(ports: &[GraphPort], guid: u64) -> Option<usize>
    ensures { result ≡ option_map (λ port. port.at.node) (find (λ port. port.port_guid == guid) ports.now) }
{
    ports
        .iter()
        .find(|port| port.port_guid == guid)
        .map(|port| port.at.node)
}

/// How many cables lead from the switch at that place to each, if some do. It can only run out of memory.
fn distances(
    alloc: Global,
    rows: &[GraphRow],
    from: usize,
) -> Result<Vec<Option<usize>>, AllocError>
    requires inside { AreInside rows.now }
    requires there { from < length rows.now }
    ensures { IfOk result (λ found. AreDistances rows.now from found.items) }
{
    let mut found = vec![in alloc; None; rows.len()]?;
    found[from] = Some(0);
    for round in 0..rows.len() {
        if !is_come_to(&found, round) {
            break;
        }
        spread(rows, &mut found, round);
    }
    Ok(found)
}

/// Whether some switch is at that distance.
fn is_come_to(found: &[Option<usize>], distance: usize) -> bool
    ensures { result ≡ list_any (λ one. is_exactly one distance) found.now }
{
    found.iter().any(|one| *one == Some(distance))
}

/// Finds the switches that are one cable further than those of the round.
fn spread(rows: &[GraphRow], found: &mut [Option<usize>], round: usize)
    requires round { round < length rows.now }
    requires count { length found.old ≡ length rows.now }
    ensures { (t : ℕ) → t < length found.old → found_at found.new t ≡ further rows.now found.old round t }
{
    for place in 0..rows.len() {
        if found[place] == Some(round) {
            reach(links_at(rows, place), found, round + 1);
        }
    }
}

/// Notes the distance of the switches at the other ends of links, if they are not found yet.
fn reach(links: &[GraphLink], found: &mut [Option<usize>], distance: usize)
    ensures { (t : ℕ) → t < length found.old → found_at found.new t
        ≡ or_further (found_at found.old t) (list_any (λ link. link.to.node == t) links.now) distance }
{
    for link in links {
        let place = link.to.node;
        if place < found.len() && found[place].is_none() {
            found[place] = Some(distance);
        }
    }
}

/// Whether each switch is found, and each link and port has an end at one that is near.
fn serve(rows: &[GraphRow], ports: &[GraphPort], found: &[Option<usize>]) -> bool
    ensures { result ≡ serve rows.now ports.now found.now }
{
    are_found(found) && are_served(rows, found) && are_reached(ports, found)
}

/// Whether each switch is found.
fn are_found(found: &[Option<usize>]) -> bool
    ensures { result ≡ list_all is_some found.now }
{
    found.iter().all(|one| one.is_some())
}

/// Whether each link has an end at a switch that is near.
fn are_served(rows: &[GraphRow], found: &[Option<usize>]) -> bool
    ensures { result ≡ are_served rows.now found.now }
{
    (0..rows.len()).all(|place| is_served(links_at(rows, place), found, place))
}

/// Whether each of these links of the switch at that place has such an end.
#[tactic(auto, using(crate::proofs::ServedLemmas::served_by_either))]
fn is_served(links: &[GraphLink], found: &[Option<usize>], place: usize) -> bool
    ensures { result ≡ list_all (is_served found.now place) links.now }
{
    is_reached(found, place) || links.iter().all(|link| is_reached(found, link.to.node))
}

/// Whether each port is attached to a switch that is near.
fn are_reached(ports: &[GraphPort], found: &[Option<usize>]) -> bool
    ensures { result ≡ list_all (λ port. is_reached found.now port.at.node) ports.now }
{
    ports.iter().all(|port| is_reached(found, port.at.node))
}

/// Whether a path comes to that switch that a hop can be added to: its first hop leads to the subnet manager's switch.
fn is_reached(found: &[Option<usize>], place: usize) -> bool
    ensures { result ≡ is_reached found.now place }
{
    match found.get(place) {
        Some(Some(distance)) => *distance <= PATH_HOPS - 2,
        _ => false,
    }
}
