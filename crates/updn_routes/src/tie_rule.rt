//! Which of several ports a switch takes if they lead equally far.

ghost use Rattle.std.specs.Prelude.{◌≡◌, ◌<◌, ◌≤◌, IfOk};
ghost use Rattle.fabric_parts.specs.declared.lid.TheConstants.{LAST_UNICAST_LID};
ghost use Rattle.fabric_parts.specs.declared.limits.TheConstants.{SWITCHES};
ghost use Rattle.updn_routes.specs.Ties.{is_earlier, number_of_home, numbers_of, tie_of, turn};

use crate::place::place_at;
use fabric_parts::PortRef;
use std::alloc::{AllocError, Global};

/// Which of its ties a switch takes: of the ports that begin a shortest up/down path of the kind that is chosen, in order.
/// The standard leaves that to a subnet manager (IBA volume 1, chapter 14).
#[derive(Clone, Copy, Debug)]
pub enum TieRule {
    /// The least port, for every LID alike: all traffic between two places takes one path.
    LeastPort,
    /// By the channel adapter's port and the switch, so that traffic to adapters goes by all ties in turn.
    Balanced,
}

impl TieRule {
    /// Which of so many ties is taken, from 0, for an adapter's port of that number, at a switch of that rank that so many others
    /// precede by rank and GUID.
    pub(crate) fn tie_of(self, number: usize, rank: usize, place: usize, ties: usize) -> usize
        requires some { 0 < ties }
        requires few_lids { number ≤ LAST_UNICAST_LID }
        requires few { place ≤ SWITCHES }
        ensures { result ≡ tie_of self number rank place ties }
    {
        match self {
            TieRule::LeastPort => 0,
            TieRule::Balanced => turn(number, rank, place, ties),
        }
    }
}

/// One tie after the other, and on by a step of this rank where these have gone round.
#[tactic(auto, using(crate::proofs::TurnLemmas::steps_few))]
fn turn(number: usize, rank: usize, place: usize, ties: usize) -> usize
    requires some { 0 < ties }
    requires few_lids { number ≤ LAST_UNICAST_LID }
    requires few { place ≤ SWITCHES }
    ensures { result ≡ turn number rank place ties }
{
    let step = rank % ties + 1;
    let rounds = number / ties;
    (number + step * rounds + place) % ties
}

/// The numbers of adapters' ports, by LID, if the rule asks for them. It can only run out of memory.
pub(crate) fn numbers(
    alloc: Global,
    rule: TieRule,
    places: &[usize],
    homes: &[PortRef],
) -> Result<Vec<usize>, AllocError>
    ensures { IfOk result (λ numbers. numbers.items ≡ numbers_of rule places.now homes.now) }
{
    match rule {
        TieRule::LeastPort => Ok(Vec::new(alloc)),
        TieRule::Balanced => homes
            .iter()
            .map(|home| number_of_home(places, homes, home))
            .collect(alloc),
    }
}

/// How many adapters' ports are attached to earlier ports of switches.
fn number_of_home(places: &[usize], homes: &[PortRef], home: &PortRef) -> usize
    ensures { result ≡ number_of_home places.now homes.now home.now }
{
    homes
        .iter()
        .filter(|other| other.port != 0 && is_earlier(places, other, home))
        .count()
}

/// Whether the one port of a switch comes before the other: by the places of their switches, and of one switch by its number.
fn is_earlier(places: &[usize], one: &PortRef, other: &PortRef) -> bool
    ensures { result ≡ is_earlier places.now one.now other.now }
{
    let place = place_at(places, one.node);
    let other_place = place_at(places, other.node);
    place < other_place || (place == other_place && one.port < other.port)
}
