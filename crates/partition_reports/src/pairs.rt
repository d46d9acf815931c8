//! The pairs, one by one.

ghost use Rattle.std.specs.Prelude.{◌≡◌, ◌++◌, filter, IfOk, OnOk};
ghost use Rattle.std.specs.List.{flat_map};
ghost use Rattle.partition_reports.specs.Counts.{changed_behind, is_changed, is_now};
ghost use Rattle.partition_reports.specs.ChangedPairs.{gains, new_pairs, pair_if};

use crate::counting::new_pair_count;
use crate::membership::Membership;
use fabric_parts::PortRef;
use std::alloc::{AllocError, Global};

/// An end port, and what it is in a partition now and before.
#[derive(Clone, Copy, Debug, PartialEq, Eq)]
pub struct Member {
    /// The port.
    pub port: PortRef,
    /// What it is now.
    pub after: Membership,
    /// What it was before.
    pub before: Membership,
}

/// Two end ports, in the order of their list.
#[derive(Clone, Copy, Debug, PartialEq, Eq)]
pub struct Pair {
    /// One of them.
    pub first: PortRef,
    /// The other.
    pub second: PortRef,
}

fn gains(member: &Member, other: &Member) -> bool
    ensures { result ≡ gains member.now other.now }
{
    member.after.may_talk(other.after) && !member.before.may_talk(other.before)
}

fn push_if_new(pairs: &mut Vec<Pair>, member: &Member, other: &Member) -> Result<(), AllocError>
    ensures { OnOk result (pairs.new.items ≡ pairs.old.items ++ pair_if member.now other.now) }
{
    if gains(member, other) {
        pairs.push(Pair {
            first: member.port,
            second: other.port,
        })?;
    }
    Ok(())
}

fn push_others(pairs: &mut Vec<Pair>, member: &Member, others: &[Member]) -> Result<(), AllocError>
    ensures { OnOk result (pairs.new.items ≡ pairs.old.items ++ flat_map (pair_if member.now) others.now) }
{
    for other in others {
        push_if_new(pairs, member, other)?;
    }
    Ok(())
}

/// Whether it is another member now than before. Two members of whom neither changed gain nothing.
fn is_changed(member: &Member) -> bool
    ensures { result ≡ is_changed member.now }
{
    !member.after.is_like(member.before)
}

fn all_changed(alloc: Global, members: &[Member]) -> Result<Vec<Member>, AllocError>
    ensures { IfOk result (λ found. found.items ≡ filter is_changed members.now) }
{
    members
        .iter()
        .copied()
        .filter(|member| is_changed(member))
        .collect(alloc)
}

/// The changed members behind this one, of the changed ones from it on.
fn changed_behind<'a>(member: &Member, changed: &'a [Member]) -> &'a [Member]
    ensures { result.now ≡ changed_behind member.now changed.now }
{
    if !is_changed(member) {
        return changed;
    }
    match changed.split_first() {
        Some((_, behind)) => behind,
        None => changed,
    }
}

/// Adds the pairs of a member with those behind it, of whom these have changed.
#[tactic(auto, using(crate::proofs::PairLawLemmas::row_of_changed))]
fn push_row(
    pairs: &mut Vec<Pair>,
    member: &Member,
    others: &[Member],
    changed: &[Member],
) -> Result<(), AllocError>
    requires changed { changed.now ≡ filter is_changed others.now }
    ensures { OnOk result (pairs.new.items ≡ pairs.old.items ++ flat_map (pair_if member.now) others.now) }
{
    if is_changed(member) {
        push_others(pairs, member, others)
    } else {
        push_others(pairs, member, changed)
    }
}

#[tactic(auto, using(crate::proofs::PairLawLemmas::changed_go_on))]
fn all_pairs(alloc: Global, members: &[Member], changed: &[Member]) -> Result<Vec<Pair>, AllocError>
    requires changed { changed.now ≡ filter is_changed members.now }
    ensures { IfOk result (λ pairs. pairs.items ≡ new_pairs members.now) }
{
    let mut pairs = Vec::new(alloc);
    let mut rest = members;
    let mut changed_rest = changed;
    while let Some((member, others)) = rest.split_first() {
        changed_rest = changed_behind(member, changed_rest);
        push_row(&mut pairs, member, others, changed_rest)?;
        rest = others;
    }
    Ok(pairs)
}

fn current(alloc: Global, members: &[Member]) -> Result<Vec<Member>, AllocError>
    ensures { IfOk result (λ found. found.items ≡ filter is_now members.now) }
{
    members
        .iter()
        .copied()
        .filter(|member| member.after.is_member())
        .collect(alloc)
}

/// The pairs that may talk now and might not before: each port with each behind it. It can only run out of memory. Time is
/// linear in the ports if there is no such pair, and else linear in the ports times those that are another member now than before.
pub fn new_pairs(alloc: Global, members: &[Member]) -> Result<Vec<Pair>, AllocError>
    ensures { IfOk result (λ pairs. pairs.items ≡ new_pairs members.now) }
{
    if new_pair_count(members) == 0 {
        return Ok(Vec::new(alloc));
    }
    let found = current(alloc, members)?;
    let changed = all_changed(alloc, &found)?;
    let pairs = all_pairs(alloc, &found, &changed)?;
    Ok(pairs)
}
