//! The pairs, counted by the members alone.

ghost use Rattle.std.specs.Prelude.{◌≡◌, ◌≤◌, count_by, length};
ghost use Rattle.partition_reports.specs.Pairs.{pair_count};
ghost use Rattle.partition_reports.specs.Counts.{is_full_in_any, is_full_in_both_before, is_full_in_both_now, is_full_now, is_in_both, is_now, kept_count};
ghost use Rattle.partition_reports.specs.ChangedPairs.{new_pairs};

use crate::pairs::Member;

/// How many pairs so many members make, of which at least one is full.
fn pair_count(members: usize, full: usize) -> u128
    requires full { full ≤ members }
    ensures { result ≡ pair_count members full }
{
    let limited = (members - full) as u128;
    let full = full as u128;
    full * full.saturating_sub(1) / 2 + full * limited
}

fn is_in_both(member: &Member) -> bool
    ensures { result ≡ is_in_both member.now }
{
    member.after.is_member() && member.before.is_member()
}

fn now_count(members: &[Member]) -> usize
    ensures { result ≡ count_by is_now members.now }
{
    members
        .iter()
        .filter(|member| member.after.is_member())
        .count()
}

fn full_count(members: &[Member]) -> usize
    ensures { result ≡ count_by is_full_now members.now }
{
    members
        .iter()
        .filter(|member| member.after.is_member() && member.after.is_full())
        .count()
}

fn both_count(members: &[Member]) -> usize
    ensures { result ≡ count_by is_in_both members.now }
{
    members.iter().filter(|member| is_in_both(*member)).count()
}

fn both_full_now_count(members: &[Member]) -> usize
    ensures { result ≡ count_by is_full_in_both_now members.now }
{
    members
        .iter()
        .filter(|member| is_in_both(*member) && member.after.is_full())
        .count()
}

fn both_full_before_count(members: &[Member]) -> usize
    ensures { result ≡ count_by is_full_in_both_before members.now }
{
    members
        .iter()
        .filter(|member| is_in_both(*member) && member.before.is_full())
        .count()
}

fn any_full_count(members: &[Member]) -> usize
    ensures { result ≡ count_by is_full_in_any members.now }
{
    members
        .iter()
        .filter(|member| is_in_both(*member) && (member.after.is_full() || member.before.is_full()))
        .count()
}

/// How many pairs may talk now and both before and now: those in which one is full now, and those in which one was full before,
/// less those in which one is full in either.
fn kept_count(members: &[Member]) -> u128
    ensures { result ≡ kept_count members.now }
{
    let both = both_count(members);
    let now = pair_count(both, both_full_now_count(members));
    let before = pair_count(both, both_full_before_count(members));
    let any = pair_count(both, any_full_count(members));
    now + before - any
}

/// How many pairs may talk now that might not before. Time is linear in the ports: no pair is looked at.
pub fn new_pair_count(members: &[Member]) -> u128
    ensures { result ≡ length (new_pairs members.now) }
{
    pair_count(now_count(members), full_count(members)) - kept_count(members)
}
