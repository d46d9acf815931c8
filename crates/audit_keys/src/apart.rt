//! How apart the partition file itself keeps the ports.

ghost use Rattle.std.specs.Prelude.{◌≡◌, ◌≤◌, ◌<◌, ◌++◌, count_by, flat_map, fold, length, map, nat_lt, position, [], IfOk, IfSome, OnOk};
ghost use Rattle.audit_keys.specs.Apart.{all_wide, are_many, by_file, lines_of, more_line, pairs_by_file, pairs_of, place_behind, ranked, ranked_with};
ghost use Rattle.audit_keys.specs.Apart.{wide_by, wide_line, wide_lines, wide_with};
ghost use Rattle.audit_keys.specs.Diagnosis.{is_read};
ghost use Rattle.audit_keys.specs.Standing.{HaveBasesOf};

use crate::standing::{push_count, standing};
use audit_ports::{AuditedPort, push_key};
use partition_reports::{Member, Membership, new_pair_count};
use std::alloc::{AllocError, Global};
use text_words::push_decimal;

/// A partition in which the file lets at least half of all pairs of ports talk.
#[derive(Clone, Copy)]
pub(crate) struct Wide {
    /// Its base.
    pub(crate) base: u16,
    /// How many pairs may talk in it.
    pub(crate) count: u128,
}

/// How many of these partitions have a line.
const PRINTED: usize = 8;

fn by_file(base: u16, port: &AuditedPort) -> Member
    ensures { result ≡ by_file base port.now }
{
    Member {
        port: port.port,
        after: standing(base, port).before,
        before: Membership::Outside,
    }
}

fn all_by_file(alloc: Global, base: u16, ports: &[AuditedPort]) -> Result<Vec<Member>, AllocError>
    ensures { IfOk result (λ members. members.items ≡ map (by_file base) ports.now) }
{
    ports.iter().map(|port| by_file(base, port)).collect(alloc)
}

fn read_count(ports: &[AuditedPort]) -> usize
    ensures { result ≡ count_by is_read ports.now }
{
    ports.iter().filter(|port| port.table.is_some()).count()
}

/// How many pairs so many ports make.
fn pairs_of(count: usize) -> u128
    ensures { result ≡ pairs_of count }
{
    let count = count as u128;
    count * count.saturating_sub(1) / 2
}

fn are_many(count: u128, total: u128) -> bool
    ensures { result ≡ are_many count total }
{
    count != 0 && total.saturating_sub(count) <= count
}

/// Where the first of these partitions stands in which fewer pairs may talk.
fn first_narrower(count: u128, all: &[Wide]) -> Option<usize>
    ensures value { result ≡ position (λ one. nat_lt one.count count) all.now }
    ensures within { IfSome result (λ place. place < length all.now) }
{
    all.iter().position(|one| one.count < count)
}

/// Where a partition in which so many pairs may talk belongs: behind those in which as many may.
fn place_behind(count: u128, all: &[Wide]) -> usize
    ensures value { result ≡ place_behind count all.now }
    ensures within { result ≤ length all.now }
{
    match first_narrower(count, all) {
        Some(place) => place,
        None => all.len(),
    }
}

fn note(all: &mut Vec<Wide>, one: Wide) -> Result<(), AllocError>
    ensures { OnOk result (all.new.items ≡ ranked_with all.old.items one) }
{
    let place = place_behind(one.count, all.as_slice());
    all.insert(place, one)?;
    Ok(())
}

fn note_if_many(all: &mut Vec<Wide>, base: u16, count: u128, total: u128) -> Result<(), AllocError>
    ensures { OnOk result (all.new.items ≡ fold ranked_with all.old.items (wide_by base count total)) }
{
    if are_many(count, total) {
        return note(all, Wide { base, count });
    }
    Ok(())
}

#[tactic(auto, unfolding(crate::specs::Apart::wide_at))]
fn note_base(
    alloc: Global,
    all: &mut Vec<Wide>,
    ports: &[AuditedPort],
    base: u16,
) -> Result<(), AllocError>
    ensures { OnOk result (all.new.items ≡ wide_with ports.now all.old.items base) }
{
    let members = all_by_file(alloc, base, ports)?;
    let count = new_pair_count(&members);
    note_if_many(all, base, count, pairs_of(read_count(ports)))
}

/// The partitions in which the file lets at least half of all pairs talk, those in which most may first.
fn ranked_wide(alloc: Global, ports: &[AuditedPort], bases: &[u16]) -> Result<Vec<Wide>, AllocError>
    requires { HaveBasesOf ports.now bases.now }
    ensures { IfOk result (λ all. all.items ≡ ranked (all_wide ports.now)) }
{
    let mut all = Vec::new(alloc);
    for base in bases {
        note_base(alloc, &mut all, ports, *base)?;
    }
    Ok(all)
}

#[tactic(auto, unfolding(crate::specs::Apart::wide_line))]
fn push_line(text: &mut Vec<u8>, one: Wide, total: u128) -> Result<(), AllocError>
    ensures { OnOk result (text.new.items ≡ text.old.items ++ wide_line total one) }
{
    text.extend_from_slice(b"by the file: ")?;
    push_count(text, one.count)?;
    text.extend_from_slice(b" of ")?;
    push_count(text, total)?;
    text.extend_from_slice(b" pairs may talk in")?;
    push_key(text, one.base)?;
    text.push(b'\n')?;
    Ok(())
}

fn push_each(text: &mut Vec<u8>, all: &[Wide], total: u128) -> Result<(), AllocError>
    ensures { OnOk result (text.new.items ≡ text.old.items ++ flat_map (wide_line total) all.now) }
{
    for one in all {
        push_line(text, *one, total)?;
    }
    Ok(())
}

#[tactic(auto, unfolding(crate::specs::Apart::more_line))]
fn push_more(text: &mut Vec<u8>, count: usize) -> Result<(), AllocError>
    ensures { OnOk result (text.new.items ≡ text.old.items ++ more_line count) }
{
    if count == 0 {
        return Ok(());
    }
    text.extend_from_slice(b"# in ")?;
    push_decimal(text, count)?;
    text.extend_from_slice(b" more partitions the file lets at least half of all pairs talk\n")
}

#[tactic(auto, unfolding(crate::specs::Apart::lines_of))]
fn push_lines(text: &mut Vec<u8>, all: &[Wide], total: u128) -> Result<(), AllocError>
    ensures { OnOk result (text.new.items ≡ text.old.items ++ lines_of total all.now) }
{
    push_each(text, &all[..all.len().min(PRINTED)], total)?;
    push_more(text, all.len().saturating_sub(PRINTED))
}

/// The partitions in which the file lets at least half of all pairs talk: eight of them, those in which most may first.
#[tactic(auto, unfolding(crate::specs::Apart::wide_lines))]
pub(crate) fn push_wide_lines(
    alloc: Global,
    text: &mut Vec<u8>,
    ports: &[AuditedPort],
    bases: &[u16],
) -> Result<(), AllocError>
    requires { HaveBasesOf ports.now bases.now }
    ensures { OnOk result (text.new.items ≡ text.old.items ++ wide_lines ports.now) }
{
    let all = ranked_wide(alloc, ports, bases)?;
    push_lines(text, &all, pairs_of(read_count(ports)))
}
