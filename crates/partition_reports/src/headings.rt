//! Partitions with their numbers, and their groups.

ghost use Rattle.std.specs.Prelude.{◌≡◌, ◌++◌, ◌==◌, OnOk, codes, decimal, option_map, position};
ghost use Rattle.std.specs.List.{flat_map};
ghost use Rattle.std.specs.Option.{option_copied};
ghost use Rattle.partition_reports.specs.Changes.{group_line, grouped, partition_line, partition_of, same_fields, same_group, same_groups, same_partition, stays};
ghost use Rattle.partition_reports.specs.FoundChanges.{group_text, partition_text, placed, signed};

use crate::lines::push_heading_line;
use partition_file::{BroadcastGroup, Heading};
use std::alloc::AllocError;
use text_words::{push_decimal, push_hex};

/// What changes of partitions.
pub(crate) fn push_partitions(
    text: &mut Vec<u8>,
    before: &[Heading],
    after: &[Heading],
    bases: &[u16],
) -> Result<(), AllocError>
    ensures { OnOk result (text.new.items ≡ text.old.items ++ flat_map (partition_text before.now after.now) bases.now) }
{
    for base in bases {
        push_partition(text, before, after, *base)?;
    }
    Ok(())
}

fn push_partition(
    text: &mut Vec<u8>,
    before: &[Heading],
    after: &[Heading],
    base: u16,
) -> Result<(), AllocError>
    ensures { OnOk result (text.new.items ≡ text.old.items ++ partition_text before.now after.now base) }
{
    let was = partition_of(before, base);
    let becomes = partition_of(after, base);
    if partition_stays(was, becomes) {
        return Ok(());
    }
    push_signed_partition(text, b"- ", was)?;
    push_signed_partition(text, b"+ ", becomes)
}

/// The partition of this base, with its number.
fn partition_of(headings: &[Heading], base: u16) -> Option<(usize, &Heading)>
    ensures { option_map placed result ≡ partition_of headings.now base }
{
    let number = number_of(headings, base)?;
    let heading = headings.get(number)?;
    Some((number, heading))
}

/// The number of the partition of this base, which is its place.
fn number_of(headings: &[Heading], base: u16) -> Option<usize>
    ensures { result ≡ position (λ heading. heading.base == base) headings.now }
{
    headings.iter().position(|heading| heading.base == base)
}

fn partition_stays(was: Option<(usize, &Heading)>, becomes: Option<(usize, &Heading)>) -> bool
    ensures { result ≡ stays same_partition (option_map placed was.entry) (option_map placed becomes.entry) }
{
    match (was, becomes) {
        (Some((number, heading)), Some((other_number, other))) => {
            number == other_number
                && heading.base == other.base
                && heading.name.as_bytes() == other.name.as_bytes()
        }
        _ => false,
    }
}

fn push_signed_partition(
    text: &mut Vec<u8>,
    mark: &[u8],
    partition: Option<(usize, &Heading)>,
) -> Result<(), AllocError>
    ensures { OnOk result (text.new.items ≡ text.old.items ++ signed mark.now partition_line (option_map placed partition.entry)) }
{
    match partition {
        Some((number, heading)) => {
            text.extend_from_slice(mark)?;
            push_heading_line(text, number, heading)
        }
        None => Ok(()),
    }
}

/// What changes of groups.
pub(crate) fn push_groups(
    text: &mut Vec<u8>,
    before: &[Heading],
    after: &[Heading],
    bases: &[u16],
) -> Result<(), AllocError>
    ensures { OnOk result (text.new.items ≡ text.old.items ++ flat_map (group_text before.now after.now) bases.now) }
{
    for base in bases {
        push_group(text, before, after, *base)?;
    }
    Ok(())
}

fn push_group(
    text: &mut Vec<u8>,
    before: &[Heading],
    after: &[Heading],
    base: u16,
) -> Result<(), AllocError>
    ensures { OnOk result (text.new.items ≡ text.old.items ++ group_text before.now after.now base) }
{
    let was = grouped(before, base);
    let becomes = grouped(after, base);
    if group_stays(was, becomes) {
        return Ok(());
    }
    push_signed_group(text, b"- ", was)?;
    push_signed_group(text, b"+ ", becomes)
}

/// The partition of this base, if it has a group.
fn grouped(headings: &[Heading], base: u16) -> Option<&Heading>
    ensures { option_copied result ≡ grouped headings.now base }
{
    headings
        .iter()
        .find(|heading| heading.base == base && heading.group.is_some())
}

fn group_stays(was: Option<&Heading>, becomes: Option<&Heading>) -> bool
    ensures { result ≡ stays same_group (option_copied was.entry) (option_copied becomes.entry) }
{
    match (was, becomes) {
        (Some(heading), Some(other)) => same_group(heading, other),
        _ => false,
    }
}

fn same_group(heading: &Heading, other: &Heading) -> bool
    ensures { result ≡ same_group heading.now other.now }
{
    heading.base == other.base && same_groups(heading.group, other.group)
}

fn same_groups(group: Option<BroadcastGroup>, other: Option<BroadcastGroup>) -> bool
    ensures { result ≡ same_groups group other }
{
    match (group, other) {
        (Some(group), Some(other)) => same_fields(group, other),
        _ => false,
    }
}

fn same_fields(group: BroadcastGroup, other: BroadcastGroup) -> bool
    ensures { result ≡ same_fields group other }
{
    group.scope == other.scope
        && group.q_key == other.q_key
        && group.mtu == other.mtu
        && group.rate == other.rate
        && group.service_level == other.service_level
}

fn push_signed_group(
    text: &mut Vec<u8>,
    mark: &[u8],
    heading: Option<&Heading>,
) -> Result<(), AllocError>
    ensures { OnOk result (text.new.items ≡ text.old.items ++ signed mark.now group_line (option_copied heading.entry)) }
{
    match heading {
        Some(heading) => {
            text.extend_from_slice(mark)?;
            push_group_line(text, heading)
        }
        None => Ok(()),
    }
}

fn push_group_line(text: &mut Vec<u8>, heading: &Heading) -> Result<(), AllocError>
    ensures { OnOk result (text.new.items ≡ text.old.items ++ group_line heading.now) }
{
    let (Some(group), Some(mgid)) = (heading.group, heading.mgid()) else {
        return Ok(());
    };
    text.extend_from_slice(b"group ")?;
    push_hex(text, &heading.base.to_be_bytes())?;
    text.extend_from_slice(b" ")?;
    push_hex(text, &mgid)?;
    text.extend_from_slice(b" ")?;
    push_hex(text, &group.q_key.to_be_bytes())?;
    push_code(text, group.mtu)?;
    push_code(text, group.rate)?;
    push_code(text, group.service_level)?;
    text.push(b'\n')?;
    Ok(())
}

/// A blank and a code in decimal.
fn push_code(text: &mut Vec<u8>, code: u8) -> Result<(), AllocError>
    ensures { OnOk result (text.new.items ≡ text.old.items ++ (codes " " ++ decimal code)) }
{
    text.extend_from_slice(b" ")?;
    push_decimal(text, usize::from(code))
}
