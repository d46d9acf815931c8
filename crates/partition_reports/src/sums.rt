//! Who may talk to whom, counted.

ghost use Rattle.std.specs.Prelude.{◌≡◌, ◌≤◌, ◌++◌, true, count_by, length, IfOk, OnOk};
ghost use Rattle.std.specs.List.{list_all};
ghost use Rattle.pkey_rules.specs.PKey.{is_base};
ghost use Rattle.partition_reports.specs.Pairs.{pair_count};
ghost use Rattle.fabric_parts.specs.declared.lid.TheConstants.{LAST_UNICAST_LID};
ghost use Rattle.partition_file.specs.Members.{AreSoundHeadings, bases_in};
ghost use Rattle.partition_reports.specs.Sums.{are_few, is_full_member, is_member, listed_shares, sum_line, sum_of, sums_text};

use crate::shares::shares_text;
use fabric_parts::{ADAPTER_PORTS, SWITCHES};
use partition_file::Heading;
use std::alloc::{AllocError, Global};
use subnet_model::{Configuration, SubnetPort};
use text_words::{push_decimal, push_hex};

/// How many pairs of end ports may talk in a partition.
#[derive(Clone, Copy, Debug, PartialEq, Eq)]
pub struct PairSum {
    /// The base of the partition.
    pub base: u16,
    /// How many pairs of end ports may talk in it.
    pub pairs: usize,
    /// How many end ports are members of it.
    pub members: usize,
    /// How many of these are full members.
    pub full: usize,
}

fn is_member(base: u16, port: &SubnetPort) -> bool
    ensures { result ≡ is_member base port.now }
{
    port.keys.as_slice().iter().any(|key| key.base() == base)
}

fn is_full_member(base: u16, port: &SubnetPort) -> bool
    ensures { result ≡ is_full_member base port.now }
{
    port.keys
        .as_slice()
        .iter()
        .any(|key| key.base() == base && key.is_full())
}

fn member_count(base: u16, ports: &[SubnetPort]) -> usize
    ensures { result ≡ count_by (is_member base) ports.now }
{
    ports.iter().filter(|port| is_member(base, *port)).count()
}

fn full_count(base: u16, ports: &[SubnetPort]) -> usize
    ensures { result ≡ count_by (is_full_member base) ports.now }
{
    ports
        .iter()
        .filter(|port| is_full_member(base, *port))
        .count()
}

/// How many pairs of these ports may talk in the partition of this base. Time is linear in the ports and their keys:
/// no pair is looked at.
pub fn sum_of(ports: &[SubnetPort], base: u16) -> PairSum
    requires base { is_base base ≡ true }
    requires few { length ports.now ≤ LAST_UNICAST_LID }
    ensures { result ≡ sum_of ports.now base }
{
    let members = member_count(base, ports);
    let full = full_count(base, ports);
    PairSum {
        base,
        pairs: pair_count(members, full),
        members,
        full,
    }
}

/// How many pairs so many members make, of which at least one is full.
fn pair_count(members: usize, full: usize) -> usize
    requires members { members ≤ LAST_UNICAST_LID }
    requires full { full ≤ members }
    ensures { result ≡ pair_count members full }
{
    full * (full.saturating_sub(1) + 2 * (members - full)) / 2
}

/// Adds `pairs BASE PAIRS MEMBERS FULL`.
pub fn push_sum_line(text: &mut Vec<u8>, sum: PairSum) -> Result<(), AllocError>
    ensures { OnOk result (text.new.items ≡ text.old.items ++ sum_line sum) }
{
    text.extend_from_slice(b"pairs ")?;
    push_hex(text, &sum.base.to_be_bytes())?;
    text.push(b' ')?;
    push_decimal(text, sum.pairs)?;
    text.push(b' ')?;
    push_decimal(text, sum.members)?;
    text.push(b' ')?;
    push_decimal(text, sum.full)?;
    text.push(b'\n')?;
    Ok(())
}

/// A line for each of these partitions, in their order. It can only run out of memory.
fn sums_text(
    alloc: Global,
    headings: &[Heading],
    ports: &[SubnetPort],
) -> Result<Vec<u8>, AllocError>
    requires bases { list_all is_base (bases_in headings.now) ≡ true }
    requires few { length ports.now ≤ LAST_UNICAST_LID }
    ensures { IfOk result (λ text. text.items ≡ sums_text headings.now ports.now) }
{
    let mut text = Vec::new(alloc);
    for heading in headings {
        push_sum_line(&mut text, sum_of(ports, heading.base))?;
    }
    Ok(text)
}

/// Whether a simulated fabric may have so many end ports.
pub fn are_few(ports: &[SubnetPort]) -> bool
    ensures { result ≡ are_few ports.now }
{
    ports.len() <= SWITCHES + ADAPTER_PORTS
}

/// Who may talk to whom in a subnet, or to the port of a GUID if one is asked for: pair by pair, unless there are more end
/// ports than a simulated fabric may have and none is asked for; then it is counted. It can only run out of memory.
pub fn listed_shares(
    alloc: Global,
    configuration: &Configuration,
    asked: Option<u64>,
) -> Result<Vec<u8>, AllocError>
    requires headings { AreSoundHeadings configuration.now.partitions }
    requires few { length configuration.now.ports ≤ LAST_UNICAST_LID }
    ensures { IfOk result (λ text. text.items ≡ listed_shares asked configuration.now) }
{
    let ports = configuration.ports();
    if asked.is_some() || are_few(ports) {
        shares_text(alloc, ports, asked)
    } else {
        sums_text(alloc, configuration.partitions(), ports)
    }
}
