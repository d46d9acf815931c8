//! Partition by partition: what stands in tables alone or in the file alone, and which pairs of end ports may talk by one of them.

ghost use Rattle.std.specs.Prelude.{◌≡◌, ◌∷◌, [], ◌++◌, codes, count_by, decimal, map, IfOk, OnOk};
ghost use Rattle.std.specs.List.{flat_map};
ghost use Rattle.partition_reports.specs.ChangedPairs.{new_pairs};
ghost use Rattle.audit_keys.specs.Standing.{bases_of_keys, bases_of_port, bases_there, is_given, line_of_count, pair_changes, pair_line, pairs_at};
ghost use Rattle.audit_keys.specs.Standing.{pairs_text, standing, stands, stray_at, strays, turned, HaveBasesOf};

use audit_ports::{AuditedPort, push_key, push_port};
use itoa::Buffer;
use partition_reports::{
    Member, Membership, Pair, membership_of, new_pair_count, new_pairs, rising,
};
use pkey_rules::base_of;
use std::alloc::{AllocError, Global};
use topo_file::Node;

/// So many pairs of a partition are listed; more are counted, unless all are asked for.
const FEW_PAIRS: u128 = 100;

/// What the port is in the partition of this base: now by its table, before by the file.
pub(crate) fn standing(base: u16, port: &AuditedPort) -> Member
    ensures { result ≡ standing base port.now }
{
    match &port.table {
        Some(table) => Member {
            port: port.port,
            after: membership_of(base, table.keys.as_slice()),
            before: membership_of(base, port.file.as_slice()),
        },
        None => Member {
            port: port.port,
            after: Membership::Outside,
            before: Membership::Outside,
        },
    }
}

fn standings(alloc: Global, base: u16, ports: &[AuditedPort]) -> Result<Vec<Member>, AllocError>
    ensures { IfOk result (λ members. members.items ≡ map (standing base) ports.now) }
{
    ports.iter().map(|port| standing(base, port)).collect(alloc)
}

/// What the port is by the file, and before by its table.
fn turned(base: u16, port: &AuditedPort) -> Member
    ensures { result ≡ turned base port.now }
{
    let member = standing(base, port);
    Member {
        port: port.port,
        after: member.before,
        before: member.after,
    }
}

fn all_turned(alloc: Global, base: u16, ports: &[AuditedPort]) -> Result<Vec<Member>, AllocError>
    ensures { IfOk result (λ members. members.items ≡ map (turned base) ports.now) }
{
    ports.iter().map(|port| turned(base, port)).collect(alloc)
}

fn bases_of_keys(alloc: Global, keys: &[u16]) -> Result<Vec<u16>, AllocError>
    ensures { IfOk result (λ bases. bases.items ≡ bases_of_keys keys.now) }
{
    keys.iter()
        .map(|key| base_of(*key))
        .filter(|base| *base != 0)
        .collect(alloc)
}

/// Adds the bases of the keys that stand at a port that was read, and of those that the file gives it.
fn push_bases(alloc: Global, bases: &mut Vec<u16>, port: &AuditedPort) -> Result<(), AllocError>
    ensures { OnOk result (bases.new.items ≡ bases.old.items ++ bases_of_port port.now) }
{
    match &port.table {
        Some(table) => {
            let standing = bases_of_keys(alloc, table.keys.as_slice())?;
            let given = bases_of_keys(alloc, port.file.as_slice())?;
            bases.extend_from_slice(&standing)?;
            bases.extend_from_slice(&given)
        }
        None => Ok(()),
    }
}

fn bases_there(alloc: Global, ports: &[AuditedPort]) -> Result<Vec<u16>, AllocError>
    ensures { IfOk result (λ bases. bases.items ≡ bases_there ports.now) }
{
    let mut bases = Vec::new(alloc);
    for port in ports {
        push_bases(alloc, &mut bases, port)?;
    }
    Ok(bases)
}

/// The bases of which a key stands or is given, each once, rising.
pub(crate) fn rising_bases(alloc: Global, ports: &[AuditedPort]) -> Result<Vec<u16>, AllocError>
    ensures { IfOk result (λ bases. HaveBasesOf ports.now bases.items) }
{
    let bases = bases_there(alloc, ports)?;
    Ok(rising(bases))
}

fn standing_count(base: u16, ports: &[AuditedPort]) -> usize
    ensures { result ≡ count_by (stands base) ports.now }
{
    ports
        .iter()
        .filter(|port| standing(base, *port).after.is_member())
        .count()
}

fn given_count(base: u16, ports: &[AuditedPort]) -> usize
    ensures { result ≡ count_by (is_given base) ports.now }
{
    ports
        .iter()
        .filter(|port| standing(base, *port).before.is_member())
        .count()
}

/// Adds a number in decimal digits.
pub(crate) fn push_count(text: &mut Vec<u8>, count: u128) -> Result<(), AllocError>
    ensures { OnOk result (text.new.items ≡ text.old.items ++ decimal count) }
{
    let mut buffer = Buffer::new();
    text.extend_from_slice(buffer.format(count).as_bytes())
}

pub(crate) fn push_line_of_count(
    text: &mut Vec<u8>,
    words: &[u8],
    base: u16,
    count: u128,
) -> Result<(), AllocError>
    ensures { OnOk result (text.new.items ≡ text.old.items ++ line_of_count words.now base count) }
{
    text.extend_from_slice(words)?;
    push_key(text, base)?;
    text.extend_from_slice(b" ")?;
    push_count(text, count)?;
    text.push(b'\n')?;
    Ok(())
}

#[tactic(auto, unfolding(crate::specs::Standing::stray_at))]
fn push_stray(text: &mut Vec<u8>, ports: &[AuditedPort], base: u16) -> Result<(), AllocError>
    ensures { OnOk result (text.new.items ≡ text.old.items ++ stray_at ports.now base) }
{
    let standing = standing_count(base, ports);
    let given = given_count(base, ports);
    if given == 0 && standing != 0 {
        return push_line_of_count(text, b"stray", base, standing as u128);
    }
    if given != 0 && standing == 0 {
        return push_line_of_count(text, b"absent", base, given as u128);
    }
    Ok(())
}

/// Partitions that stand although the file gives them to nobody, and those of the file that stand nowhere.
pub(crate) fn strays(
    alloc: Global,
    ports: &[AuditedPort],
    bases: &[u16],
) -> Result<Vec<u8>, AllocError>
    requires { HaveBasesOf ports.now bases.now }
    ensures { IfOk result (λ text. text.items ≡ strays ports.now) }
{
    let mut text = Vec::new(alloc);
    for base in bases {
        push_stray(&mut text, ports, *base)?;
    }
    Ok(text)
}

/// The ports, the nodes that have their names, and whether each pair is to be listed.
#[derive(Clone, Copy)]
pub(crate) struct Listing<'a> {
    pub(crate) nodes: &'a [Node],
    pub(crate) ports: &'a [AuditedPort],
    pub(crate) all: bool,
}

#[tactic(auto, unfolding(crate::specs::Standing::pair_line))]
fn push_pair(
    text: &mut Vec<u8>,
    nodes: &[Node],
    sign: &[u8],
    base: u16,
    pair: Pair,
) -> Result<(), AllocError>
    ensures { OnOk result (text.new.items ≡ text.old.items ++ pair_line nodes.now sign.now base pair) }
{
    text.extend_from_slice(sign)?;
    text.extend_from_slice(b"share ")?;
    push_port(text, nodes, pair.first)?;
    text.extend_from_slice(b" ")?;
    push_port(text, nodes, pair.second)?;
    push_key(text, base)?;
    text.push(b'\n')?;
    Ok(())
}

fn push_each_pair(
    text: &mut Vec<u8>,
    nodes: &[Node],
    sign: &[u8],
    base: u16,
    pairs: &[Pair],
) -> Result<(), AllocError>
    ensures { OnOk result (text.new.items ≡ text.old.items ++ flat_map (pair_line nodes.now sign.now base) pairs.now) }
{
    for pair in pairs {
        push_pair(text, nodes, sign, base, *pair)?;
    }
    Ok(())
}

fn push_pair_count(
    text: &mut Vec<u8>,
    sign: &[u8],
    base: u16,
    count: u128,
) -> Result<(), AllocError>
    ensures { OnOk result (text.new.items ≡ text.old.items ++ line_of_count (sign.now ++ codes "pairs") base count) }
{
    text.extend_from_slice(sign)?;
    push_line_of_count(text, b"pairs", base, count)
}

#[tactic(auto, unfolding(crate::specs::Standing::pairs_text))]
fn push_pairs(
    alloc: Global,
    text: &mut Vec<u8>,
    listing: Listing<'_>,
    sign: &[u8],
    base: u16,
    members: &[Member],
) -> Result<(), AllocError>
    ensures { OnOk result (text.new.items ≡ text.old.items
        ++ pairs_text listing.entry.nodes.now listing.entry.all sign.now base (new_pairs members.now)) }
{
    let count = new_pair_count(members);
    if !listing.all && count > FEW_PAIRS {
        return push_pair_count(text, sign, base, count);
    }
    let pairs = new_pairs(alloc, members)?;
    push_each_pair(text, listing.nodes, sign, base, &pairs)
}

#[tactic(auto, unfolding(crate::specs::Standing::pairs_at))]
fn push_pairs_at(
    alloc: Global,
    text: &mut Vec<u8>,
    listing: Listing<'_>,
    ports: &[AuditedPort],
    base: u16,
) -> Result<(), AllocError>
    ensures { OnOk result (text.new.items ≡ text.old.items ++ pairs_at listing.entry.nodes.now listing.entry.all ports.now base) }
{
    let by_file = all_turned(alloc, base, ports)?;
    let by_tables = standings(alloc, base, ports)?;
    push_pairs(alloc, text, listing, b"- ", base, &by_file)?;
    push_pairs(alloc, text, listing, b"+ ", base, &by_tables)
}

/// Pairs that may talk by the tables alone, or by the file alone, partition by partition.
pub(crate) fn push_pair_changes(
    alloc: Global,
    text: &mut Vec<u8>,
    listing: Listing<'_>,
    ports: &[AuditedPort],
    bases: &[u16],
) -> Result<(), AllocError>
    requires { HaveBasesOf ports.now bases.now }
    ensures { OnOk result (text.new.items ≡ text.old.items ++ pair_changes listing.entry.nodes.now listing.entry.all ports.now) }
{
    for base in bases {
        push_pairs_at(alloc, text, listing, ports, *base)?;
    }
    Ok(())
}
