//! The lines.

ghost use Rattle.std.specs.Prelude.{◌≡◌, ◌++◌, [], ◌==◌, if◌then◌else◌, count_by, not, IfOk, OnOk};
ghost use Rattle.std.specs.List.{flat_map};
ghost use Rattle.audit_keys.specs.Text.{audit_of, audit_without_partitions, bases_line, code_of_kind, count_of, counts_of, difference_line, is_as_file, is_faced, is_moved, is_of, is_unread};
ghost use Rattle.audit_ports.specs.Names.{key_word};
ghost use Rattle.audit_keys.specs.Text.{first_lines, half_part, keys_audit, keys_line, kind_word, later_lines, moved_lines, off_part, opensm_words, ports_line, read_part};
ghost use Rattle.audit_keys.specs.Text.{switch_lines, switch_ports_line, unread_lines, unread_part, verdict_line};
ghost use Rattle.audit_keys.specs.declared.differences.DifferenceKind.TheVariants.{Full};

use crate::apart::push_wide_lines;
use crate::cuts::push_cuts;
use crate::diagnosis::{is_another, push_diagnosis, push_open_line};
use crate::differences::{
    Difference, DifferenceKind, all_agree, are_clean, differences, facing_differences,
    follows_file, has_key,
};
use crate::outcome::KeysAudit;
use crate::standing::{Listing, push_pair_changes, rising_bases, strays};
use crate::trunks::push_trunks;
use audit_ports::{AuditedPort, ports_of_files, push_key, push_port, push_strangers};
use netdiscover_file::Discovery;
use partition_file::{Partitions, no_file};
use pkeys_file::Answers;
use std::alloc::{AllocError, Global};
use text_words::{push_decimal, push_guid};
use topo_file::{LargeTopology, Node};

impl DifferenceKind {
    ghost use Rattle.std.specs.Prelude.{◌≡◌};
    ghost use Rattle.audit_keys.specs.Text.{code_of_kind, kind_word};

    fn word(self) -> &'static [u8]
        ensures { result.now ≡ kind_word self }
    {
        match self {
            DifferenceKind::Extra => b"extra ",
            DifferenceKind::Missing => b"missing ",
            DifferenceKind::Membership => b"membership ",
            DifferenceKind::Full => b"full ",
            DifferenceKind::Off => b"off ",
            DifferenceKind::Half => b"half ",
            DifferenceKind::Lacks => b"lacks ",
            DifferenceKind::More => b"more ",
            DifferenceKind::UnreadSwitchPort => b"unread ",
        }
    }

    fn code(self) -> u8
        ensures { result ≡ code_of_kind self }
    {
        match self {
            DifferenceKind::Extra => 0,
            DifferenceKind::Missing => 1,
            DifferenceKind::Membership => 2,
            DifferenceKind::Full => 3,
            DifferenceKind::Off => 4,
            DifferenceKind::Half => 5,
            DifferenceKind::Lacks => 6,
            DifferenceKind::More => 7,
            DifferenceKind::UnreadSwitchPort => 8,
        }
    }
}

fn push_key_if_any(text: &mut Vec<u8>, key: u16) -> Result<(), AllocError>
    ensures { OnOk result (text.new.items ≡ text.old.items ++ (if key == 0 then [] else key_word key)) }
{
    if key == 0 {
        return Ok(());
    }
    push_key(text, key)
}

fn push_opensm(text: &mut Vec<u8>, is_opensms: bool) -> Result<(), AllocError>
    ensures { OnOk result (text.new.items ≡ text.old.items ++ opensm_words is_opensms) }
{
    if is_opensms {
        text.extend_from_slice(b" (OpenSM reads the file so)")?;
    }
    Ok(())
}

#[tactic(auto, unfolding(crate::specs::Text::difference_line))]
fn push_difference(
    text: &mut Vec<u8>,
    nodes: &[Node],
    difference: &Difference,
) -> Result<(), AllocError>
    ensures { OnOk result (text.new.items ≡ text.old.items ++ difference_line nodes.now difference.now) }
{
    text.extend_from_slice(difference.kind.word())?;
    push_port(text, nodes, difference.port)?;
    push_key_if_any(text, difference.key)?;
    push_opensm(text, difference.is_opensms)?;
    text.push(b'\n')?;
    Ok(())
}

fn push_differences(
    text: &mut Vec<u8>,
    nodes: &[Node],
    list: &[Difference],
) -> Result<(), AllocError>
    ensures { OnOk result (text.new.items ≡ text.old.items ++ flat_map (difference_line nodes.now) list.now) }
{
    for difference in list {
        push_difference(text, nodes, difference)?;
    }
    Ok(())
}

fn is_unread(port: &AuditedPort) -> bool
    ensures { result ≡ is_unread port.now }
{
    port.table.is_none() && port.moved.is_none()
}

#[tactic(auto, unfolding(crate::specs::Text::unread_lines))]
fn push_if_unread(text: &mut Vec<u8>, nodes: &[Node], port: &AuditedPort) -> Result<(), AllocError>
    ensures { OnOk result (text.new.items ≡ text.old.items ++ unread_lines nodes.now port.now) }
{
    if !is_unread(port) {
        return Ok(());
    }
    text.extend_from_slice(b"unread ")?;
    push_port(text, nodes, port.port)?;
    text.push(b'\n')?;
    Ok(())
}

fn push_unread(text: &mut Vec<u8>, nodes: &[Node], ports: &[AuditedPort]) -> Result<(), AllocError>
    ensures { OnOk result (text.new.items ≡ text.old.items ++ flat_map (unread_lines nodes.now) ports.now) }
{
    for port in ports {
        push_if_unread(text, nodes, port)?;
    }
    Ok(())
}

#[tactic(auto, unfolding(crate::specs::Text::moved_lines))]
fn push_if_moved(text: &mut Vec<u8>, nodes: &[Node], port: &AuditedPort) -> Result<(), AllocError>
    ensures { OnOk result (text.new.items ≡ text.old.items ++ moved_lines nodes.now port.now) }
{
    let Some(guid) = port.moved else {
        return Ok(());
    };
    text.extend_from_slice(b"moved ")?;
    push_port(text, nodes, port.port)?;
    text.extend_from_slice(b" ")?;
    push_decimal(text, usize::from(port.lid))?;
    text.extend_from_slice(b" ")?;
    push_guid(text, port.guid)?;
    text.extend_from_slice(b" ")?;
    push_guid(text, guid)?;
    text.push(b'\n')?;
    Ok(())
}

fn push_moved(text: &mut Vec<u8>, nodes: &[Node], ports: &[AuditedPort]) -> Result<(), AllocError>
    ensures { OnOk result (text.new.items ≡ text.old.items ++ flat_map (moved_lines nodes.now) ports.now) }
{
    for port in ports {
        push_if_moved(text, nodes, port)?;
    }
    Ok(())
}

fn count_of(kind: DifferenceKind, list: &[Difference]) -> usize
    ensures { result ≡ count_of kind list.now }
{
    list.iter()
        .filter(|difference| difference.kind.code() == kind.code())
        .count()
}

fn files_count(ports: &[AuditedPort]) -> usize
    ensures { result ≡ count_by is_as_file ports.now }
{
    ports.iter().filter(|port| follows_file(*port)).count()
}

fn unread_count(ports: &[AuditedPort]) -> usize
    ensures { result ≡ count_by is_unread ports.now }
{
    ports.iter().filter(|port| is_unread(*port)).count()
}

fn moved_count(ports: &[AuditedPort]) -> usize
    ensures { result ≡ count_by is_moved ports.now }
{
    ports.iter().filter(|port| port.moved.is_some()).count()
}

fn faced_count(ports: &[AuditedPort]) -> usize
    ensures { result ≡ count_by is_faced ports.now }
{
    ports.iter().filter(|port| port.facing.is_some()).count()
}

#[tactic(auto, unfolding(crate::specs::Text::read_part))]
fn push_read_part(text: &mut Vec<u8>, ports: &[AuditedPort]) -> Result<(), AllocError>
    ensures { OnOk result (text.new.items ≡ text.old.items ++ read_part ports.now) }
{
    text.extend_from_slice(b"ports: ")?;
    push_decimal(text, ports.len())?;
    text.extend_from_slice(b", ")?;
    push_decimal(text, files_count(ports))?;
    text.extend_from_slice(b" as the file, ")
}

#[tactic(auto, unfolding(crate::specs::Text::unread_part))]
fn push_unread_part(text: &mut Vec<u8>, ports: &[AuditedPort]) -> Result<(), AllocError>
    ensures { OnOk result (text.new.items ≡ text.old.items ++ unread_part ports.now) }
{
    push_decimal(text, unread_count(ports))?;
    text.extend_from_slice(b" unread, ")?;
    push_decimal(text, moved_count(ports))?;
    text.extend_from_slice(b" moved\n")
}

fn push_ports_line(text: &mut Vec<u8>, ports: &[AuditedPort]) -> Result<(), AllocError>
    ensures { OnOk result (text.new.items ≡ text.old.items ++ ports_line ports.now) }
{
    push_read_part(text, ports)?;
    push_unread_part(text, ports)
}

#[tactic(auto, unfolding(crate::specs::Text::keys_line))]
fn push_keys_line(text: &mut Vec<u8>, list: &[Difference]) -> Result<(), AllocError>
    ensures { OnOk result (text.new.items ≡ text.old.items ++ keys_line list.now) }
{
    text.extend_from_slice(b"keys: ")?;
    push_decimal(text, count_of(DifferenceKind::Extra, list))?;
    text.extend_from_slice(b" extra, ")?;
    push_decimal(text, count_of(DifferenceKind::Missing, list))?;
    text.extend_from_slice(b" missing, ")?;
    push_decimal(text, count_of(DifferenceKind::Membership, list))?;
    text.extend_from_slice(b" of other membership\n")
}

#[tactic(auto, unfolding(crate::specs::Text::off_part))]
fn push_off_part(
    text: &mut Vec<u8>,
    ports: &[AuditedPort],
    list: &[Difference],
) -> Result<(), AllocError>
    ensures { OnOk result (text.new.items ≡ text.old.items ++ off_part ports.now list.now) }
{
    text.extend_from_slice(b"switch ports: ")?;
    push_decimal(text, faced_count(ports))?;
    text.extend_from_slice(b", ")?;
    push_decimal(text, count_of(DifferenceKind::Off, list))?;
    text.extend_from_slice(b" off, ")
}

#[tactic(auto, unfolding(crate::specs::Text::half_part))]
fn push_half_part(text: &mut Vec<u8>, list: &[Difference]) -> Result<(), AllocError>
    ensures { OnOk result (text.new.items ≡ text.old.items ++ half_part list.now) }
{
    push_decimal(text, count_of(DifferenceKind::Half, list))?;
    text.extend_from_slice(b" half, ")?;
    push_decimal(text, count_of(DifferenceKind::UnreadSwitchPort, list))?;
    text.extend_from_slice(b" unread\n")
}

fn push_switch_ports_line(
    text: &mut Vec<u8>,
    ports: &[AuditedPort],
    list: &[Difference],
) -> Result<(), AllocError>
    ensures { OnOk result (text.new.items ≡ text.old.items ++ switch_ports_line ports.now list.now) }
{
    push_off_part(text, ports, list)?;
    push_half_part(text, list)
}

#[tactic(auto, unfolding(crate::specs::Text::bases_line))]
fn push_bases_line(text: &mut Vec<u8>, list: &[Difference]) -> Result<(), AllocError>
    ensures { OnOk result (text.new.items ≡ text.old.items ++ bases_line list.now) }
{
    text.extend_from_slice(b"bases: ")?;
    push_decimal(text, count_of(DifferenceKind::Lacks, list))?;
    text.extend_from_slice(b" lacking, ")?;
    push_decimal(text, count_of(DifferenceKind::More, list))?;
    text.extend_from_slice(b" more\n")
}

#[tactic(auto, unfolding(crate::specs::Text::switch_lines))]
fn push_switches(
    text: &mut Vec<u8>,
    nodes: &[Node],
    ports: &[AuditedPort],
    switches: &[Difference],
) -> Result<(), AllocError>
    ensures { OnOk result (text.new.items ≡ text.old.items ++ switch_lines nodes.now ports.now switches.now) }
{
    let faced = faced_count(ports);
    if faced != 0 && count_of(DifferenceKind::Off, switches) == faced {
        return text.extend_from_slice(b"off everywhere\n");
    }
    push_differences(text, nodes, switches)
}

fn is_full_any(keys: &[Difference]) -> bool
    ensures { result ≡ not (count_of Full keys.now == 0) }
{
    count_of(DifferenceKind::Full, keys) != 0
}

#[tactic(auto, unfolding(crate::specs::Text::first_lines))]
fn push_first_lines(
    alloc: Global,
    text: &mut Vec<u8>,
    listing: Listing<'_>,
    keys: &[Difference],
) -> Result<(), AllocError>
    ensures { OnOk result (text.new.items
        ≡ text.old.items ++ first_lines listing.entry.nodes.now listing.entry.all listing.entry.ports.now keys.now) }
{
    let ports = listing.ports;
    let bases = rising_bases(alloc, ports)?;
    let others = strays(alloc, ports, &bases)?;
    let is_full = is_full_any(keys);
    push_diagnosis(
        text,
        listing.nodes,
        ports,
        has_key(keys),
        is_full,
        is_another(&others, is_full),
    )?;
    text.extend_from_slice(&others)?;
    push_pair_changes(alloc, text, listing, ports, &bases)?;
    push_differences(text, listing.nodes, keys)
}

#[tactic(auto, unfolding(crate::specs::Text::later_lines))]
fn push_later_lines(
    alloc: Global,
    text: &mut Vec<u8>,
    listing: Listing<'_>,
    partitions: &Partitions,
    switches: &[Difference],
) -> Result<(), AllocError>
    ensures { OnOk result (text.new.items
        ≡ text.old.items ++ later_lines listing.entry.nodes.now listing.entry.ports.now partitions.now switches.now) }
{
    let (nodes, ports) = (listing.nodes, listing.ports);
    push_switches(text, nodes, ports, switches)?;
    push_cuts(alloc, text, listing)?;
    push_trunks(text, nodes, ports)?;
    push_moved(text, nodes, ports)?;
    push_unread(text, nodes, ports)?;
    push_strangers(alloc, text, nodes, ports, partitions)?;
    let bases = rising_bases(alloc, ports)?;
    push_wide_lines(alloc, text, ports, &bases)
}

#[tactic(auto, unfolding(crate::specs::Text::counts_of))]
fn push_counts(
    text: &mut Vec<u8>,
    ports: &[AuditedPort],
    keys: &[Difference],
    switches: &[Difference],
) -> Result<(), AllocError>
    ensures { OnOk result (text.new.items ≡ text.old.items ++ counts_of ports.now keys.now switches.now) }
{
    push_ports_line(text, ports)?;
    push_keys_line(text, keys)?;
    push_switch_ports_line(text, ports, switches)?;
    push_bases_line(text, switches)
}

fn verdict_line(is_clean: bool, agrees: bool) -> &'static [u8]
    ensures { result.now ≡ verdict_line is_clean agrees }
{
    if is_clean {
        b"verdict: the tables follow the file\n"
    } else if agrees {
        b"verdict: not all tables were read; those that were follow the file\n"
    } else {
        b"verdict: the tables do not follow the file\n"
    }
}

#[tactic(auto, unfolding(crate::specs::Text::audit_of, crate::specs::Text::text_by))]
fn audit_of(
    alloc: Global,
    listing: Listing<'_>,
    partitions: &Partitions,
) -> Result<KeysAudit, AllocError>
    ensures { IfOk result (λ found. found
        ≡ audit_of listing.entry.nodes.now listing.entry.all listing.entry.ports.now partitions.now) }
{
    let ports = listing.ports;
    let keys = differences(alloc, ports)?;
    let switches = facing_differences(alloc, ports)?;
    let is_clean = are_clean(ports);
    let mut text = Vec::new(alloc);
    push_first_lines(alloc, &mut text, listing, &keys)?;
    push_later_lines(alloc, &mut text, listing, partitions, &switches)?;
    push_counts(&mut text, ports, &keys, &switches)?;
    text.extend_from_slice(verdict_line(is_clean, all_agree(ports)))?;
    Ok(KeysAudit { text, is_clean })
}

/// Compares the tables that `smpquery` read with the partition file. It can only run out of memory.
///
/// The discovery and the answers are of the same fabric as the topology, which gives the names and the port of the subnet
/// manager. What is printed is stated in `specs/Text.antt`: diagnoses, who may talk by the tables alone or by the file alone, the
/// keys in which tables of end ports differ, how switch ports that face adapter ports differ from them, what ports between switches
/// lack, ports that are not judged, GUIDs of the file that no port has, in which partitions the file lets most pairs talk, counts and
/// the verdict. `all` asks for each pair of a partition, however many. Time
/// is linear in the ports times the keys of a table squared, in the ports times the lists of the file, and in the ports times
/// their keys times the partitions; and quadratic in the ports of a partition of which pairs are listed.
pub fn audit_keys(
    alloc: Global,
    plan: &LargeTopology,
    discovery: &Discovery,
    answers: &Answers,
    partitions: &Partitions,
    all: bool,
) -> Result<KeysAudit, AllocError>
    ensures { IfOk result (λ found. found ≡ keys_audit plan.now discovery.now answers.now partitions.now all) }
{
    let ports = ports_of_files(alloc, plan, discovery, answers, partitions)?;
    let listing = Listing {
        nodes: plan.nodes(),
        ports: &ports,
        all,
    };
    audit_of(alloc, listing, partitions)
}

/// What can be said of the tables if the partition file is refused: a line if every port that was read has 0xffff alone, else
/// nothing. OpenSM sets such tables if it drops its file because of an error. It can only run out of memory.
pub fn audit_without_partitions(
    alloc: Global,
    plan: &LargeTopology,
    discovery: &Discovery,
    answers: &Answers,
) -> Result<Vec<u8>, AllocError>
    ensures { IfOk result (λ text. text.items ≡ audit_without_partitions plan.now discovery.now answers.now) }
{
    let partitions = no_file(alloc)?;
    let ports = ports_of_files(alloc, plan, discovery, answers, &partitions)?;
    let mut text = Vec::new(alloc);
    push_open_line(&mut text, &ports)?;
    Ok(text)
}
