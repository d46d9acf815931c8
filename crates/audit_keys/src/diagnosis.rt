//! What many differences have in common.

ghost use Rattle.std.specs.Prelude.{◌≡◌, ◌++◌, ◌==◌, not, OnOk};
ghost use Rattle.std.specs.List.{flat_map, list_all, list_any};
ghost use Rattle.audit_keys.specs.Diagnosis.{all_as_opensm, another_line, cause_lines, causes_if, diagnosis, fell_open, full_line, has_default_alone, has_default_port, is_as_opensm, is_cut_off};
ghost use Rattle.audit_keys.specs.Diagnosis.{is_another, is_default, is_limited, is_read, limited_line, limited_words, line_if, manager_line, manager_words, open_line, opensms_line, other_causes};

use audit_ports::{AuditedPort, HeldKeys, have_same_keys, push_port};
use fabric_parts::PortRef;
use partition_reports::membership_of;
use std::alloc::AllocError;
use topo_file::Node;

fn push_line_if(text: &mut Vec<u8>, fits: bool, words: &[u8]) -> Result<(), AllocError>
    ensures { OnOk result (text.new.items ≡ text.old.items ++ line_if fits words.now) }
{
    if !fits {
        return Ok(());
    }
    text.extend_from_slice(b"diagnosis: ")?;
    text.extend_from_slice(words)?;
    text.push(b'\n')?;
    Ok(())
}

fn are_default(keys: &[u16]) -> bool
    ensures { result ≡ list_all is_default keys.now }
{
    keys.iter().all(|key| *key == 0xffff)
}

fn is_there(bytes: usize) -> bool
    ensures { result ≡ not (bytes == 0) }
{
    bytes != 0
}

fn has_default_alone(table: &Option<HeldKeys>) -> bool
    ensures { result ≡ has_default_alone table.now }
{
    match table {
        Some(table) => {
            let keys = table.keys.as_slice();
            is_there(keys.len()) && are_default(keys)
        }
        None => true,
    }
}

fn some_read(ports: &[AuditedPort]) -> bool
    ensures { result ≡ list_any is_read ports.now }
{
    ports.iter().any(|port| port.table.is_some())
}

fn all_default(ports: &[AuditedPort]) -> bool
    ensures { result ≡ list_all has_default_port ports.now }
{
    ports.iter().all(|port| has_default_alone(&port.table))
}

fn fell_open(ports: &[AuditedPort]) -> bool
    ensures { result ≡ fell_open ports.now }
{
    some_read(ports) && all_default(ports)
}

/// Adds a line if every port that was read has the full key of the default partition alone.
#[tactic(auto, unfolding(crate::specs::Diagnosis::open_line))]
pub(crate) fn push_open_line(text: &mut Vec<u8>, ports: &[AuditedPort]) -> Result<(), AllocError>
    ensures { OnOk result (text.new.items ≡ text.old.items ++ open_line ports.now) }
{
    push_line_if(
        text,
        fell_open(ports),
        b"every port that was read has 0xffff alone: OpenSM dropped its file, or had none",
    )
}

fn is_as_opensm(port: &AuditedPort) -> bool
    ensures { result ≡ is_as_opensm port.now.table port.now.opensms }
{
    match &port.table {
        Some(table) => have_same_keys(table.keys.as_slice(), port.opensms.as_slice()),
        None => true,
    }
}

fn all_as_opensm(ports: &[AuditedPort]) -> bool
    ensures { result ≡ all_as_opensm ports.now }
{
    ports.iter().all(|port| is_as_opensm(port))
}

fn is_limited(table: &Option<HeldKeys>) -> bool
    ensures { result ≡ is_limited table.now }
{
    match table {
        Some(table) => !membership_of(0x7fff, table.keys.as_slice()).is_full(),
        None => false,
    }
}

#[tactic(auto, unfolding(crate::specs::Diagnosis::is_cut_off))]
fn is_cut_off(port: &AuditedPort) -> bool
    ensures { result ≡ is_cut_off port.now }
{
    port.is_manager && is_limited(&port.table)
}

#[tactic(auto, unfolding(crate::specs::Diagnosis::manager_words))]
fn push_manager_words(text: &mut Vec<u8>) -> Result<(), AllocError>
    ensures { OnOk result (text.new.items ≡ text.old.items ++ manager_words) }
{
    text.extend_from_slice(b"diagnosis: the SM port ")
}

#[tactic(auto, unfolding(crate::specs::Diagnosis::limited_words))]
fn push_limited_words(text: &mut Vec<u8>) -> Result<(), AllocError>
    ensures { OnOk result (text.new.items ≡ text.old.items ++ limited_words) }
{
    text.extend_from_slice(b" is not a full member of 0x7fff: limited members cannot ask the SA")
}

#[tactic(auto, unfolding(crate::specs::Diagnosis::limited_line))]
fn push_limited_line(text: &mut Vec<u8>, nodes: &[Node], port: PortRef) -> Result<(), AllocError>
    ensures { OnOk result (text.new.items ≡ text.old.items ++ limited_line nodes.now port) }
{
    push_manager_words(text)?;
    push_port(text, nodes, port)?;
    push_limited_words(text)?;
    text.push(b'\n')?;
    Ok(())
}

#[tactic(auto, unfolding(crate::specs::Diagnosis::manager_line))]
fn push_manager(text: &mut Vec<u8>, nodes: &[Node], port: &AuditedPort) -> Result<(), AllocError>
    ensures { OnOk result (text.new.items ≡ text.old.items ++ manager_line nodes.now port.now) }
{
    if !is_cut_off(port) {
        return Ok(());
    }
    push_limited_line(text, nodes, port.port)
}

fn push_managers(
    text: &mut Vec<u8>,
    nodes: &[Node],
    ports: &[AuditedPort],
) -> Result<(), AllocError>
    ensures { OnOk result (text.new.items ≡ text.old.items ++ flat_map (manager_line nodes.now) ports.now) }
{
    for port in ports {
        push_manager(text, nodes, port)?;
    }
    Ok(())
}

#[tactic(auto, unfolding(crate::specs::Diagnosis::opensms_line))]
fn push_opensms_line(text: &mut Vec<u8>, ports: &[AuditedPort]) -> Result<(), AllocError>
    ensures { OnOk result (text.new.items ≡ text.old.items ++ opensms_line ports.now) }
{
    push_line_if(
        text,
        all_as_opensm(ports),
        b"OpenSM reads this file so: if several words name a port, it takes the last",
    )
}

#[tactic(auto, unfolding(crate::specs::Diagnosis::another_line))]
fn push_another_line(text: &mut Vec<u8>, others: bool) -> Result<(), AllocError>
    ensures { OnOk result (text.new.items ≡ text.old.items ++ another_line others) }
{
    push_line_if(
        text,
        others,
        b"the tables follow another file, or another program wrote them: see stray and absent",
    )
}

#[tactic(auto, unfolding(crate::specs::Diagnosis::other_causes))]
fn push_other_causes(
    text: &mut Vec<u8>,
    ports: &[AuditedPort],
    others: bool,
) -> Result<(), AllocError>
    ensures { OnOk result (text.new.items ≡ text.old.items ++ other_causes ports.now others) }
{
    push_opensms_line(text, ports)?;
    push_another_line(text, others)
}

#[tactic(auto, unfolding(crate::specs::Diagnosis::cause_lines))]
fn push_causes(text: &mut Vec<u8>, ports: &[AuditedPort], others: bool) -> Result<(), AllocError>
    ensures { OnOk result (text.new.items ≡ text.old.items ++ cause_lines ports.now others) }
{
    if fell_open(ports) {
        return push_open_line(text, ports);
    }
    push_other_causes(text, ports, others)
}

#[tactic(auto, unfolding(crate::specs::Diagnosis::causes_if))]
fn push_causes_if(
    text: &mut Vec<u8>,
    ports: &[AuditedPort],
    differs: bool,
    others: bool,
) -> Result<(), AllocError>
    ensures { OnOk result (text.new.items ≡ text.old.items ++ causes_if ports.now differs others) }
{
    if !differs {
        return Ok(());
    }
    push_causes(text, ports, others)
}

/// Whether the tables follow another file: there are lines of partitions that stand alone, and no table is full.
pub(crate) fn is_another(others: &[u8], is_full: bool) -> bool
    ensures { result ≡ is_another others.now is_full }
{
    is_there(others.len()) && !is_full
}

#[tactic(auto, unfolding(crate::specs::Diagnosis::full_line))]
fn push_full(text: &mut Vec<u8>, is_full: bool) -> Result<(), AllocError>
    ensures { OnOk result (text.new.items ≡ text.old.items ++ full_line is_full) }
{
    push_line_if(
        text,
        is_full,
        b"a table has no place for keys of the file: see full",
    )
}

/// Adds a line for each diagnosis that fits: if tables differ from the file by some key, what they have in common; a subnet
/// manager whose port is limited; and full tables.
#[tactic(auto, unfolding(crate::specs::Diagnosis::diagnosis))]
pub(crate) fn push_diagnosis(
    text: &mut Vec<u8>,
    nodes: &[Node],
    ports: &[AuditedPort],
    differs: bool,
    is_full: bool,
    others: bool,
) -> Result<(), AllocError>
    ensures { OnOk result (text.new.items ≡ text.old.items ++ diagnosis nodes.now ports.now differs is_full others) }
{
    push_causes_if(text, ports, differs, others)?;
    push_managers(text, nodes, ports)?;
    push_full(text, is_full)?;
    Ok(())
}
