//! GUIDs of the partition file that no end port has, and end ports to which it gives nothing.

ghost use Rattle.std.specs.Prelude.{◌≡◌, ◌++◌, [], fold, IfOk, OnOk};
ghost use Rattle.std.specs.List.{flat_map, list_any};
ghost use Rattle.audit_ports.specs.Ends.{index_of};
ghost use Rattle.audit_ports.specs.Strangers.{guid_in, guids_of, is_on, lone_lines, port_word, port_word_on, stranger_line, stranger_lines, stranger_word, strangers, with_guid};

use crate::names::PortIndex;
use crate::parts::push_port;
use crate::port::AuditedPort;
use indexmap::IndexSet;
use partition_file::{Partition, Partitions, Ports};
use std::alloc::{AllocError, Global};
use text_words::push_guid;
use topo_file::Node;

fn guid_in(ports: Ports) -> Option<u64>
    ensures { result ≡ guid_in ports }
{
    match ports {
        Ports::Guid(guid) => Some(guid),
        Ports::All | Ports::ChannelAdapters | Ports::Switches | Ports::Routers | Ports::Manager => {
            None
        }
    }
}

fn guids_of(alloc: Global, partition: &Partition) -> Result<Vec<u64>, AllocError>
    ensures { IfOk result (λ guids. guids.items ≡ guids_of partition.now) }
{
    partition
        .items
        .as_slice()
        .iter()
        .filter_map(|item| guid_in(item.ports))
        .collect(alloc)
}

/// All GUIDs that the file lists, as often as it lists them.
fn all_guids(alloc: Global, partitions: &[Partition]) -> Result<Vec<u64>, AllocError>
    ensures { IfOk result (λ guids. guids.items ≡ flat_map guids_of partitions.now) }
{
    let mut guids = Vec::new(alloc);
    for partition in partitions {
        let listed = guids_of(alloc, partition)?;
        guids.extend_from_slice(&listed)?;
    }
    Ok(guids)
}

fn add_guid(set: &mut IndexSet<u64>, guid: u64) -> Result<(), AllocError>
    ensures { OnOk result (set.new.keys ≡ with_guid set.old.keys guid) }
{
    if !set.contains(&guid) {
        set.insert(guid)?;
    }
    Ok(())
}

/// These GUIDs, each once.
fn distinct(alloc: Global, guids: &[u64]) -> Result<IndexSet<u64>, AllocError>
    ensures { IfOk result (λ set. set.keys ≡ fold with_guid [] guids.now) }
{
    let mut set = IndexSet::new(alloc);
    for guid in guids {
        add_guid(&mut set, *guid)?;
    }
    Ok(set)
}

fn push_port_word(text: &mut Vec<u8>, nodes: &[Node], port: &AuditedPort) -> Result<(), AllocError>
    ensures { OnOk result (text.new.items ≡ text.old.items ++ port_word nodes.now port.now) }
{
    text.extend_from_slice(b" ")?;
    push_port(text, nodes, port.port)
}

#[tactic(auto, unfolding(crate::specs::Strangers::port_word_on))]
fn push_port_word_on(
    text: &mut Vec<u8>,
    nodes: &[Node],
    guid: u64,
    port: &AuditedPort,
) -> Result<(), AllocError>
    ensures { OnOk result (text.new.items ≡ text.old.items ++ port_word_on nodes.now guid port.now) }
{
    if port.node_guid != guid {
        return Ok(());
    }
    push_port_word(text, nodes, port)
}

fn push_ports_on(
    text: &mut Vec<u8>,
    nodes: &[Node],
    ports: &[AuditedPort],
    guid: u64,
) -> Result<(), AllocError>
    ensures { OnOk result (text.new.items ≡ text.old.items ++ flat_map (port_word_on nodes.now guid) ports.now) }
{
    for port in ports {
        push_port_word_on(text, nodes, guid, port)?;
    }
    Ok(())
}

/// Whether it is the GUID of a node of these ports.
fn is_node(ports: &[AuditedPort], guid: u64) -> bool
    ensures { result ≡ list_any (is_on guid) ports.now }
{
    ports.iter().any(|port| port.node_guid == guid)
}

/// Adds how the line begins.
fn push_stranger_word(
    text: &mut Vec<u8>,
    ports: &[AuditedPort],
    guid: u64,
) -> Result<(), AllocError>
    ensures { OnOk result (text.new.items ≡ text.old.items ++ stranger_word ports.now guid) }
{
    if is_node(ports, guid) {
        text.extend_from_slice(b"node-guid ")
    } else {
        text.extend_from_slice(b"no-port ")
    }
}

#[tactic(auto, unfolding(crate::specs::Strangers::stranger_line))]
fn push_stranger(
    text: &mut Vec<u8>,
    nodes: &[Node],
    ports: &[AuditedPort],
    guid: u64,
) -> Result<(), AllocError>
    ensures { OnOk result (text.new.items ≡ text.old.items ++ stranger_line nodes.now ports.now guid) }
{
    push_stranger_word(text, ports, guid)?;
    push_guid(text, guid)?;
    push_ports_on(text, nodes, ports, guid)?;
    text.push(b'\n')?;
    Ok(())
}

#[tactic(auto, unfolding(crate::specs::Strangers::stranger_lines))]
fn push_if_stranger(
    text: &mut Vec<u8>,
    index: &PortIndex,
    nodes: &[Node],
    ports: &[AuditedPort],
    guid: u64,
) -> Result<(), AllocError>
    requires { index.now ≡ index_of nodes.now }
    ensures { OnOk result (text.new.items ≡ text.old.items ++ stranger_lines nodes.now ports.now guid) }
{
    if index.named(guid).is_some() {
        return Ok(());
    }
    push_stranger(text, nodes, ports, guid)
}

fn push_listed(
    text: &mut Vec<u8>,
    index: &PortIndex,
    nodes: &[Node],
    ports: &[AuditedPort],
    guids: &[u64],
) -> Result<(), AllocError>
    requires { index.now ≡ index_of nodes.now }
    ensures { OnOk result (text.new.items ≡ text.old.items ++ flat_map (stranger_lines nodes.now ports.now) guids.now) }
{
    for guid in guids {
        push_if_stranger(text, index, nodes, ports, *guid)?;
    }
    Ok(())
}

#[tactic(auto, unfolding(crate::specs::Strangers::lone_lines))]
fn push_if_lone(text: &mut Vec<u8>, nodes: &[Node], port: &AuditedPort) -> Result<(), AllocError>
    ensures { OnOk result (text.new.items ≡ text.old.items ++ lone_lines nodes.now port.now) }
{
    if !port.file.as_slice().is_empty() {
        return Ok(());
    }
    text.extend_from_slice(b"no-partition ")?;
    push_port(text, nodes, port.port)?;
    text.push(b'\n')?;
    Ok(())
}

fn push_lone(text: &mut Vec<u8>, nodes: &[Node], ports: &[AuditedPort]) -> Result<(), AllocError>
    ensures { OnOk result (text.new.items ≡ text.old.items ++ flat_map (lone_lines nodes.now) ports.now) }
{
    for port in ports {
        push_if_lone(text, nodes, port)?;
    }
    Ok(())
}

/// GUIDs that the file lists and that no port of the topology has, and end ports that are in no partition of it.
pub fn push_strangers(
    alloc: Global,
    text: &mut Vec<u8>,
    nodes: &[Node],
    ports: &[AuditedPort],
    partitions: &Partitions,
) -> Result<(), AllocError>
    ensures { OnOk result (text.new.items ≡ text.old.items ++ strangers nodes.now ports.now partitions.now) }
{
    let index = PortIndex::of(alloc, nodes)?;
    let guids = all_guids(alloc, partitions.as_slice())?;
    let guids = distinct(alloc, &guids)?;
    push_listed(text, &index, nodes, ports, guids.as_slice())?;
    push_lone(text, nodes, ports)
}
