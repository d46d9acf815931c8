//! The text of the topology.

ghost use Rattle.std.specs.Prelude.{◌≡◌, ◌++◌, ◌<◌, flat_map, IfOk, OnOk};
ghost use Rattle.topology_import.specs.Text.{adapter_note, cable_line, cable_source, end_text, from_text, heading, lid_text, line_note, line_source, manager_line, node_line, node_note, next_note, note, note_of, port_note, router_line, separator, source_of, switch_note, text_with, title, type_text};

use crate::cables::{CableMeant, End, adapter_end};
use crate::ends::{EndList, is_router};
use crate::names::name_at;
use crate::planned::{Planned, PlannedList};
use crate::sizes::push_sizes;
use netdiscover_file::{Discovery, Node, PortLine};
use std::alloc::{AllocError, Global};
use text_words::{push_decimal, push_guid, push_port_name, push_quoted};

fn title() -> &'static [u8]
    ensures { result.now ≡ title }
{
    b"# fabric import, from ibnetdiscover"
}

fn push_heading(text: &mut Vec<u8>, initiator: Option<u64>) -> Result<(), AllocError>
    ensures { OnOk result (text.new.items ≡ text.old.items ++ heading initiator) }
{
    text.extend_from_slice(title())?;
    push_from(text, initiator)?;
    text.push(b'\n')?;
    Ok(())
}

fn push_from(text: &mut Vec<u8>, initiator: Option<u64>) -> Result<(), AllocError>
    ensures { OnOk result (text.new.items ≡ text.old.items ++ from_text initiator) }
{
    match initiator {
        Some(guid) => {
            text.extend_from_slice(b" at port ")?;
            push_guid(text, guid)
        }
        None => Ok(()),
    }
}

fn push_lid(text: &mut Vec<u8>, lid: Option<u16>) -> Result<(), AllocError>
    ensures { OnOk result (text.new.items ≡ text.old.items ++ lid_text lid) }
{
    match lid {
        Some(number) => {
            text.extend_from_slice(b" lid ")?;
            push_decimal(text, usize::from(number))
        }
        None => Ok(()),
    }
}

fn push_node_note(text: &mut Vec<u8>, node: &Node) -> Result<(), AllocError>
    ensures { OnOk result (text.new.items ≡ text.old.items ++ node_note node.now) }
{
    push_quoted(text, node.name.as_bytes())?;
    push_lid(text, node.lid)
}

fn push_switch_note(text: &mut Vec<u8>, nodes: &[Node], place: usize) -> Result<(), AllocError>
    ensures { OnOk result (text.new.items ≡ text.old.items ++ switch_note nodes.now place) }
{
    match nodes.get(place) {
        Some(node) => push_node_note(text, node),
        None => Ok(()),
    }
}

fn push_line_note(text: &mut Vec<u8>, nodes: &[Node], line: &PortLine) -> Result<(), AllocError>
    ensures { OnOk result (text.new.items ≡ text.old.items ++ line_note nodes.now line.now) }
{
    push_quoted(text, name_at(nodes, line.port.node))?;
    text.extend_from_slice(b" port ")?;
    push_decimal(text, usize::from(line.port.port))?;
    push_lid(text, line.lid)
}

fn push_port_note(
    text: &mut Vec<u8>,
    nodes: &[Node],
    ends: &EndList,
    guid: u64,
) -> Result<(), AllocError>
    ensures { OnOk result (text.new.items ≡ text.old.items ++ port_note nodes.now ends.now guid) }
{
    match ends.end_with(guid) {
        Some(line) => push_line_note(text, nodes, line),
        None => Ok(()),
    }
}

fn separator(before: u8) -> &'static [u8]
    ensures { result.now ≡ separator before }
{
    if before == 0 { b"" } else { b"; " }
}

fn push_next_note(
    text: &mut Vec<u8>,
    nodes: &[Node],
    ends: &EndList,
    guid: u64,
    before: u8,
) -> Result<(), AllocError>
    requires { before < 255 }
    ensures { OnOk result (text.new.items ≡ text.old.items ++ next_note nodes.now ends.now guid before) }
{
    text.extend_from_slice(separator(before))?;
    push_note_of(text, nodes, ends, guid, before + 1)
}

fn push_note_of(
    text: &mut Vec<u8>,
    nodes: &[Node],
    ends: &EndList,
    guid: u64,
    number: u8,
) -> Result<(), AllocError>
    ensures { OnOk result (text.new.items ≡ text.old.items ++ note_of nodes.now ends.now guid number) }
{
    match guid.checked_add(u64::from(number)) {
        Some(guid) => push_port_note(text, nodes, ends, guid),
        None => Ok(()),
    }
}

fn push_adapter_note(
    text: &mut Vec<u8>,
    nodes: &[Node],
    ends: &EndList,
    guid: u64,
    ports: u8,
) -> Result<(), AllocError>
    ensures { OnOk result (text.new.items ≡ text.old.items ++ adapter_note nodes.now ends.now guid ports) }
{
    for before in 0..ports {
        push_next_note(text, nodes, ends, guid, before)?;
    }
    Ok(())
}

fn push_note(
    text: &mut Vec<u8>,
    nodes: &[Node],
    ends: &EndList,
    node: &Planned,
) -> Result<(), AllocError>
    ensures { OnOk result (text.new.items ≡ text.old.items ++ note nodes.now ends.now node.now) }
{
    if node.node_type.is_switch() {
        return push_switch_note(text, nodes, node.node);
    }
    push_adapter_note(text, nodes, ends, node.guid, node.ports)
}

fn type_text(node: &Planned) -> &'static [u8]
    ensures { result.now ≡ type_text node.now }
{
    if node.node_type.is_switch() {
        b"switch "
    } else {
        b"adapter "
    }
}

fn push_node_line(
    text: &mut Vec<u8>,
    nodes: &[Node],
    ends: &EndList,
    node: &Planned,
) -> Result<(), AllocError>
    ensures { OnOk result (text.new.items ≡ text.old.items ++ node_line nodes.now ends.now node.now) }
{
    text.extend_from_slice(type_text(node))?;
    text.extend_from_slice(node.name.as_bytes())?;
    text.extend_from_slice(b" ")?;
    push_guid(text, node.guid)?;
    text.extend_from_slice(b" ")?;
    push_decimal(text, usize::from(node.ports))?;
    text.extend_from_slice(b" # ")?;
    push_note(text, nodes, ends, node)?;
    text.push(b'\n')?;
    Ok(())
}

fn push_node_lines(
    text: &mut Vec<u8>,
    found: &[Node],
    ends: &EndList,
    nodes: &[Planned],
) -> Result<(), AllocError>
    ensures { OnOk result (text.new.items ≡ text.old.items ++ flat_map (node_line found.now ends.now) nodes.now) }
{
    for node in nodes {
        push_node_line(text, found, ends, node)?;
    }
    Ok(())
}

fn push_end(text: &mut Vec<u8>, nodes: &PlannedList, port: End) -> Result<(), AllocError>
    ensures { OnOk result (text.new.items ≡ text.old.items ++ end_text nodes.now port) }
{
    push_port_name(text, nodes.name_with(port.guid), port.port)
}

fn push_cable_line(
    text: &mut Vec<u8>,
    nodes: &PlannedList,
    cable: &CableMeant,
) -> Result<(), AllocError>
    ensures { OnOk result (text.new.items ≡ text.old.items ++ cable_line nodes.now cable.now) }
{
    text.extend_from_slice(b"cable ")?;
    push_end(text, nodes, cable.first)?;
    text.extend_from_slice(b" ")?;
    push_end(text, nodes, cable.second)?;
    text.push(b'\n')?;
    Ok(())
}

fn push_cable_lines(
    text: &mut Vec<u8>,
    nodes: &PlannedList,
    cables: &[CableMeant],
) -> Result<(), AllocError>
    ensures { OnOk result (text.new.items ≡ text.old.items ++ flat_map (cable_line nodes.now) cables.now) }
{
    for cable in cables {
        push_cable_line(text, nodes, cable)?;
    }
    Ok(())
}

fn push_manager_line(text: &mut Vec<u8>, nodes: &PlannedList, port: End) -> Result<(), AllocError>
    ensures { OnOk result (text.new.items ≡ text.old.items ++ manager_line nodes.now port) }
{
    text.extend_from_slice(b"sm ")?;
    push_end(text, nodes, port)?;
    text.push(b'\n')?;
    Ok(())
}

fn push_router_line(text: &mut Vec<u8>, node: &Node) -> Result<(), AllocError>
    ensures { OnOk result (text.new.items ≡ text.old.items ++ router_line node.now) }
{
    if !is_router(node.id.kind) {
        return Ok(());
    }
    text.extend_from_slice(b"# router ")?;
    push_quoted(text, node.name.as_bytes())?;
    text.extend_from_slice(b" ")?;
    push_guid(text, node.id.guid)?;
    text.extend_from_slice(b" is left out")?;
    text.push(b'\n')?;
    Ok(())
}

fn push_router_lines(text: &mut Vec<u8>, nodes: &[Node]) -> Result<(), AllocError>
    ensures { OnOk result (text.new.items ≡ text.old.items ++ flat_map router_line nodes.now) }
{
    for node in nodes {
        push_router_line(text, node)?;
    }
    Ok(())
}

/// The text of these nodes and cables, with the subnet manager on the end port of this GUID.
#[tactic(auto, unfolding(crate::specs::Text::text_with))]
pub(crate) fn text_with(
    alloc: Global,
    discovery: &Discovery,
    ends: &EndList,
    nodes: &PlannedList,
    cables: &[CableMeant],
    manager: u64,
) -> Result<Vec<u8>, AllocError>
    ensures { IfOk result (λ text. text.items ≡ text_with discovery.now ends.now nodes.now cables.now manager) }
{
    let mut text = Vec::new(alloc);
    push_heading(&mut text, discovery.initiator())?;
    push_node_lines(&mut text, discovery.nodes(), ends, nodes.as_slice())?;
    push_cable_lines(&mut text, nodes, cables)?;
    push_manager_line(&mut text, nodes, adapter_end(ends, manager))?;
    push_router_lines(&mut text, discovery.nodes())?;
    push_sizes(&mut text, nodes.as_slice(), ends.count())?;
    Ok(text)
}

fn cable_source(cables: &[CableMeant], place: usize) -> usize
    ensures { result ≡ cable_source cables.now place }
{
    match cables.get(place) {
        Some(cable) => cable.line,
        None => 0,
    }
}

fn line_source(nodes: &[Planned], cables: &[CableMeant], place: usize) -> usize
    ensures { result ≡ line_source nodes.now cables.now place }
{
    match nodes.get(place) {
        Some(node) => node.line,
        None => cable_source(cables, place.saturating_sub(nodes.len())),
    }
}

/// The line of the discovery from which a line of the text was made.
pub(crate) fn source_of(nodes: &[Planned], cables: &[CableMeant], line: usize) -> usize
    ensures { result ≡ source_of nodes.now cables.now line }
{
    if line < 2 {
        return 0;
    }
    line_source(nodes, cables, line - 2)
}
