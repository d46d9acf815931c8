//! The text of lists, and of nodes that are drawn by themselves.

ghost use Rattle.std.specs.Prelude.{◌≡◌, ◌++◌, OnOk, flat_map};
ghost use Rattle.fabric_graph.specs.Lists.{drawn_text, lid_word_of, list_at, list_fill, list_head, list_label, list_node, list_style};
ghost use Rattle.fabric_graph.specs.Lists.{node_at, place_text, row, row_at, attached_row};

use crate::lists::{Attachment, attachment_in, drawn_at};
use crate::nodes::push_node_line;
use crate::partitions::{is_of, push_fill};
use std::alloc::{AllocError, Global};
use subnet_model::{Configuration, SubnetPort};
use text_words::{push_decimal, push_hex, push_quoted};
use topo_file::{Node, Topology, name_at};

/// Adds what is drawn where the node of this place stands.
pub(crate) fn push_place_text(
    alloc: Global,
    text: &mut Vec<u8>,
    topology: &Topology,
    configuration: &Configuration,
    attachments: &[Option<Attachment>],
    place: usize,
) -> Result<(), AllocError>
    ensures { OnOk result (text.new.items ≡ text.old.items ++ place_text topology.now configuration.now attachments.now place) }
{
    let drawn = drawn_at(alloc, attachments, place)?;
    push_drawn_text(
        alloc,
        text,
        topology,
        configuration,
        attachments,
        drawn.as_slice(),
    )
}

fn push_drawn_text(
    alloc: Global,
    text: &mut Vec<u8>,
    topology: &Topology,
    configuration: &Configuration,
    attachments: &[Option<Attachment>],
    drawn: &[usize],
) -> Result<(), AllocError>
    ensures { OnOk result (text.new.items ≡ text.old.items ++ drawn_text topology.now configuration.now attachments.now drawn.now) }
{
    match drawn {
        [] => Ok(()),
        [place] => push_node_at(alloc, text, topology, configuration, *place),
        [place, ..] => push_list_at(text, topology, configuration, attachments, *place, drawn),
    }
}

fn push_node_at(
    alloc: Global,
    text: &mut Vec<u8>,
    topology: &Topology,
    configuration: &Configuration,
    place: usize,
) -> Result<(), AllocError>
    ensures { OnOk result (text.new.items ≡ text.old.items ++ node_at topology.now configuration.now place) }
{
    match topology.nodes().get(place) {
        Some(node) => push_node_line(alloc, text, topology, configuration, node),
        None => Ok(()),
    }
}

/// Adds a list, and its edge to the switch, if an adapter of this place is attached to one.
#[tactic(auto, unfolding(crate::specs::Lists::list_text))]
fn push_list_at(
    text: &mut Vec<u8>,
    topology: &Topology,
    configuration: &Configuration,
    attachments: &[Option<Attachment>],
    place: usize,
    drawn: &[usize],
) -> Result<(), AllocError>
    ensures { OnOk result (text.new.items
        ≡ text.old.items ++ list_at topology.now configuration.now attachments.now place drawn.now) }
{
    let Some(attachment) = attachment_in(attachments, place) else {
        return Ok(());
    };
    let name = name_at(topology.nodes(), place);
    text.extend_from_slice(b"  ")?;
    push_quoted(text, name)?;
    push_list_node(
        text,
        topology,
        configuration,
        attachments,
        attachment,
        drawn,
    )?;
    text.extend_from_slice(b"  ")?;
    push_quoted(text, name_at(topology.nodes(), attachment.switch))?;
    text.extend_from_slice(b" -- ")?;
    push_quoted(text, name)?;
    text.extend_from_slice(b";\n")
}

#[tactic(auto, unfolding(crate::specs::Lists::list_node))]
fn push_list_node(
    text: &mut Vec<u8>,
    topology: &Topology,
    configuration: &Configuration,
    attachments: &[Option<Attachment>],
    attachment: &Attachment,
    drawn: &[usize],
) -> Result<(), AllocError>
    ensures { OnOk result (text.new.items
        ≡ text.old.items ++ list_node topology.now configuration.now attachments.now attachment.now drawn.now) }
{
    push_list_label(text, topology, configuration, attachments, drawn)?;
    push_list_fill(text, attachment.partitions.as_slice())?;
    text.extend_from_slice(b"];\n")
}

fn push_list_label(
    text: &mut Vec<u8>,
    topology: &Topology,
    configuration: &Configuration,
    attachments: &[Option<Attachment>],
    drawn: &[usize],
) -> Result<(), AllocError>
    ensures { OnOk result (text.new.items
        ≡ text.old.items ++ list_label topology.now configuration.now attachments.now drawn.now) }
{
    text.extend_from_slice(list_head())?;
    push_rows(text, topology, configuration, attachments, drawn)?;
    text.push(b'"')?;
    Ok(())
}

/// How a list looks, and what stands over its lines.
#[tactic(auto, unfolding(crate::specs::Lists::list_head))]
fn list_head() -> &'static [u8]
    ensures { result.now ≡ list_head }
{
    b" [shape=box, fontsize=9, margin=0.05, label=\"port adapter LID\\l"
}

fn push_list_fill(text: &mut Vec<u8>, numbers: &[usize]) -> Result<(), AllocError>
    ensures { OnOk result (text.new.items ≡ text.old.items ++ list_fill numbers.now) }
{
    push_fill(text, list_style(numbers), numbers)
}

/// How a list of adapters in these partitions is filled.
fn list_style(numbers: &[usize]) -> &'static [u8]
    ensures { result.now ≡ list_style numbers.now }
{
    match numbers {
        [_, _, ..] => b"striped",
        _ => b"filled",
    }
}

fn push_rows(
    text: &mut Vec<u8>,
    topology: &Topology,
    configuration: &Configuration,
    attachments: &[Option<Attachment>],
    drawn: &[usize],
) -> Result<(), AllocError>
    ensures { OnOk result (text.new.items
        ≡ text.old.items ++ flat_map (row_at topology.now configuration.now attachments.now) drawn.now) }
{
    for place in drawn {
        push_row_at(text, topology, configuration, attachments, *place)?;
    }
    Ok(())
}

fn push_row_at(
    text: &mut Vec<u8>,
    topology: &Topology,
    configuration: &Configuration,
    attachments: &[Option<Attachment>],
    place: usize,
) -> Result<(), AllocError>
    ensures { OnOk result (text.new.items ≡ text.old.items ++ row_at topology.now configuration.now attachments.now place) }
{
    match attachment_in(attachments, place) {
        Some(attachment) => push_attached_row(text, topology, configuration, place, attachment),
        None => Ok(()),
    }
}

fn push_attached_row(
    text: &mut Vec<u8>,
    topology: &Topology,
    configuration: &Configuration,
    place: usize,
    attachment: &Attachment,
) -> Result<(), AllocError>
    ensures { OnOk result (text.new.items ≡ text.old.items ++ attached_row topology.now configuration.now place attachment.now) }
{
    match topology.nodes().get(place) {
        Some(node) => push_row(text, configuration, attachment, node),
        None => Ok(()),
    }
}

/// Adds the line of an adapter: the port of the switch, its name and its LID.
#[tactic(auto, unfolding(crate::specs::Lists::row))]
fn push_row(
    text: &mut Vec<u8>,
    configuration: &Configuration,
    attachment: &Attachment,
    node: &Node,
) -> Result<(), AllocError>
    ensures { OnOk result (text.new.items ≡ text.old.items ++ row configuration.now attachment.now node.now) }
{
    push_decimal(text, usize::from(attachment.port))?;
    text.extend_from_slice(b" ")?;
    text.extend_from_slice(node.name.as_bytes())?;
    push_lid_words(text, configuration.ports(), node)?;
    text.extend_from_slice(b"\\l")
}

fn push_lid_words(text: &mut Vec<u8>, ports: &[SubnetPort], node: &Node) -> Result<(), AllocError>
    ensures { OnOk result (text.new.items ≡ text.old.items ++ flat_map (lid_word_of node.now) ports.now) }
{
    for port in ports {
        push_lid_word_of(text, node, port)?;
    }
    Ok(())
}

fn push_lid_word_of(text: &mut Vec<u8>, node: &Node, port: &SubnetPort) -> Result<(), AllocError>
    ensures { OnOk result (text.new.items ≡ text.old.items ++ lid_word_of node.now port.now) }
{
    if !is_of(node, port) {
        return Ok(());
    }
    text.extend_from_slice(b" ")?;
    push_hex(text, &port.lid.to_be_bytes())
}
