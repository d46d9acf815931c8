//! The colours of channel adapters, by their partitions.

ghost use Rattle.std.specs.Prelude.{◌≡◌, ◌∷◌, ◌++◌, OnOk, IfOk, flat_map};
ghost use Rattle.fabric_graph.specs.Partitions.{colour, colour_words, colours, fill, fill_of, further_colour, holds_base, is_in, is_of};
ghost use Rattle.fabric_graph.specs.Partitions.{partitions_of, style, style_words, styled_fill};

use std::alloc::{AllocError, Global};
use subnet_model::{Configuration, SubnetPort};
use text_words::push_decimal;
use topo_file::Node;

/// Adds the attributes that colour a channel adapter.
pub(crate) fn push_fill_of(
    alloc: Global,
    text: &mut Vec<u8>,
    configuration: &Configuration,
    node: &Node,
) -> Result<(), AllocError>
    ensures { OnOk result (text.new.items ≡ text.old.items ++ fill_of configuration.now node.now) }
{
    if node.is_switch() {
        return Ok(());
    }
    push_styled_fill(text, &partitions_of(alloc, configuration, node)?)
}

fn push_styled_fill(text: &mut Vec<u8>, numbers: &[usize]) -> Result<(), AllocError>
    ensures { OnOk result (text.new.items ≡ text.old.items ++ styled_fill numbers.now) }
{
    push_fill(text, style(numbers), numbers)
}

/// The partitions that a node is in, by number, except the default one. It can only run out of memory.
#[tactic(auto, unfolding(crate::specs::Partitions::partitions_of))]
pub(crate) fn partitions_of(
    alloc: Global,
    configuration: &Configuration,
    node: &Node,
) -> Result<Vec<usize>, AllocError>
    ensures { IfOk result (λ numbers. numbers.items ≡ partitions_of configuration.now node.now) }
{
    (1..configuration.partitions().len())
        .filter(|number| is_in(configuration, node, *number))
        .collect(alloc)
}

/// Whether a port of the node is in the partition of that number.
fn is_in(configuration: &Configuration, node: &Node, number: usize) -> bool
    ensures { result ≡ is_in configuration.now node.now number }
{
    match configuration.partitions().get(number) {
        Some(heading) => holds_base(configuration.ports(), node, heading.base),
        None => false,
    }
}

fn holds_base(ports: &[SubnetPort], node: &Node, base: u16) -> bool
    ensures { result ≡ holds_base ports.now node.now base }
{
    ports
        .iter()
        .any(|port| is_of(node, port) && port.keys.has_base(base))
}

/// Whether an end port is one of the node.
pub(crate) fn is_of(node: &Node, port: &SubnetPort) -> bool
    ensures { result ≡ is_of node.now port.now }
{
    port.node_guid == node.guid
}

/// Adds the attributes of a node in these partitions, which is filled in this style.
#[tactic(auto, unfolding(crate::specs::Partitions::fill))]
pub(crate) fn push_fill(
    text: &mut Vec<u8>,
    filled: &[u8],
    numbers: &[usize],
) -> Result<(), AllocError>
    ensures { OnOk result (text.new.items ≡ text.old.items ++ fill filled.now numbers.now) }
{
    match numbers.split_first() {
        Some((first, others)) => push_style_and_colours(text, filled, *first, others),
        None => Ok(()),
    }
}

#[tactic(auto, unfolding(crate::specs::Partitions::fill))]
fn push_style_and_colours(
    text: &mut Vec<u8>,
    filled: &[u8],
    first: usize,
    others: &[usize],
) -> Result<(), AllocError>
    ensures { OnOk result (text.new.items ≡ text.old.items ++ fill filled.now (first ∷ others.now)) }
{
    push_style(text, filled)?;
    push_colours(text, first, others)
}

fn push_style(text: &mut Vec<u8>, filled: &[u8]) -> Result<(), AllocError>
    ensures { OnOk result (text.new.items ≡ text.old.items ++ style_words filled.now) }
{
    text.extend_from_slice(b", style=")?;
    text.extend_from_slice(filled)?;
    text.extend_from_slice(colour_words())
}

#[tactic(auto, unfolding(crate::specs::Partitions::colour_words))]
fn colour_words() -> &'static [u8]
    ensures { result.now ≡ colour_words }
{
    b", fillcolor="
}

fn push_colours(text: &mut Vec<u8>, first: usize, others: &[usize]) -> Result<(), AllocError>
    ensures { OnOk result (text.new.items ≡ text.old.items ++ colours first others.now) }
{
    text.extend_from_slice(b"\"")?;
    push_colour(text, first)?;
    push_further_colours(text, others)?;
    text.extend_from_slice(b"\"")
}

/// How a node in these partitions is filled.
fn style(numbers: &[usize]) -> &'static [u8]
    ensures { result.now ≡ style numbers.now }
{
    match numbers {
        [_, _, ..] => b"wedged",
        _ => b"filled",
    }
}

fn push_further_colours(text: &mut Vec<u8>, numbers: &[usize]) -> Result<(), AllocError>
    ensures { OnOk result (text.new.items ≡ text.old.items ++ flat_map further_colour numbers.now) }
{
    for number in numbers {
        push_further_colour(text, *number)?;
    }
    Ok(())
}

fn push_further_colour(text: &mut Vec<u8>, number: usize) -> Result<(), AllocError>
    ensures { OnOk result (text.new.items ≡ text.old.items ++ further_colour number) }
{
    text.extend_from_slice(b":")?;
    push_colour(text, number)
}

/// Adds the colour of a partition.
fn push_colour(text: &mut Vec<u8>, number: usize) -> Result<(), AllocError>
    ensures { OnOk result (text.new.items ≡ text.old.items ++ colour number) }
{
    text.extend_from_slice(b"/set312/")?;
    push_decimal(text, number.saturating_sub(1) % 12 + 1)
}
