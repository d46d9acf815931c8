//! What is said of a fabric that is too large to be simulated.

ghost use Rattle.std.specs.Prelude.{◌≡◌, ◌++◌, count_by, OnOk};
ghost use Rattle.topology_import.specs.Sizes.{is_switch, is_too_large, is_wide, lines_of, port_words, size_lines, switch_words, title, wide_words};

use crate::planned::Planned;
use fabric_parts::{ADAPTER_PORTS, SWITCH_PORTS, SWITCHES};
use std::alloc::AllocError;
use text_words::push_decimal;

fn is_wide(node: &Planned) -> bool
    ensures { result ≡ is_wide node.now }
{
    node.node_type.is_switch() && usize::from(node.ports) > SWITCH_PORTS
}

fn switch_count(nodes: &[Planned]) -> usize
    ensures { result ≡ count_by is_switch nodes.now }
{
    nodes
        .iter()
        .filter(|node| node.node_type.is_switch())
        .count()
}

fn wide_count(nodes: &[Planned]) -> usize
    ensures { result ≡ count_by is_wide nodes.now }
{
    nodes.iter().filter(|node| is_wide(node)).count()
}

fn is_too_large(nodes: &[Planned], adapter_ports: usize) -> bool
    ensures { result ≡ is_too_large nodes.now adapter_ports }
{
    switch_count(nodes) > SWITCHES || adapter_ports > ADAPTER_PORTS || wide_count(nodes) != 0
}

#[tactic(auto, unfolding(crate::specs::Sizes::title))]
fn push_title(text: &mut Vec<u8>) -> Result<(), AllocError>
    ensures { OnOk result (text.new.items ≡ text.old.items ++ title) }
{
    text.extend_from_slice(b"# too large to be simulated: ")
}

#[tactic(auto, unfolding(crate::specs::Sizes::switch_words))]
fn push_switch_words(text: &mut Vec<u8>) -> Result<(), AllocError>
    ensures { OnOk result (text.new.items ≡ text.old.items ++ switch_words) }
{
    text.extend_from_slice(b" switches (at most 64), ")
}

#[tactic(auto, unfolding(crate::specs::Sizes::wide_words))]
fn push_wide_words(text: &mut Vec<u8>) -> Result<(), AllocError>
    ensures { OnOk result (text.new.items ≡ text.old.items ++ wide_words) }
{
    text.extend_from_slice(b" of them of more than 36 ports, ")
}

#[tactic(auto, unfolding(crate::specs::Sizes::port_words))]
fn push_port_words(text: &mut Vec<u8>) -> Result<(), AllocError>
    ensures { OnOk result (text.new.items ≡ text.old.items ++ port_words) }
{
    text.extend_from_slice(
        b" CA ports (at most 256)\n# audit, audit-keys, shares and diff take it\n",
    )
}

#[tactic(auto, unfolding(crate::specs::Sizes::lines_of))]
fn push_lines(
    text: &mut Vec<u8>,
    switches: usize,
    wide: usize,
    adapter_ports: usize,
) -> Result<(), AllocError>
    ensures { OnOk result (text.new.items ≡ text.old.items ++ lines_of switches wide adapter_ports) }
{
    push_title(text)?;
    push_decimal(text, switches)?;
    push_switch_words(text)?;
    push_decimal(text, wide)?;
    push_wide_words(text)?;
    push_decimal(text, adapter_ports)?;
    push_port_words(text)
}

/// Adds why the fabric is too large to be simulated, if it is.
pub(crate) fn push_sizes(
    text: &mut Vec<u8>,
    nodes: &[Planned],
    adapter_ports: usize,
) -> Result<(), AllocError>
    ensures { OnOk result (text.new.items ≡ text.old.items ++ size_lines nodes.now adapter_ports) }
{
    if !is_too_large(nodes, adapter_ports) {
        return Ok(());
    }
    push_lines(text, switch_count(nodes), wide_count(nodes), adapter_ports)
}
