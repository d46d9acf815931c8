//! How the edge of a cable is drawn.

ghost use Rattle.std.specs.Prelude.{◌≡◌, ◌++◌, OnOk};
ghost use Rattle.cable_looks.specs.Edges.{colour_words, direction, end_name, loaded_look, shade, step_look, tooltip, tooltip_words, width_words};

use crate::looks::{CableLoad, Look, busier};
use crate::steps::{step_colour, step_of};
use fabric_parts::{Cable, PortRef};
use std::alloc::AllocError;
use text_words::{push_decimal, push_port_name};
use topo_file::{Node, name_at};

/// Adds the name of a port.
#[tactic(auto, unfolding(crate::specs::Edges::end_name))]
pub fn push_end_name(text: &mut Vec<u8>, nodes: &[Node], end: PortRef) -> Result<(), AllocError>
    ensures { OnOk result (text.new.items ≡ text.old.items ++ end_name nodes.now end) }
{
    push_port_name(text, name_at(nodes, end.node), end.port)
}

#[tactic(auto, unfolding(crate::specs::Edges::direction))]
fn push_direction(
    text: &mut Vec<u8>,
    nodes: &[Node],
    from: PortRef,
    to: PortRef,
    load: usize,
) -> Result<(), AllocError>
    ensures { OnOk result (text.new.items ≡ text.old.items ++ direction nodes.now from to load) }
{
    push_end_name(text, nodes, from)?;
    text.extend_from_slice(b" to ")?;
    push_end_name(text, nodes, to)?;
    text.extend_from_slice(b" ")?;
    push_decimal(text, load)
}

#[tactic(auto, unfolding(crate::specs::Edges::tooltip_words))]
fn tooltip_words() -> &'static [u8]
    ensures { result.now ≡ tooltip_words }
{
    b", tooltip=\""
}

fn push_tooltip(
    text: &mut Vec<u8>,
    nodes: &[Node],
    cable: Cable,
    load: CableLoad,
) -> Result<(), AllocError>
    ensures { OnOk result (text.new.items ≡ text.old.items ++ tooltip nodes.now cable load) }
{
    text.extend_from_slice(tooltip_words())?;
    push_direction(text, nodes, cable.first, cable.second, load.forth)?;
    text.extend_from_slice(b", ")?;
    push_direction(text, nodes, cable.second, cable.first, load.back)?;
    text.extend_from_slice(b"\"")
}

#[tactic(auto, unfolding(crate::specs::Edges::colour_words))]
fn colour_words() -> &'static [u8]
    ensures { result.now ≡ colour_words }
{
    b", color=\""
}

#[tactic(auto, unfolding(crate::specs::Edges::width_words))]
fn width_words() -> &'static [u8]
    ensures { result.now ≡ width_words }
{
    b"\", penwidth="
}

fn push_step_look(text: &mut Vec<u8>, step: usize) -> Result<(), AllocError>
    ensures { OnOk result (text.new.items ≡ text.old.items ++ step_look step) }
{
    text.extend_from_slice(colour_words())?;
    text.extend_from_slice(step_colour(step))?;
    text.extend_from_slice(width_words())?;
    push_decimal(text, step)
}

/// Adds how the edge of a cable shows its load.
fn push_loaded_look(
    text: &mut Vec<u8>,
    nodes: &[Node],
    most: usize,
    cable: Cable,
    load: CableLoad,
) -> Result<(), AllocError>
    ensures { OnOk result (text.new.items ≡ text.old.items ++ loaded_look nodes.now most cable load) }
{
    let step = step_of(most, busier(load))?;
    push_step_look(text, step)?;
    push_tooltip(text, nodes, cable, load)
}

/// Adds how the edge of a cable is drawn, to the attributes of the edge: nothing if it is drawn as all others. `most` is the
/// greatest load of the picture, by [`most_of`](crate::most_of). It can only run out of memory.
#[tactic(auto, unfolding(crate::specs::Edges::shade))]
pub fn push_shade(
    text: &mut Vec<u8>,
    nodes: &[Node],
    most: usize,
    cable: Cable,
    look: Look,
) -> Result<(), AllocError>
    ensures { OnOk result (text.new.items ≡ text.old.items ++ shade nodes.now most cable look) }
{
    match look {
        Look::Plain => Ok(()),
        Look::Needed => text.extend_from_slice(b", color=red, penwidth=2"),
        Look::Loaded(load) => push_loaded_look(text, nodes, most, cable, load),
    }
}
