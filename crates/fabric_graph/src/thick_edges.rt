//! The text of thick edges.

ghost use Rattle.std.specs.Prelude.{◌≡◌, ◌++◌, ◌+◌, ◌<◌, ◌^◌, OnOk, get_or};
ghost use Rattle.fabric_graph.specs.Ranks.{row_of};
ghost use Rattle.fabric_graph.specs.ThickEdges.{at_box, compound, has_thick, is_boxed, middle_name, thick_edge, thick_ends, thick_foot, thick_line, thick_look};

use crate::ranks::row_of;
use crate::rows::is_thick;
use std::alloc::{AllocError, Global};
use text_words::{push_decimal, push_quoted};
use topo_file::{Node, name_at};

/// That an edge may end at a box, if there is a thick one.
pub(crate) fn compound(thick: &[usize]) -> &'static [u8]
    ensures { result.now ≡ compound thick.now }
{
    if has_thick(thick) {
        b"  compound=true;\n"
    } else {
        b""
    }
}

fn has_thick(thick: &[usize]) -> bool
    ensures { result ≡ has_thick thick.now }
{
    thick.iter().any(|count| *count > 0)
}

/// Whether a thick edge ends at the row of that rank.
pub(crate) fn is_boxed(thick: &[usize], rank: usize) -> bool
    ensures { result ≡ is_boxed thick.now rank }
{
    is_thick(thick, rank) || (rank > 0 && is_thick(thick, rank - 1))
}

/// Adds the thick edge between the row of that rank and the next, if there is one.
pub(crate) fn push_thick_edge(
    alloc: Global,
    text: &mut Vec<u8>,
    nodes: &[Node],
    ranks: &[Option<usize>],
    thick: &[usize],
    rank: usize,
) -> Result<(), AllocError>
    requires { rank + 1 < 2 ^ 64 }
    ensures { OnOk result (text.new.items ≡ text.old.items ++ thick_edge nodes.now ranks.now thick.now rank) }
{
    match thick.get(rank) {
        Some(count) if *count > 0 => push_thick_line(alloc, text, nodes, ranks, rank, *count),
        _ => Ok(()),
    }
}

fn push_thick_line(
    alloc: Global,
    text: &mut Vec<u8>,
    nodes: &[Node],
    ranks: &[Option<usize>],
    rank: usize,
    count: usize,
) -> Result<(), AllocError>
    requires { rank + 1 < 2 ^ 64 }
    ensures { OnOk result (text.new.items ≡ text.old.items ++ thick_line nodes.now ranks.now rank count) }
{
    let uppers = row_of(alloc, ranks, rank)?;
    let lowers = row_of(alloc, ranks, rank + 1)?;
    push_thick_ends(
        text,
        middle_name(nodes, uppers.as_slice()),
        middle_name(nodes, lowers.as_slice()),
    )?;
    push_at_box(text, b" [ltail", rank)?;
    push_at_box(text, b", lhead", rank + 1)?;
    text.extend_from_slice(thick_look())?;
    push_decimal(text, count)?;
    text.extend_from_slice(thick_foot())
}

/// The name of the switch in the middle of a row.
fn middle_name<'a>(nodes: &'a [Node], row: &[usize]) -> &'a [u8]
    ensures { result.now ≡ middle_name nodes.now row.now }
{
    match row.get(row.len() / 2) {
        Some(place) => name_at(nodes, *place),
        None => name_at(nodes, 0),
    }
}

#[tactic(auto, unfolding(crate::specs::ThickEdges::thick_ends))]
fn push_thick_ends(text: &mut Vec<u8>, upper: &[u8], lower: &[u8]) -> Result<(), AllocError>
    ensures { OnOk result (text.new.items ≡ text.old.items ++ thick_ends upper.now lower.now) }
{
    text.extend_from_slice(b"  ")?;
    push_quoted(text, upper)?;
    text.extend_from_slice(b" -- ")?;
    push_quoted(text, lower)
}

/// Adds the box at which an end of the edge ends.
#[tactic(auto, unfolding(crate::specs::ThickEdges::at_box))]
fn push_at_box(text: &mut Vec<u8>, end: &[u8], rank: usize) -> Result<(), AllocError>
    ensures { OnOk result (text.new.items ≡ text.old.items ++ at_box end.now rank) }
{
    text.extend_from_slice(end)?;
    text.extend_from_slice(b"=cluster_rank")?;
    push_decimal(text, rank)
}

#[tactic(auto, unfolding(crate::specs::ThickEdges::thick_look))]
fn thick_look() -> &'static [u8]
    ensures { result.now ≡ thick_look }
{
    b", penwidth=10, color=gray60, label=\""
}

#[tactic(auto, unfolding(crate::specs::ThickEdges::thick_foot))]
fn thick_foot() -> &'static [u8]
    ensures { result.now ≡ thick_foot }
{
    b" cables, all to all\"];\n"
}
