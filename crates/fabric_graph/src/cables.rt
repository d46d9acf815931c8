//! The cables of a topology, as edges; those that are cut in the fabric are dashed.

ghost use Rattle.std.specs.Prelude.{◌≡◌, ◌++◌, length, OnOk};
ghost use Rattle.fabric_graph.specs.Cables.{cable_line, downward, edge_head, end_label, end_labels, ends, is_above, is_cut};
ghost use Rattle.fabric_graph.specs.Cables.{ends_tooltip, is_crowded, ports_shown, stroke};

use crate::lists::Attachment;
use crate::ranks::rank_at;
use cable_looks::{Look, push_end_name, push_shade};
use fabric_parts::Cable;
use fabric_wire::Fabric;
use std::alloc::AllocError;
use text_words::{push_decimal, push_quoted};
use topo_file::{Node, Topology, name_at};

/// How many cables a picture has at most in which the numbers of ports are at the ends of edges. The number is ours.
pub const LABELLED: usize = 200;

/// What the edges are drawn of.
#[derive(Clone, Copy)]
pub(crate) struct Edges<'a> {
    pub(crate) topology: &'a Topology,
    /// The ranks of nodes, by their places.
    pub(crate) ranks: &'a [Option<usize>],
    pub(crate) fabric: &'a Fabric,
    /// Where each adapter that may stand in a list is attached.
    pub(crate) attachments: &'a [Option<Attachment>],
    /// How the cable at each place of the topology is drawn.
    pub(crate) looks: &'a [Look],
    /// The greatest load of all cables.
    pub(crate) most: usize,
}

/// Adds the edge of a cable.
pub(crate) fn push_cable_line(
    text: &mut Vec<u8>,
    edges: Edges<'_>,
    look: Look,
    cable: &Cable,
) -> Result<(), AllocError>
    ensures { OnOk result (text.new.items ≡ text.old.items
        ++ cable_line (is_crowded (length edges.entry.topology.now.cables)) edges.entry.ranks.now edges.entry.topology.now.nodes
        edges.entry.fabric.now edges.entry.most look cable.now) }
{
    let nodes = edges.topology.nodes();
    let crowded = is_crowded(edges.topology.cables().len());
    push_edge_head(text, crowded, nodes, downward(edges.ranks, *cable))?;
    text.extend_from_slice(stroke(is_cut(edges.fabric, cable)))?;
    push_shade(text, nodes, edges.most, *cable, look)?;
    text.extend_from_slice(b"];\n")
}

/// Whether nothing goes over this cable of the topology in the fabric.
pub(crate) fn is_cut(fabric: &Fabric, cable: &Cable) -> bool
    ensures { result ≡ is_cut fabric.now cable.now }
{
    fabric.far_end(cable.first).is_none()
}

/// The cable from its upper end.
fn downward(ranks: &[Option<usize>], cable: Cable) -> Cable
    ensures { result ≡ downward ranks.now cable }
{
    let first = rank_at(ranks, cable.first.node);
    let second = rank_at(ranks, cable.second.node);
    if is_above(second, first) {
        Cable {
            first: cable.second,
            second: cable.first,
        }
    } else {
        cable
    }
}

/// Whether a node of the one rank is drawn above one of the other; one without a rank is above none.
fn is_above(one: Option<usize>, other: Option<usize>) -> bool
    ensures { result ≡ is_above one other }
{
    match (one, other) {
        (Some(rank), Some(other)) => rank < other,
        (Some(_), None) => true,
        (None, _) => false,
    }
}

/// Whether a picture has too many cables for the numbers of their ports.
pub(crate) fn is_crowded(cables: usize) -> bool
    ensures { result ≡ is_crowded cables }
{
    cables > LABELLED
}

/// Adds the ends of an edge, and the numbers of their ports.
#[tactic(auto, unfolding(crate::specs::Cables::edge_head))]
fn push_edge_head(
    text: &mut Vec<u8>,
    crowded: bool,
    nodes: &[Node],
    cable: Cable,
) -> Result<(), AllocError>
    ensures { OnOk result (text.new.items ≡ text.old.items ++ edge_head crowded nodes.now cable) }
{
    text.extend_from_slice(b"  ")?;
    push_ends(text, nodes, cable)?;
    text.extend_from_slice(b" [")?;
    push_ports_shown(text, crowded, nodes, cable)
}

#[tactic(auto, unfolding(crate::specs::Cables::ports_shown))]
fn push_ports_shown(
    text: &mut Vec<u8>,
    crowded: bool,
    nodes: &[Node],
    cable: Cable,
) -> Result<(), AllocError>
    ensures { OnOk result (text.new.items ≡ text.old.items ++ ports_shown crowded nodes.now cable) }
{
    if crowded {
        push_ends_tooltip(text, nodes, cable)
    } else {
        push_end_labels(text, cable)
    }
}

#[tactic(auto, unfolding(crate::specs::Cables::ends_tooltip))]
fn push_ends_tooltip(text: &mut Vec<u8>, nodes: &[Node], cable: Cable) -> Result<(), AllocError>
    ensures { OnOk result (text.new.items ≡ text.old.items ++ ends_tooltip nodes.now cable) }
{
    text.extend_from_slice(b"tooltip=\"")?;
    push_end_name(text, nodes, cable.first)?;
    text.extend_from_slice(b" to ")?;
    push_end_name(text, nodes, cable.second)?;
    text.extend_from_slice(b"\"")
}

/// How the edge of a cable is drawn that is cut, or is not.
#[tactic(auto, unfolding(crate::specs::Cables::stroke))]
fn stroke(cut: bool) -> &'static [u8]
    ensures { result.now ≡ stroke cut }
{
    if cut { b", style=dashed" } else { b"" }
}

fn push_ends(text: &mut Vec<u8>, nodes: &[Node], cable: Cable) -> Result<(), AllocError>
    ensures { OnOk result (text.new.items ≡ text.old.items ++ ends nodes.now cable) }
{
    push_quoted(text, name_at(nodes, cable.first.node))?;
    text.extend_from_slice(b" -- ")?;
    push_quoted(text, name_at(nodes, cable.second.node))
}

/// Adds the numbers of the ports at both ends.
fn push_end_labels(text: &mut Vec<u8>, cable: Cable) -> Result<(), AllocError>
    ensures { OnOk result (text.new.items ≡ text.old.items ++ end_labels cable) }
{
    push_end_label(text, b"taillabel", cable.first.port)?;
    text.extend_from_slice(b", ")?;
    push_end_label(text, b"headlabel", cable.second.port)
}

fn push_end_label(text: &mut Vec<u8>, end: &[u8], number: u8) -> Result<(), AllocError>
    ensures { OnOk result (text.new.items ≡ text.old.items ++ end_label end.now number) }
{
    text.extend_from_slice(end)?;
    text.extend_from_slice(b"=\"")?;
    push_decimal(text, usize::from(number))?;
    text.extend_from_slice(b"\"")
}
