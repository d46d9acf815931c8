//! The whole text.

ghost use Rattle.std.specs.Prelude.{◌≡◌, ◌++◌, OnOk, IfOk, flat_map, length};
ghost use Rattle.std.specs.List.{range_with_len};
ghost use Rattle.cable_looks.specs.Looks.{most_of};
ghost use Rattle.fabric_graph.specs.Graph.{edge_at, edge_of, graph_text, head, is_edge, rank_text, ranks_drawn};
ghost use Rattle.fabric_graph.specs.Lists.{place_text, places, spacing};
ghost use Rattle.fabric_graph.specs.Rows.{picture_of};
ghost use Rattle.fabric_graph.specs.ThickEdges.{thick_edge};

use crate::cables::{Edges, push_cable_line};
use crate::list_lines::push_place_text;
use crate::lists::{Attachment, attachments_of, has_lists, is_in_list};
use crate::ranks::{push_rank_line, rank_count, ranks_of};
use crate::rows::{is_merged, thick_edges};
use crate::thick_edges::{compound, is_boxed, push_thick_edge};
use cable_looks::{Look, look_at, most_of, push_legend_of};
use fabric_parts::Cable;
use fabric_wire::Fabric;
use std::alloc::{AllocError, Global};
use subnet_model::Configuration;
use topo_file::{Node, Topology};
use updn_routes::Routes;

/// The fabric in DOT: a node of the picture for each node of the topology, or for a list of adapters that are attached to one switch
/// and are in the same partitions; a row for each rank of switches; and an edge for each cable that no list shows. It
/// can only run out of memory.
///
/// Switches are boxes and channel adapters ellipses, with the LIDs of their ports, and adapters are coloured by the
/// partitions other than the default one that they are in. Cables that are cut in the fabric are dashed. `looks` says of the cable
/// at each place of the topology how it is drawn besides; one of which it says nothing is plain. If a cable shows its load, a legend
/// says which loads each width and colour is for.
///
/// If there are more than [`LABELLED`](crate::LABELLED) cables, and each switch of a row is cabled to each of the next, one thick edge
/// with their number stands for the cables between both rows. Those that are cut, or not plain, stay edges of their own.
#[tactic(auto, unfolding(crate::specs::Graph::text_by))]
pub fn graph_text(
    alloc: Global,
    topology: &Topology,
    configuration: &Configuration,
    routes: &Routes,
    fabric: &Fabric,
    looks: &[Look],
) -> Result<Vec<u8>, AllocError>
    ensures { IfOk result (λ text. text.items ≡ graph_text topology.now configuration.now routes.now fabric.now looks.now) }
{
    let attachments = attachments_of(alloc, topology, configuration)?;
    let attachments = attachments.as_slice();
    let ranks = ranks_of(alloc, routes, topology.nodes())?;
    let edges = Edges {
        topology,
        ranks: ranks.as_slice(),
        fabric,
        attachments,
        looks,
        most: most_of(looks),
    };
    let thick = thick_edges(alloc, edges, rank_count(routes))?;
    let thick = thick.as_slice();
    let mut text = Vec::new(alloc);
    text.extend_from_slice(head())?;
    text.extend_from_slice(compound(thick))?;
    text.extend_from_slice(spacing(attachments))?;
    push_legend_of(&mut text, looks, edges.most)?;
    push_nodes(alloc, &mut text, topology, configuration, attachments)?;
    push_ranks(
        alloc,
        &mut text,
        routes,
        topology.nodes(),
        edges.ranks,
        thick,
    )?;
    push_thick_edges(
        alloc,
        &mut text,
        routes,
        topology.nodes(),
        edges.ranks,
        thick,
    )?;
    push_cables(&mut text, edges, thick)?;
    text.extend_from_slice(b"}\n")?;
    Ok(text)
}

/// How far apart nodes stand if there are lists.
fn spacing(attachments: &[Option<Attachment>]) -> &'static [u8]
    ensures { result.now ≡ spacing attachments.now }
{
    if has_lists(attachments) {
        b"  nodesep=0.1;\n  ranksep=2;\n"
    } else {
        b""
    }
}

/// How all nodes and edges look.
#[tactic(auto, unfolding(crate::specs::Graph::head))]
fn head() -> &'static [u8]
    ensures { result.now ≡ head }
{
    b"graph fabric {\n  node [fontname=\"sans-serif\", fontsize=11];\n  edge [fontname=\"sans-serif\", fontsize=9];\n"
}

fn push_nodes(
    alloc: Global,
    text: &mut Vec<u8>,
    topology: &Topology,
    configuration: &Configuration,
    attachments: &[Option<Attachment>],
) -> Result<(), AllocError>
    ensures { OnOk result (text.new.items
        ≡ text.old.items ++ flat_map (place_text topology.now configuration.now attachments.now) (places attachments.now)) }
{
    for place in 0..attachments.len() {
        push_place_text(alloc, text, topology, configuration, attachments, place)?;
    }
    Ok(())
}

/// The rows of switches, from the roots down.
fn push_ranks(
    alloc: Global,
    text: &mut Vec<u8>,
    routes: &Routes,
    nodes: &[Node],
    ranks: &[Option<usize>],
    thick: &[usize],
) -> Result<(), AllocError>
    ensures { OnOk result (text.new.items
        ≡ text.old.items ++ flat_map (rank_text nodes.now ranks.now thick.now) (ranks_drawn routes.now)) }
{
    for rank in 0..rank_count(routes) {
        push_rank_line(alloc, text, nodes, ranks, is_boxed(thick, rank), rank)?;
    }
    Ok(())
}

/// The thick edges between rows, from the roots down.
fn push_thick_edges(
    alloc: Global,
    text: &mut Vec<u8>,
    routes: &Routes,
    nodes: &[Node],
    ranks: &[Option<usize>],
    thick: &[usize],
) -> Result<(), AllocError>
    ensures { OnOk result (text.new.items
        ≡ text.old.items ++ flat_map (thick_edge nodes.now ranks.now thick.now) (ranks_drawn routes.now)) }
{
    for rank in 0..rank_count(routes) {
        push_thick_edge(alloc, text, nodes, ranks, thick, rank)?;
    }
    Ok(())
}

fn push_cables(text: &mut Vec<u8>, edges: Edges<'_>, thick: &[usize]) -> Result<(), AllocError>
    requires { edges.most ≡ most_of edges.looks.now }
    ensures { OnOk result (text.new.items ≡ text.old.items
        ++ flat_map (edge_at edges.entry.topology.now.nodes edges.entry.attachments.now thick.now
        (picture_of edges.entry.topology.now edges.entry.ranks.now edges.entry.fabric.now edges.entry.looks.now))
        (range_with_len 0 (length edges.entry.topology.now.cables))) }
{
    for place in 0..edges.topology.cables().len() {
        push_edge_at(text, edges, thick, place)?;
    }
    Ok(())
}

/// Adds the edge of the cable at that place, if there is one.
#[tactic(auto, unfolding(crate::specs::Graph::edge_at))]
fn push_edge_at(
    text: &mut Vec<u8>,
    edges: Edges<'_>,
    thick: &[usize],
    place: usize,
) -> Result<(), AllocError>
    requires { edges.most ≡ most_of edges.looks.now }
    ensures { OnOk result (text.new.items ≡ text.old.items
        ++ edge_at edges.entry.topology.now.nodes edges.entry.attachments.now thick.now
        (picture_of edges.entry.topology.now edges.entry.ranks.now edges.entry.fabric.now edges.entry.looks.now) place) }
{
    match edges.topology.cables().get(place) {
        Some(cable) => push_edge_of(text, edges, thick, look_at(edges.looks, place), cable),
        None => Ok(()),
    }
}

/// Adds the edge of a cable, if it is drawn as one of its own.
fn push_edge_of(
    text: &mut Vec<u8>,
    edges: Edges<'_>,
    thick: &[usize],
    look: Look,
    cable: &Cable,
) -> Result<(), AllocError>
    ensures { OnOk result (text.new.items ≡ text.old.items
        ++ edge_of edges.entry.topology.now.nodes edges.entry.attachments.now thick.now
        (picture_of edges.entry.topology.now edges.entry.ranks.now edges.entry.fabric.now edges.entry.looks.now)
        edges.entry.most look cable.now) }
{
    if is_edge(edges, thick, look, cable) {
        push_cable_line(text, edges, look, cable)
    } else {
        Ok(())
    }
}

/// Whether no list shows the cable, and no thick edge stands for it.
fn is_edge(edges: Edges<'_>, thick: &[usize], look: Look, cable: &Cable) -> bool
    ensures { result ≡ is_edge edges.entry.attachments.now thick.now
        (picture_of edges.entry.topology.now edges.entry.ranks.now edges.entry.fabric.now edges.entry.looks.now) look cable.now }
{
    !is_in_list(edges.attachments, cable) && !is_merged(edges, thick, look, cable)
}
