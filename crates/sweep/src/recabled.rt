//! What a graph is once a cable between two of its switches is cut, or mended.

ghost use Rattle.std.specs.Prelude.{◌≡◌, ◌==◌, ◌&&◌, true, IfOk};
ghost use Rattle.std.specs.Bool.{Decides};
ghost use Rattle.std.specs.List.{list_any};
ghost use Rattle.sweep.specs.Graph.{IsGraph, graph_with, is_linked, is_switch_port};
ghost use Rattle.sweep.specs.Recabled.{MayBeCabled, is_free, leaves_by, links_with, row_with, row_without, rows_with, rows_without, with_cable, without};

use crate::agreement::{is_linked, is_switch_port, links_at};
use crate::graph::{Graph, GraphLink, GraphPort, GraphRow};
use fabric_parts::PortRef;
use std::alloc::{AllocError, Global};
use std::iter;

impl Graph {
    /// Whether a cable joins these ports of its switches.
    pub fn is_linked(&self, a: PortRef, b: PortRef) -> bool
        ensures { result ≡ is_linked self.now.rows a b }
    {
        is_linked(&self.rows, a, b)
    }

    /// Whether a cable may join these ports: they are ports of two of its switches, and free.
    pub fn may_be_cabled(&self, a: PortRef, b: PortRef) -> bool
        ensures { Decides result (MayBeCabled self.now a b) }
    {
        self.is_open(a) && self.is_open(b) && a.node != b.node
    }

    /// Whether that is a free port of one of its switches.
    fn is_open(&self, at: PortRef) -> bool
        ensures { result ≡ is_switch_port self.now.switches at && is_free self.now.rows at }
    {
        is_switch_port(self.switches(), at) && is_free(&self.rows, at)
    }

    /// The graph without the cable between two ports of its switches, as when it is cut. All else is kept, also the paths
    /// by which the switches were found. It can only run out of memory.
    pub fn without(&self, alloc: Global, a: PortRef, b: PortRef) -> Result<Graph, AllocError>
        requires { is_linked self.now.rows a b ≡ true }
        ensures { IfOk result (λ graph. graph ≡ without a b self.now) }
    {
        let rows = rows_without(alloc, &self.rows, a, b)?;
        self.with_rows(alloc, rows)
    }

    /// The graph with a cable between two free ports of its switches, as when it is mended. All else is kept. It
    /// can only run out of memory.
    pub fn with(&self, alloc: Global, a: PortRef, b: PortRef) -> Result<Graph, AllocError>
        requires { MayBeCabled self.now a b }
        ensures { IfOk result (λ graph. graph ≡ with_cable a b self.now) }
    {
        let rows = rows_with(alloc, &self.rows, a, b)?;
        self.with_rows(alloc, rows)
    }

    /// The graph with other links.
    fn with_rows(&self, alloc: Global, rows: Vec<GraphRow>) -> Result<Graph, AllocError>
        requires { IsGraph (graph_with self.now.manager self.now.switches rows.items self.now.ports) }
        ensures { IfOk result (λ graph. graph ≡ graph_with self.now.manager self.now.switches rows.items self.now.ports) }
    {
        let switches = self.switches.copied(alloc)?;
        let ports = copied(alloc, &self.ports)?;
        Ok(Graph {
            manager: self.manager,
            switches,
            rows,
            ports,
        })
    }
}

/// Whether no link leaves by that port.
fn is_free(rows: &[GraphRow], at: PortRef) -> bool
    ensures { result ≡ is_free rows.now at }
{
    !is_taken(links_at(rows, at.node), at.port)
}

/// Whether one of these links leaves by that port.
fn is_taken(links: &[GraphLink], number: u8) -> bool
    ensures { result ≡ list_any (λ link. link.port == number) links.now }
{
    links.iter().any(|link| link.port == number)
}

/// The same ports again.
fn copied(alloc: Global, ports: &[GraphPort]) -> Result<Vec<GraphPort>, AllocError>
    ensures { IfOk result (λ same. same.items ≡ ports.now) }
{
    ports.iter().map(|port| port.copied()).collect(alloc)
}

/// The rows without the links that leave by these ports.
fn rows_without(
    alloc: Global,
    rows: &[GraphRow],
    a: PortRef,
    b: PortRef,
) -> Result<Vec<GraphRow>, AllocError>
    ensures { IfOk result (λ kept. kept.items ≡ rows_without a b rows.now) }
{
    let mut kept = Vec::with_capacity(alloc, rows.len())?;
    for (place, row) in rows.iter().enumerate() {
        let links = row_without(alloc, place, row.as_slice(), a, b)?;
        kept.push(GraphRow::of(links))?;
    }
    Ok(kept)
}

/// The links of the switch at that place that leave by neither port.
fn row_without(
    alloc: Global,
    place: usize,
    links: &[GraphLink],
    a: PortRef,
    b: PortRef,
) -> Result<Vec<GraphLink>, AllocError>
    ensures { IfOk result (λ kept. kept.items ≡ row_without a b place links.now) }
{
    links
        .iter()
        .filter(|link| !(leaves_by(place, link, a) || leaves_by(place, link, b)))
        .copied()
        .collect(alloc)
}

/// Whether a link of the switch at that place leaves by that port.
fn leaves_by(place: usize, link: &GraphLink, at: PortRef) -> bool
    ensures { result ≡ leaves_by place at link.now }
{
    place == at.node && link.port == at.port
}

/// The rows with a cable between these ports.
fn rows_with(
    alloc: Global,
    rows: &[GraphRow],
    a: PortRef,
    b: PortRef,
) -> Result<Vec<GraphRow>, AllocError>
    ensures { IfOk result (λ all. all.items ≡ rows_with a b rows.now) }
{
    let mut all = Vec::with_capacity(alloc, rows.len())?;
    for (place, row) in rows.iter().enumerate() {
        let links = row_with(alloc, place, row.as_slice(), a, b)?;
        all.push(GraphRow::of(links))?;
    }
    Ok(all)
}

/// The links of the switch at that place with a cable between these ports.
fn row_with(
    alloc: Global,
    place: usize,
    links: &[GraphLink],
    a: PortRef,
    b: PortRef,
) -> Result<Vec<GraphLink>, AllocError>
    ensures { IfOk result (λ all. all.items ≡ row_with a b place links.now) }
{
    if place == a.node {
        links_with(alloc, links, a.port, b)
    } else if place == b.node {
        links_with(alloc, links, b.port, a)
    } else {
        links.iter().copied().collect(alloc)
    }
}

/// The links with one more, at its place in the order of ports.
fn links_with(
    alloc: Global,
    links: &[GraphLink],
    number: u8,
    to: PortRef,
) -> Result<Vec<GraphLink>, AllocError>
    ensures { IfOk result (λ all. all.items ≡ links_with number to links.now) }
{
    let lesser = links.iter().filter(|link| link.port < number).copied();
    let link = GraphLink { port: number, to };
    let greater = links.iter().filter(|link| number < link.port).copied();
    lesser.chain(iter::once(link)).chain(greater).collect(alloc)
}
