//! What routes are of, taken from a graph and its LIDs.

ghost use Rattle.std.specs.Prelude.{ℕ, ◌≡◌, ◌==◌, ◌<◌, length, get_or, IfOk};
ghost use Rattle.std.specs.List.{list_all, list_any};
ghost use Rattle.lid_assign.specs.Lids.{AreLids, end_ports};
ghost use Rattle.updn_routes.specs.Subnet.{guids_of, home_from, home_in, homes_of, link_of, row_of, rows_of, attachment_of};
ghost use Rattle.fabric_parts.specs.declared.lid.TheConstants.{LAST_UNICAST_LID};

use crate::link::Link;
use crate::row::Row;
use fabric_parts::PortRef;
use lid_assign::Lids;
use std::alloc::{AllocError, Global};
use sweep::{Graph, GraphPort};

/// The links between the switches of a graph. It can only run out of memory.
pub(crate) fn rows_of(alloc: Global, graph: &Graph) -> Result<Vec<Row>, AllocError>
    ensures { IfOk result (λ rows. rows.items ≡ rows_of graph.now) }
{
    let mut rows = Vec::new(alloc);
    let of_graph = graph.rows();
    for row in of_graph {
        rows.push(Row::of(row_of(alloc, row.as_slice())?))?;
    }
    Ok(rows)
}

/// The links of a switch, to switches.
fn row_of(alloc: Global, links: &[sweep::GraphLink]) -> Result<Vec<Link>, AllocError>
    ensures { IfOk result (λ row. row.items ≡ row_of links.now) }
{
    links
        .iter()
        .map(|link| Link {
            port: link.port,
            to: link.to.node,
        })
        .collect(alloc)
}

/// The GUIDs of the switches of a graph. It can only run out of memory.
pub(crate) fn guids_of(alloc: Global, graph: &Graph) -> Result<Vec<u64>, AllocError>
    ensures { IfOk result (λ guids. guids.items ≡ guids_of graph.now) }
{
    graph
        .switches()
        .iter()
        .map(|switch| switch.guid)
        .collect(alloc)
}

/// Where each LID is attached, from LID 1 on. It can only run out of memory.
pub(crate) fn homes_of(
    alloc: Global,
    graph: &Graph,
    lids: &Lids,
) -> Result<Vec<PortRef>, AllocError>
    requires { AreLids (end_ports graph.now) lids.now }
    ensures { IfOk result (λ homes. homes.items ≡ homes_of graph.now lids.now) }
{
    graph.known_graph();
    lids.known_distinct();
    let count = graph.switches().len() + graph.ports().len();
    let mut homes = Vec::new(alloc);
    for before in 0..count {
        homes.push(home_of(graph, lids, before))?;
    }
    Ok(homes)
}

/// Where the LID after so many is attached.
fn home_of(graph: &Graph, lids: &Lids, before: usize) -> PortRef
    requires there { before < length lids.now }
    requires few { before < LAST_UNICAST_LID }
    ensures { result ≡ home_in graph.now (get_or lids.now before 0) }
{
    match lids.port_of((before + 1) as u16) {
        Some(guid) => home_from(graph.place_of(guid), attachment_of(graph.ports(), guid)),
        None => PortRef { node: 0, port: 0 },
    }
}

/// The port of a switch to which the adapter's port with that GUID is attached.
fn attachment_of(ports: &[GraphPort], guid: u64) -> Option<PortRef>
    ensures { result ≡ attachment_of ports.now guid }
{
    ports
        .iter()
        .find(|port| port.port_guid == guid)
        .map(|port| port.at)
}

/// Where an end port is attached: on the switch whose own it is, or on a port of one.
fn home_from(place: Option<usize>, at: Option<PortRef>) -> PortRef
    ensures { result ≡ home_from place at }
{
    match (place, at) {
        (Some(node), _) => PortRef { node, port: 0 },
        (None, Some(at)) => at,
        (None, None) => PortRef { node: 0, port: 0 },
    }
}

/// Whether each of these GUIDs is a switch's of the graph, as those of roots are to be.
pub fn are_switches(graph: &Graph, roots: &[u64]) -> bool
    ensures { result ≡ list_all (λ root. list_any (λ guid. guid == root) (guids_of graph.now)) roots.now }
{
    roots.iter().all(|root| is_switch(graph, *root))
}

/// Whether some switch of the graph has this GUID.
fn is_switch(graph: &Graph, root: u64) -> bool
    ensures { result ≡ list_any (λ guid. guid == root) (guids_of graph.now) }
{
    graph
        .switches()
        .iter()
        .map(|switch| switch.guid)
        .any(|guid| guid == root)
}
