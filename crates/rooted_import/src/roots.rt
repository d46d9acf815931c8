//! The switches that become roots.

ghost use Rattle.std.specs.Prelude.{◌≡◌, ◌++◌, flat_map, map, IfOk, OnOk};
ghost use Rattle.topo_file.specs.Node.{guid_at, is_switch_at};
ghost use Rattle.topology_import.specs.Nodes.{switch_guid_at};
ghost use Rattle.audit_plan.specs.Plan.{plan_found};
ghost use Rattle.audit_plan.specs.Tops.{top_switches};
ghost use Rattle.rooted_import.specs.Roots.{is_among, is_wanted, root_line, roots_of, top_guids};

use audit_plan::{Plan, top_switches};
use netdiscover_file::{Discovery, Node as FoundNode};
use std::alloc::{AllocError, Global};
use topo_file::{Node, guid_at, is_switch_at, name_at};
use topology_import::switch_guid_at;

fn guids_at(alloc: Global, nodes: &[FoundNode], places: &[usize]) -> Result<Vec<u64>, AllocError>
    ensures { IfOk result (λ guids. guids.items ≡ map (switch_guid_at nodes.now) places.now) }
{
    places
        .iter()
        .map(|place| switch_guid_at(nodes, *place))
        .collect(alloc)
}

fn tops_of(alloc: Global, discovery: &Discovery) -> Result<Vec<usize>, AllocError>
    ensures { IfOk result (λ tops. tops.items ≡ top_switches (plan_found discovery.now)) }
{
    let plan = Plan::found(alloc, discovery)?;
    let tops = top_switches(alloc, &plan)?;
    Ok(tops)
}

/// The GUIDs that the top switches of a discovery have in its topology.
pub(crate) fn top_guids(alloc: Global, discovery: &Discovery) -> Result<Vec<u64>, AllocError>
    ensures { IfOk result (λ guids. guids.items ≡ top_guids discovery.now) }
{
    let tops = tops_of(alloc, discovery)?;
    let guids = guids_at(alloc, discovery.nodes(), &tops)?;
    Ok(guids)
}

fn is_among(guids: &[u64], guid: u64) -> bool
    ensures { result ≡ is_among guids.now guid }
{
    guids.iter().any(|one| *one == guid)
}

fn is_wanted(guids: &[u64], nodes: &[Node], place: usize) -> bool
    ensures { result ≡ is_wanted guids.now nodes.now place }
{
    is_switch_at(nodes, place) && is_among(guids, guid_at(nodes, place))
}

/// The places of the switches with these GUIDs, in the order of the nodes.
pub(crate) fn roots_of(
    alloc: Global,
    guids: &[u64],
    nodes: &[Node],
) -> Result<Vec<usize>, AllocError>
    ensures { IfOk result (λ roots. roots.items ≡ roots_of guids.now nodes.now) }
{
    (0..nodes.len())
        .filter(|place| is_wanted(guids, nodes, *place))
        .collect(alloc)
}

fn push_root(text: &mut Vec<u8>, nodes: &[Node], place: usize) -> Result<(), AllocError>
    ensures { OnOk result (text.new.items ≡ text.old.items ++ root_line nodes.now place) }
{
    text.extend_from_slice(b"root ")?;
    text.extend_from_slice(name_at(nodes, place))?;
    text.push(b'\n')?;
    Ok(())
}

/// Adds the lines of these roots.
pub(crate) fn push_roots(
    text: &mut Vec<u8>,
    nodes: &[Node],
    roots: &[usize],
) -> Result<(), AllocError>
    ensures { OnOk result (text.new.items ≡ text.old.items ++ flat_map (root_line nodes.now) roots.now) }
{
    for root in roots {
        push_root(text, nodes, *root)?;
    }
    Ok(())
}
