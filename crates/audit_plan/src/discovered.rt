//! What an audit takes of a fabric, from a discovery.

ghost use Rattle.std.specs.Prelude.{◌≡◌, ◌++◌, List, filter, not, IfOk, OnOk, flat_map};
ghost use Rattle.netdiscover_file.specs.declared.node.Node.{Node as FoundNode};
ghost use Rattle.audit_plan.specs.Names.{KnowsNames};
ghost use Rattle.audit_plan.specs.Plan.{cable_at, cable_if_first, cables_apart, joining_cables, comes_first, end_if_any, found_aggregation, found_cables, found_ends, found_node, found_nodes, joins_switch};
ghost use Rattle.audit_plan.specs.Plan.{found_lids, is_unicast, lid_if_unicast, lid_of_port, line_lid, switch_lid};
ghost use Rattle.audit_plan.specs.Plan.{line_end, plan_found, says_aggregation, shown_name, switch_end, switch_end_at, switch_ends, type_of, with_guid};
ghost use Rattle.netdiscover_file.specs.Node.{is_switch_at};

use crate::ends::{EndGuid, EndIndex, LidGuid};
use crate::names::{Names, is_own, names_of};
use crate::plan::{Plan, PlanNode};
use fabric_parts::{Cable, LAST_UNICAST_LID, NodeType, PortRef};
use netdiscover_file::{Discovery, Node, NodeKind, PortLine};
use std::alloc::{AllocError, Global};
use text_words::push_guid;

fn type_of(kind: NodeKind) -> NodeType
    ensures { result ≡ type_of kind }
{
    if kind.is_switch() {
        NodeType::Switch
    } else {
        NodeType::ChannelAdapter
    }
}

/// A name, with a GUID behind it.
fn with_guid(mut name: Vec<u8>, guid: u64) -> Result<Vec<u8>, AllocError>
    ensures { IfOk result (λ text. text.items ≡ with_guid name.items guid) }
{
    if !name.is_empty() {
        name.push(b' ')?;
    }
    push_guid(&mut name, guid)?;
    Ok(name)
}

/// The name of a node as it is shown, by the names of all.
fn shown_name(alloc: Global, names: &Names, node: &Node) -> Result<Vec<u8>, AllocError>
    ensures { IfOk result (λ text. (nodes : List FoundNode) → KnowsNames names.now nodes → text.items ≡ shown_name nodes node.now) }
{
    let name = Vec::from_slice(alloc, node.name.as_bytes())?;
    if is_own(names, &name) {
        return Ok(name);
    }
    let text = with_guid(name, node.id.guid)?;
    Ok(text)
}

fn found_node(alloc: Global, names: &Names, node: &Node) -> Result<PlanNode, AllocError>
    ensures { IfOk result (λ found. (nodes : List FoundNode) → KnowsNames names.now nodes → found ≡ found_node nodes node.now) }
{
    Ok(PlanNode {
        name: shown_name(alloc, names, node)?,
        node_type: type_of(node.id.kind),
        guid: node.id.guid,
        ports: node.ports,
    })
}

fn found_nodes(alloc: Global, nodes: &[Node]) -> Result<Vec<PlanNode>, AllocError>
    ensures { IfOk result (λ found. found.items ≡ found_nodes nodes.now) }
{
    let names = names_of(alloc, nodes)?;
    let mut found = Vec::new(alloc);
    for node in nodes {
        found.push(found_node(alloc, &names, node)?)?;
    }
    Ok(found)
}

/// Whether its description ends as those of aggregation nodes do.
fn says_aggregation(node: &Node) -> bool
    ensures { result ≡ says_aggregation node.now }
{
    !node.id.kind.is_switch() && node.name.as_bytes().ends_with(b"Aggregation Node")
}

fn found_aggregation(alloc: Global, nodes: &[Node]) -> Result<Vec<bool>, AllocError>
    ensures { IfOk result (λ some. some.items ≡ found_aggregation nodes.now) }
{
    nodes.iter().map(says_aggregation).collect(alloc)
}

fn push_switch_end(ends: &mut Vec<EndGuid>, place: usize, node: &Node) -> Result<(), AllocError>
    ensures { OnOk result (ends.new.items ≡ ends.old.items ++ switch_end place node.now) }
{
    if node.id.kind.is_switch() {
        ends.push(EndGuid {
            guid: u128::from(node.port_guid.unwrap_or(node.id.guid)),
            port: PortRef {
                node: place,
                port: 0,
            },
        })?;
    }
    Ok(())
}

fn push_switch_end_at(
    ends: &mut Vec<EndGuid>,
    nodes: &[Node],
    place: usize,
) -> Result<(), AllocError>
    ensures { OnOk result (ends.new.items ≡ ends.old.items ++ switch_end_at nodes.now place) }
{
    match nodes.get(place) {
        Some(node) => push_switch_end(ends, place, node),
        None => Ok(()),
    }
}

fn switch_ends(alloc: Global, nodes: &[Node]) -> Result<Vec<EndGuid>, AllocError>
    ensures { IfOk result (λ ends. ends.items ≡ switch_ends nodes.now) }
{
    let mut ends = Vec::new(alloc);
    for place in 0..nodes.len() {
        push_switch_end_at(&mut ends, nodes, place)?;
    }
    Ok(ends)
}

fn push_line_end(ends: &mut Vec<EndGuid>, line: &PortLine) -> Result<(), AllocError>
    ensures { OnOk result (ends.new.items ≡ ends.old.items ++ line_end line.now) }
{
    if let Some(guid) = line.guid {
        ends.push(EndGuid {
            guid: u128::from(guid),
            port: line.port,
        })?;
    }
    Ok(())
}

fn found_ends(alloc: Global, found: &Discovery) -> Result<Vec<EndGuid>, AllocError>
    ensures { IfOk result (λ ends. ends.items ≡ found_ends found.now) }
{
    let mut ends = switch_ends(alloc, found.nodes())?;
    push_line_ends(&mut ends, found.ports())?;
    Ok(ends)
}

fn push_line_ends(ends: &mut Vec<EndGuid>, lines: &[PortLine]) -> Result<(), AllocError>
    ensures { OnOk result (ends.new.items ≡ ends.old.items ++ flat_map line_end lines.now) }
{
    for line in lines {
        push_line_end(ends, line)?;
    }
    Ok(())
}

fn is_unicast(lid: u16) -> bool
    ensures { result ≡ is_unicast lid }
{
    1 <= lid && lid <= LAST_UNICAST_LID
}

fn push_lid_of_port(lids: &mut Vec<LidGuid>, guid: u64, lid: Option<u16>) -> Result<(), AllocError>
    ensures { OnOk result (lids.new.items ≡ lids.old.items ++ lid_of_port guid lid) }
{
    if let Some(lid) = lid {
        if is_unicast(lid) {
            lids.push(LidGuid { lid, guid })?;
        }
    }
    Ok(())
}

fn push_switch_lid(lids: &mut Vec<LidGuid>, node: &Node) -> Result<(), AllocError>
    ensures { OnOk result (lids.new.items ≡ lids.old.items ++ switch_lid node.now) }
{
    if node.id.kind.is_switch() {
        push_lid_of_port(lids, node.port_guid.unwrap_or(node.id.guid), node.lid)?;
    }
    Ok(())
}

fn push_switch_lids(lids: &mut Vec<LidGuid>, nodes: &[Node]) -> Result<(), AllocError>
    ensures { OnOk result (lids.new.items ≡ lids.old.items ++ flat_map switch_lid nodes.now) }
{
    for node in nodes {
        push_switch_lid(lids, node)?;
    }
    Ok(())
}

fn push_line_lid(lids: &mut Vec<LidGuid>, line: &PortLine) -> Result<(), AllocError>
    ensures { OnOk result (lids.new.items ≡ lids.old.items ++ line_lid line.now) }
{
    if let Some(guid) = line.guid {
        push_lid_of_port(lids, guid, line.lid)?;
    }
    Ok(())
}

fn push_line_lids(lids: &mut Vec<LidGuid>, lines: &[PortLine]) -> Result<(), AllocError>
    ensures { OnOk result (lids.new.items ≡ lids.old.items ++ flat_map line_lid lines.now) }
{
    for line in lines {
        push_line_lid(lids, line)?;
    }
    Ok(())
}

fn found_lids(alloc: Global, found: &Discovery) -> Result<Vec<LidGuid>, AllocError>
    ensures { IfOk result (λ lids. lids.items ≡ found_lids found.now) }
{
    let mut lids = Vec::new(alloc);
    push_switch_lids(&mut lids, found.nodes())?;
    push_line_lids(&mut lids, found.ports())?;
    Ok(lids)
}

fn comes_first(a: PortRef, b: PortRef) -> bool
    ensures { result ≡ comes_first a b }
{
    a.node < b.node || (a.node == b.node && a.port <= b.port)
}

fn push_cable_if_first(cables: &mut Vec<Cable>, a: PortRef, b: PortRef) -> Result<(), AllocError>
    ensures { OnOk result (cables.new.items ≡ cables.old.items ++ cable_if_first a b) }
{
    if comes_first(a, b) {
        cables.push(Cable {
            first: a,
            second: b,
        })?;
    }
    Ok(())
}

#[tactic(auto, unfolding(crate::specs::Plan::cable_at))]
fn push_cable_at(
    cables: &mut Vec<Cable>,
    found: &Discovery,
    line: &PortLine,
) -> Result<(), AllocError>
    ensures { OnOk result (cables.new.items ≡ cables.old.items ++ cable_at found.now line.now) }
{
    match found.far_line(&line.far) {
        Some(other) => push_cable_if_first(cables, line.port, other.port),
        None => Ok(()),
    }
}

fn found_cables(alloc: Global, found: &Discovery) -> Result<Vec<Cable>, AllocError>
    ensures { IfOk result (λ cables. cables.items ≡ found_cables found.now) }
{
    let mut cables = Vec::new(alloc);
    push_cables(&mut cables, found, found.ports())?;
    Ok(cables)
}

fn push_cables(
    cables: &mut Vec<Cable>,
    found: &Discovery,
    lines: &[PortLine],
) -> Result<(), AllocError>
    ensures { OnOk result (cables.new.items ≡ cables.old.items ++ flat_map (cable_at found.now) lines.now) }
{
    for line in lines {
        push_cable_at(cables, found, line)?;
    }
    Ok(())
}

fn is_switch_at(nodes: &[Node], place: usize) -> bool
    ensures { result ≡ is_switch_at nodes.now place }
{
    match nodes.get(place) {
        Some(node) => node.id.kind.is_switch(),
        None => false,
    }
}

fn joins_switch(nodes: &[Node], cable: &Cable) -> bool
    ensures { result ≡ joins_switch nodes.now cable.now }
{
    is_switch_at(nodes, cable.first.node) || is_switch_at(nodes, cable.second.node)
}

fn joining(alloc: Global, nodes: &[Node], cables: &[Cable]) -> Result<Vec<Cable>, AllocError>
    ensures { IfOk result (λ some. some.items ≡ filter (λ cable. joins_switch nodes.now cable) cables.now) }
{
    cables
        .iter()
        .copied()
        .filter(|cable| joins_switch(nodes, cable))
        .collect(alloc)
}

fn apart(alloc: Global, nodes: &[Node], cables: &[Cable]) -> Result<Vec<Cable>, AllocError>
    ensures { IfOk result (λ some. some.items ≡ filter (λ cable. not (joins_switch nodes.now cable)) cables.now) }
{
    cables
        .iter()
        .copied()
        .filter(|cable| !joins_switch(nodes, cable))
        .collect(alloc)
}

#[tactic(auto, unfolding(crate::specs::Plan::joining_cables))]
fn joining_cables(alloc: Global, found: &Discovery) -> Result<Vec<Cable>, AllocError>
    ensures { IfOk result (λ some. some.items ≡ joining_cables found.now) }
{
    let cables = found_cables(alloc, found)?;
    let some = joining(alloc, found.nodes(), &cables)?;
    Ok(some)
}

#[tactic(auto, unfolding(crate::specs::Plan::cables_apart))]
fn cables_apart(alloc: Global, found: &Discovery) -> Result<Vec<Cable>, AllocError>
    ensures { IfOk result (λ some. some.items ≡ cables_apart found.now) }
{
    let cables = found_cables(alloc, found)?;
    let some = apart(alloc, found.nodes(), &cables)?;
    Ok(some)
}

fn end_index(alloc: Global, found: &Discovery) -> Result<EndIndex, AllocError>
    ensures { IfOk result (λ index. index ≡ found_ends found.now) }
{
    let ends = found_ends(alloc, found)?;
    let index = EndIndex::of(alloc, ends)?;
    Ok(index)
}

impl Plan {
    /// What an audit takes of a discovery.
    #[tactic(auto, unfolding(crate::specs::Plan::plan_found))]
    pub fn found(alloc: Global, found: &Discovery) -> Result<Plan, AllocError>
        ensures { IfOk result (λ plan. plan ≡ plan_found found.now) }
    {
        let nodes = found_nodes(alloc, found.nodes())?;
        let cables = joining_cables(alloc, found)?;
        let apart = cables_apart(alloc, found)?;
        let ends = end_index(alloc, found)?;
        let aggregation = found_aggregation(alloc, found.nodes())?;
        let lids = found_lids(alloc, found)?;
        Ok(Plan {
            nodes,
            cables,
            apart,
            ends,
            aggregation,
            lids,
        })
    }
}
