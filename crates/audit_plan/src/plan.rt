//! What an audit takes of a fabric, from a topology.

ghost use Rattle.std.specs.Prelude.{◌≡◌, ◌++◌, IfOk, OnOk};
ghost use Rattle.audit_plan.specs.Plan.{adapter_ends, end_with, ends_at, ends_in, ends_of, is_aggregation_node, is_host, plan_of, port_of};
ghost use Rattle.topo_file.specs.Connectivity.{switches};
ghost use Rattle.topo_file.specs.Node.{is_switch, is_switch_at, name_at, ports_at};

use crate::ends::{EndGuid, EndIndex, LidGuid};
use fabric_parts::{Cable, NodeType, PortRef};
use std::alloc::{AllocError, Global};
use std::marker::Model;
use topo_file::{LargeTopology, Node};

/// A node: a switch, or what forwards nothing.
#[derive(Drop)]
pub struct PlanNode {
    pub(crate) name: Vec<u8>,
    pub(crate) node_type: NodeType,
    pub(crate) guid: u64,
    pub(crate) ports: u8,
}

impl Model for PlanNode {
    ghost use Rattle.topo_file.specs.declared.node.Node.{Node};

    ghost Value = { Node };

    ghost view = { λ node. record { name = node.name.items; node_type = node.node_type; guid = node.guid; ports = node.ports } };
}

impl PlanNode {
    /// Whether it is a switch.
    pub fn is_switch(&self) -> bool
        ensures { result ≡ is_switch self.now }
    {
        self.node_type.is_switch()
    }

    /// Its GUID.
    pub fn guid(&self) -> u64
        ensures { result ≡ self.now.guid }
    {
        self.guid
    }
}

/// The nodes and cables of a fabric, and its end ports by their GUIDs.
#[derive(Drop)]
pub struct Plan {
    pub(crate) nodes: Vec<PlanNode>,
    pub(crate) cables: Vec<Cable>,
    /// Those that join no switch.
    pub(crate) apart: Vec<Cable>,
    pub(crate) ends: EndIndex,
    /// Of each node, as far as it goes, whether it is an aggregation node.
    pub(crate) aggregation: Vec<bool>,
    /// The LIDs that end ports report.
    pub(crate) lids: Vec<LidGuid>,
}

impl Model for Plan {
    ghost use Rattle.audit_plan.specs.Plan.{PlanState};

    ghost Value = { PlanState };

    ghost view = { λ plan. record {
      nodes = plan.nodes.items;
      cables = plan.cables.items;
      apart = plan.apart.items;
      ends = plan.ends;
      aggregation = plan.aggregation.items;
      lids = plan.lids.items;
    } };
}

/// Whether the node there is a switch.
pub fn is_switch_at(nodes: &[PlanNode], place: usize) -> bool
    ensures { result ≡ is_switch_at nodes.now place }
{
    match nodes.get(place) {
        Some(node) => node.is_switch(),
        None => false,
    }
}

/// The places of the switches.
pub fn switches(alloc: Global, nodes: &[PlanNode]) -> Result<Vec<usize>, AllocError>
    ensures { IfOk result (λ places. places.items ≡ switches nodes.now) }
{
    (0..nodes.len())
        .filter(|place| is_switch_at(nodes, *place))
        .collect(alloc)
}

/// How many ports the node there has.
pub fn ports_at(nodes: &[PlanNode], place: usize) -> u8
    ensures { result ≡ ports_at nodes.now place }
{
    match nodes.get(place) {
        Some(node) => node.ports,
        None => 0,
    }
}

/// The name of the node there, or no name if there is none.
pub fn name_at(nodes: &[PlanNode], place: usize) -> &[u8]
    ensures { result.now ≡ name_at nodes.now place }
{
    match nodes.get(place) {
        Some(node) => node.name.as_slice(),
        None => &[],
    }
}

fn planned_node(alloc: Global, node: &Node) -> Result<PlanNode, AllocError>
    ensures { IfOk result (λ planned. planned ≡ node.now) }
{
    let name = Vec::from_slice(alloc, node.name.as_bytes())?;
    Ok(PlanNode {
        name,
        node_type: node.node_type,
        guid: node.guid,
        ports: node.ports,
    })
}

fn planned_nodes(alloc: Global, nodes: &[Node]) -> Result<Vec<PlanNode>, AllocError>
    ensures { IfOk result (λ planned. planned.items ≡ nodes.now) }
{
    let mut planned = Vec::new(alloc);
    for node in nodes {
        planned.push(planned_node(alloc, node)?)?;
    }
    Ok(planned)
}

/// The port of this number at the node there.
fn end_with(place: usize, guid: u64, number: u8) -> EndGuid
    ensures { result ≡ end_with place guid number }
{
    EndGuid {
        guid: u128::from(guid) + u128::from(number),
        port: PortRef {
            node: place,
            port: number,
        },
    }
}

fn push_adapter_ends(ends: &mut Vec<EndGuid>, place: usize, node: &Node) -> Result<(), AllocError>
    ensures { OnOk result (ends.new.items ≡ ends.old.items ++ adapter_ends place node.now) }
{
    for before in 0..node.ports {
        ends.push(end_with(place, node.guid, before + 1))?;
    }
    Ok(())
}

fn push_ends_in(ends: &mut Vec<EndGuid>, place: usize, node: &Node) -> Result<(), AllocError>
    ensures { OnOk result (ends.new.items ≡ ends.old.items ++ ends_in place node.now) }
{
    if node.is_switch() {
        ends.push(end_with(place, node.guid, 0))?;
        return Ok(());
    }
    push_adapter_ends(ends, place, node)
}

fn push_ends_at(ends: &mut Vec<EndGuid>, nodes: &[Node], place: usize) -> Result<(), AllocError>
    ensures { OnOk result (ends.new.items ≡ ends.old.items ++ ends_at nodes.now place) }
{
    match nodes.get(place) {
        Some(node) => push_ends_in(ends, place, node),
        None => Ok(()),
    }
}

/// The end ports of a topology's nodes: port 0 of each switch, and each port of an adapter.
pub fn ends_of(alloc: Global, nodes: &[Node]) -> Result<Vec<EndGuid>, AllocError>
    ensures { IfOk result (λ ends. ends.items ≡ ends_of nodes.now) }
{
    let mut ends = Vec::new(alloc);
    for place in 0..nodes.len() {
        push_ends_at(&mut ends, nodes, place)?;
    }
    Ok(ends)
}

impl Plan {
    ghost use Rattle.std.specs.Prelude.{◌≡◌};
    ghost use Rattle.audit_plan.specs.Plan.{port_of};

    /// Its nodes.
    pub fn nodes(&self) -> &[PlanNode]
        ensures { result.now ≡ self.now.nodes }
    {
        self.nodes.as_slice()
    }

    /// Its cables, except those that join no switch.
    pub fn cables(&self) -> &[Cable]
        ensures { result.now ≡ self.now.cables }
    {
        self.cables.as_slice()
    }

    /// The cables that join no switch.
    pub fn apart(&self) -> &[Cable]
        ensures { result.now ≡ self.now.apart }
    {
        self.apart.as_slice()
    }

    /// The LIDs that end ports report.
    pub fn lids(&self) -> &[LidGuid]
        ensures { result.now ≡ self.now.lids }
    {
        self.lids.as_slice()
    }

    /// The end port of this GUID.
    pub fn port_of(&self, guid: u64) -> Option<PortRef>
        ensures { result ≡ port_of self.now.ends guid }
    {
        self.ends.port_of(guid)
    }

    /// Whether the node there is a switch.
    pub fn is_switch_at(&self, place: usize) -> bool
        ensures { result ≡ is_switch_at self.now.nodes place }
    {
        is_switch_at(self.nodes.as_slice(), place)
    }

    fn is_aggregation_node(&self, place: usize) -> bool
        ensures { result ≡ is_aggregation_node self.now place }
    {
        match self.aggregation.get(place) {
            Some(is) => *is,
            None => false,
        }
    }

    /// Whether the node there is neither a switch nor the aggregation node of one.
    pub fn is_host(&self, place: usize) -> bool
        ensures { result ≡ is_host self.now place }
    {
        !self.is_switch_at(place) && !self.is_aggregation_node(place)
    }

    /// The same with these cables in place of its own.
    pub fn with_cables(self, cables: Vec<Cable>) -> Plan
        ensures { result ≡ record self { cables = cables.items } }
    {
        Plan {
            nodes: self.nodes,
            cables,
            apart: self.apart,
            ends: self.ends,
            aggregation: self.aggregation,
            lids: self.lids,
        }
    }

    /// What an audit takes of a topology.
    pub fn of(alloc: Global, topology: &LargeTopology) -> Result<Plan, AllocError>
        ensures { IfOk result (λ plan. plan ≡ plan_of topology.now) }
    {
        let ends = ends_of(alloc, topology.nodes())?;
        Ok(Plan {
            nodes: planned_nodes(alloc, topology.nodes())?,
            cables: Vec::from_slice(alloc, topology.cables())?,
            apart: Vec::new(alloc),
            ends: EndIndex::of(alloc, ends)?,
            aggregation: Vec::new(alloc),
            lids: Vec::new(alloc),
        })
    }
}
