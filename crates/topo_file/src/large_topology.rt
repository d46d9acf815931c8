//! A topology of any size that we take.

ghost use Rattle.std.specs.Prelude.{◌≡◌, ◌≤◌, true, false, All, IfSome, nat_eq};
ghost use Rattle.std.specs.List.{list_all, IsDistinct};
ghost use Rattle.fabric_parts.specs.Cable.{is_cabled};
ghost use Rattle.fabric_parts.specs.declared.limits.Limits.TheVariants.{Large};
ghost use Rattle.topo_file.specs.Cable.{port_at};
ghost use Rattle.topo_file.specs.Connectivity.{AllJoined};
ghost use Rattle.topo_file.specs.Node.{HasGuids, IsWithin, is_switch_at, place_of, port_guid_at, ports_at, shares_guid};
ghost use Rattle.topo_file.specs.Sound.{IsSoundWithin, ends_at_ports, is_manager_port, is_named, is_sized_within, joins_right, shares_name, shares_port};

use crate::cable::{CableList, port_at};
use crate::node::{Node, NodeList, is_switch_at};
use fabric_parts::{Cable, PortRef};
use std::marker::Model;

/// The nodes and cables of a fabric, the roots of its routes, and the port that the subnet manager runs on. It is within
/// [`Limits::Large`](fabric_parts::Limits::Large), so it may be too big to be simulated; see [`Topology`](crate::Topology).
#[derive(Debug)]
pub struct LargeTopology {
    pub(crate) nodes: NodeList,
    pub(crate) cables: CableList,
    // The places of their switches among the nodes.
    pub(crate) roots: Vec<usize>,
    pub(crate) sm: PortRef,
}

// As derived, but by one call: else what owns one is proved to let go of each of its parts, on each way out.
impl Drop for LargeTopology {
    fn drop(self) {
        let LargeTopology {
            nodes: _,
            cables: _,
            roots: _,
            sm: _,
        } = self;
    }
}

impl Model for LargeTopology {
    ghost use Rattle.topo_file.specs.Topology.{TopologyState};
    ghost use Rattle.fabric_parts.specs.declared.limits.Limits.TheVariants.{Large};
    ghost use Rattle.topo_file.specs.Sound.{IsSoundWithin};

    ghost Value = { TopologyState };

    ghost view = { λ topology.
        record { nodes = topology.nodes; cables = topology.cables; roots = topology.roots.items; sm = topology.sm } };

    ghost invariant = { λ topology. IsSoundWithin Large
        (record { nodes = topology.nodes; cables = topology.cables; roots = topology.roots.items; sm = topology.sm }) };
}

impl LargeTopology {
    /// Says all at once what is so of every topology that was read. It does nothing.
    pub fn known_sound(&self)
        ensures { IsSoundWithin Large self.now }
    {
        // What a value meets is known once a field is named.
        let _ = &self.nodes;
    }

    /// The nodes, in the order of their lines.
    pub fn nodes(&self) -> &[Node]
        ensures value { result.now ≡ self.now.nodes }
        ensures names { list_all is_named result.now ≡ true }
        ensures own_names { IsDistinct shares_name result.now }
        ensures guids { All HasGuids result.now }
        ensures own_guids { IsDistinct shares_guid result.now }
        ensures sizes { list_all (is_sized_within Large) result.now ≡ true }
        ensures limits { IsWithin Large result.now }
    {
        self.nodes.as_slice()
    }

    /// The cables, in the order of their lines.
    pub fn cables(&self) -> &[Cable]
        ensures value { result.now ≡ self.now.cables }
        ensures ends { list_all (ends_at_ports self.now.nodes) result.now ≡ true }
        ensures joins { list_all (joins_right self.now.nodes) result.now ≡ true }
        ensures own_ports { IsDistinct shares_port result.now }
        ensures connected { AllJoined self.now.nodes result.now }
    {
        self.cables.as_slice()
    }

    /// The roots that routes go up to, in the order of their lines: each is the place of a switch among the
    /// nodes. There may be none, and then the switch of least GUID is the root.
    pub fn roots(&self) -> &[usize]
        ensures value { result.now ≡ self.now.roots }
        ensures switches { list_all (is_switch_at self.now.nodes) result.now ≡ true }
        ensures own { IsDistinct nat_eq result.now }
    {
        self.roots.as_slice()
    }

    /// The port that the subnet manager runs on, which is an adapter's and has a cable.
    pub fn sm(&self) -> PortRef
        ensures value { result ≡ self.now.sm }
        ensures port { is_manager_port self.now.nodes result ≡ true }
        ensures cabled { is_cabled self.now.cables result ≡ true }
    {
        self.sm
    }

    /// Whether the node there is a switch.
    pub fn is_switch_at(&self, place: usize) -> bool
        ensures { result ≡ is_switch_at self.now.nodes place }
    {
        is_switch_at(self.nodes.as_slice(), place)
    }

    /// The port of this number at the node there, if there is one.
    pub fn port_at(&self, place: usize, number: u128) -> Option<PortRef>
        ensures value { result ≡ port_at self.now.nodes place number }
        ensures within { IfSome result (λ port. port.port ≤ ports_at self.now.nodes port.node) }
    {
        port_at(self.nodes.as_slice(), place, number)
    }

    /// The GUID of a port of an adapter.
    pub fn guid_of(&self, port: PortRef) -> u64
        requires adapter { is_switch_at self.now.nodes port.node ≡ false }
        requires within { port.port ≤ ports_at self.now.nodes port.node }
        ensures { result ≡ port_guid_at self.now.nodes port }
    {
        match self.nodes.as_slice().get(port.node) {
            Some(node) => node.port_guid(port.port),
            None => 0,
        }
    }

    /// Whether the port has a cable, looked up in constant time.
    pub fn is_cabled(&self, port: PortRef) -> bool
        ensures { result ≡ is_cabled self.now.cables port }
    {
        self.cables.is_cabled(port)
    }

    /// Where the node of this name stands among the nodes, looked up in constant time.
    pub fn index_of(&self, name: &[u8]) -> Option<usize>
        ensures { result ≡ place_of name.now self.now.nodes }
    {
        self.nodes.place_of(name)
    }
}
