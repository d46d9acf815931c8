//! A topology whose fabric can be simulated.

ghost use Rattle.std.specs.Prelude.{◌≡◌, ◌≤◌, true, false, All, IfSome, nat_eq};
ghost use Rattle.std.specs.List.{list_all, IsDistinct};
ghost use Rattle.fabric_parts.specs.Cable.{is_cabled};
ghost use Rattle.topo_file.specs.Cable.{port_at};
ghost use Rattle.topo_file.specs.Connectivity.{AllJoined};
ghost use Rattle.topo_file.specs.Node.{HasGuids, IsWithinLimits, is_switch_at, place_of, port_guid_at, ports_at, shares_guid};
ghost use Rattle.topo_file.specs.Sound.{IsSound, ends_at_ports, is_manager_port, is_named, is_sized, joins_right, shares_name, shares_port};

use crate::large_topology::LargeTopology;
use crate::node::Node;
use fabric_parts::{Cable, PortRef};
use std::marker::Model;

/// A topology within [`Limits::Simulated`](fabric_parts::Limits::Simulated): the nodes and cables of a fabric, the roots of
/// its routes, and the port that the subnet manager runs on.
#[derive(Debug)]
pub struct Topology {
    pub(crate) all: LargeTopology,
}

// As derived, but by one call: else what owns one is proved to let go of each of its parts, on each way out.
impl Drop for Topology {
    fn drop(self) {
        let Topology { all: _ } = self;
    }
}

impl Model for Topology {
    ghost use Rattle.topo_file.specs.Topology.{TopologyState};
    ghost use Rattle.topo_file.specs.Sound.{IsSound};

    ghost Value = { TopologyState };

    ghost view = { λ topology. topology.all };

    ghost invariant = { λ topology. IsSound topology.all };
}

impl Topology {
    /// Says all at once what is so of every topology that was read. It does nothing.
    pub fn known_sound(&self)
        ensures { IsSound self.now }
    {
        // What a value meets is known once a field is named.
        let _ = &self.all;
    }

    /// The same as a topology of any size.
    pub fn as_large(&self) -> &LargeTopology
        ensures { result.now ≡ self.now }
    {
        &self.all
    }

    /// The nodes, in the order of their lines.
    pub fn nodes(&self) -> &[Node]
        ensures value { result.now ≡ self.now.nodes }
        ensures names { list_all is_named result.now ≡ true }
        ensures own_names { IsDistinct shares_name result.now }
        ensures guids { All HasGuids result.now }
        ensures own_guids { IsDistinct shares_guid result.now }
        ensures sizes { list_all is_sized result.now ≡ true }
        ensures limits { IsWithinLimits result.now }
    {
        self.all.nodes()
    }

    /// The cables, in the order of their lines.
    pub fn cables(&self) -> &[Cable]
        ensures value { result.now ≡ self.now.cables }
        ensures ends { list_all (ends_at_ports self.now.nodes) result.now ≡ true }
        ensures joins { list_all (joins_right self.now.nodes) result.now ≡ true }
        ensures own_ports { IsDistinct shares_port result.now }
        ensures connected { AllJoined self.now.nodes result.now }
    {
        self.all.cables()
    }

    /// The roots that routes go up to, in the order of their lines: each is the place of a switch among the
    /// nodes. There may be none, and then the switch of least GUID is the root.
    pub fn roots(&self) -> &[usize]
        ensures value { result.now ≡ self.now.roots }
        ensures switches { list_all (is_switch_at self.now.nodes) result.now ≡ true }
        ensures own { IsDistinct nat_eq result.now }
    {
        self.all.roots()
    }

    /// The port that the subnet manager runs on, which is an adapter's and has a cable.
    pub fn sm(&self) -> PortRef
        ensures value { result ≡ self.now.sm }
        ensures port { is_manager_port self.now.nodes result ≡ true }
        ensures cabled { is_cabled self.now.cables result ≡ true }
    {
        self.all.sm()
    }

    /// Whether the node there is a switch.
    pub fn is_switch_at(&self, place: usize) -> bool
        ensures { result ≡ is_switch_at self.now.nodes place }
    {
        self.all.is_switch_at(place)
    }

    /// The port of this number at the node there, if there is one.
    pub fn port_at(&self, place: usize, number: u128) -> Option<PortRef>
        ensures value { result ≡ port_at self.now.nodes place number }
        ensures within { IfSome result (λ port. port.port ≤ ports_at self.now.nodes port.node) }
    {
        self.all.port_at(place, number)
    }

    /// The GUID of a port of an adapter.
    pub fn guid_of(&self, port: PortRef) -> u64
        requires adapter { is_switch_at self.now.nodes port.node ≡ false }
        requires within { port.port ≤ ports_at self.now.nodes port.node }
        ensures { result ≡ port_guid_at self.now.nodes port }
    {
        self.all.guid_of(port)
    }

    /// Whether the port has a cable, looked up in constant time.
    pub fn is_cabled(&self, port: PortRef) -> bool
        ensures { result ≡ is_cabled self.now.cables port }
    {
        self.all.is_cabled(port)
    }

    /// Where the node of this name stands among the nodes, looked up in constant time.
    pub fn index_of(&self, name: &[u8]) -> Option<usize>
        ensures { result ≡ place_of name.now self.now.nodes }
    {
        self.all.index_of(name)
    }
}
