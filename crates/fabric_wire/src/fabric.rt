//! The simulated fabric.

ghost use Rattle.std.specs.Prelude.{ℕ, ◌≡◌, ◌*◌, ◌≤◌, ◌↔◌, true, length, is_some, Some, IfOk};
ghost use Rattle.std.specs.Option.{ForSome};
ghost use Rattle.data_packet.specs.declared.payload.TheConstants.{PAYLOAD_BYTES};
ghost use Rattle.fabric_parts.specs.Cable.{far_end};
ghost use Rattle.fabric_parts.specs.Lid.{is_multicast};
ghost use Rattle.fabric_parts.specs.declared.cable.PortRef.{PortRef};
ghost use Rattle.smp_wire.specs.Deliveries.{AreDeliveries, HasPort, adapter_at, guid_at};
ghost use Rattle.port_model.specs.AdapterState.{AdapterState};
ghost use Rattle.port_model.specs.Packets.{stamped};
ghost use Rattle.smp_wire.specs.Good.{IsGood, ShowsLinks, SwitchesJoined};
ghost use Rattle.smp_wire.specs.Walk.{exchange_after, exchange_reply};
ghost use Rattle.fabric_wire.specs.Cabling.{fabric_over};
ghost use Rattle.fabric_wire.specs.OfTopology.{fabric_of};
ghost use Rattle.fabric_wire.specs.Recabling.{can_change, node_linked, nodes_linked, recabled};
ghost use Rattle.smp_wire.specs.FabricState.{is_port, port_count};

use crate::adapter_ports::{adapter_at, places_by_guid};
use crate::cabling::Cabling;
use crate::carrying::receiver;
use crate::delivery::{Delivery, at_each};
use crate::hopping::{come_home, go_out};
use crate::power_up::nodes_of;
use crate::spreading::receivers;
use data_packet::{Packet, QueuePair, Refusal};
use fabric_parts::{PortRef, is_multicast};
use indexmap::IndexMap;
use mad_layout::{Mad, known_bytes};
use port_model::AdapterPort;
use smp_route::turn_round;
use smp_wire::{Node, SmpWire, agent_at, is_sent, is_switch_at};
use std::alloc::{AllocError, Global};
use std::marker::Model;
use topo_file::Topology;

/// A fabric whose nodes hand SMPs on hop by hop, each of them knowing its own ports alone.
#[derive(Debug)]
pub struct Fabric {
    nodes: Vec<Node>,
    cabling: Cabling,
    adapter_ports: IndexMap<u64, PortRef>,
    manager: PortRef,
    // In no definition: what a fabric does depends on it nowhere.
    exchanges: u64,
}

// As derived, but by one call: else what owns one is proved to let go of each of its parts, on each way out.
impl Drop for Fabric {
    fn drop(self) {
        let Fabric {
            nodes: _,
            cabling: _,
            adapter_ports: _,
            manager: _,
            exchanges: _,
        } = self;
    }
}

impl Model for Fabric {
    ghost use Rattle.smp_wire.specs.FabricState.{FabricState};
    ghost use Rattle.std.specs.Prelude.{nat_eq};
    ghost use Rattle.indexmap.specs.IndexMap.{get};
    ghost use Rattle.fabric_wire.specs.AdapterPorts.{IsKept};

    ghost Value = { FabricState };

    ghost view = { λ fabric. record {
      nodes = fabric.nodes.items;
      cables = fabric.cabling.cables;
      cut = fabric.cabling.cut;
      manager = fabric.manager;
    } };

    ghost invariant = { λ fabric. IsKept (record {
      nodes = fabric.nodes.items;
      cables = fabric.cabling.cables;
      cut = fabric.cabling.cut;
      manager = fabric.manager;
    }) (get nat_eq fabric.adapter_ports) };
}

impl Fabric {
    /// The fabric that a topology describes, at power-up: its nodes, cables and subnet manager's port.
    /// It can only run out of memory.
    pub fn new(alloc: Global, topology: &Topology) -> Result<Fabric, AllocError>
        ensures value { IfOk result (λ fabric. fabric ≡ fabric_of topology.now) }
        ensures good { IfOk result (λ fabric. IsGood fabric) }
        ensures links { IfOk result (λ fabric. ShowsLinks fabric) }
        ensures joined { IfOk result (λ fabric. SwitchesJoined fabric) }
    {
        topology.known_sound();
        let nodes = nodes_of(alloc, topology)?;
        let cabling = Cabling::new(alloc, topology.cables())?;
        let adapter_ports = places_by_guid(alloc, &nodes)?;
        Ok(Fabric {
            nodes,
            cabling,
            adapter_ports,
            manager: topology.sm(),
            exchanges: 0,
        })
    }

    /// What holds of every fabric at all times: it is good, and a port is Down if and only if it has no cable.
    pub fn known_kept(&self)
        ensures good { IsGood self.now }
        ensures links { ShowsLinks self.now }
    {
        // What a value meets is known once a field is named.
        let _ = &self.manager;
    }

    /// How many SMPs were sent over it since it was made. Nothing is proved of it: it is there for tests of how many a change
    /// costs.
    pub fn exchanges(&self) -> u64 {
        self.exchanges
    }

    /// Its nodes, with what they hold.
    pub fn nodes(&self) -> &[Node]
        ensures { result.now ≡ self.now.nodes }
    {
        &self.nodes
    }

    /// How many ends its cables have, those that are cut left out.
    pub fn cable_ends(&self) -> usize
        ensures { result ≡ 2 * length self.now.cables }
    {
        self.cabling.count_ends()
    }

    /// The other end of the cable at a port, if it has one.
    pub fn far_end(&self, port: PortRef) -> Option<PortRef>
        ensures { result ≡ far_end self.now.cables port }
    {
        self.cabling.far_end(port)
    }

    /// Cuts the cable between these ports of two switches, or mends it: both ports are Down and Polling then, or Initialize and
    /// LinkUp, and all else stays. If no such cable can be cut, or mended, nothing changes: cables to adapters stay.
    ///
    /// Source: IBA volume 1, 14.2.5.6 (PortInfo).
    pub fn set_cable(&mut self, a: PortRef, b: PortRef, up: bool)
        ensures { self.new ≡ recabled a b up self.old }
    {
        if !self.can_change(a, b, up) {
            return;
        }
        set_links(&mut self.nodes, a, b, up);
        if up {
            self.cabling.mend(a, b);
        } else {
            self.cabling.cut(a, b);
        }
    }

    /// Whether [`Fabric::set_cable`] would change something: the ports are of switches, with a cable between them that can be
    /// mended, or cut.
    pub fn can_change(&self, a: PortRef, b: PortRef, up: bool) -> bool
        ensures { result ≡ can_change a b up self.now }
    {
        is_switch_at(&self.nodes, a.node)
            && is_switch_at(&self.nodes, b.node)
            && self.cabling.has(a, b, up)
    }

    /// Where the port of a channel adapter is that has that GUID.
    pub fn place_of(&self, guid: u64) -> Option<PortRef>
        ensures { (at : PortRef) → result ≡ Some at ↔ (guid_at self.now.nodes at ≡ Some guid) }
    {
        self.adapter_ports.get(&guid).copied()
    }

    /// Whether a port of a channel adapter has that GUID.
    pub fn has_port(&self, guid: u64) -> bool
        ensures { (result ≡ true) ↔ HasPort self.now.nodes guid }
    {
        match self.adapter_ports.get(&guid) {
            Some(_) => true,
            None => false,
        }
    }

    /// What the port there makes of a packet: its own [`AdapterPort::stamp`].
    pub fn stamp_at(
        &self,
        at: PortRef,
        dlid: u16,
        p_key: u16,
        destination_qp: QueuePair,
        payload: &[u8],
    ) -> Result<Packet, Refusal>
        requires there { is_some (adapter_at self.now.nodes at) ≡ true }
        requires fits { length payload.now ≤ PAYLOAD_BYTES }
        ensures { ForSome (adapter_at self.now.nodes at) (λ sender. result ≡ stamped sender dlid p_key destination_qp payload.now) }
    {
        let Some(sender) = adapter_at(&self.nodes, at) else {
            unreachable!()
        };
        sender.stamp(dlid, p_key, destination_qp, payload)
    }

    /// What the port of that GUID makes of a packet: its own [`AdapterPort::stamp`].
    pub fn stamp(
        &self,
        port: u64,
        dlid: u16,
        p_key: u16,
        destination_qp: QueuePair,
        payload: &[u8],
    ) -> Result<Packet, Refusal>
        requires there { HasPort self.now.nodes port }
        requires fits { length payload.now ≤ PAYLOAD_BYTES }
        ensures { (at : PortRef) (sender : AdapterState) → adapter_at self.now.nodes at ≡ Some sender → sender.port_guid ≡ port
            → result ≡ stamped sender dlid p_key destination_qp payload.now }
    {
        let Some(at) = self.place_of(port) else {
            unreachable!()
        };
        self.stamp_at(at, dlid, p_key, destination_qp, payload)
    }

    /// What becomes of a packet that the port there sends: who gets it, in order of LID, then of GUID. It can only
    /// run out of memory.
    ///
    /// Source: IBA volume 1, chapter 14.
    pub fn carry_from(
        &self,
        alloc: Global,
        from: PortRef,
        packet: &Packet,
    ) -> Result<Vec<Delivery>, AllocError>
        requires there { is_some (adapter_at self.now.nodes from) ≡ true }
        ensures { IfOk result (λ deliveries. (port : ℕ) → guid_at self.now.nodes from ≡ Some port
            → AreDeliveries self.now port packet.now deliveries.items) }
    {
        if is_multicast(packet.dlid) {
            return self.spread_from(alloc, from, packet);
        }
        // Room for the one delivery: an empty list would take room for four.
        let mut deliveries = Vec::with_capacity(alloc, 1)?;
        if let Some(receiver) = receiver(&self.nodes, &self.cabling, packet, from) {
            deliveries.push(Delivery::at(receiver.port_guid(), packet)?)?;
        }
        Ok(deliveries)
    }

    /// What becomes of a packet to a multicast LID that the port there sends.
    fn spread_from(
        &self,
        alloc: Global,
        from: PortRef,
        packet: &Packet,
    ) -> Result<Vec<Delivery>, AllocError>
        requires multicast { is_multicast packet.now.dlid ≡ true }
        ensures { IfOk result (λ deliveries. (port : ℕ) → guid_at self.now.nodes from ≡ Some port
            → AreDeliveries self.now port packet.now deliveries.items) }
    {
        let receivers = receivers(alloc, &self.nodes, &self.cabling, packet, from)?;
        at_each(alloc, &receivers, packet)
    }

    /// What becomes of a packet that the port of that GUID sends. If no port with a cable has that GUID, nobody
    /// gets it.
    pub fn carry(
        &self,
        alloc: Global,
        port: u64,
        packet: &Packet,
    ) -> Result<Vec<Delivery>, AllocError>
        ensures { IfOk result (λ deliveries. AreDeliveries self.now port packet.now deliveries.items) }
    {
        match self.place_of(port) {
            Some(from) => self.carry_from(alloc, from, packet),
            None => Ok(Vec::new(alloc)),
        }
    }
}

/// The same of two ports.
fn set_links(nodes: &mut [Node], a: PortRef, b: PortRef, up: bool)
    requires first { is_port nodes.old a ≡ true }
    requires second { is_port nodes.old b ≡ true }
    ensures { nodes.new ≡ nodes_linked up a (nodes_linked up b nodes.old) }
{
    set_link(nodes, b, up);
    set_link(nodes, a, up);
}

/// The port there, if it is one of a switch, is up or down from then on.
fn set_link(nodes: &mut [Node], at: PortRef, up: bool)
    requires { is_port nodes.old at ≡ true }
    ensures { nodes.new ≡ nodes_linked up at nodes.old }
{
    if at.node >= nodes.len() {
        return;
    }
    set_link_of(&mut nodes[at.node], at.port, up);
}

fn set_link_of(node: &mut Node, number: u8, up: bool)
    requires some { 1 ≤ number }
    requires there { number ≤ port_count node.old }
    ensures { node.new ≡ node_linked number up node.old }
{
    match node {
        Node::Switch(switch) => switch.set_link(number, up),
        Node::Adapter(_) => {}
    }
}

/// Takes an SMP out, has it answered, and takes its reply home.
#[tactic(auto, unfolding(smp_wire::specs::Walk::exchange_reply, smp_wire::specs::Walk::exchange_after))]
fn exchange(nodes: &mut [Node], cabling: &Cabling, manager: PortRef, sent: &Mad) -> Option<Mad>
    requires { IsGood (fabric_over nodes.old cabling.now manager) }
    ensures answer { result ≡ exchange_reply (fabric_over nodes.old cabling.now manager) sent.now }
    ensures change { fabric_over nodes.new cabling.now manager ≡ exchange_after (fabric_over nodes.old cabling.now manager) sent.now }
{
    if !is_sent(sent) {
        return None;
    }
    known_bytes(sent);
    let arrival = go_out(nodes, cabling, manager, sent)?;
    let mut smp = arrival.smp;
    if !agent_at(nodes, arrival.at, &mut smp) {
        return None;
    }
    known_bytes(&smp);
    turn_round(&mut smp);
    if !come_home(nodes, cabling, manager, arrival.at, &mut smp) {
        return None;
    }
    Some(smp)
}

impl SmpWire for Fabric {
    ghost fabric = { λ fabric. Some fabric };

    fn exchange(&mut self, smp: &Mad) -> Option<Mad> {
        self.exchanges = self.exchanges.wrapping_add(1);
        exchange(&mut self.nodes, &self.cabling, self.manager, smp)
    }
}
