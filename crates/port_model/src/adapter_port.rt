//! A port of a channel adapter: what SMPs read and set of it, and what it sends and takes.

ghost use Rattle.std.specs.Prelude.{◌≡◌, ◌≢◌, ◌≤◌, true, ◌-◌, ◌++◌, ◌||◌, length, replicate, is_some, unwrap_or, IfOk, Some, None, MatchResult, if◌then◌else◌};
ghost use Rattle.mad_layout.specs.Bits.{field};
ghost use Rattle.agent_rules.specs.Agent.{Leaves, answer, held_after};
ghost use Rattle.attr_tables.specs.Attribute.{IsAttribute};
ghost use Rattle.agent_rules.specs.Request.{KeepsRest};
ghost use Rattle.port_model.specs.AdapterState.{at_power_up};
ghost use Rattle.data_packet.specs.declared.payload.TheConstants.{PAYLOAD_BYTES};
ghost use Rattle.pkey_rules.specs.KeyTable.{holds};
ghost use Rattle.pkey_rules.specs.StoredKeys.{stored_keys};
ghost use Rattle.port_model.specs.Agent.{agent_after, agent_reply, get, is_own, set, set_keys, set_port_info};
ghost use Rattle.port_model.specs.Packets.{accepts_packet, is_active, refusal_of, stamped};

use agent_rules::{
    PortLink, PortSetting, attribute_asked, data_of, is_request, is_set, keys_at_power_up,
    modifier_of, node_info_of, port_info_after, port_info_at_power_up, put_reply, set_word_block,
    shown_at, whole, word_block_at,
};
use attr_tables::{NodeDescription, PortInfo, PortState, SmpAttribute};
use data_packet::{Packet, Payload, QueuePair, Refusal};
use fabric_parts::{NodeType, is_reserved};
use mad_layout::{Mad, MadStatus};
use pkey_rules::{PARTITIONS, PKey, stored_accepts, stored_holds};
use std::marker::Model;

/// A port of a channel adapter: what it is, and what a subnet manager reads and sets of it.
#[derive(Debug, Drop)]
pub struct AdapterPort {
    node_guid: u64,
    num_ports: u8,
    number: u8,
    port_guid: u64,
    description: NodeDescription,
    info: PortInfo,
    keys: [u16; PARTITIONS],
}

impl Model for AdapterPort {
    ghost use Rattle.mad_layout.specs.Layout.{Fits};
    ghost use Rattle.attr_tables.specs.PortInfo.{port_info};
    ghost use Rattle.port_model.specs.AdapterState.{AdapterState};

    ghost Value = { AdapterState };

    ghost view = { λ port. record {
      node_guid = port.node_guid;
      num_ports = port.num_ports;
      number = port.number;
      port_guid = port.port_guid;
      description = port.description.node_string;
      info = port.info;
      keys = port.keys;
    } };

    ghost invariant = { λ port. Fits (port_info port.info) };
}

impl AdapterPort {
    /// A port at power-up: one of so many ports of the adapter of that GUID and name.
    pub fn new(
        node_guid: u64,
        num_ports: u8,
        number: u8,
        port_guid: u64,
        name: &[u8],
        link: PortLink,
    ) -> AdapterPort
        requires { length name.now ≤ 64 }
        ensures { result ≡ at_power_up node_guid num_ports number port_guid (name.now ++ replicate (64 - length name.now) 0) link }
    {
        AdapterPort {
            node_guid,
            num_ports,
            number,
            port_guid,
            description: NodeDescription::of_text(name),
            info: port_info_at_power_up(NodeType::ChannelAdapter, number, link),
            keys: keys_at_power_up(),
        }
    }

    /// Answers an SMP in its place, or gives no reply and leaves it, if it asks no agent of subnet
    /// management.
    #[tactic(auto, unfolding(crate::specs::Agent::agent_reply, crate::specs::Agent::agent_after))]
    pub fn agent(&mut self, smp: &mut Mad) -> bool
        ensures replied { result ≡ is_some (agent_reply self.old smp.old) }
        ensures reply { smp.new ≡ unwrap_or (agent_reply self.old smp.old) smp.old }
        ensures held { self.new ≡ agent_after self.old smp.old }
        ensures kept { KeepsRest smp.old smp.new }
        ensures refused { result ≡ true → field smp.new 33 15 ≢ 0 → self.new ≡ self.old }
        ensures encoded { result ≡ true → IfOk (answer get set self.old smp.old) IsAttribute }
    {
        if !is_request(smp) {
            return false;
        }
        let answer = self.answer(smp);
        put_reply(smp, &answer);
        true
    }

    fn answer(&mut self, smp: &Mad) -> Result<[u8; 64], MadStatus>
        ensures answer { result ≡ answer get set self.old smp.now }
        ensures held { self.new ≡ held_after set self.old smp.now }
    {
        let attribute = attribute_asked(smp)?;
        if is_set(smp) {
            self.set(attribute, modifier_of(smp), &data_of(smp))?;
        }
        self.get(attribute, modifier_of(smp))
    }

    #[tactic(auto, unfolding(crate::specs::Agent::get))]
    fn get(&self, attribute: SmpAttribute, modifier: u32) -> Result<[u8; 64], MadStatus>
        ensures { result ≡ get self.now attribute modifier }
    {
        match attribute {
            SmpAttribute::NodeDescription => whole(modifier, self.description.node_string),
            SmpAttribute::NodeInfo => self.node_info(modifier),
            SmpAttribute::PortInfo => self.port_info(modifier),
            SmpAttribute::PKeyTable => word_block_at(&self.keys, modifier as usize),
            SmpAttribute::SwitchInfo
            | SmpAttribute::LinearForwardingTable
            | SmpAttribute::MulticastForwardingTable => Err(MadStatus::AttributeNotSupported),
        }
    }

    #[tactic(auto, unfolding(crate::specs::Agent::get))]
    fn node_info(&self, modifier: u32) -> Result<[u8; 64], MadStatus>
        ensures { result ≡ get self.now SmpAttribute.NodeInfo modifier }
    {
        let info = node_info_of(
            NodeType::ChannelAdapter,
            self.num_ports,
            self.node_guid,
            self.port_guid,
            self.number,
        );
        whole(modifier, info.to_bytes())
    }

    #[tactic(auto, unfolding(crate::specs::Agent::get))]
    fn port_info(&self, modifier: u32) -> Result<[u8; 64], MadStatus>
        ensures { result ≡ get self.now SmpAttribute.PortInfo modifier }
    {
        if self.is_own(modifier) {
            Ok(shown_at(self.number, &self.info))
        } else {
            Err(MadStatus::InvalidField)
        }
    }

    /// Whether the modifier of PortInfo names this port.
    fn is_own(&self, modifier: u32) -> bool
        ensures { result ≡ is_own self.now modifier }
    {
        modifier == 0 || modifier == u32::from(self.number)
    }

    #[tactic(auto, unfolding(crate::specs::Agent::set))]
    fn set(
        &mut self,
        attribute: SmpAttribute,
        modifier: u32,
        wanted: &[u8; 64],
    ) -> Result<(), MadStatus>
        ensures { Leaves result self.old self.new (set self.old attribute modifier wanted.now) }
    {
        match attribute {
            SmpAttribute::PortInfo => self.set_port_info(modifier, wanted),
            SmpAttribute::PKeyTable => { set_word_block(&mut self.keys, modifier as usize, wanted) }
            SmpAttribute::NodeDescription
            | SmpAttribute::NodeInfo
            | SmpAttribute::SwitchInfo
            | SmpAttribute::LinearForwardingTable
            | SmpAttribute::MulticastForwardingTable => Err(MadStatus::AttributeNotSupported),
        }
    }

    #[tactic(auto, unfolding(crate::specs::Agent::set))]
    fn set_port_info(&mut self, modifier: u32, wanted: &[u8; 64]) -> Result<(), MadStatus>
        ensures { Leaves result self.old self.new (set self.old SmpAttribute.PortInfo modifier wanted.now) }
    {
        if !self.is_own(modifier) {
            return Err(MadStatus::InvalidField);
        }
        self.info = port_info_after(&self.info, &PortSetting::read(wanted), false)?;
        Ok(())
    }

    /// The GUID of the port.
    pub fn port_guid(&self) -> u64
        ensures { result ≡ self.now.port_guid }
    {
        self.port_guid
    }

    /// The LID of the port, 0 if it has none.
    pub fn lid(&self) -> u16
        ensures { result ≡ self.now.info.lid }
    {
        self.info.lid
    }

    /// The words of its P_Key table as they were written.
    pub fn keys(&self) -> &[u16; PARTITIONS]
        ensures { result.now ≡ self.now.keys }
    {
        &self.keys
    }

    /// The packet of this payload, at most 256 bytes, for that LID and that queue pair under this key, from the
    /// port's own LID; or the first reason why the port won't send it, in the order of [`Refusal`]. The key may be
    /// any 16 bits; the port has to hold these very ones.
    pub fn stamp(
        &self,
        dlid: u16,
        p_key: u16,
        destination_qp: QueuePair,
        payload: &[u8],
    ) -> Result<Packet, Refusal>
        requires { length payload.now ≤ PAYLOAD_BYTES }
        ensures { result ≡ stamped self.now dlid p_key destination_qp payload.now }
    {
        let key = self.key_to_send(dlid, p_key, destination_qp)?;
        Ok(Packet {
            slid: self.info.lid,
            dlid,
            p_key: key,
            destination_qp,
            payload: Payload::new(payload),
        })
    }

    /// Whether the port takes this packet: a key of its table matches the packet's.
    pub fn accept(&self, packet: &Packet) -> bool
        ensures { result ≡ accepts_packet self.now packet.now }
    {
        stored_accepts(&self.keys, packet.p_key)
    }

    /// The key under which the packet travels, or why the port won't send it.
    fn key_to_send(&self, dlid: u16, p_key: u16, destination_qp: QueuePair) -> Result<PKey, Refusal>
        ensures { MatchResult result
            (λ key. (refusal_of self.now dlid p_key destination_qp ≡ None) × (key ≡ p_key))
            (λ refusal. refusal_of self.now dlid p_key destination_qp ≡ Some refusal) }
    {
        if !self.is_active() {
            return Err(Refusal::PortNotActive);
        }
        let Some(key) = self.held_key(p_key) else {
            return Err(Refusal::KeyNotHeld);
        };
        if destination_qp.is_subnet_management() {
            return Err(Refusal::QpZero);
        }
        if is_reserved(dlid) {
            return Err(Refusal::ReservedDlid);
        }
        Ok(key)
    }

    fn is_active(&self) -> bool
        ensures { result ≡ is_active self.now.info }
    {
        self.info.port_state == PortState::Active.code()
    }

    /// The key of exactly these bits, if the port's table has it.
    fn held_key(&self, bits: u16) -> Option<PKey>
        ensures { result ≡ if holds bits (stored_keys self.now.keys) then Some bits else None }
    {
        let Ok(key) = PKey::new(bits) else {
            return None;
        };
        if stored_holds(&self.keys, key) {
            Some(key)
        } else {
            None
        }
    }
}
