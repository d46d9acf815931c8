//! A switch: what SMPs read and set of it, and where it forwards a packet.

ghost use Rattle.std.specs.Prelude.{◌≡◌, ◌≢◌, ◌≤◌, true, ◌<◌, ◌-◌, ◌+◌, ◌*◌, ◌++◌, length, replicate, is_some, unwrap_or, IfOk, IfSome};
ghost use Rattle.mad_layout.specs.Bits.{field};
ghost use Rattle.agent_rules.specs.Agent.{Leaves, answer, held_after};
ghost use Rattle.attr_tables.specs.Attribute.{IsAttribute};
ghost use Rattle.agent_rules.specs.Request.{KeepsRest};
ghost use Rattle.switch_model.specs.Agent.{agent_after, agent_reply, get, set};
ghost use Rattle.switch_model.specs.Fate.{fate, fate_by};
ghost use Rattle.switch_model.specs.Forwarding.{linear_entry_of, out_port};
ghost use Rattle.switch_model.specs.Links.{with_link};
ghost use Rattle.switch_model.specs.SwitchState.{at_power_up, num_ports};
ghost use Rattle.fabric_parts.specs.declared.limits.TheConstants.{SWITCH_PORTS};

use crate::enforcement::{leaves_by, passes_inbound, passes_outbound};
use crate::fate::Fate;
use crate::linear_table::{get_linear, set_linear, set_linear_top};
use crate::multicast_table::{POSITIONS, get_masks, set_masks};
use crate::ports::{get_keys, get_port_info, ports_at_power_up, set_keys, set_link, set_port_info};
use crate::switch_port::SwitchPort;
use agent_rules::{
    PortLink, attribute_asked, data_of, is_request, is_set, modifier_of, node_info_of, put_reply,
    switch_info_at_power_up, whole,
};
use arrayvec::ArrayVec;
use attr_tables::{NodeDescription, SmpAttribute, SwitchInfo};
use data_packet::Packet;
use fabric_parts::{NO_PORT, NodeType, SWITCH_PORTS};
use mad_layout::{Mad, MadStatus};
use pkey_rules::PKey;
use std::marker::Model;

/// How many ports a switch has at most, with port 0.
pub(crate) const PORTS_WITH_0: usize = SWITCH_PORTS + 1;

/// A switch whose linear forwarding table has `LFT` entries and whose multicast forwarding table has
/// `MFT`: what it is, and what a subnet manager reads and sets of it.
#[derive(Debug, Drop)]
pub struct Switch<const LFT: usize, const MFT: usize> {
    node_guid: u64,
    description: NodeDescription,
    info: SwitchInfo,
    ports: ArrayVec<SwitchPort, PORTS_WITH_0>,
    linear: [u8; LFT],
    masks: [[u16; MFT]; POSITIONS],
}

impl<const LFT: usize, const MFT: usize> Model for Switch<LFT, MFT> {
    ghost use Rattle.std.specs.Prelude.{◌<◌, length};
    ghost use Rattle.switch_model.specs.SwitchState.{AllFit, SwitchState};

    ghost Value = { SwitchState };

    ghost view = { λ switch. record {
      node_guid = switch.node_guid;
      description = switch.description.node_string;
      info = switch.info;
      ports = switch.ports.items;
      linear = switch.linear;
      masks = switch.masks;
    } };

    ghost invariant = { λ switch. (switch.info.life_time_value < 32) × (0 < length switch.ports.items) × AllFit switch.ports.items };
}

impl<const LFT: usize, const MFT: usize> Switch<LFT, MFT> {
    /// A switch at power-up, of that GUID and name, with a port for each of these links beside port 0.
    pub fn new(node_guid: u64, name: &[u8], links: &[PortLink]) -> Self
        requires lids { LFT < 65536 }
        requires multicast_lids { MFT < 65536 }
        requires name { length name.now ≤ 64 }
        requires ports { length links.now ≤ SWITCH_PORTS }
        ensures { result ≡ at_power_up node_guid (name.now ++ replicate (64 - length name.now) 0) links.now LFT MFT }
    {
        Switch {
            node_guid,
            description: NodeDescription::of_text(name),
            info: SwitchInfo {
                linear_fdb_cap: LFT as u16,
                multicast_fdb_cap: MFT as u16,
                ..switch_info_at_power_up()
            },
            ports: ports_at_power_up(links),
            linear: [NO_PORT; LFT],
            masks: [[0; MFT]; POSITIONS],
        }
    }

    /// How many ports it has, port 0 not counted.
    pub fn port_count(&self) -> usize
        ensures count { result ≡ num_ports self.now }
        ensures few { result ≤ SWITCH_PORTS }
    {
        self.ports.len() - 1
    }

    /// Answers an SMP that came in at that port, in its place, or gives no reply and leaves it, if it
    /// asks no agent of subnet management. Port 0 is where the SMP comes from the switch itself.
    #[tactic(auto, unfolding(crate::specs::Agent::agent_reply, crate::specs::Agent::agent_after))]
    pub fn agent(&mut self, in_port: u8, smp: &mut Mad) -> bool
        ensures replied { result ≡ is_some (agent_reply self.old in_port smp.old) }
        ensures reply { smp.new ≡ unwrap_or (agent_reply self.old in_port smp.old) smp.old }
        ensures held { self.new ≡ agent_after self.old smp.old }
        ensures kept { KeepsRest smp.old smp.new }
        ensures refused { result ≡ true → field smp.new 33 15 ≢ 0 → self.new ≡ self.old }
        ensures encoded { result ≡ true → IfOk (answer (get in_port) set self.old smp.old) IsAttribute }
    {
        if !is_request(smp) {
            return false;
        }
        let answer = self.answer(in_port, smp);
        put_reply(smp, &answer);
        true
    }

    /// Takes the cable at the port of that number away, or puts it back: the port is Down and Polling then, or Initialize and
    /// LinkUp, and all else stays.
    ///
    /// Source: IBA volume 1, 14.2.5.6 (PortInfo).
    pub fn set_link(&mut self, number: u8, up: bool)
        requires some { 1 ≤ number }
        requires there { number ≤ num_ports self.old }
        ensures { self.new ≡ with_link number up self.old }
    {
        set_link(usize::from(number), up, &mut self.ports);
    }

    /// The port by which a data packet that came in at that port leaves, if it leaves: none if the switch
    /// discards it, or takes it itself since the LID is its own. Port 0 is where the packet comes from the switch
    /// itself.
    pub fn unicast_out(&self, in_port: u8, packet: &Packet) -> Option<u8>
        ensures value { result ≡ out_port self.now in_port packet.now }
        ensures port { IfSome result (λ out. (1 ≤ out) × (out ≤ num_ports self.now)) }
    {
        if !passes_inbound(in_port, packet.p_key, &self.ports) {
            return None;
        }
        let out = self.linear_entry_of(packet.dlid)?;
        leaves_by(out, packet.p_key, &self.ports)
    }

    /// What becomes of a unicast data packet that came in at that port: by which port it leaves, or why it does not.
    #[tactic(auto, unfolding(crate::specs::Fate::fate))]
    pub fn fate(&self, in_port: u8, packet: &Packet) -> Fate
        ensures { result ≡ fate self.now in_port packet.now }
    {
        if !passes_inbound(in_port, packet.p_key, &self.ports) {
            return Fate::KeptOut;
        }
        if packet.dlid > self.info.linear_fdb_top {
            return Fate::OverTop;
        }
        match self.linear.get(usize::from(packet.dlid)) {
            Some(entry) => self.fate_by(*entry, packet.p_key),
            None => Fate::OverTop,
        }
    }

    /// The same, by the entry for its LID.
    fn fate_by(&self, entry: u8, p_key: PKey) -> Fate
        ensures { result ≡ fate_by self.now.ports p_key entry }
    {
        if usize::from(entry) >= self.ports.len() {
            Fate::NoPort(entry)
        } else if entry == 0 {
            Fate::Taken
        } else if passes_outbound(entry, p_key, &self.ports) {
            Fate::Leaves(entry)
        } else {
            Fate::KeptIn(entry)
        }
    }

    /// What its ports hold, port 0 first.
    pub fn ports(&self) -> &[SwitchPort]
        ensures { result.now ≡ self.now.ports }
    {
        &self.ports
    }

    /// Its linear forwarding table: for each LID the port that leads there.
    pub fn linear(&self) -> &[u8]
        ensures { result.now ≡ self.now.linear }
    {
        &self.linear
    }

    /// Its multicast forwarding table, position by position.
    pub(crate) fn masks(&self) -> &[[u16; MFT]; POSITIONS]
        ensures { result.now ≡ self.now.masks }
    {
        &self.masks
    }

    /// LinearFDBTop, the last LID that counts.
    pub fn linear_top(&self) -> u16
        ensures { result ≡ self.now.info.linear_fdb_top }
    {
        self.info.linear_fdb_top
    }

    /// The port that the linear forwarding table has for a LID that counts.
    pub fn linear_entry_of(&self, lid: u16) -> Option<u8>
        ensures { result ≡ linear_entry_of self.now lid }
    {
        if lid > self.info.linear_fdb_top {
            return None;
        }
        self.linear.get(usize::from(lid)).copied()
    }

    fn answer(&mut self, in_port: u8, smp: &Mad) -> Result<[u8; 64], MadStatus>
        ensures answer { result ≡ answer (get in_port) set self.old smp.now }
        ensures held { self.new ≡ held_after set self.old smp.now }
    {
        let attribute = attribute_asked(smp)?;
        if is_set(smp) {
            self.set(attribute, modifier_of(smp), &data_of(smp))?;
        }
        self.get(in_port, attribute, modifier_of(smp))
    }

    #[tactic(auto, unfolding(crate::specs::Agent::get))]
    fn get(
        &self,
        in_port: u8,
        attribute: SmpAttribute,
        modifier: u32,
    ) -> Result<[u8; 64], MadStatus>
        ensures { result ≡ get in_port self.now attribute modifier }
    {
        match attribute {
            SmpAttribute::NodeDescription => whole(modifier, self.description.node_string),
            SmpAttribute::NodeInfo => self.node_info(in_port, modifier),
            SmpAttribute::SwitchInfo => whole(modifier, self.info.to_bytes()),
            SmpAttribute::PortInfo => get_port_info(in_port, modifier as usize, &self.ports),
            SmpAttribute::PKeyTable => get_keys(modifier, &self.ports),
            SmpAttribute::LinearForwardingTable => get_linear(modifier as usize, &self.linear),
            SmpAttribute::MulticastForwardingTable => get_masks(modifier, &self.masks),
        }
    }

    #[tactic(auto, unfolding(crate::specs::Agent::get))]
    fn node_info(&self, in_port: u8, modifier: u32) -> Result<[u8; 64], MadStatus>
        ensures { result ≡ get in_port self.now SmpAttribute.NodeInfo modifier }
    {
        let num_ports = self.port_count() as u8;
        let guid = self.node_guid;
        let info = node_info_of(NodeType::Switch, num_ports, guid, guid, in_port);
        whole(modifier, info.to_bytes())
    }

    #[tactic(auto, unfolding(crate::specs::Agent::set))]
    fn set(
        &mut self,
        attribute: SmpAttribute,
        modifier: u32,
        wanted: &[u8; 64],
    ) -> Result<(), MadStatus>
        ensures { Leaves result self.old self.new (set self.old attribute modifier wanted.now) }
    {
        match attribute {
            SmpAttribute::SwitchInfo => set_linear_top(modifier, wanted, LFT, &mut self.info),
            SmpAttribute::PortInfo => set_port_info(modifier as usize, wanted, &mut self.ports),
            SmpAttribute::PKeyTable => set_keys(modifier, wanted, &mut self.ports),
            SmpAttribute::LinearForwardingTable => {
                set_linear(modifier as usize, wanted, &mut self.linear)
            }
            SmpAttribute::MulticastForwardingTable => set_masks(modifier, wanted, &mut self.masks),
            SmpAttribute::NodeDescription | SmpAttribute::NodeInfo => {
                Err(MadStatus::AttributeNotSupported)
            }
        }
    }
}
