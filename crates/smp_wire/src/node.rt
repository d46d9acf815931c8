//! The nodes of a fabric: switches, and channel adapters with their ports.

ghost use Rattle.std.specs.Prelude.{◌≡◌, ◌≤◌, IfOk, is_some, unwrap_or, slice_get};
ghost use Rattle.smp_wire.specs.FabricState.{adapter_port, adapter_ports_after, node_after, node_reply, port_count};
ghost use Rattle.agent_rules.specs.Request.{KeepsRest};
ghost use Rattle.port_model.specs.Agent.{agent_reply};
ghost use Rattle.std.specs.Option.{option_and_then, option_copied};
ghost use Rattle.switch_model.specs.Links.{with_link};
ghost use Rattle.switch_model.specs.SwitchState.{num_ports};

use agent_rules::{LINEAR_TABLE, MULTICAST_TABLE};
use mad_layout::Mad;
use port_model::AdapterPort;
use std::alloc::{AllocError, Global};
use std::marker::Model;
use switch_model::Switch;

/// A switch of a fabric, whose tables are on the heap.
#[derive(Debug, Drop)]
pub struct BoxedSwitch {
    switch: Box<Switch<LINEAR_TABLE, MULTICAST_TABLE>>,
}

impl Model for BoxedSwitch {
    ghost use Rattle.switch_model.specs.SwitchState.{SwitchState};

    ghost Value = { SwitchState };

    ghost view = { λ boxed. boxed.switch.value };
}

impl BoxedSwitch {
    /// Puts a switch on the heap.
    pub fn new(
        alloc: Global,
        switch: Switch<LINEAR_TABLE, MULTICAST_TABLE>,
    ) -> Result<BoxedSwitch, AllocError>
        ensures { IfOk result (λ boxed. boxed ≡ switch) }
    {
        let switch = Box::new(alloc, switch)?;
        Ok(BoxedSwitch { switch })
    }

    /// The switch.
    pub fn as_switch(&self) -> &Switch<LINEAR_TABLE, MULTICAST_TABLE>
        ensures { result.now ≡ self.now }
    {
        &self.switch
    }

    /// Takes the cable at the port of that number away, or puts it back: [`Switch::set_link`].
    pub fn set_link(&mut self, number: u8, up: bool)
        requires some { 1 ≤ number }
        requires there { number ≤ num_ports self.old }
        ensures { self.new ≡ with_link number up self.old }
    {
        self.switch.set_link(number, up);
    }
}

/// The ports of a channel adapter, in order of their numbers, each with its own agent.
#[derive(Debug, Drop)]
pub struct AdapterPorts {
    ports: Vec<AdapterPort>,
}

impl Model for AdapterPorts {
    ghost use Rattle.std.specs.Prelude.{List};
    ghost use Rattle.port_model.specs.AdapterState.{AdapterState};

    ghost Value = { List AdapterState };

    ghost view = { λ ports. ports.ports.items };
}

impl AdapterPorts {
    /// These ports, the first of them port 1.
    pub fn new(ports: Vec<AdapterPort>) -> AdapterPorts
        ensures { result ≡ ports.items }
    {
        AdapterPorts { ports }
    }

    /// The port of that number, if there is one.
    pub fn port(&self, number: u8) -> Option<&AdapterPort>
        ensures { option_copied result ≡ adapter_port self.now number }
    {
        if number == 0 {
            return None;
        }
        self.ports.get(number as usize - 1)
    }

    /// Answers an SMP that came in at the port of that number, as its agent does.
    fn agent(&mut self, number: u8, smp: &mut Mad) -> bool
        ensures replied { result ≡ is_some (option_and_then (λ port. agent_reply port smp.old) (adapter_port self.old number)) }
        ensures reply { smp.new ≡ unwrap_or (option_and_then (λ port. agent_reply port smp.old) (adapter_port self.old number)) smp.old }
        ensures held { self.new ≡ adapter_ports_after self.old number smp.old (adapter_port self.old number) }
        ensures kept { KeepsRest smp.old smp.new }
    {
        if number == 0 {
            return false;
        }
        match self.ports.get_mut(number as usize - 1) {
            Some(port) => port.agent(smp),
            None => false,
        }
    }
}

/// A node of a fabric, with what its agents hold.
#[derive(Debug, Drop)]
pub enum Node {
    /// A switch.
    Switch(BoxedSwitch),
    /// A channel adapter.
    Adapter(AdapterPorts),
}

impl Node {
    /// How many ports it has, port 0 of a switch not counted.
    pub fn port_count(&self) -> usize
        ensures { result ≡ port_count self.now }
    {
        match self {
            Node::Switch(switch) => switch.as_switch().port_count(),
            Node::Adapter(ports) => ports.ports.len(),
        }
    }

    /// Answers an SMP that came in at that port, in its place, or gives no reply and leaves it.
    #[tactic(auto, unfolding(crate::specs::FabricState::node_reply, crate::specs::FabricState::node_after))]
    pub fn agent(&mut self, number: u8, smp: &mut Mad) -> bool
        ensures replied { result ≡ is_some (node_reply self.old number smp.old) }
        ensures reply { smp.new ≡ unwrap_or (node_reply self.old number smp.old) smp.old }
        ensures held { self.new ≡ node_after self.old number smp.old }
        ensures kept { KeepsRest smp.old smp.new }
    {
        match self {
            Node::Switch(boxed) => boxed.switch.agent(number, smp),
            Node::Adapter(ports) => ports.agent(number, smp),
        }
    }
}
