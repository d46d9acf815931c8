//! A packet to a multicast LID, on every path that MFT entries of switches open.

ghost use Rattle.std.specs.Prelude.{◌≡◌, ◌+◌, [], ◌∷◌, IfOk, OnOk};
ghost use Rattle.std.specs.Option.{option_map_or};
ghost use Rattle.packet_trace.specs.Spread.{at_port, at_switch, ends_by, has_out_below, is_out, outs_below, spread_of, turn_out, with_out};
ghost use Rattle.packet_trace.specs.Trace.{turn_by};
ghost use Rattle.smp_wire.specs.FabricState.{adapter_port};
ghost use Rattle.switch_model.specs.SwitchState.{num_ports};

use crate::trace::{next_after, turn_by};
use crate::turn::{Step, Turn};
use data_packet::Packet;
use fabric_parts::PortRef;
use fabric_wire::{AdapterPorts, Fabric, Node};
use indexmap::IndexSet;
use std::alloc::{AllocError, Global};
use std::marker::Model;
use switch_model::{Switch, passes_inbound, passes_outbound};

/// The ports where a packet comes in, in the order in which they are found, and its steps so far.
///
/// The ports are also the list of those from which the packet goes on: so a trace ends where masks lead in cycles, and comes
/// to each port once where ways meet.
#[derive(Drop)]
pub(crate) struct Spread {
    known: IndexSet<PortRef>,
    steps: Vec<Step>,
}

impl Model for Spread {
    ghost use Rattle.packet_trace.specs.Spread.{SpreadState};

    ghost Value = { SpreadState };

    ghost view = { λ spread. record { known = spread.known.keys; steps = spread.steps.items } };
}

impl Spread {
    /// Of a packet to a multicast LID that comes in first at that port. It can only run out of memory.
    pub(crate) fn of(
        alloc: Global,
        fabric: &Fabric,
        packet: &Packet,
        first: PortRef,
    ) -> Result<Spread, AllocError>
        ensures { IfOk result (λ spread. spread ≡ spread_of fabric.now packet.now first) }
    {
        let mut spread = Spread::at(alloc, first)?;
        for place in 0..fabric.cable_ends() + 1 {
            let Some(here) = spread.known.get_index(place).copied() else {
                return Ok(spread);
            };
            spread.come_in(fabric, packet, here)?;
        }
        Ok(spread)
    }

    /// Its steps.
    pub(crate) fn into_steps(self) -> Vec<Step>
        ensures { result.items ≡ self.steps }
    {
        self.steps
    }

    fn at(alloc: Global, first: PortRef) -> Result<Spread, AllocError>
        ensures { IfOk result (λ spread. spread ≡ record { known = first ∷ []; steps = [] }) }
    {
        let mut known = IndexSet::new(alloc);
        known.insert(first)?;
        Ok(Spread {
            known,
            steps: Vec::new(alloc),
        })
    }

    /// What becomes of it at a port where it comes in.
    #[tactic(auto, unfolding(crate::specs::Spread::at_port))]
    fn come_in(&mut self, fabric: &Fabric, packet: &Packet, here: PortRef) -> Result<(), AllocError>
        ensures { OnOk result (self.new ≡ at_port fabric.now packet.now here self.old) }
    {
        match fabric.nodes().get(here.node) {
            Some(Node::Switch(switch)) => self.come_to_switch(
                fabric,
                switch.as_switch(),
                packet,
                here,
            ),
            Some(Node::Adapter(ports)) => self.end(turn_at_adapter(ports, packet, here), here),
            None => self.end(Turn::DropsKey, here),
        }
    }

    fn come_to_switch<const LFT: usize, const MFT: usize>(
        &mut self,
        fabric: &Fabric,
        switch: &Switch<LFT, MFT>,
        packet: &Packet,
        here: PortRef,
    ) -> Result<(), AllocError>
        ensures { OnOk result (self.new ≡ at_switch fabric.now.cables packet.now here self.old switch.now) }
    {
        if !passes_inbound(here.port, packet.p_key, switch.ports()) {
            self.end(Turn::DropsInbound, here)
        } else if has_out(switch, packet, here.port) {
            self.go_on(fabric, switch, packet, here)
        } else {
            self.end(Turn::DropsMask, here)
        }
    }

    /// Out of each port that is in the masks of its LID, by rising number.
    fn go_on<const LFT: usize, const MFT: usize>(
        &mut self,
        fabric: &Fabric,
        switch: &Switch<LFT, MFT>,
        packet: &Packet,
        here: PortRef,
    ) -> Result<(), AllocError>
        ensures { OnOk result (self.new ≡ outs_below (num_ports switch.now + 1) fabric.now.cables switch.now packet.now here self.old) }
    {
        for number in 0..switch.port_count() + 1 {
            let number = number as u8;
            if is_out(switch, packet, here.port, number) {
                self.go_out(fabric, switch, packet, here, number)?;
            }
        }
        Ok(())
    }

    /// Out of that port.
    fn go_out<const LFT: usize, const MFT: usize>(
        &mut self,
        fabric: &Fabric,
        switch: &Switch<LFT, MFT>,
        packet: &Packet,
        here: PortRef,
        out: u8,
    ) -> Result<(), AllocError>
        ensures { OnOk result (self.new ≡ with_out fabric.now.cables switch.now packet.now here out self.old) }
    {
        let far = fabric.far_end(PortRef {
            node: here.node,
            port: out,
        });
        let turn = turn_out(switch, packet, &self.known, out, far);
        self.steps.push(Step { at: here, turn })?;
        if let Some(next) = next_after(fabric, here, turn) {
            self.known.insert(next)?;
        }
        Ok(())
    }

    /// There it ends.
    fn end(&mut self, turn: Turn, here: PortRef) -> Result<(), AllocError>
        ensures { OnOk result (self.new ≡ ends_by turn here self.old) }
    {
        self.steps.push(Step { at: here, turn })?;
        Ok(())
    }
}

fn turn_at_adapter(ports: &AdapterPorts, packet: &Packet, here: PortRef) -> Turn
    ensures { result ≡ option_map_or (turn_by packet.now) (adapter_port ports.now here.port) Turn.DropsKey }
{
    match ports.port(here.port) {
        Some(port) => turn_by(port, packet),
        None => Turn::DropsKey,
    }
}

/// Whether the bit of another port than the one where it came in is set in the masks of its LID.
fn has_out<const LFT: usize, const MFT: usize>(
    switch: &Switch<LFT, MFT>,
    packet: &Packet,
    in_port: u8,
) -> bool
    ensures { result ≡ has_out_below (num_ports switch.now + 1) switch.now in_port packet.now }
{
    let mut found = false;
    for number in 0..switch.port_count() + 1 {
        found = found || is_out(switch, packet, in_port, number as u8);
    }
    found
}

/// Whether the bit of that port is set in the masks of its LID, and it did not come in there.
fn is_out<const LFT: usize, const MFT: usize>(
    switch: &Switch<LFT, MFT>,
    packet: &Packet,
    in_port: u8,
    out: u8,
) -> bool
    ensures { result ≡ is_out switch.now in_port packet.now out }
{
    switch.is_in_masks(packet.dlid, out) && out != in_port
}

/// What becomes of the copy for a port whose cable leads there, where the packet comes in at these ports.
fn turn_out<const LFT: usize, const MFT: usize>(
    switch: &Switch<LFT, MFT>,
    packet: &Packet,
    known: &IndexSet<PortRef>,
    out: u8,
    far: Option<PortRef>,
) -> Turn
    ensures { result ≡ turn_out switch.now packet.now known.now.keys out far }
{
    let passes = passes_outbound(out, packet.p_key, switch.ports());
    match far {
        None => {
            if out == 0 {
                Turn::Takes
            } else if !passes {
                Turn::DropsOutbound(out)
            } else {
                Turn::NoCable(out)
            }
        }
        Some(there) => {
            if !passes {
                Turn::DropsOutbound(out)
            } else if known.contains(&there) {
                Turn::Meets(out)
            } else {
                Turn::GoesOut(out)
            }
        }
    }
}
