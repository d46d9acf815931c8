//! A wire that walks: what all wires that stand for a fabric do, in the fewest words.

ghost use Rattle.std.specs.Prelude.{◌≡◌, Some};
ghost use Rattle.smp_wire.specs.FabricState.{fabric_with};

use crate::node::Node;
use crate::walking::{agent_at, arrive, is_sent, put_returned};
use crate::wire::SmpWire;
use fabric_parts::{Cable, PortRef};
use mad_layout::Mad;
use std::marker::Model;

/// A fabric in lists, whose wire follows the definition: it looks for the other end of a cable among all
/// cables, and goes along the path without a hop rule.
#[derive(Debug, Drop)]
pub struct PlainWire {
    nodes: Vec<Node>,
    cables: Vec<Cable>,
    manager: PortRef,
}

impl Model for PlainWire {
    ghost use Rattle.std.specs.Prelude.{[]};
    ghost use Rattle.smp_wire.specs.FabricState.{FabricState};

    ghost Value = { FabricState };

    ghost view = { λ wire. record {
      nodes = wire.nodes.items;
      cables = wire.cables.items;
      cut = [];
      manager = wire.manager;
    } };
}

impl PlainWire {
    /// The wire of a fabric with these nodes and cables, none of which is cut, and the subnet manager at that port.
    pub fn new(nodes: Vec<Node>, cables: Vec<Cable>, manager: PortRef) -> PlainWire
        ensures { result ≡ fabric_with nodes.items cables.items manager }
    {
        PlainWire {
            nodes,
            cables,
            manager,
        }
    }
}

impl SmpWire for PlainWire {
    ghost fabric = { λ wire. Some wire };

    #[tactic(auto, unfolding(crate::specs::Walk::exchange_reply, crate::specs::Walk::exchange_after))]
    fn exchange(&mut self, smp: &Mad) -> Option<Mad> {
        if !is_sent(smp) {
            return None;
        }
        let arrival = arrive(&self.nodes, &self.cables, self.manager, smp)?;
        let mut smp = arrival.smp;
        if !agent_at(&mut self.nodes, arrival.at, &mut smp) {
            return None;
        }
        put_returned(&mut smp);
        Some(smp)
    }
}
