//! SMPs hop by hop, over the hop rules of single nodes.

ghost use Rattle.std.specs.Prelude.{◌≡◌, ◌+◌, ◌≤◌, true, option_map};
ghost use Rattle.std.specs.List.{list_all};
ghost use Rattle.smp_route.specs.HopFields.{count, pointer, with_pointer};
ghost use Rattle.smp_wire.specs.Good.{is_right};
ghost use Rattle.fabric_wire.specs.Hopping.{leads_home, node_type_at};
ghost use Rattle.smp_wire.specs.Walk.{arrival_of, is_sent, path_of, walk};

use crate::cabling::Cabling;
use fabric_parts::{NodeType, PortRef};
use mad_layout::Mad;
use smp_route::{Hop, MAX_HOPS, back, outward};
use smp_wire::{Arrival, Node, is_switch_at};

/// How many nodes the longest path goes through, both of its ends counted.
const NODES_ON_A_PATH: u8 = MAX_HOPS + 1;

/// What the node there is to the hop rules.
fn node_type_at(nodes: &[Node], place: usize) -> NodeType
    ensures { result ≡ node_type_at nodes.now place }
{
    if is_switch_at(nodes, place) {
        NodeType::Switch
    } else {
        NodeType::ChannelAdapter
    }
}

/// Takes an SMP from the SM port along its path, to the agent at its end.
pub fn go_out(nodes: &[Node], cabling: &Cabling, manager: PortRef, sent: &Mad) -> Option<Arrival>
    requires cables { list_all (is_right nodes.now) cabling.now.cables ≡ true }
    requires sent { is_sent sent.now ≡ true }
    ensures { result ≡ option_map (arrival_of manager sent.now) (walk nodes.now cabling.now.cables true manager (path_of sent.now)) }
{
    let mut at = manager;
    // The node itself, and from the first hop on the port by which the SMP comes in.
    let mut entered = 0;
    let mut smp = *sent;
    for _hops in 0..NODES_ON_A_PATH {
        let out = match outward(node_type_at(nodes, at.node), entered, &mut smp) {
            Hop::Forward(port) => PortRef {
                node: at.node,
                port,
            },
            Hop::ToAgent => return Some(Arrival { at, smp }),
            Hop::ToManager | Hop::Discard => return None,
        };
        let Some(there) = cabling.far_end(out) else {
            return None;
        };
        entered = there.port;
        at = there;
    }
    None
}

/// Takes a reply from the agent at that port back, by the ports by which its request came in. Answers
/// whether it came to the subnet manager's node.
pub fn come_home(
    nodes: &[Node],
    cabling: &Cabling,
    manager: PortRef,
    agent: PortRef,
    smp: &mut Mad,
) -> bool
    requires cables { list_all (is_right nodes.now) cabling.now.cables ≡ true }
    requires count { count smp.old ≤ 63 }
    requires pointer { pointer smp.old ≡ count smp.old + 1 }
    ensures home { result ≡ leads_home nodes.now cabling.now.cables manager.node smp.old (count smp.old) agent.node }
    ensures smp { result ≡ true → smp.new ≡ with_pointer 0 smp.old }
{
    let mut at = agent;
    let mut came_by = 0;
    for _hops in 0..NODES_ON_A_PATH {
        let out = match back(node_type_at(nodes, at.node), came_by, smp) {
            Hop::Forward(port) => PortRef {
                node: at.node,
                port,
            },
            Hop::ToManager => return at.node == manager.node,
            Hop::ToAgent | Hop::Discard => return false,
        };
        let Some(there) = cabling.far_end(out) else {
            return false;
        };
        came_by = there.port;
        at = there;
    }
    false
}
