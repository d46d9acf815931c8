//! The walk of an SMP, followed as a list of ports.

ghost use Rattle.std.specs.Prelude.{◌≡◌, ◌≤◌, true, option_map, is_some, unwrap_or, slice_get};
ghost use Rattle.std.specs.Option.{option_and_then};
ghost use Rattle.agent_rules.specs.Request.{KeepsRest};
ghost use Rattle.smp_route.specs.HopFields.{count};
ghost use Rattle.smp_wire.specs.FabricState.{is_port, is_switch, is_switch_at, node_reply, nodes_after};
ghost use Rattle.smp_wire.specs.Walk.{arrival_of, hop, is_sent, path_of, returned, walk};

use crate::node::Node;
use fabric_parts::{Cable, PortRef, far_end};
use mad_layout::Mad;
use smp_route::{
    MAX_HOPS, count_of, initial_port_of, is_outgoing, pointer_of, set_pointer, set_return_port,
    turn_round,
};

/// Whether a switch stands at that place.
pub fn is_switch_at(nodes: &[Node], place: usize) -> bool
    ensures { result ≡ is_switch_at nodes.now place }
{
    match nodes.get(place) {
        Some(Node::Switch(_)) => true,
        Some(Node::Adapter(_)) | None => false,
    }
}

/// Whether the node has that port, and it is not port 0.
fn is_port(nodes: &[Node], at: PortRef) -> bool
    ensures { result ≡ is_port nodes.now at }
{
    match nodes.get(at.node) {
        Some(node) => 1 <= at.port && at.port as usize <= node.port_count(),
        None => false,
    }
}

/// One hop, out of the port of that number.
#[tactic(auto, unfolding(crate::specs::Walk::hop))]
fn hop(nodes: &[Node], cables: &[Cable], starts: bool, here: PortRef, number: u8) -> Option<PortRef>
    ensures { result ≡ hop nodes.now cables.now starts here number }
{
    let out = PortRef {
        node: here.node,
        port: number,
    };
    if (starts || is_switch_at(nodes, here.node)) && is_port(nodes, out) {
        return far_end(cables, out);
    }
    None
}

/// Where the walk of an SMP ends, and what the SMP is there.
#[derive(Clone, Copy)]
pub struct Arrival {
    /// The port by which it came in.
    pub at: PortRef,
    /// The SMP as the agent there gets it.
    pub smp: Mad,
}

/// Follows the path of an SMP from the SM port.
pub fn arrive(nodes: &[Node], cables: &[Cable], manager: PortRef, sent: &Mad) -> Option<Arrival>
    requires { count sent.now ≤ 63 }
    ensures { result ≡ option_map (arrival_of manager sent.now) (walk nodes.now cables.now true manager (path_of sent.now)) }
{
    let count = count_of(sent);
    let mut at = manager;
    let mut smp = *sent;
    for done in 0..count {
        let number = initial_port_of(sent, done + 1);
        let Some(there) = hop(nodes, cables, done == 0, at, number) else {
            return None;
        };
        at = there;
        set_return_port(&mut smp, done + 1, at.port);
    }
    set_pointer(&mut smp, count + 1);
    Some(Arrival { at, smp })
}

/// Whether the SMP is at the beginning of its way out.
pub fn is_sent(smp: &Mad) -> bool
    ensures { result ≡ is_sent smp.now }
{
    is_outgoing(smp) && pointer_of(smp) == 0 && count_of(smp) <= MAX_HOPS
}

/// Turns a reply into what the subnet manager gets.
pub fn put_returned(smp: &mut Mad)
    ensures { smp.new ≡ returned smp.old }
{
    turn_round(smp);
    set_pointer(smp, 0);
}

/// Answers an SMP that came in at that port of the fabric, as the agent there does.
pub fn agent_at(nodes: &mut [Node], at: PortRef, smp: &mut Mad) -> bool
    ensures replied { result ≡ is_some (option_and_then (λ node. node_reply node at.port smp.old) (slice_get nodes.old at.node)) }
    ensures reply { smp.new ≡ unwrap_or (option_and_then (λ node. node_reply node at.port smp.old) (slice_get nodes.old at.node)) smp.old }
    ensures held { nodes.new ≡ nodes_after nodes.old at smp.old (slice_get nodes.old at.node) }
    ensures kept { KeepsRest smp.old smp.new }
{
    if at.node >= nodes.len() {
        return false;
    }
    nodes[at.node].agent(at.port, smp)
}
