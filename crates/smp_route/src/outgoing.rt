//! An SMP on its way from the subnet manager.

ghost use Rattle.std.specs.Prelude.{◌≡◌, ◌≤◌};
ghost use Rattle.fabric_parts.specs.declared.node_type.NodeType.TheVariants.{Switch};
ghost use Rattle.smp_route.specs.HopFields.{pointer, count};
ghost use Rattle.smp_route.specs.Hops.{noted, outgoing, sent, came_in, handed_on};

use crate::fields::{
    MAX_HOPS, count_of, initial_port_of, pointer_of, set_pointer, set_return_port,
};
use crate::hop::Hop;
use fabric_parts::NodeType;
use mad_layout::Mad;

/// Takes an outgoing SMP that came to a node of this type by `in_port`, 0 for the node itself, and answers
/// where it goes. A switch, and the node at the end of the path, writes `in_port` into the return path;
/// the hop pointer moves one on. A discarded SMP stays as it came.
///
/// Source: IBA volume 1, chapter 14.
pub fn outward(node_type: NodeType, in_port: u8, smp: &mut Mad) -> Hop
    ensures hop { result ≡ (outgoing node_type in_port smp.old).hop }
    ensures smp { smp.new ≡ (outgoing node_type in_port smp.old).smp }
{
    let count = count_of(smp);
    let pointer = pointer_of(smp);
    if count > MAX_HOPS || count < pointer {
        return Hop::Discard;
    }
    if in_port != 0 {
        return came_in(node_type, in_port, smp);
    }
    if pointer != 0 {
        return Hop::Discard;
    }
    sent(smp)
}

/// From the subnet manager.
fn sent(smp: &mut Mad) -> Hop
    requires pointer { pointer smp.old ≡ 0 }
    ensures hop { result ≡ (sent smp.old).hop }
    ensures smp { smp.new ≡ (sent smp.old).smp }
{
    if count_of(smp) == 0 {
        set_pointer(smp, 1);
        return Hop::ToAgent;
    }
    let port = initial_port_of(smp, 1);
    if port == 0 {
        return Hop::Discard;
    }
    set_pointer(smp, 1);
    Hop::Forward(port)
}

/// From another node.
fn came_in(node_type: NodeType, in_port: u8, smp: &mut Mad) -> Hop
    requires count { count smp.old ≤ 63 }
    requires pointer { pointer smp.old ≤ count smp.old }
    ensures hop { result ≡ (came_in node_type in_port smp.old).hop }
    ensures smp { smp.new ≡ (came_in node_type in_port smp.old).smp }
{
    let pointer = pointer_of(smp);
    if pointer == 0 {
        return Hop::Discard;
    }
    if pointer == count_of(smp) {
        note(in_port, smp);
        return Hop::ToAgent;
    }
    match node_type {
        NodeType::ChannelAdapter => Hop::Discard,
        NodeType::Switch => handed_on(in_port, smp),
    }
}

/// By a switch between the ends of the path.
fn handed_on(in_port: u8, smp: &mut Mad) -> Hop
    requires { pointer smp.old ≤ 62 }
    ensures hop { result ≡ (handed_on Switch in_port smp.old).hop }
    ensures smp { smp.new ≡ (handed_on Switch in_port smp.old).smp }
{
    let port = initial_port_of(smp, pointer_of(smp) + 1);
    if port == 0 {
        return Hop::Discard;
    }
    note(in_port, smp);
    Hop::Forward(port)
}

/// Writes the port by which the SMP came in, and moves its pointer on.
fn note(in_port: u8, smp: &mut Mad)
    requires { pointer smp.old ≤ 63 }
    ensures { smp.new ≡ noted in_port smp.old }
{
    let pointer = pointer_of(smp);
    set_return_port(smp, pointer, in_port);
    set_pointer(smp, pointer + 1);
}
