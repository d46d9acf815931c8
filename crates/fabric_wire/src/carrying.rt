//! Unicast packets on their way from node to node, by what switches hold.

ghost use Rattle.std.specs.Prelude.{◌≡◌, false, IfSome, None};
ghost use Rattle.fabric_parts.specs.Lid.{is_multicast};
ghost use Rattle.fabric_parts.specs.declared.cable.PortRef.{PortRef};
ghost use Rattle.port_model.specs.AdapterState.{AdapterState};
ghost use Rattle.smp_wire.specs.Deliveries.{IsDelivered};
ghost use Rattle.smp_wire.specs.Unicast.{IsEnd, next_port};

use crate::adapter_ports::adapter_at;
use crate::cabling::Cabling;
use data_packet::Packet;
use fabric_parts::PortRef;
use port_model::AdapterPort;
use smp_wire::Node;

/// Where a unicast packet that came in here comes in next, if it goes on.
fn next_port(nodes: &[Node], cabling: &Cabling, packet: &Packet, here: PortRef) -> Option<PortRef>
    ensures { result ≡ next_port nodes.now cabling.now.cables packet.now here }
{
    let out = match nodes.get(here.node) {
        Some(Node::Switch(switch)) => switch.as_switch().unicast_out(here.port, packet),
        Some(Node::Adapter(_)) | None => None,
    };
    cabling.far_end(PortRef {
        node: here.node,
        port: out?,
    })
}

/// Where the way of a unicast packet that came in here ends, unless it goes in a cycle. A packet that comes in
/// at a port for a second time goes in a cycle, and every port that it comes in at is an end of a cable.
pub(crate) fn end_of_way(
    nodes: &[Node],
    cabling: &Cabling,
    packet: &Packet,
    first: PortRef,
) -> Option<PortRef>
    requires unicast { is_multicast packet.now.dlid ≡ false }
    ensures some { IfSome result (λ last. IsEnd nodes.now cabling.now.cables packet.now first last) }
    ensures none { result ≡ None → (last : PortRef) → IsEnd nodes.now cabling.now.cables packet.now first last → ⊥ }
{
    let mut here = first;
    for _hops in 0..cabling.count_ends() + 1 {
        match next_port(nodes, cabling, packet, here) {
            Some(next) => here = next,
            None => return Some(here),
        }
    }
    None
}

/// The port that gets a unicast packet which leaves by the port at `from`, if one does.
pub(crate) fn receiver<'a>(
    nodes: &'a [Node],
    cabling: &Cabling,
    packet: &Packet,
    from: PortRef,
) -> Option<&'a AdapterPort>
    requires unicast { is_multicast packet.now.dlid ≡ false }
    ensures some { IfSome result (λ port. (at : PortRef) × IsDelivered nodes.now cabling.now.cables from packet.now at port.now) }
    ensures none { result ≡ None → (at : PortRef) (port : AdapterState) → IsDelivered nodes.now cabling.now.cables from packet.now at port → ⊥ }
{
    let first = cabling.far_end(from)?;
    let last = end_of_way(nodes, cabling, packet, first)?;
    let port = adapter_at(nodes, last)?;
    if port.accept(packet) {
        Some(port)
    } else {
        None
    }
}
