//! A packet, followed wherever it goes.

ghost use Rattle.std.specs.Prelude.{◌≡◌, IfOk};
ghost use Rattle.packet_trace.specs.Steps.{steps_of};

use crate::spread::Spread;
use crate::trace::way;
use crate::turn::Step;
use data_packet::Packet;
use fabric_parts::{PortRef, is_multicast};
use fabric_wire::Fabric;
use std::alloc::{AllocError, Global};

/// What becomes of a packet that comes in at that port, there and at each port to which it goes on from there. It can only
/// run out of memory.
pub fn steps(
    alloc: Global,
    fabric: &Fabric,
    packet: &Packet,
    first: PortRef,
) -> Result<Vec<Step>, AllocError>
    ensures { IfOk result (λ steps. steps.items ≡ steps_of fabric.now packet.now first) }
{
    if is_multicast(packet.dlid) {
        Ok(Spread::of(alloc, fabric, packet, first)?.into_steps())
    } else {
        way(alloc, fabric, packet, first)
    }
}
