//! What is asked of one port of a fabric, along a path.

ghost use Rattle.std.specs.Prelude.{◌≡◌, ◌+◌, ◌%◌, ◌^◌, true, Some, Ok};
ghost use Rattle.std.specs.Option.{ForSome, ok_or, option_and_then};
ghost use Rattle.fabric_parts.specs.declared.cable.PortRef.{PortRef};
ghost use Rattle.fabric_parts.specs.Cable.{is_cabled, port};
ghost use Rattle.smp_wire.specs.FabricState.{is_port, is_switch_at};
ghost use Rattle.smp_wire.specs.Get.{gives_along};
ghost use Rattle.smp_wire.specs.Good.{IsGood, ShowsLinks};
ghost use Rattle.smp_wire.specs.Replies.{reported_for};
ghost use Rattle.smp_wire.specs.Walk.{end_of};
ghost use Rattle.sweep.specs.Fault.{heard};
ghost use Rattle.sweep.specs.Seen.{name_at, seen_at};
ghost use Rattle.sweep.specs.declared.fault.SweepFault.TheVariants.{NoReply};

use crate::fault::{SweepFault, fault_of};
use crate::path::Path;
use crate::seen::{Seen, seen_of};
use attr_tables::{NodeDescription, NodeInfo, PortInfo, PortState, SmpAttribute};
use smp_wire::{Session, SmpWire};

/// Gets that part of an attribute, under the next TransactionID.
fn get<W: SmpWire>(
    session: &mut Session<'_, W>,
    attribute: SmpAttribute,
    modifier: u32,
    path: &Path,
) -> Result<[u8; 64], SweepFault>
    ensures reported { ForSome (W.fabric session.old.wire.now) (λ fabric. IsGood fabric
        → result ≡ heard (reported_for (gives_along fabric path.now attribute modifier))) }
    ensures left { ForSome (W.fabric session.old.wire.now) (λ fabric. IsGood fabric → W.fabric session.new.wire.now ≡ Some fabric) }
    ensures same_wire { session.new.wire.ghost_name ≡ session.old.wire.ghost_name }
    ensures counted { session.new.transaction_id ≡ (session.old.transaction_id + 1) % 2 ^ 64 }
{
    match session.get(attribute, modifier, path.as_slice()) {
        Ok(bytes) => Ok(bytes),
        Err(fault) => Err(fault_of(fault)),
    }
}

/// What is seen of the node at the end of a path, and of the port there.
///
/// Over a wire that stands for a good fabric it is what stands there, or `NoReply` if the path ends nowhere.
pub(crate) fn look<W: SmpWire>(
    session: &mut Session<'_, W>,
    path: &Path,
) -> Result<Seen, SweepFault>
    ensures reported { ForSome (W.fabric session.old.wire.now) (λ fabric. IsGood fabric
        → result ≡ ok_or (option_and_then (seen_at fabric) (end_of fabric path.now)) NoReply) }
    ensures left { ForSome (W.fabric session.old.wire.now) (λ fabric. IsGood fabric → W.fabric session.new.wire.now ≡ Some fabric) }
    ensures same_wire { session.new.wire.ghost_name ≡ session.old.wire.ghost_name }
{
    match get(session, SmpAttribute::NodeInfo, 0, path) {
        Ok(bytes) => seen_of(&NodeInfo::read(&bytes)),
        Err(fault) => Err(fault),
    }
}

/// The name of the node at the end of a path.
///
/// Over a wire that stands for a good fabric it is the node's, or `NoReply` if the path ends nowhere.
pub(crate) fn name_of<W: SmpWire>(
    session: &mut Session<'_, W>,
    path: &Path,
) -> Result<[u8; 64], SweepFault>
    ensures reported { ForSome (W.fabric session.old.wire.now) (λ fabric. IsGood fabric
        → result ≡ ok_or (option_and_then (name_at fabric) (end_of fabric path.now)) NoReply) }
    ensures left { ForSome (W.fabric session.old.wire.now) (λ fabric. IsGood fabric → W.fabric session.new.wire.now ≡ Some fabric) }
    ensures same_wire { session.new.wire.ghost_name ≡ session.old.wire.ghost_name }
{
    match get(session, SmpAttribute::NodeDescription, 0, path) {
        Ok(bytes) => Ok(NodeDescription::read(&bytes).node_string),
        Err(fault) => Err(fault),
    }
}

/// Whether that port of the switch at the end of a path has a cable: whether its link is not Down.
///
/// Over a wire that stands for a good fabric whose links show, it is so if and only if there is a cable.
pub(crate) fn has_link<W: SmpWire>(
    session: &mut Session<'_, W>,
    path: &Path,
    number: u8,
) -> Result<bool, SweepFault>
    ensures reported { ForSome (W.fabric session.old.wire.now) (λ fabric. (at : PortRef) → IsGood fabric → ShowsLinks fabric
        → end_of fabric path.now ≡ Some at → is_switch_at fabric.nodes at.node ≡ true
        → is_port fabric.nodes (port at.node number) ≡ true → result ≡ Ok (is_cabled fabric.cables (port at.node number))) }
    ensures left { ForSome (W.fabric session.old.wire.now) (λ fabric. IsGood fabric → W.fabric session.new.wire.now ≡ Some fabric) }
    ensures same_wire { session.new.wire.ghost_name ≡ session.old.wire.ghost_name }
{
    match get(session, SmpAttribute::PortInfo, number as u32, path) {
        Ok(bytes) => Ok(PortInfo::read(&bytes).port_state != PortState::Down.code()),
        Err(fault) => Err(fault),
    }
}
