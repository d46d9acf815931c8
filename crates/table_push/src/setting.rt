//! One Set, and what its reply means.

ghost use Rattle.std.specs.Prelude.{◌≡◌, ◌≤◌, ◌+◌, ◌%◌, ◌^◌, length};
ghost use Rattle.std.specs.Option.{ForSome};
ghost use Rattle.attr_tables.specs.declared.smp_attribute.SmpAttribute.TheVariants as attribute;
ghost use Rattle.table_push.specs.Fault.{all_taken};
ghost use Rattle.table_push.specs.Steps.{TakesAndGives};

use crate::fault::{PushFault, Taken, fault_of, meaning, taken_after_refusal, taken_of};
use attr_tables::SmpAttribute;
use smp_wire::{ReplyFault, Session, SmpWire};

/// Sets that part of an attribute of the node at the end of a path to these bytes, under the next TransactionID.
///
/// If the agent there takes them, and then has what is compared, it is done and the fabric is the one that it leaves.
pub(crate) fn set<W: SmpWire>(
    session: &mut Session<'_, W>,
    attribute: SmpAttribute,
    modifier: u32,
    path: &[u8],
    wanted: &[u8; 64],
) -> Result<(), PushFault>
    requires { length path.now ≤ 63 }
    ensures left { ForSome (W.fabric session.old.wire.now)
        (λ fabric. TakesAndGives fabric (W.fabric session.new.wire.now) path.now attribute modifier wanted.now result) }
    ensures same_wire { session.new.wire.ghost_name ≡ session.old.wire.ghost_name }
    ensures counted { session.new.transaction_id ≡ (session.old.transaction_id + 1) % 2 ^ 64 }
{
    let reported = session.set(attribute, modifier, path, wanted);
    meaning(attribute, wanted, reported)
}

/// Sets PortInfo of a port of the node at the end of a path to these bytes, and returns what the port takes. If the agent
/// there refuses, it is asked what the port has: that may be what was set. Each SMP has the next TransactionID.
///
/// If the agent takes them, and then has what is compared, the port takes all and the fabric is the one that it leaves.
pub(crate) fn set_port_info<W: SmpWire>(
    session: &mut Session<'_, W>,
    modifier: u32,
    path: &[u8],
    wanted: &[u8; 64],
) -> Result<Taken, PushFault>
    requires { length path.now ≤ 63 }
    ensures left { ForSome (W.fabric session.old.wire.now)
        (λ fabric. TakesAndGives fabric (W.fabric session.new.wire.now) path.now attribute.PortInfo modifier wanted.now (all_taken result)) }
    ensures same_wire { session.new.wire.ghost_name ≡ session.old.wire.ghost_name }
{
    let asked = SmpAttribute::PortInfo;
    match session.set(asked, modifier, path, wanted) {
        Ok(reported) => taken_of(wanted, &reported),
        Err(ReplyFault::Refused) => {
            let held = session.get(asked, modifier, path);
            taken_after_refusal(wanted, held)
        }
        Err(fault) => Err(fault_of(fault)),
    }
}
