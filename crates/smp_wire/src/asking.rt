//! Gets and Sets of one attribute, over any wire.

ghost use Rattle.std.specs.Prelude.{◌≡◌, ◌≤◌, length, Some, Ok};
ghost use Rattle.std.specs.Result.{IsOk};
ghost use Rattle.std.specs.Option.{ForSome};
ghost use Rattle.smp_wire.specs.Get.{gives_along};
ghost use Rattle.smp_wire.specs.Good.{IsGood};
ghost use Rattle.smp_wire.specs.Replies.{reported_for, reported_of};
ghost use Rattle.smp_wire.specs.FabricState.{FabricState};
ghost use Rattle.smp_wire.specs.Set.{set_along, set_gives_along, takes_along};
ghost use Rattle.smp_wire.specs.Shape.{IsSameShape};
ghost use Rattle.smp_wire.specs.Walk.{exchange_after};

use crate::reply::{ReplyFault, read_reply};
use crate::request::{get_request, set_request};
use crate::wire::SmpWire;
use attr_tables::SmpAttribute;
use mad_layout::Mad;

/// Gets that part of an attribute of the node at the end of a path: the ports by which its hops leave.
///
/// Over a wire that stands for a good fabric it is what the agent there gives: `NoReply` if there is no
/// walk or no agent, `Refused` if the agent refuses, and never `WrongReply`. The fabric is as it was.
pub fn get_attribute<W: SmpWire>(
    wire: &mut W,
    transaction_id: u64,
    attribute: SmpAttribute,
    modifier: u32,
    path: &[u8],
) -> Result<[u8; 64], ReplyFault>
    requires { length path.now ≤ 63 }
    ensures reported { ForSome (W.fabric wire.old)
        (λ fabric. IsGood fabric → result ≡ reported_for (gives_along fabric path.now attribute modifier)) }
    ensures left { ForSome (W.fabric wire.old) (λ fabric. IsGood fabric → W.fabric wire.new ≡ Some fabric) }
{
    let request = get_request(transaction_id, attribute, modifier, path);
    ask(wire, &request)
}

/// Sets that part of an attribute of the node at the end of a path to these 64 bytes, and gives what the
/// node has there then.
///
/// Over a wire that stands for a good fabric the fabric changes by what the agent there takes, and by
/// nothing else; it is reported what a Get of the same would report then. `NoReply` if there is no walk or no
/// agent, and `Refused` if the agent refuses, leave the fabric as it was; `WrongReply` never comes.
/// The fabric stays good and keeps its shape.
pub fn set_attribute<W: SmpWire>(
    wire: &mut W,
    transaction_id: u64,
    attribute: SmpAttribute,
    modifier: u32,
    path: &[u8],
    wanted: &[u8; 64],
) -> Result<[u8; 64], ReplyFault>
    requires { length path.now ≤ 63 }
    ensures reported { ForSome (W.fabric wire.old)
        (λ fabric. IsGood fabric → result ≡ reported_for (set_gives_along fabric path.now attribute modifier wanted.now)) }
    ensures left { ForSome (W.fabric wire.old)
        (λ fabric. IsGood fabric → W.fabric wire.new ≡ Some (set_along fabric path.now attribute modifier wanted.now)) }
    ensures taken { ForSome (W.fabric wire.old) (λ fabric. (next : FabricState) → IsGood fabric
        → takes_along fabric path.now attribute modifier wanted.now ≡ Some (Ok next) → IsOk result) }
    ensures good { (fabric : FabricState) → IsGood fabric → IsGood (set_along fabric path.now attribute modifier wanted.now) }
    ensures shape { (fabric : FabricState) → IsGood fabric → IsSameShape fabric (set_along fabric path.now attribute modifier wanted.now) }
{
    let request = set_request(transaction_id, attribute, modifier, path, wanted);
    ask(wire, &request)
}

/// Sends a request, and reads the reply.
fn ask<W: SmpWire>(wire: &mut W, smp: &Mad) -> Result<[u8; 64], ReplyFault>
    ensures reported { ForSome (W.fabric wire.old) (λ fabric. result ≡ reported_of fabric smp.now) }
    ensures change { ForSome (W.fabric wire.old) (λ fabric. W.fabric wire.new ≡ Some (exchange_after fabric smp.now)) }
{
    match wire.exchange(smp) {
        Some(reply) => read_reply(smp, &reply),
        None => Err(ReplyFault::NoReply),
    }
}
