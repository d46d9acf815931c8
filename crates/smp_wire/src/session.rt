//! Requests over a wire, each under the next TransactionID.

ghost use Rattle.std.specs.Prelude.{◌≡◌, ◌≤◌, ◌+◌, ◌%◌, ◌^◌, length, Some, Ok};
ghost use Rattle.std.specs.Result.{IsOk};
ghost use Rattle.std.specs.Option.{ForSome};
ghost use Rattle.smp_wire.specs.Get.{gives_along};
ghost use Rattle.smp_wire.specs.Good.{IsGood};
ghost use Rattle.smp_wire.specs.Replies.{reported_for};
ghost use Rattle.smp_wire.specs.FabricState.{FabricState};
ghost use Rattle.smp_wire.specs.Set.{set_along, set_gives_along, takes_along};
ghost use Rattle.smp_wire.specs.Shape.{IsSameShape};

use crate::asking::{get_attribute, set_attribute};
use crate::reply::ReplyFault;
use crate::wire::SmpWire;
use attr_tables::SmpAttribute;

/// A wire, and the requests that go over it, one after the other.
///
/// Each request has the next TransactionID, so that a late reply is distinguished from its own. By the clause `same_wire` of a
/// function the session holds the same wire afterwards, so what the function ensures of the session's wire is true of that one.
#[derive(Drop)]
pub struct Session<'w, W: SmpWire> {
    /// The wire.
    pub wire: &'w mut W,
    /// The TransactionID of the last request, 0 before the first.
    pub transaction_id: u64,
}

impl<'w, W: SmpWire> Session<'w, W> {
    /// A session over that wire, in which nothing was sent.
    pub fn new(wire: &'w mut W) -> Session<'w, W>
        ensures same_wire { result.wire.ghost_name ≡ wire.entry.ghost_name }
        ensures wire { result.wire.now ≡ wire.old }
        ensures none { result.transaction_id ≡ 0 }
    {
        Session {
            wire,
            transaction_id: 0,
        }
    }

    /// Does what [`get_attribute`] does, under the next TransactionID.
    pub fn get(
        &mut self,
        attribute: SmpAttribute,
        modifier: u32,
        path: &[u8],
    ) -> Result<[u8; 64], ReplyFault>
        requires { length path.now ≤ 63 }
        ensures reported { ForSome (W.fabric self.old.wire.now)
            (λ fabric. IsGood fabric → result ≡ reported_for (gives_along fabric path.now attribute modifier)) }
        ensures left { ForSome (W.fabric self.old.wire.now) (λ fabric. IsGood fabric → W.fabric self.new.wire.now ≡ Some fabric) }
        ensures same_wire { self.new.wire.ghost_name ≡ self.old.wire.ghost_name }
        ensures counted { self.new.transaction_id ≡ (self.old.transaction_id + 1) % 2 ^ 64 }
    {
        self.transaction_id = self.transaction_id.wrapping_add(1);
        get_attribute(
            &mut *self.wire,
            self.transaction_id,
            attribute,
            modifier,
            path,
        )
    }

    /// Does what [`set_attribute`] does, under the next TransactionID.
    pub fn set(
        &mut self,
        attribute: SmpAttribute,
        modifier: u32,
        path: &[u8],
        wanted: &[u8; 64],
    ) -> Result<[u8; 64], ReplyFault>
        requires { length path.now ≤ 63 }
        ensures reported { ForSome (W.fabric self.old.wire.now)
            (λ fabric. IsGood fabric → result ≡ reported_for (set_gives_along fabric path.now attribute modifier wanted.now)) }
        ensures left { ForSome (W.fabric self.old.wire.now)
            (λ fabric. IsGood fabric → W.fabric self.new.wire.now ≡ Some (set_along fabric path.now attribute modifier wanted.now)) }
        ensures taken { ForSome (W.fabric self.old.wire.now) (λ fabric. (next : FabricState) → IsGood fabric
            → takes_along fabric path.now attribute modifier wanted.now ≡ Some (Ok next) → IsOk result) }
        ensures good { (fabric : FabricState) → IsGood fabric → IsGood (set_along fabric path.now attribute modifier wanted.now) }
        ensures shape { (fabric : FabricState) → IsGood fabric → IsSameShape fabric (set_along fabric path.now attribute modifier wanted.now) }
        ensures same_wire { self.new.wire.ghost_name ≡ self.old.wire.ghost_name }
        ensures counted { self.new.transaction_id ≡ (self.old.transaction_id + 1) % 2 ^ 64 }
    {
        self.transaction_id = self.transaction_id.wrapping_add(1);
        set_attribute(
            &mut *self.wire,
            self.transaction_id,
            attribute,
            modifier,
            path,
            wanted,
        )
    }
}
