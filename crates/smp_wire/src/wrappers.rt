//! Wires round another wire.

ghost use Rattle.std.specs.Prelude.{◌≡◌, ◌≤◌, ◌+◌, ◌-◌, ◌^◌, min, Some, None};
ghost use Rattle.std.specs.Option.{ForSome};
ghost use Rattle.smp_wire.specs.Walk.{exchange_after, exchange_reply};

use crate::wire::SmpWire;
use mad_layout::Mad;

/// Counts exchanges and passes them on: it stands for the fabric of its inner wire.
#[derive(Drop)]
pub struct CountingWire<W: SmpWire + Drop> {
    /// The inner wire.
    pub wire: W,
    /// How many SMPs went over it, or the greatest number if they are more.
    pub count: u64,
}

impl<W: SmpWire + Drop> SmpWire for CountingWire<W> {
    ghost fabric = { λ counting. W.fabric counting.wire };

    fn exchange(&mut self, smp: &Mad) -> Option<Mad>
        ensures answer { ForSome (W.fabric self.old.wire) (λ state. result ≡ exchange_reply state smp.now) }
        ensures change { ForSome (W.fabric self.old.wire) (λ state. W.fabric self.new.wire ≡ Some (exchange_after state smp.now)) }
        ensures count { self.new.count ≡ min (self.old.count + 1) (2 ^ 64 - 1) }
    {
        self.count = self.count.saturating_add(1);
        self.wire.exchange(smp)
    }
}

/// Passes so many exchanges on, and is silent from then on: it stands for no fabric.
#[derive(Drop)]
pub struct SilencedWire<W: SmpWire + Drop> {
    /// The inner wire.
    pub wire: W,
    /// How many exchanges it passes on still.
    pub left: u64,
}

impl<W: SmpWire + Drop> SmpWire for SilencedWire<W> {
    ghost fabric = { λ _. None };

    fn exchange(&mut self, smp: &Mad) -> Option<Mad>
        ensures left { self.new.left ≡ self.old.left - 1 }
        ensures silent { self.old.left ≡ 0 → (result ≡ None) × (self.new ≡ self.old) }
        ensures answer { 1 ≤ self.old.left → ForSome (W.fabric self.old.wire) (λ state. result ≡ exchange_reply state smp.now) }
        ensures change { 1 ≤ self.old.left → ForSome (W.fabric self.old.wire)
            (λ state. W.fabric self.new.wire ≡ Some (exchange_after state smp.now)) }
    {
        if self.left == 0 {
            return None;
        }
        self.left -= 1;
        self.wire.exchange(smp)
    }
}
