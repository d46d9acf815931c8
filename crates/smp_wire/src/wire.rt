//! What a wire is.

ghost use Rattle.std.specs.Prelude.{◌≡◌, Option, Some};
ghost use Rattle.std.specs.Option.{ForSome};
ghost use Rattle.smp_wire.specs.FabricState.{FabricState};
ghost use Rattle.smp_wire.specs.Walk.{exchange_after, exchange_reply};

use mad_layout::Mad;

/// What a subnet manager sends directed-route SMPs over.
///
/// Its ghost member `fabric` is the fabric that the wire stands for, if any. What a good fabric is, is
/// no law of a wire: who made the fabric knows it.
pub trait SmpWire {
    ghost fabric: { Self → Option FabricState };

    /// Sends an SMP, and gives what comes back.
    ///
    /// If the wire stands for a fabric, nothing comes if the SMP is not at the start of its way (its
    /// direction bit is set, its hop pointer is not 0, or its path has more than 63 hops), if no cable leads
    /// on, if a channel adapter would have to hand it on, or if it asks no agent. If it stands for none,
    /// anything may come, a reply of another request too, and nothing need come.
    ///
    /// Source: IBA volume 1, chapter 14, over the fields of 14.2.1.2.
    fn exchange(&mut self, smp: &Mad) -> Option<Mad>
        ensures answer { ForSome (fabric self.old) (λ state. result ≡ exchange_reply state smp.now) }
        ensures change { ForSome (fabric self.old) (λ state. fabric self.new ≡ Some (exchange_after state smp.now)) };
}
