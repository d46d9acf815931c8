//! What two routes over one fabric push. The function's contract is its laws; it does nothing.

ghost use Rattle.table_push.specs.OrderLaws.{MasksAreTheFabrics, PushesAreTheFabrics};

/// By two graphs of one good fabric, with the same LIDs and roots, the same is pushed into the ports, the P_Key tables and the
/// LFTs of switches and channel adapters, and for the same receivers into MFTs, in whatever
/// order a sweep found the switches.
pub fn pushes_are_the_fabrics()
    ensures all { PushesAreTheFabrics }
    ensures masks { MasksAreTheFabrics }
{}
