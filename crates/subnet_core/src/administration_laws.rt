//! The laws of fabrics that are served. Each function's contract is its law; it does nothing.

ghost use Rattle.subnet_core.specs.AdministrationLaws.{AServedFabricHasNoIdleBits, AServedFabricIsAsListed, OneFabricIsServed, StartsAreServed};

/// A fabric that is served is the fabric of the list of its ports, if those receive what is sent to groups that are in
/// them. So what it delivers, to a port or to a group, is what the list and the groups report.
pub fn a_served_fabric_is_as_listed()
    ensures { AServedFabricIsAsListed }
{}

/// A switch of a fabric that is served sends what is for a group to another switch only if a port that receives it lies beyond, and
/// to a channel adapter only if that receives it.
pub fn a_served_fabric_has_no_idle_bits()
    ensures { AServedFabricHasNoIdleBits }
{}

/// Before the first command nobody is in a group, and the fabric is served as it was brought up.
pub fn starts_are_served()
    ensures { StartsAreServed }
{}

/// One fabric is served for the same ports, groups and cables in place, whatever ports asked before, and in whatever order the sweep of
/// its routes found the switches.
pub fn one_fabric_is_served()
    ensures { OneFabricIsServed }
{}
