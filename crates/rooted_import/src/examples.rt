//! The roots of small fabrics, computed. Each function does nothing: its contract is the example.

ghost use Rattle.rooted_import.specs.Examples.{RootsAreAdded, SpinesAreTops};

/// The top switches of two leaves and two spines.
pub fn spines_are_tops()
    ensures { SpinesAreTops }
{}

/// The lines of roots, and GUIDs that are no switch's.
pub fn roots_are_added()
    ensures { RootsAreAdded }
{}
