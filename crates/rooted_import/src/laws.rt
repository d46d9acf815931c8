//! What is so of each text that is returned. The function does nothing; its clause is the theorem.

ghost use Rattle.rooted_import.specs.Laws.{RootsAreTopSwitches};

/// A topology that passes the test of this crate is the other one, with the switches of these GUIDs as its roots.
pub fn roots_are_top_switches()
    ensures { RootsAreTopSwitches }
{}
