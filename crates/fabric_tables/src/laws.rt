//! What forwarding tables look like, whole. The function does nothing: its clause says so.

ghost use Rattle.fabric_tables.specs.Whole.{TablesAreWhole};

/// An LFT, and the multicast table of a switch whose port numbers have one digit, and that of one whose numbers have two,
/// each as a whole text.
pub fn tables_are_whole()
    ensures { TablesAreWhole }
{}
