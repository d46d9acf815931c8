//! What entries are, and what comes of packets, computed. Each function does nothing: its contract is the example.

ghost use Rattle.audit_net.specs.Examples.{EntriesAreReported, FatesAreReported, LoopsAreReported, TurnsAreReported, WaysAreReported};

/// The entries of a table.
pub fn entries_are_reported()
    ensures { EntriesAreReported }
{}

/// What comes of packets at a switch.
pub fn turns_are_reported()
    ensures { TurnsAreReported }
{}

/// What comes of packets from a switch on.
pub fn fates_are_reported()
    ensures { FatesAreReported }
{}

/// The switches of a loop.
pub fn loops_are_reported()
    ensures { LoopsAreReported }
{}

/// The switches that packets come to.
pub fn ways_are_reported()
    ensures { WaysAreReported }
{}
