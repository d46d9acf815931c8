//! Which channels wait for which, computed. The function does nothing: its contract is the example.

ghost use Rattle.audit_loops.specs.Examples.{WaitsAreReported};

/// Channels, and a cycle of them.
pub fn waits_are_reported()
    ensures { WaitsAreReported }
{}
