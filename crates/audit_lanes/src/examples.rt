//! What is found of lanes in a ring of three switches, computed. Each function does nothing: its contract is the example.

ghost use Rattle.audit_lanes.specs.Examples.{HopsAreReported, LaneLinesAreReported, LanesAreReported, LaneVerdictsAreReported, RecordsAreReported};

/// Cycles of lanes.
pub fn lanes_are_reported()
    ensures { LanesAreReported }
{}

/// The hops of packets of path records.
pub fn hops_are_reported()
    ensures { HopsAreReported }
{}

/// Pairs, and those of which there is no path record.
pub fn records_are_reported()
    ensures { RecordsAreReported }
{}

/// The lines on lanes.
pub fn lane_lines_are_reported()
    ensures { LaneLinesAreReported }
{}

/// What is safe by lanes, and the last line.
pub fn lane_verdicts_are_reported()
    ensures { LaneVerdictsAreReported }
{}
