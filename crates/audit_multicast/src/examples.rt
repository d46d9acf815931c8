//! Masks, lines and verdicts, computed. Each function does nothing: its contract is the example.

ghost use Rattle.audit_multicast.specs.Examples.{MasksAreFound, MulticastLinesAreReported, MulticastVerdictsAreReported};

/// The masks of an MLID.
pub fn masks_are_found()
    ensures { MasksAreFound }
{}

/// The lines on multicast.
pub fn multicast_lines_are_reported()
    ensures { MulticastLinesAreReported }
{}

/// What is safe, and the last line.
pub fn multicast_verdicts_are_reported()
    ensures { MulticastVerdictsAreReported }
{}
