//! Whose a LID is, computed. Each function does nothing: its contract is the example.

ghost use Rattle.audit_net.specs.OwnerExamples.{KindsAreReported, LidsAreHad};

/// Whose a LID is.
pub fn kinds_are_reported()
    ensures { KindsAreReported }
{}

/// Whether ports have LIDs.
pub fn lids_are_had()
    ensures { LidsAreHad }
{}
