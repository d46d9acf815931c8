//! What entries, ports and lines are, computed. Each function does nothing: its contract is the example.

ghost use Rattle.audit_routes.specs.Examples.{AsksAreReported, CountsAreReported, DeadlocksAreReported, DecidingIsReported, LacksAreReported, TextsAreReported, TroublesAreReported, VerdictsAreReported};

/// What two switches do wrong.
pub fn troubles_are_reported()
    ensures { TroublesAreReported }
{}

/// A credit loop, with the LIDs that close it.
pub fn deadlocks_are_reported()
    ensures { DeadlocksAreReported }
{}

/// What a dump and a fabric lack of one another.
pub fn lacks_are_reported()
    ensures { LacksAreReported }
{}

/// The verdict.
pub fn verdicts_are_reported()
    ensures { VerdictsAreReported }
{}

/// What decides.
pub fn deciding_is_reported()
    ensures { DecidingIsReported }
{}

/// What to ask.
pub fn asks_are_reported()
    ensures { AsksAreReported }
{}

/// The lines of counts.
pub fn counts_are_reported()
    ensures { CountsAreReported }
{}

/// All lines.
pub fn texts_are_reported()
    ensures { TextsAreReported }
{}
