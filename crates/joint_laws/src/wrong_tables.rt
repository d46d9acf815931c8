//! Tables that do not pass, so that a reader sees that the laws say something. Each function does nothing: its contract says that
//! with these entries the audit is not passed.

ghost use Rattle.joint_laws.specs.WrongTables.{ACycleIsNotFree, ADeadEndDoesNotPass, AHoleDoesNotPass, ALoopDoesNotPass, AWaitingRingDoesNotPass};
ghost use Rattle.joint_laws.specs.WrongTables.{AWrongEndDoesNotPass, NoEntriesDoNotPass};

/// If a switch that carries an adapter has no entry for its LID, it is not reached.
pub fn a_hole_does_not_pass()
    ensures { AHoleDoesNotPass }
{}

/// If no switch has an entry, it is not reached either.
pub fn no_entries_do_not_pass()
    ensures { NoEntriesDoNotPass }
{}

/// If two switches send a LID to one another, it goes round.
pub fn a_loop_does_not_pass()
    ensures { ALoopDoesNotPass }
{}

/// If a switch takes what is for an adapter, it comes to a wrong port.
pub fn a_wrong_end_does_not_pass()
    ensures { AWrongEndDoesNotPass }
{}

/// If an entry is a port without a cable, it goes nowhere.
pub fn a_dead_end_does_not_pass()
    ensures { ADeadEndDoesNotPass }
{}

/// If two switches send a LID to one another, channels wait in a cycle.
pub fn a_cycle_is_not_free()
    ensures { ACycleIsNotFree }
{}

/// If three switches send all LIDs on in a ring, all are reached, and channels wait in a cycle.
pub fn a_waiting_ring_does_not_pass()
    ensures { AWaitingRingDoesNotPass }
{}
