//! Laws of channels and their cycles. The functions do nothing; their clauses are the theorems.

ghost use Rattle.audit_loops.specs.Laws.{ChannelsAreReported, NoCycleIsMissed, NoCycleIsMissedOnCourses, ReportedLoopsWait, ReportedLoopsWaitOnCourses};

/// Channels are the ports of switches that have a cable to a switch.
pub fn channels_are_reported()
    ensures { ChannelsAreReported }
{}

/// A credit loop that is printed is a cycle of channels in the dependency graph.
pub fn reported_loops_wait()
    ensures { ReportedLoopsWait }
{}

/// If none is printed there is none, however long.
pub fn no_cycle_is_missed()
    ensures { NoCycleIsMissed }
{}

/// So it is if the entries of a LID count at some switches alone.
pub fn reported_loops_wait_on_courses()
    ensures { ReportedLoopsWaitOnCourses }
{}

/// And if none is printed there is none.
pub fn no_cycle_is_missed_on_courses()
    ensures { NoCycleIsMissedOnCourses }
{}
