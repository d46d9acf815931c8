//! Wrong rules for channels and their cycles, and the law that each breaks, so that a reader sees that the laws say something. Each
//! function does nothing: its contract says that with this rule the law is false.

ghost use Rattle.audit_loops.specs.WrongRules.{FirstPortsAreChannels, MarkedEntriesCount, OtherEntriesDoNotCount, OtherLidsDoNotCount, TwoMakeACycle, TheLastWaitsForTheFirst};

/// If the first port of a switch is no channel, one is left out.
pub fn first_ports_are_channels()
    ensures { FirstPortsAreChannels }
{}

/// If dependencies along another LID count too, channels are reported that do not wait for one another along these.
pub fn other_lids_do_not_count()
    ensures { OtherLidsDoNotCount }
{}

/// If cycles of two channels are not reported, one is missed.
pub fn two_make_a_cycle()
    ensures { TwoMakeACycle }
{}

/// If the last channel is left out, the one before it does not wait for the first.
pub fn the_last_waits_for_the_first()
    ensures { TheLastWaitsForTheFirst }
{}

/// If LIDs count at no switch, a cycle is missed along one that counts.
pub fn marked_entries_count()
    ensures { MarkedEntriesCount }
{}

/// If LIDs count at all switches, channels are reported that do not wait for one another.
pub fn other_entries_do_not_count()
    ensures { OtherEntriesDoNotCount }
{}
