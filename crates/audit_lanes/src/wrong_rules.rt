//! Wrong rules for what is reported of lanes, and the law that each breaks, so that a reader sees that the laws say something. Each
//! function does nothing: its contract says that with this rule the law is false.

ghost use Rattle.audit_lanes.specs.WrongRules.{DropsAreAReason, EachVlCounts, LanesAreApart, LanesDecideOnDeadlocks, OneMoreIsNotEnough};
ghost use Rattle.audit_lanes.specs.WrongRules.{DroppedPacketsAreLost, EachWayHasItsRecord, MissingRowsAreUnknown};
ghost use Rattle.audit_lanes.specs.WrongRules.{OneRoundIsNotEnough, PacketsFollowEntries, RoutesArePrintedToo, SwitchLidsDoNotCount, UnplacedLidsCount};

/// If packets are followed through as many switches as there are, a hop is missed that they take when they come to one again.
pub fn one_round_is_not_enough()
    ensures { OneRoundIsNotEnough }
{}

/// If they are followed through one more, it is missed which lane that hop waits for.
pub fn one_more_is_not_enough()
    ensures { OneMoreIsNotEnough }
{}

/// If a loop of channels is reported as one of lanes, lanes are reported that do not wait for one another.
pub fn lanes_are_apart()
    ensures { LanesAreApart }
{}

/// If VL 0 alone is looked at, a cycle on VL 1 is missed.
pub fn each_vl_counts()
    ensures { EachVlCounts }
{}

/// If LIDs whose end ports the fabric lacks do not count, a cycle of their packets is missed.
pub fn unplaced_lids_count()
    ensures { UnplacedLidsCount }
{}

/// If a lane waits for each lane behind it that has its VL, it waits where no entry leads.
pub fn packets_follow_entries()
    ensures { PacketsFollowEntries }
{}

/// If the LIDs of switches count, a loop is reported though there is none by the other LIDs.
pub fn switch_lids_do_not_count()
    ensures { SwitchLidsDoNotCount }
{}

/// If dropped packets are no reason, none is named for them.
pub fn drops_are_a_reason()
    ensures { DropsAreAReason }
{}

/// If a deadlock by the entries is a reason, it is named though lanes make none.
pub fn lanes_decide_on_deadlocks()
    ensures { LanesDecideOnDeadlocks }
{}

/// If a record either way is enough, it is safe though a pair has none.
pub fn each_way_has_its_record()
    ensures { EachWayHasItsRecord }
{}

/// If rows that are missing are not looked at, it is safe though a hop has none.
pub fn missing_rows_are_unknown()
    ensures { MissingRowsAreUnknown }
{}

/// If dropped packets are no matter, it is safe though a switch drops some.
pub fn dropped_packets_are_lost()
    ensures { DroppedPacketsAreLost }
{}

/// If what is found of lanes is printed alone, what is found of routes is left out.
pub fn routes_are_printed_too()
    ensures { RoutesArePrintedToo }
{}
