//! Laws of paths along LFT entries. The functions do nothing; their clauses are the theorems.

ghost use Rattle.audit_net.specs.Laws.{HostsAreFollowed, LoopsNeverEnd, WaysAreFollowed, WaysAreWhole, ReportedLoopsGoRound};

/// A packet that does not end within as many switches as there are never ends.
pub fn loops_never_end()
    ensures { LoopsNeverEnd }
{}

/// `end_from` gives an end if and only if a path along the LFT entries leads to it.
pub fn ways_are_followed()
    ensures { WaysAreFollowed }
{}

/// A loop that is printed is one, from the switch on at which it is printed.
pub fn reported_loops_go_round()
    ensures { ReportedLoopsGoRound }
{}

/// A switch is on the way of a LID if and only if packets come to it along the entries, over however many switches.
pub fn ways_are_whole()
    ensures { WaysAreWhole }
{}

/// A switch is marked if and only if packets come to it from a switch to which a host is attached, over however many switches.
pub fn hosts_are_followed()
    ensures { HostsAreFollowed }
{}
