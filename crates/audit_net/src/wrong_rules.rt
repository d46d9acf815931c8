//! Wrong rules for what comes of a packet, and the law that each breaks, so that a reader sees that the laws say something. Each
//! function does nothing: its contract says that with this rule the law is false.

ghost use Rattle.audit_net.specs.WrongRules.{HostsComeSomewhere, HostsDoNotComeEverywhere, WaysAreLonger, WaysGoOn, LoopsBeginWhereReported};

/// If what does not end at the first switch is reported to be endless, it may end at the second.
pub fn ways_are_longer()
    ensures { WaysAreLonger }
{}

/// If a loop is reported without the switch where it is reported, it does not begin there.
pub fn loops_begin_where_reported()
    ensures { LoopsBeginWhereReported }
{}

/// If a way ended at its first switch, packets would come to a switch that is not on it.
pub fn ways_go_on()
    ensures { WaysGoOn }
{}

/// If no switch is marked, one is left out that packets of hosts come to.
pub fn hosts_come_somewhere()
    ensures { HostsComeSomewhere }
{}

/// If all are marked, one is that no packet of a host comes to.
pub fn hosts_do_not_come_everywhere()
    ensures { HostsDoNotComeEverywhere }
{}
