//! Laws of hops, of cycles of lanes, and of verdicts. The functions do nothing; their clauses are the theorems.

ghost use Rattle.audit_lanes.specs.Laws.{AllReasonsAreNamed, LaneCyclesWait, LanesMakeNoLoop, NoHopIsMissed, NoLaneCycleIsMissed};
ghost use Rattle.audit_lanes.specs.Laws.{LanesArePrinted, SafeLanesAreReported};

/// Packets that loop are followed far enough: farther on they take no other hop, and no other two lanes one behind the other.
pub fn no_hop_is_missed()
    ensures { NoHopIsMissed }
{}

/// A cycle of lanes that is printed is one: each lane waits for the next, and the last for the first.
pub fn lane_cycles_wait()
    ensures { LaneCyclesWait }
{}

/// If none is printed there is none, however long.
pub fn no_lane_cycle_is_missed()
    ensures { NoLaneCycleIsMissed }
{}

/// Lanes wait as their channels do by the entries, so if there is no credit loop by the entries there is none by lanes.
pub fn lanes_make_no_loop()
    ensures { LanesMakeNoLoop }
{}

/// A verdict that is not safe names a reason, and it names each reason if and only if that holds.
pub fn all_reasons_are_named()
    ensures { AllReasonsAreNamed }
{}

/// The verdict is safe if and only if the conditions of an audit hold, credit loops aside (`leading_routes_are_reported` of
/// `audit_routes`); no lanes wait for one another in a cycle; there is a path record of each two LIDs of two CA ports, either way;
/// there is a row for each hop of the packets of these records, however far they go; and none of them is dropped.
pub fn safe_lanes_are_reported()
    ensures { SafeLanesAreReported }
{}

/// The text has each of its lines: LIDs without a path record, ports of a switch for which a row is lacking, and packets that are
/// dropped. It begins with what an audit without lanes prints before its verdict.
pub fn lanes_are_printed()
    ensures { LanesArePrinted }
{}
