//! Laws of all audits. The functions do nothing; their clauses are the theorems.

ghost use Rattle.audit_routes.specs.Laws.{AllLinesArePrinted, CountsAddUp, EachTroubleHasALine, LoopsAreClosedByTheirLids};
ghost use Rattle.audit_routes.specs.Laws.{LeadingRoutesAreReported, LostPairsAreNamed, ReasonsHaveLines, SafeRoutesAreReported, UnknownEntriesAreNamed, UnsafeRoutesHaveAReason};

/// Each pair of a switch and a LID is counted in one part of a line.
pub fn counts_add_up()
    ensures { CountsAddUp }
{}

/// If packets from a switch to the LID of an end port do not arrive there, a switch on their path has a line, unless the dump
/// says nothing of the entry where they stop. So it is if packets to the LID of a port that the fabric lacks come to a
/// switch without an entry, and if packets to any LID go round in a loop.
pub fn each_trouble_has_a_line()
    ensures { EachTroubleHasALine }
{}

/// The LID that is printed for a channel of a credit loop is one of those that were asked, and the channel waits by it for the one
/// behind it.
pub fn loops_are_closed_by_their_lids()
    ensures { LoopsAreClosedByTheirLids }
{}

/// The verdict is safe if and only if each cabled port of an adapter has a LID; from each switch to which an adapter is attached
/// a path along the entries leads to the adapter port of each LID; there is no credit loop along all LIDs except the switches'
/// own, of which that of an aggregation node counts at switches that packets of hosts come to; the dump has a table, and it and the fabric name the same switches and adapter ports; and if a switch sends such a LID
/// to another switch, the entry there is known.
pub fn safe_routes_are_reported()
    ensures { SafeRoutesAreReported }
{}

/// Credit loops aside, the verdict is safe if and only if the other conditions hold. An audit by virtual lanes rests on these.
pub fn leading_routes_are_reported()
    ensures { LeadingRoutesAreReported }
{}

/// A verdict that is not safe names a reason, and it names each reason if and only if that holds.
pub fn unsafe_routes_have_a_reason()
    ensures { UnsafeRoutesHaveAReason }
{}

/// If packets from a switch with a host do not come to a host's LID, that LID has its line in the text, unless they come to an unknown
/// entry. The line says from how many switches, and names the first eight. A LID that all reach has no line.
pub fn lost_pairs_are_named()
    ensures { LostPairsAreNamed }
{}

/// If packets come to a switch that has a table, and its entry of their LID is unknown, the LID has its line in the text, unless it is a
/// switch's. The line says at how many switches, and names the first eight. Other LIDs have none.
pub fn unknown_entries_are_named()
    ensures { UnknownEntriesAreNamed }
{}

/// Each reason of a verdict that is not safe has a line that says where: a port without a LID, a LID that is not reached, a credit
/// loop, what one file lacks of the other, or a LID whose entry is unknown.
pub fn each_reason_has_its_line()
    ensures { ReasonsHaveLines }
{}

/// With all lines, the text has each of them: what the files lack, and what each switch does with each LID of which something is
/// known. Without those by switch and LID, it says how many they are. The verdict ends it, and is the same.
pub fn all_lines_are_printed()
    ensures { AllLinesArePrinted }
{}
