//! What the status means. The functions do nothing: their contracts are the laws.

ghost use Rattle.audit_keys.specs.Differences.{is_clean};
ghost use Rattle.audit_keys.specs.Laws.{AllDifferencesArePrinted, PairsOfTablesAreTheirs, PairsOfTheFileAreIts, PassesTheRight, TablesThatFollowAreClean, TheStatusIsThatOfEachPort, TheVerdictIsTrue, TheWidestComeFirst};

/// A port passes if and only if it was read and has exactly the keys of the file, the switch port that faces it was read and, if it
/// enforces, has exactly its bases, and ports of its switch to other switches that enforce lack no base of the file.
pub fn the_right_ports_pass()
    ensures { PassesTheRight is_clean }
{}

/// The status is 0 if and only if each port passes.
pub fn the_status_is_that_of_each_port()
    ensures { TheStatusIsThatOfEachPort }
{}

/// The pairs by the tables alone in a partition are those of which both tables were read and have keys that match in it, and the
/// keys of the file do not: of each two such ports, one behind the other, there is one pair, and no other.
pub fn pairs_of_tables_are_theirs()
    ensures { PairsOfTablesAreTheirs }
{}

/// The pairs by the file alone in a partition are those of which both tables were read and the file gives keys that match in it,
/// and the keys of the tables do not: of each two such ports, one behind the other, there is one pair, and no other.
pub fn pairs_of_the_file_are_its()
    ensures { PairsOfTheFileAreIts }
{}

/// The text ends with a verdict, and each verdict is printed if and only if it is true: the tables follow the file if every port
/// is right; not all were read, and all that was read is as the file; or something that was read differs.
pub fn the_verdict_is_true()
    ensures { TheVerdictIsTrue }
{}

/// Tables that hold the keys of the file follow it, wherever empty places stand before or behind them.
pub fn tables_that_follow_are_clean()
    ensures { TablesThatFollowAreClean }
{}

/// The text has a line for each key by which a port differs from the file; for each difference of a switch port, unless none of these
/// drops packets; for each base that a port between switches lacks; for each port that was not read; and for each whose LID moved.
pub fn all_differences_are_printed()
    ensures { AllDifferencesArePrinted }
{}

/// Of the partitions in which the file lets at least half of all pairs talk, those in which most may come first; none is left out, and
/// none comes twice.
pub fn the_widest_come_first()
    ensures { TheWidestComeFirst }
{}
