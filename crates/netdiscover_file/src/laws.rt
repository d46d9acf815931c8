//! What is so of all discoveries. The functions do nothing; their clauses are the theorems.

ghost use Rattle.netdiscover_file.specs.Laws.{LinesSaySo, MissingEndsAreReported, OneOtherEnd, OnlyMissingEndsAreReported, TakenGuidsAreReported};

/// A cable stands once at its other end: of the lines of a discovery no two lead back to one line.
pub fn cables_have_one_other_end()
    ensures { OneOtherEnd }
{}

/// If no line is reported to be wrong, each has one that leads back.
pub fn missing_ends_are_reported()
    ensures { MissingEndsAreReported }
{}

/// A line is reported to be wrong if and only if no line leads back.
pub fn only_missing_ends_are_reported()
    ensures { OnlyMissingEndsAreReported }
{}

/// A GUID of a node is reported to be taken if and only if with the node two would be the same, or if the line before reported
/// those of another switch.
pub fn taken_guids_are_reported()
    ensures { TakenGuidsAreReported }
{}

/// What that law rests on is so after the lines of every text.
pub fn lines_say_so()
    ensures { LinesSaySo }
{}
