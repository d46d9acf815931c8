//! What is so of all LIDs. The functions do nothing; their clauses are the theorems.

ghost use Rattle.lid_assign.specs.Laws.{LidsAndGuidsNameEachOther, LidsCountFrom1};

/// No two end ports have one LID, and none has two: a LID is a GUID's if and only if the GUID is the LID's.
pub fn lids_and_guids_name_each_other()
    ensures { LidsAndGuidsNameEachOther }
{}

/// The LIDs of n end ports are 1 to n.
pub fn lids_count_from_1()
    ensures { LidsCountFrom1 }
{}
