//! When the two forms of `fabric load` print the same. The functions do nothing; their clauses are the theorems.

ghost use Rattle.joint_laws.specs.LoadLaws.{LoadsAreOfEntries, LoadsAreOfWhatIsHeld, NoLinkIsLeftOut, OwnRowsShowAll, TablesAreReadBack, TheFormsAgree};

/// What `load` prints depends on a dump by the entries of switches and the end ports of LIDs alone.
pub fn loads_are_of_entries()
    ensures { LoadsAreOfEntries }
{}

/// Of a fabric that is brought up, what `load` prints of a dump that reports all that its switches hold is what it prints of the
/// fabric itself.
pub fn loads_are_of_what_is_held()
    ensures { LoadsAreOfWhatIsHeld }
{}

/// A dump with the rows of the fabric's own reports all that its switches hold.
pub fn own_rows_show_all()
    ensures { OwnRowsShowAll }
{}

/// What `fabric tables` prints is read without an error, and each switch has the rows that it holds.
pub fn tables_are_read_back()
    ensures { TablesAreReadBack }
{}

/// What `load` prints of that text, over the topology with the links that are up, is what it prints of the fabric.
pub fn the_forms_agree()
    ensures { TheFormsAgree }
{}

/// That is the topology itself while all links are up.
pub fn no_link_is_left_out()
    ensures { NoLinkIsLeftOut }
{}
