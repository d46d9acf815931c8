//! Wrong rules for what is printed, and a dump that is not like another. Each function does nothing: its contract says what is
//! wrong.

ghost use Rattle.joint_laws.specs.LoadWrongRules.{ARowLessIsNotAlike, EndPortsDoNotDecide, RowsDoNotCount};

/// If loads counted rows, a table that stands in a dump twice would change them.
pub fn rows_do_not_count()
    ensures { RowsDoNotCount }
{}

/// A dump that lacks a row of a switch is not like one that has it, and what is printed differs.
pub fn a_row_less_is_not_alike()
    ensures { ARowLessIsNotAlike }
{}

/// If the end ports of LIDs decided alone, a switch without an entry would lose no packet.
pub fn end_ports_do_not_decide()
    ensures { EndPortsDoNotDecide }
{}
