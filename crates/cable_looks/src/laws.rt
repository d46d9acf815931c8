//! What holds of all steps and rows of the legend. Each function's contract is its law; it does nothing.

ghost use Rattle.cable_looks.specs.Laws.{EachLoadHasOneRow, StepsAreFifths};

/// The step of a load is the least number of fifths of the greatest load, from 1 on, that the load does not exceed.
pub fn steps_are_fifths()
    ensures { StepsAreFifths }
{}

/// Each load is in one row of the legend, which is that of its step.
pub fn each_load_has_one_row()
    ensures { EachLoadHasOneRow }
{}
