//! Wrong rules for steps and rows of the legend, and the law that each breaks, so that a reader sees that the laws say something. Each
//! function does nothing: its contract says that with this rule the law is false.

ghost use Rattle.cable_looks.specs.WrongRules.{NotAllAreHot, RowsDoNotOverlap, StepsAreNotQuarters};

/// If all cables were of the last step, one without load would be.
pub fn not_all_are_hot()
    ensures { NotAllAreHot }
{}

/// If the last step had the greatest load alone, one near it would exceed its step.
pub fn steps_are_not_quarters()
    ensures { StepsAreNotQuarters }
{}

/// If each row began with the last load of the row before, that load would be in two.
pub fn rows_do_not_overlap()
    ensures { RowsDoNotOverlap }
{}
