//! Wrong rules for changes, and the laws that they break, so that a reader sees that these say something. The functions do
//! nothing: their contracts say that with such a rule the laws are false.

ghost use Rattle.partition_reports.specs.ChangeWrongRules.{TheSecondFileAloneIsNotEnough, TwiceIsNotOnce};

/// If each change is reported twice, no law of what is reported holds.
pub fn twice_is_not_once()
    ensures { TwiceIsNotOnce }
{}

/// If members of the partitions of the second file alone are printed, a port may lose those near it without a line.
pub fn the_second_file_alone_is_not_enough()
    ensures { TheSecondFileAloneIsNotEnough }
{}
