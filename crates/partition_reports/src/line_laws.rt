//! What lines look like, whole. The function does nothing: its clause says so.

ghost use Rattle.partition_reports.specs.WholeLines.{LinesAreWhole};

/// Each form of a line, once as a whole text.
pub fn lines_are_whole()
    ensures { LinesAreWhole }
{}
