//! What the definitions give for lines and texts as they are printed. Each function does nothing: its contract is the
//! example.

ghost use Rattle.dump_file.specs.Examples.{HeadingsAreRead, RowsAreRead, TextsAreRead, UnsoundAreReported};

/// The first line of a table.
pub fn headings_are_read()
    ensures { HeadingsAreRead }
{}

/// The rows of a table, and its last line.
pub fn rows_are_read()
    ensures { RowsAreRead }
{}

/// A whole text, and such as are refused.
pub fn texts_are_read()
    ensures { TextsAreRead }
{}

/// What is so of every dump that was read is not so of all.
pub fn unsound_are_reported()
    ensures { UnsoundAreReported }
{}
