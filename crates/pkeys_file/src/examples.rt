//! What the definitions give for lines and texts as they are printed. Each function does nothing: its contract is the
//! example.

ghost use Rattle.pkeys_file.specs.Examples.{FailuresAreUnread, LinesAreRead, TextsAreRead, TextsAreRefused};

/// Lines of answers, and such as are refused.
pub fn lines_are_read()
    ensures { LinesAreRead }
{}

/// A whole text.
pub fn texts_are_read()
    ensures { TextsAreRead }
{}

/// Answers of queries that failed.
pub fn failures_are_unread()
    ensures { FailuresAreUnread }
{}

/// Inputs that are refused, with their lines.
pub fn texts_are_refused()
    ensures { TextsAreRefused }
{}
