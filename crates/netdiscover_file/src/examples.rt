//! What the definitions give for lines and texts as they are printed. Each function does nothing: its contract is the
//! example.

ghost use Rattle.netdiscover_file.specs.Examples.{EndsAreRead, HeadersAreRead, TextsAreRead, UnsoundAreReported};

/// The two ends that the line of a port reports.
pub fn ends_are_read()
    ensures { EndsAreRead }
{}

/// A header, and the lines before one that count.
pub fn headers_are_read()
    ensures { HeadersAreRead }
{}

/// A whole text, and such as are refused.
pub fn texts_are_read()
    ensures { TextsAreRead }
{}

/// What is so of every discovery that was read is not so of all.
pub fn unsound_are_reported()
    ensures { UnsoundAreReported }
{}
