//! What the definitions give for lines and texts as they are printed. Each function does nothing: its contract is the
//! example.

ghost use Rattle.mft_file.specs.Examples.{MasksAreRead, MftTextsAreRead, TitlesAreRead, UnsoundMasksAreReported};

/// The titles of a table.
pub fn titles_are_read()
    ensures { TitlesAreRead }
{}

/// The rows of a table, and its last line.
pub fn masks_are_read()
    ensures { MasksAreRead }
{}

/// A whole text, and such as are refused.
pub fn mft_texts_are_read()
    ensures { MftTextsAreRead }
{}

/// What is so of all tables that were read is not so of every table.
pub fn unsound_masks_are_reported()
    ensures { UnsoundMasksAreReported }
{}
