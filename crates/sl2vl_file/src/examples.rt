//! What the definitions give for lines and texts as they are printed. Each function does nothing: its contract is the
//! example.

ghost use Rattle.sl2vl_file.specs.Examples.{FieldsAreRead, LanesAreRead, LaneTextsAreRead, UnsoundLanesAreReported};

/// The rows of a table, and its heading.
pub fn lanes_are_read()
    ensures { LanesAreRead }
{}

/// The fields of a path record.
pub fn fields_are_read()
    ensures { FieldsAreRead }
{}

/// A whole text, and such as are refused.
pub fn lane_texts_are_read()
    ensures { LaneTextsAreRead }
{}

/// What is so of all that was read is not so of everything.
pub fn unsound_lanes_are_reported()
    ensures { UnsoundLanesAreReported }
{}
