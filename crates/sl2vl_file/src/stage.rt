//! Where in the text a line stands.

ghost use Rattle.std.specs.Prelude.{◌≡◌, true};
ghost use Rattle.sl2vl_file.specs.Lanes.{has_all, is_lacking};
ghost use Rattle.sl2vl_file.specs.Sound.{is_low_stage};

use crate::path::PathFields;

/// What may come after the lines so far.
#[derive(Clone, Copy)]
pub(crate) enum Stage {
    /// A table or a record.
    Outside,
    /// A row of the table of this LID.
    Table(u16),
    /// A field of the record.
    Record(PathFields),
    /// What comes is not judged: the record whose heading is at this line has ended without a field.
    Lacking(usize),
}

impl Stage {
    /// Whether a record has ended without a field.
    pub(crate) fn is_lacking(self) -> bool
        ensures { result ≡ is_lacking self }
    {
        matches!(self, Stage::Lacking(_))
    }

    /// Whether no record is open that still lacks a field.
    pub(crate) fn has_all(self) -> bool
        requires low { is_low_stage self ≡ true }
        ensures { result ≡ has_all self }
    {
        match self {
            Stage::Record(fields) => fields.path().is_some(),
            _ => true,
        }
    }
}
