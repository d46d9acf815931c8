//! Where in the text a line stands.

ghost use Rattle.std.specs.Prelude.{◌≡◌};
ghost use Rattle.mft_file.specs.Mfts.{is_between};

use crate::heading::Heading;

/// What is to come after the lines so far.
#[derive(Clone, Copy)]
pub(crate) enum MftStage {
    /// A table.
    Between,
    /// The title with the numbers of ports, or the tens of these numbers.
    Titles(Heading),
    /// The title ` MLid`.
    LastTitle(Heading),
    /// A row of a table, or its last line.
    Rows(Heading),
    /// A line of a unicast table.
    Unicast,
}

impl MftStage {
    /// Whether the lines so far end outside a table.
    pub(crate) fn is_between(self) -> bool
        ensures { result ≡ is_between self }
    {
        matches!(self, MftStage::Between)
    }
}
