//! What the answers say of fabrics. Each function's contract is its law; it does nothing.

ghost use Rattle.cable_cuts.specs.Laws.{ChangesAreTheFabrics, ChangesAreWhatDiffers, EntriesAreReportedOnce, KeptIsWhatComesUp, LidsAreOwn, MaskChangesAreTheFabrics, MaskChangesAreWhatDiffers, MasksAreTheFabrics, MasksAreReportedOnce, NumbersAreOfWhatDiffers, OneFateIsReported, OneTextIsReported};
ghost use Rattle.cable_cuts.specs.Whole.{LinesAreWhole};

/// A cable is reported as one that the fabric keeps without if and only if the fabric of the topology without it comes up.
pub fn kept_is_what_comes_up()
    ensures { KeptIsWhatComesUp }
{}

/// An entry is reported if and only if two tables have different ports there, for a switch and the LID of an end port.
pub fn changes_are_what_differs()
    ensures { ChangesAreWhatDiffers }
{}

/// These are the tables that two fabrics hold: that of the topology that is up, and that of the topology without the cable, however
/// it is brought up.
pub fn changes_are_the_fabrics()
    ensures { ChangesAreTheFabrics }
{}

/// So are the masks: those that the two fabrics hold once the masks of a partition's group are pushed, for all its members.
pub fn masks_are_the_fabrics()
    ensures { MasksAreTheFabrics }
{}

/// An MFT entry is counted if and only if some port has different bits in two of a switch, for the group of a partition.
pub fn mask_changes_are_what_differs()
    ensures { MaskChangesAreWhatDiffers }
{}

/// So the masks that are counted are those in which the two fabrics differ.
pub fn mask_changes_are_the_fabrics()
    ensures { MaskChangesAreTheFabrics }
{}

/// In every subnet each end port has a LID of its own.
pub fn lids_are_own()
    ensures { LidsAreOwn }
{}

/// Each entry is reported once, if each end port has a LID of its own.
pub fn entries_are_reported_once()
    ensures { EntriesAreReportedOnce }
{}

/// So is each mask counted once.
pub fn masks_are_reported_once()
    ensures { MasksAreReportedOnce }
{}

/// So as many entries and masks are counted as differ.
pub fn numbers_are_of_what_differs()
    ensures { NumbersAreOfWhatDiffers }
{}

/// One thing becomes of the fabric of a sound topology without one of its cables, whatever layout of it routes are computed over.
pub fn one_fate_is_reported()
    ensures { OneFateIsReported }
{}

/// So of each topology, and of each cable, one text is right.
pub fn one_text_is_reported()
    ensures { OneTextIsReported }
{}

/// Each form of a line, once as a whole text.
pub fn lines_are_whole()
    ensures { LinesAreWhole }
{}
