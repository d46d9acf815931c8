//! Wrong rules for what differs, and the law that each breaks, so that a reader sees that the laws say something. Each function
//! does nothing: its contract says that with this rule the law is false.

ghost use Rattle.cable_cuts.specs.WrongRules.{CountedTwiceIsMore, EntriesTwiceAreMore, MasksTwiceAreMore, NoMasksAreLess};

/// If no mask is counted, one that differs is missed.
pub fn no_masks_are_less()
    ensures { NoMasksAreLess }
{}

/// If each entry is reported twice, it is not reported once.
pub fn entries_twice_are_more()
    ensures { EntriesTwiceAreMore }
{}

/// If each mask is reported twice, it is not reported once.
pub fn masks_twice_are_more()
    ensures { MasksTwiceAreMore }
{}

/// If entries that are reported twice are counted twice, there are more than differ.
pub fn counted_twice_is_more()
    ensures { CountedTwiceIsMore }
{}
