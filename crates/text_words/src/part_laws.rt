//! What parts look like, whole. The function does nothing: its clause says so.

ghost use Rattle.text_words.specs.WholeParts.{PartsAreWhole};

/// Each part of a text, once as a whole.
pub fn parts_are_whole()
    ensures { PartsAreWhole }
{}
