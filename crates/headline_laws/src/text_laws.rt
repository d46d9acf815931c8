//! The headline over texts. The function's contract is the law; it does nothing.

ghost use Rattle.headline_laws.specs.Texts.{RunsKeepTextsApart};

/// Take out of two scripts each `cut`, each `mend`, and each `send` or `ask` of a port that `fabric shares TOPO PARTS P` does not name
/// with P. If the rest is the same, line by line, and both runs end with status 0, their lines of P are the same.
pub fn runs_keep_texts_apart()
    ensures { RunsKeepTextsApart }
{}
