//! Wrong rules, each with the law that it breaks.

ghost use Rattle.table_push.specs.Enforcement.{OnlySuchPortsCount};
ghost use Rattle.table_push.specs.WrongRules.{one_bit_counts};

/// A port that takes one of the two bits would count, and partitions would be kept apart one way.
pub fn one_bit_is_not_both()
    ensures { OnlySuchPortsCount one_bit_counts → ⊥ }
{}
