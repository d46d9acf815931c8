//! Wrong rules for pairs, each refused by a law. The functions do nothing: each contract says that with this rule the law is
//! false.

ghost use Rattle.partition_reports.specs.PairWrongRules.{NoPortIsItsOwnPair, OneHasToBeFull, PairsAreNotListedTwice, TheReverseIsTheSamePair, UnchangedPortsGainToo, WhatWasBeforeCounts};

/// Two limited members may talk.
pub fn one_has_to_be_full()
    ensures { OneHasToBeFull }
{}

/// All pairs that may talk now are listed.
pub fn what_was_before_counts()
    ensures { WhatWasBeforeCounts }
{}

/// Each pair is listed twice.
pub fn pairs_are_not_listed_twice()
    ensures { PairsAreNotListedTwice }
{}

/// Each pair is listed in both orders.
pub fn the_reverse_is_the_same_pair()
    ensures { TheReverseIsTheSamePair }
{}

/// A port is listed with itself.
pub fn no_port_is_its_own_pair()
    ensures { NoPortIsItsOwnPair }
{}

/// A port that is what it was before is listed with none of those behind it.
pub fn unchanged_ports_gain_too()
    ensures { UnchangedPortsGainToo }
{}
