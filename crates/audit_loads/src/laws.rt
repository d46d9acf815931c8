//! Laws of all loads. The functions do nothing; their clauses are the theorems.

ghost use Rattle.audit_loads.specs.Laws.{CablesOfPlansLeadBack, EachChannelHasOneLine, EachPairCounts, LastLinksCarryWhatArrives};
ghost use Rattle.audit_loads.specs.Laws.{LoadsAddUp, LoadsAreOfPairs, LoadsStayWithin, TalkersCount};
ghost use Rattle.audit_loads.specs.Laws.{AllPairsAreCounted, AllPairsArePrinted};

/// Of all pairs those count whose ports talk.
pub fn talkers_count()
    ensures { TalkersCount }
{}

/// Each port of a host that is attached to a switch sends to each LID of another host's port to which it may talk.
pub fn each_pair_counts()
    ensures { EachPairCounts }
{}

/// A channel has the load 0 if and only if no pair goes over it.
pub fn loads_are_of_pairs()
    ensures { LoadsAreOfPairs }
{}

/// The loads of some ports add up to how many of these the packets of each pair leave by.
pub fn loads_add_up()
    ensures { LoadsAddUp }
{}

/// In a topology, whichever of its cables are up, and in a discovery the cable of each port leads back to it, and its node has that
/// port.
pub fn cables_of_plans_lead_back()
    ensures { CablesOfPlansLeadBack }
{}

/// If a switch delivers a LID to its port, the links to this switch carry as many pairs of the LID as reach the port from others.
pub fn last_links_carry_what_arrives()
    ensures { LastLinksCarryWhatArrives }
{}

/// No load is greater than the number of pairs.
pub fn loads_stay_within()
    ensures { LoadsStayWithin }
{}

/// Each direction of a cable between two switches has one line, and nothing else has one.
pub fn each_channel_has_one_line()
    ensures { EachChannelHasOneLine }
{}

/// The loads of a fabric are those of its channels, each with the number of all pairs that go over it, to all LIDs.
pub fn all_pairs_are_counted()
    ensures { AllPairsAreCounted }
{}

/// The text has the line of each channel, with this number, and the counts of all pairs at its end.
pub fn all_pairs_are_printed()
    ensures { AllPairsArePrinted }
{}
