//! Wrong rules for what is taken of a discovery and for levels, and the law that each breaks, so that a reader sees that the laws say something. Each
//! function does nothing: its contract says that with this rule the law is false.

ghost use Rattle.audit_plan.specs.WrongRules.{ANodeMayBeJoinedToItself, AdaptersAreJoinedApart, NobodyHasLid0, SwitchesHaveLids};
ghost use Rattle.audit_plan.specs.WrongRules.{AllTopsCount, LeavesAreNoTops, LevelsBeginAt0, NotAllAreLeaves, TopsAreNotOfLevel1};

/// If ports of one node have no cable, the two ends of a loopback plug have none.
pub fn a_node_may_be_joined_to_itself()
    ensures { ANodeMayBeJoinedToItself }
{}

/// If the list of cables that join no switch is empty, a cable between two adapters is among those of switches.
pub fn adapters_are_joined_apart()
    ensures { AdaptersAreJoinedApart }
{}

/// If LID 0 is a port's, a port that no subnet manager gave a LID has one.
pub fn nobody_has_lid_0()
    ensures { NobodyHasLid0 }
{}

/// If ports of switches have no LID, a header that reports one is not heard.
pub fn switches_have_lids()
    ensures { SwitchesHaveLids }
{}

/// If a level counts the switches of a way, a switch to which a host is attached has the level 1.
pub fn levels_begin_at_0()
    ensures { LevelsBeginAt0 }
{}

/// If all switches have the level 0, a switch far from hosts has it too.
pub fn not_all_are_leaves()
    ensures { NotAllAreLeaves }
{}

/// If the switches of level 1 were the top ones, a fabric of three levels would have a farther switch.
pub fn tops_are_not_of_level_1()
    ensures { TopsAreNotOfLevel1 }
{}

/// If the switches of the greatest level were the top ones also if that is 0, a host would be attached to one.
pub fn leaves_are_no_tops()
    ensures { LeavesAreNoTops }
{}

/// If the first top switch counted alone, another that is as far from hosts would be missing.
pub fn all_tops_count()
    ensures { AllTopsCount }
{}
