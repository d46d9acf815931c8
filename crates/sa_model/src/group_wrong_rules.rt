//! Wrong rules for groups, and the law that each breaks, so that a reader sees that the laws say something. Each
//! function does nothing: its contract is the law.

ghost use Rattle.sa_model.specs.GroupWrongRules.{AllNumbersAreReported, ComersAreReported, LimitedKeepersAreSeen, MgidsAloneAreSeen, OnePoolIsSeen, SendersAreReached};

/// With one pool of MLIDs for all partitions, the MLID of a group shows that there are groups of other partitions.
pub fn one_pool_is_seen()
    ensures { OnePoolIsSeen }
{}

/// With groups that are named by their MGID alone, whether a port makes a group shows that there are groups of other
/// partitions.
pub fn mgids_alone_are_seen()
    ensures { MgidsAloneAreSeen }
{}

/// With limited members that keep groups, a group that stays shows one limited member to another.
pub fn limited_keepers_are_seen()
    ensures { LimitedKeepersAreSeen }
{}

/// With each membership taken for one that receives, a port that only sends is listed, and no packet reaches it.
pub fn senders_are_reached()
    ensures { SendersAreReached }
{}

/// With a partition listed only if a receiver goes, one to which a receiver comes is left out.
pub fn comers_are_reported()
    ensures { ComersAreReported }
{}

/// With the number of every partition reported, one whose receivers stay is reported too.
pub fn all_numbers_are_reported()
    ensures { AllNumbersAreReported }
{}
