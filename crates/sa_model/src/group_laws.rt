//! The laws of multicast groups, over the definitions alone. Each function does nothing: its contract
//! is the law.

ghost use Rattle.sa_model.specs.GroupLaws.{FarJoinsAreNotSeen, FarLeavesAreNotSeen, GroupsDependOnNear, JoinsKeepSound, LeavesAreSeenAlike, LeavesKeepSound, MlidsReportPartitions, NearJoinsAreSeenAlike, PacketsReachAlike, PacketsReachThoseNear, PartitionsStay, StartsAreSound};
ghost use Rattle.sa_model.specs.FreeMlid.{TheLeastFreeIsGiven};
ghost use Rattle.sa_model.specs.ReceiverLaws.{ChangesAreReported, JoinsChangeOne, NothingChangesAlone, OnlyChangesAreReported, ReceiversAreReached, ReceiversStandInOrder};

/// At the start the groups of every partition are sound.
pub fn starts_are_sound()
    ensures { StartsAreSound }
{}

/// A join keeps sound groups sound.
pub fn joins_keep_sound()
    ensures { JoinsKeepSound }
{}

/// A leave keeps sound groups sound.
pub fn leaves_keep_sound()
    ensures { LeavesKeepSound }
{}

/// No MLID is that of groups of two partitions.
pub fn mlids_report_partitions()
    ensures { MlidsReportPartitions }
{}

/// Joins and leaves change neither the numbers nor the bases of partitions.
pub fn partitions_stay()
    ensures { PartitionsStay }
{}

/// A join of a port that is far from another leaves what that one sees of groups as it was.
pub fn far_joins_are_not_seen()
    ensures { FarJoinsAreNotSeen }
{}

/// A join of a port near another leaves two states alike to that one that were alike to it.
pub fn near_joins_are_seen_alike()
    ensures { NearJoinsAreSeenAlike }
{}

/// A leave of a port that is far from another leaves what that one sees of groups as it was.
pub fn far_leaves_are_not_seen()
    ensures { FarLeavesAreNotSeen }
{}

/// A leave leaves two states alike to a port that were alike to it.
pub fn leaves_are_seen_alike()
    ensures { LeavesAreSeenAlike }
{}

/// Whatever ports join and leave, what a port sees of groups depends only on the ports near it.
pub fn groups_depend_on_near()
    ensures { GroupsDependOnNear }
{}

/// By LID or by groups, a packet reaches only ports near its sender.
pub fn packets_reach_those_near()
    ensures { PacketsReachThoseNear }
{}

/// In states that are alike to a port, the same packets reach it.
pub fn packets_reach_alike()
    ensures { PacketsReachAlike }
{}

/// A new group gets the least MLID of its partition that no group of any partition has; none, if groups of the
/// partition have them all.
pub fn the_least_free_is_given()
    ensures { TheLeastFreeIsGiven }
{}

/// The receivers that are listed are those that packets to the groups reach.
pub fn receivers_are_reached()
    ensures { ReceiversAreReached }
{}

/// The receivers of a partition stand by MLID and then by LID, each once; each MLID is one of the partition's, and each
/// LID one of a channel adapter's port.
pub fn receivers_stand_in_order()
    ensures { ReceiversStandInOrder }
{}

/// If no group changes, the receivers of no partition do.
pub fn nothing_changes_alone()
    ensures { NothingChangesAlone }
{}

/// If a receiver of a partition comes or goes, the partition's number is reported.
pub fn changes_are_reported()
    ensures { ChangesAreReported }
{}

/// A number that is reported is that of a partition of whose receivers one comes or goes.
pub fn only_changes_are_reported()
    ensures { OnlyChangesAreReported }
{}

/// A join changes the receivers of the partition of its base alone.
pub fn joins_change_one()
    ensures { JoinsChangeOne }
{}
