//! What subnet administration answers in one small subnet. Each function does nothing: its contract is the
//! example.

ghost use Rattle.sa_replies.specs.ExampleLaws.{HowManyServices, WhatLeavesATable, WhichPartitions, WhichPath, WhichSegments, WhichSpeeds, WhoIsInGroups, WhoIsRefused, WhoOnlySends};

/// A full member makes a group and a limited one joins it; the full member's leave ends it.
pub fn who_is_in_groups()
    ensures { WhoIsInGroups }
{}

/// A limited member's Get of the path to a full member is answered by it.
pub fn which_path()
    ensures { WhichPath }
{}

/// A table goes out in segments, as ACKs ask for them, and each port has one of its own.
pub fn which_segments()
    ensures { WhichSegments }
{}

/// What is not asked as we ask is refused by its status, or not answered.
pub fn who_is_refused()
    ensures { WhoIsRefused }
{}

/// Groups are named by base and MGID: a leave ends them in each partition, or in the one that it names.
pub fn which_partitions()
    ensures { WhichPartitions }
{}

/// A group takes the greatest MTU and the fastest rate that its maker's selectors leave.
pub fn which_speeds()
    ensures { WhichSpeeds }
{}

/// Who joins a group to send alone receives nothing.
pub fn who_only_sends()
    ensures { WhoOnlySends }
{}

/// A MAD that is no ACK of a segment of the transfer in progress, no STOP and no ABORT leaves the transfer in progress.
pub fn what_leaves_a_table()
    ensures { WhatLeavesATable }
{}

/// A port sets at most 16 services in a partition, and deletes one once.
pub fn how_many_services()
    ensures { HowManyServices }
{}
