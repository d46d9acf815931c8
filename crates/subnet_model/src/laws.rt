//! Isolation, over the definitions alone, which no code can change. Each function does nothing: its
//! contract is the law.

ghost use Rattle.subnet_model.specs.Groups.{GroupsReachOthers};
ghost use Rattle.subnet_model.specs.Laws.{EveryKeeperIsolates, RestrictionsDropCables, SlidsNameTheirPorts, SourcesAreRead, ThePortOfALidIsNear};
ghost use Rattle.subnet_model.specs.ReplyKeys.{RepliesAreUnderTheManagersKey, WrongReplyKeysAreRefused};
ghost use Rattle.subnet_model.specs.WrongRules.{DestinationsAreNoSources, NotAllComesFromNear};

/// Whoever answers what is asked of the subnet administration: if it keeps ports apart, so does a subnet. A command
/// of a port that is far from another brings that one no event, and leaves a state that is alike to it; one of a port
/// near it brings it the same events in states that are alike, and leaves them alike.
pub fn every_keeper_isolates<S, V>()
    ensures { EveryKeeperIsolates S V }
{}

/// A restriction to ports drops what happens to cables, so that what a port receives does not depend on it.
pub fn restrictions_drop_cables()
    ensures { RestrictionsDropCables }
{}

/// A multicast group brings a packet to each port that has joined it and may receive the packet, but not to its sender.
pub fn groups_reach_others()
    ensures { GroupsReachOthers }
{}

/// A LID that only one port has is that port's: if it is the LID of a port near another, that port is
/// near it.
pub fn the_port_of_a_lid_is_near()
    ensures { ThePortOfALidIsNear }
{}

/// If no two ports have one LID, what a port receives comes from the ports near it.
pub fn slids_name_their_ports()
    ensures { SlidsNameTheirPorts }
{}

/// If no two ports have one LID, a packet comes from near a port if and only if its SLID is the LID of a port near it.
pub fn sources_are_read()
    ensures { SourcesAreRead }
{}

/// A rule that passes every packet as from near a port is refused, and so is one that reads the DLID for the SLID.
pub fn far_sources_are_far()
    ensures all { NotAllComesFromNear }
    ensures destinations { DestinationsAreNoSources }
{}

/// Whoever answers what is asked of the subnet administration: each reply is under a key that the SM port holds, of the
/// partition under whose key it was asked.
pub fn replies_are_under_the_managers_key<S>()
    ensures { RepliesAreUnderTheManagersKey S }
{}

/// Refused as the key of replies: the full form of ours, its base alone, and the key of the default partition.
pub fn wrong_reply_keys_are_refused()
    ensures { WrongReplyKeysAreRefused }
{}
