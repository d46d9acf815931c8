//! Wrong rules for answers, and the law that refuses each, so that a reader sees that the laws say something. Each function
//! does nothing: its contract is the refusal.

ghost use Rattle.sa_replies.specs.RequestWrongRules.{AnchoredGroupsStay, GroupsEndWithTheirAnchors, JoinersAreNoMakers, JoinersThrowNobodyOut, JoinsChangeNoParameters, JoinsMoveNoGroup, OthersDoNotLeave};
ghost use Rattle.sa_replies.specs.RequestWrongRules.{MethodsAreJudgedFirst, MissingServicesAreNotDeleted, NewGroupsHaveTheirMaker, SeveralAreTooMany};
ghost use Rattle.sa_replies.specs.RequestWrongRules.{JoinsAreComparedByLifeTime, MakersNameTheClass, ProxiesAreRefused, SetsNameTheirGid, UnnamedHopLimitsAreZero};
ghost use Rattle.sa_replies.specs.RequestWrongRules.{JoinStatesAreInOrder, MgidsAreMulticast, OtherBitsStay};
ghost use Rattle.sa_replies.specs.RequestWrongRules.{CountsAreNamed, HopLimitsAreNamed, LeasesAreNamed, ProxiesAreNamed, ScopesAreNamed};
ghost use Rattle.sa_replies.specs.RequestWrongRules.{GidsAreJudgedFirst, JoinsAreComparedByClass, JoinsNameTheirPort, LeavesNameTheirPort, MakersNameTheKey, PathsNameTheirSender, SetsNameTheirPartition};

/// A full member that joins becomes the maker of the group: refused, since the maker is as before.
pub fn joiners_are_no_makers()
    ensures { JoinersAreNoMakers }
{}

/// A join throws the other members out: refused, since every other registration is as before.
pub fn joiners_throw_nobody_out()
    ensures { JoinersThrowNobodyOut }
{}

/// A join moves the group to another MLID: refused, since the MLID is as before.
pub fn joins_move_no_group()
    ensures { JoinsMoveNoGroup }
{}

/// A join changes the group's Q_Key: refused, since the parameters are as before.
pub fn joins_change_no_parameters()
    ensures { JoinsChangeNoParameters }
{}

/// A full member's leave ends a group that another full member anchors: refused, since an anchored group stays.
pub fn anchored_groups_stay()
    ensures { AnchoredGroupsStay }
{}

/// A leave takes the bits of all ports: refused, since every other registration is as before.
pub fn others_do_not_leave()
    ensures { OthersDoNotLeave }
{}

/// A group stays that nobody anchors: refused, since a group that is there is anchored or the partition file's.
pub fn groups_end_with_their_anchors()
    ensures { GroupsEndWithTheirAnchors }
{}

/// A new group's HopLimit is taken from the data whatever the mask: refused, since the mask does not name it.
pub fn hop_limits_are_named()
    ensures { HopLimitsAreNamed }
{}

/// A new group's Scope is taken from the data whatever the mask: refused, since the mask does not name it.
pub fn scopes_are_named()
    ensures { ScopesAreNamed }
{}

/// A join is refused by its ProxyJoin whatever the mask: refused, since the mask does not name it.
pub fn proxies_are_named()
    ensures { ProxiesAreNamed }
{}

/// A service's lease is kept whatever the mask: refused, since the mask does not name it.
pub fn leases_are_named()
    ensures { LeasesAreNamed }
{}

/// Paths are counted by NumbPath whatever the mask: refused, since the mask does not name it.
pub fn counts_are_named()
    ensures { CountsAreNamed }
{}

/// A join that does not name PortGID is answered by status 0: refused, since its status is 0x0600.
pub fn joins_name_their_port()
    ensures { JoinsNameTheirPort }
{}

/// A group is made by a join that does not name Q_Key: refused, since the status is 0x0600.
pub fn makers_name_the_key()
    ensures { MakersNameTheKey }
{}

/// A leave that does not name PortGID is answered by status 0: refused, since its status is 0x0600.
pub fn leaves_name_their_port()
    ensures { LeavesNameTheirPort }
{}

/// A service is set by a request that does not name ServiceP_Key: refused, since the status is 0x0600.
pub fn sets_name_their_partition()
    ensures { SetsNameTheirPartition }
{}

/// Paths are reported to a GetTable that names neither SGID nor SLID: refused, since the status is 0x0600.
pub fn paths_name_their_sender()
    ensures { PathsNameTheirSender }
{}

/// A join that names another TClass than the group's is answered by status 0: refused, since its status is 0x0200.
pub fn joins_are_compared_by_class()
    ensures { JoinsAreComparedByClass }
{}

/// A request with another port's GID has status 0x0200: refused, since the status is 0x0500.
pub fn gids_are_judged_first()
    ensures { GidsAreJudgedFirst }
{}

/// A new group is the partition file's: refused, since the requester is its maker.
pub fn new_groups_have_their_maker()
    ensures { NewGroupsHaveTheirMaker }
{}

/// A Get of several records is answered by status 0: refused, since its status is 0x0400.
pub fn several_are_too_many()
    ensures { SeveralAreTooMany }
{}

/// The Delete of a service that is not there is answered by status 0: refused, since its status is 0x0300.
pub fn missing_services_are_not_deleted()
    ensures { MissingServicesAreNotDeleted }
{}

/// A request by an unknown method has status 0x000C: refused, since the status is 0x0008.
pub fn methods_are_judged_first()
    ensures { MethodsAreJudgedFirst }
{}

/// A group is made by a join that does not name TClass: refused, since the status is 0x0600.
pub fn makers_name_the_class()
    ensures { MakersNameTheClass }
{}

/// A service is set by a request that does not name ServiceGID: refused, since the status is 0x0600.
pub fn sets_name_their_gid()
    ensures { SetsNameTheirGid }
{}

/// A join that wants a greater PacketLifeTime than the group's is answered by status 0: refused, since its status is 0x0200.
pub fn joins_are_compared_by_life_time()
    ensures { JoinsAreComparedByLifeTime }
{}

/// A join by a proxy is answered by status 0: refused, since its status is 0x0200.
pub fn proxies_are_refused()
    ensures { ProxiesAreRefused }
{}

/// A new group's HopLimit is taken from the data whatever the mask: refused, since it is 0 if the mask does not name it.
pub fn unnamed_hop_limits_are_zero()
    ensures { UnnamedHopLimitsAreZero }
{}

/// NonMember and SendOnlyNonMember of a JoinState are turned round: refused, since bit 1 is NonMember.
pub fn join_states_are_in_order()
    ensures { JoinStatesAreInOrder }
{}

/// A leave with some bits takes all of the port's: refused, since the others stay.
pub fn other_bits_stay()
    ensures { OtherBitsStay }
{}

/// A group is made whose MGID begins with the byte 0xfe: refused, since the status is 0x0200.
pub fn mgids_are_multicast()
    ensures { MgidsAreMulticast }
{}
