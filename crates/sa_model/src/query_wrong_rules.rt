//! Wrong rules for what is shown, and the law that each breaks, so that a reader sees that the laws say something. Each
//! function does nothing: its contract is the law.

ghost use Rattle.sa_model.specs.QueryWrongRules.{AllOfFileIsWrong, CommonBasesAreNotShared, GroupsOfAllReport, OwnFirstIsOutOfOrder, PathsByBaseReport, ServicesOfPortsNearReport};
ghost use Rattle.sa_model.specs.ServicesShown.{WrongSightsAreRefused};

/// With a path in each common partition, one limited member is shown another.
pub fn paths_by_base_report()
    ensures { PathsByBaseReport }
{}

/// Two limited members share no base, so that a path in each common partition is one too many.
pub fn common_bases_are_not_shared()
    ensures { CommonBasesAreNotShared }
{}

/// If groups of all partitions are shown, a port is shown what it has no part in.
pub fn groups_of_all_report()
    ensures { GroupsOfAllReport }
{}

/// If a port is shown all services of the ports near it, one limited member is shown another's services.
pub fn services_of_ports_near_report()
    ensures { ServicesOfPortsNearReport }
{}

/// To say of each record that it comes from the partition file is refused: a node comes from its port.
pub fn all_of_file_is_wrong()
    ensures { AllOfFileIsWrong }
{}

/// If a port is shown its own services before those of others, they do not stand by LID.
pub fn own_first_is_out_of_order()
    ensures { OwnFirstIsOutOfOrder }
{}

/// Refused as to which services a port is shown: all of the ports near it, all of the partitions of which it is a member, and
/// its own alone.
pub fn wrong_sights_are_refused()
    ensures { WrongSightsAreRefused }
{}
