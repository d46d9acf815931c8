//! The laws of requests for records, over the definitions alone. Each function does nothing: its contract
//! is the law.

ghost use Rattle.sa_model.specs.QueryLaws.{AnswersComeFromNear, GroupsAreShownAlike, QueriesDependOnNear, QueriesEndAlike, SelectedAlike, ServicesAreShownAlike, VisibleComesFromNear};
ghost use Rattle.sa_model.specs.NamedSources.{SelectedSayTheirSource};
ghost use Rattle.sa_model.specs.Order.{VisibleStandsInOrder};
ghost use Rattle.sa_model.specs.Shares.{SharingIsOneThing};
ghost use Rattle.sa_model.specs.QueryWrongRules.{PathsLeadToNear, ServicesStandInOrder};
ghost use Rattle.sa_model.specs.ServicesShown.{ServicesAreShownToSpeakers};

/// If a port sees the same of the groups of two states, it is shown the same of them.
pub fn groups_are_shown_alike()
    ensures { GroupsAreShownAlike }
{}

/// If the services that a port may be shown are the same in two states, it is shown the same of them.
pub fn services_are_shown_alike()
    ensures { ServicesAreShownAlike }
{}

/// If a port sees the same in two states, a request of it selects the same.
pub fn selected_alike()
    ensures { SelectedAlike }
{}

/// If a port sees the same in two states, a request of it ends alike.
pub fn queries_end_alike()
    ensures { QueriesEndAlike }
{}

/// Whatever ports did before, a request ends as it would if the ports near its requester alone had done it.
pub fn queries_depend_on_near()
    ensures { QueriesDependOnNear }
{}

/// All that is visible to a port comes from a port near it or from the partition file.
pub fn visible_comes_from_near()
    ensures { VisibleComesFromNear }
{}

/// Each record by which a port is answered comes from a port near it or from the partition file.
pub fn answers_come_from_near()
    ensures { AnswersComeFromNear }
{}

/// Each record that is selected has the source that it comes from: a node its port, a path the port that it leads to, a
/// service its port, as the records themselves name them, and a group who made it.
pub fn selected_say_their_source()
    ensures { SelectedSayTheirSource }
{}

/// Paths lead only to ports near the one that they are shown to.
pub fn paths_lead_to_near()
    ensures { PathsLeadToNear }
{}

/// Two ports of a configured subnet share a base or they do not: a path between them is visible if and only if it is under a key that
/// the first holds of a base that they share, a node if and only if it is the port's own or they share some base, and
/// services of a base if and only if they share it.
pub fn sharing_is_one_thing()
    ensures { SharingIsOneThing }
{}

/// Services are visible by the LID of their port, then by base, and then by ServiceID.
pub fn services_stand_in_order()
    ensures { ServicesStandInOrder }
{}

/// Nodes are visible by LID, paths by the LID that they lead to and then by base, groups by MLID, and services by the LID
/// of their port, base and ServiceID, if the subnet is configured and the state has its partitions and places.
pub fn visible_stands_in_order()
    ensures { VisibleStandsInOrder }
{}

/// A port is shown its own services, and those that a port offers in a partition of which both are members, at least one of
/// them a full one: these and no others.
pub fn services_are_shown_to_speakers()
    ensures { ServicesAreShownToSpeakers }
{}
