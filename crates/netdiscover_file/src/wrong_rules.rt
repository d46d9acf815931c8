//! Wrong rules for what agrees, and the law that each breaks, so that a reader sees that the laws say something. Each
//! function does nothing: its contract says that with this rule the law is false.

ghost use Rattle.netdiscover_file.specs.WrongRules.{ANodeMayBeJoinedToItself, FarEndsAloneAreNotEnough, NodesAloneAreNotEnough};
ghost use Rattle.netdiscover_file.specs.WrongRules.{NumbersAloneAreNotEnough, OtherEndsAloneMayBeTwo, OtherSwitchesAreWanted};
ghost use Rattle.netdiscover_file.specs.WrongRules.{PortsAloneAreNotEnough, SomeGuidsAreFree};

/// If a far end need only be there, a line may have none that leads back.
pub fn far_ends_alone_are_not_enough()
    ensures { FarEndsAloneAreNotEnough }
{}

/// If both ends need only name one another's nodes and numbers, they may report the GUID of another port.
pub fn numbers_alone_are_not_enough()
    ensures { NumbersAloneAreNotEnough }
{}

/// If a cable must join two nodes, one between two ports of a node is reported to be wrong.
pub fn a_node_may_be_joined_to_itself()
    ensures { ANodeMayBeJoinedToItself }
{}

/// If two lines may be of one port, two may lead back to one line.
pub fn other_ends_alone_may_be_two()
    ensures { OtherEndsAloneMayBeTwo }
{}

/// If a new node need only have a GUID of its own, two ports may share one.
pub fn nodes_alone_are_not_enough()
    ensures { NodesAloneAreNotEnough }
{}

/// If the port of a new node need only have a GUID of its own, two nodes may share one.
pub fn ports_alone_are_not_enough()
    ensures { PortsAloneAreNotEnough }
{}

/// If GUIDs need only be new, those that the line before reported may be another switch's.
pub fn other_switches_are_wanted()
    ensures { OtherSwitchesAreWanted }
{}

/// If the GUID of every node counts as taken, a node with a GUID of its own is refused.
pub fn some_guids_are_free()
    ensures { SomeGuidsAreFree }
{}
