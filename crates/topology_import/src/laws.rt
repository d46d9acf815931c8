//! What is so of every topology that is given, and the wrong rules that break it. The functions do nothing; their clauses
//! are the theorems.

ghost use Rattle.topology_import.specs.Laws.{OthersAreReported};
ghost use Rattle.topology_import.specs.WrongRules.{CablesAreWanted, EndsAreWanted, LinesAreWanted, NearEndsAloneAreNotEnough, NoRootsAreWanted};
ghost use Rattle.topology_import.specs.WrongRules.{SwitchesAreJoinedToo, TheManagerIsWanted};

/// A topology that passes the test of this crate is that of the discovery.
pub fn others_are_reported()
    ensures { OthersAreReported }
{}

/// If adapters may have any ports besides, one may have a port that was not discovered.
pub fn ends_are_wanted()
    ensures { EndsAreWanted }
{}

/// If no line is asked for its cable, an end port may have none.
pub fn lines_are_wanted()
    ensures { LinesAreWanted }
{}

/// If lines of switches are not asked for theirs, two switches may have none.
pub fn switches_are_joined_too()
    ensures { SwitchesAreJoinedToo }
{}

/// If no cable is asked for its lines, ports may be joined that no lines join.
pub fn cables_are_wanted()
    ensures { CablesAreWanted }
{}

/// If the subnet manager may be anywhere, it may be on no port at all.
pub fn the_manager_is_wanted()
    ensures { TheManagerIsWanted }
{}

/// If no one looks at roots, a switch may be named as one.
pub fn no_roots_are_wanted()
    ensures { NoRootsAreWanted }
{}

/// If a cable need only end at the port of a line, two adapters may have changed places.
pub fn near_ends_alone_are_not_enough()
    ensures { NearEndsAloneAreNotEnough }
{}
