//! Laws of what an audit takes of a discovery, and of levels. The functions do nothing; their clauses are the theorems.

ghost use Rattle.std.specs.Prelude.{◌≡◌};
ghost use Rattle.audit_plan.specs.declared.levels.TheConstants.{LEVELS};
ghost use Rattle.audit_plan.specs.Laws.{CablesAreTaken, LevelsAreDistances, LidsAreTaken, TopsAreFarthest};

/// Two ports have a cable if and only if the lines of a discovery say so; the cables that join no switch have a list of their own.
pub fn cables_are_taken()
    ensures { CablesAreTaken }
{}

/// The LIDs of a discovery are the unicast LIDs that the header of a switch or the line of another port reports.
pub fn lids_are_taken()
    ensures { LidsAreTaken }
{}

/// The level of a switch is the least number of links from it to a switch to which a host is attached, if that is below 16.
pub fn levels_are_distances()
    ensures { LevelsAreDistances }
{}

/// The top switches are all those to which no host is attached, and that are as far from hosts as any switch that has a level.
pub fn tops_are_farthest()
    ensures { TopsAreFarthest }
{}

/// How many levels there are. The number is ours.
pub fn the_numbers()
    ensures { LEVELS ≡ 16 }
{}
