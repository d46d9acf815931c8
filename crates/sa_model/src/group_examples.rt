//! What the definitions give for one small subnet. Each function does nothing: its contract is the
//! example.

ghost use Rattle.sa_model.specs.GroupExampleLaws.{WhatTheFileMakes, WhichMlids, WhoJoins, WhoLeaves, WhoReceives};

/// A full member makes a group, and a limited member joins it and makes none.
pub fn who_joins()
    ensures { WhoJoins }
{}

/// The leave of the full member ends the group for all.
pub fn who_leaves()
    ensures { WhoLeaves }
{}

/// A partition has 32 MLIDs, and the least that is free is taken.
pub fn which_mlids()
    ensures { WhichMlids }
{}

/// A packet of a limited member to the group reaches its full member alone.
pub fn who_receives()
    ensures { WhoReceives }
{}

/// The partition file's group is there at the start.
pub fn what_the_file_makes()
    ensures { WhatTheFileMakes }
{}
