//! Wrong rules for which topologies have the roots, and the law that each breaks. Each function does nothing: its contract says that
//! with this rule the law is false.

ghost use Rattle.rooted_import.specs.WrongRules.{AllAreWanted, CablesAreWanted, NoOthersAreRoots, NodesAreWanted, TheManagerIsWanted};

/// If nodes might be others, one might be there that was not discovered.
pub fn nodes_are_wanted()
    ensures { NodesAreWanted }
{}

/// If cables might be others, one might be missing.
pub fn cables_are_wanted()
    ensures { CablesAreWanted }
{}

/// If the SM might be on another port, it would be.
pub fn the_manager_is_wanted()
    ensures { TheManagerIsWanted }
{}

/// If other switches might be roots too, a leaf would be one.
pub fn no_others_are_roots()
    ensures { NoOthersAreRoots }
{}

/// If top switches might be missing, a fabric would have none as roots.
pub fn all_are_wanted()
    ensures { AllAreWanted }
{}
