//! What cablings that are alike share. Each function's contract is its law; it does nothing.

ghost use Rattle.updn_routes.specs.OrderLaws.{ChoicesAreAlike, DepthsAreAlike, GraphsOfOneFabricAreAlike, LegalPathsAreAlike, NextHopsAreTheFabrics, NoneIsReachedAndRefused, OnePairIsRefused, RanksAreAlike, TreesAreAlike};

/// The ranks of switches do not depend on the order in which they stand.
pub fn ranks_are_alike()
    ensures { RanksAreAlike }
{}

/// Nor do their depths in the spanning tree, and the links of that.
pub fn trees_are_alike()
    ensures depths { DepthsAreAlike }
    ensures links { TreesAreAlike }
{}

/// Nor does between which of them up/down paths lead.
pub fn legal_paths_are_alike()
    ensures { LegalPathsAreAlike }
{}

/// It is never so that each pair has an up/down path in the one order, and some pair none in another.
pub fn none_is_reached_and_refused()
    ensures { NoneIsReachedAndRefused }
{}

/// The first pair without an up/down path, by its LIDs, is the same in every order.
pub fn one_pair_is_refused()
    ensures { OnePairIsRefused }
{}

/// The port that a switch chooses towards another does not depend on the order in which they stand.
pub fn choices_are_alike()
    ensures { ChoicesAreAlike }
{}

/// Two layouts of one good fabric, with the same LIDs, differ in the order of their switches alone.
pub fn graphs_of_one_fabric_are_alike()
    ensures { GraphsOfOneFabricAreAlike }
{}

/// By two layouts of one good fabric, with the same LIDs and roots, the switch of a GUID sends what is for a LID by the same
/// port, in whatever order a sweep found the switches.
pub fn next_hops_are_the_fabrics()
    ensures { NextHopsAreTheFabrics }
{}
