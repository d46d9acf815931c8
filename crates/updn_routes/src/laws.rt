//! What follows from the definitions of routes alone. Each function's contract is its law; it does nothing.

ghost use Rattle.updn_routes.specs.Examples.{FourSwitchesMeetTheLaws, SevenSwitchesMeetTheLaws, TwoSwitchesMeetTheLaws};
ghost use Rattle.updn_routes.specs.Laws.{ChoicesLeadHome, ChoicesThereAre, EveryFabricHasRoutes, JoinedSwitchesHaveDistances, NoCycleWaits, OneChoiceIsLeft, OneDistanceIsLeft, PlacesAreTheirOwn, PlacesKeepTheChoices, PlacesKeepTheOrder, PlacesKeepTheWalks, RanksAndGuidsOrder, SidesPartTheTree, TheTreeHasSides, TheTreeLeadsToTheFirstRoot, WaysDownComeFirst};

/// If cables join all switches, each of them has a distance from the nearest of any given ones, as its rank
/// from the roots and its depth from the first root; and it has one such distance only.
pub fn joined_switches_have_distances()
    ensures some { JoinedSwitchesHaveDistances }
    ensures one { OneDistanceIsLeft }
{}

/// Ranks, and GUIDs if ranks are equal, put all switches in order, if no two of them have one GUID.
pub fn ranks_and_guids_order()
    ensures { RanksAndGuidsOrder }
{}

/// Every fabric whose switches are joined has ranks, an order of its switches, depths, and choices towards each
/// switch, whichever roots are named, and if none is.
pub fn every_fabric_has_routes()
    ensures { EveryFabricHasRoutes }
{}

/// If a port is chosen, following the choices arrives, up and then down, over fewer than twice as many
/// cables as there are switches, and over channels whose numbers rise. If none is chosen, no legal walk
/// leads there at all.
pub fn choices_lead_home()
    ensures { ChoicesLeadHome }
{}

/// Towards every switch there are choices that obey the definition, and such tables are the same: that a
/// switch's choice follows its neighbours' choices goes round in no cycle.
pub fn one_choice_is_left()
    ensures some { ChoicesThereAre }
    ensures one { OneChoiceIsLeft }
{}

/// No channel waits, over others, for itself.
pub fn no_cycle_waits()
    ensures { NoCycleWaits }
{}

/// If some walk leads down all the way, the route goes down all the way, and no such walk is shorter. So a
/// step up is taken only if none does.
pub fn ways_down_come_first()
    ensures { WaysDownComeFirst }
{}

/// Each switch but the first root has one tree port, and depth falls by one along it; so the tree ports lead
/// to the first root, in as many steps as the switch is deep.
pub fn the_tree_leads_to_the_first_root()
    ensures { TheTreeLeadsToTheFirstRoot }
{}

/// A switch lies below another in the spanning tree if the tree ports lead from it to the other: each lies below
/// itself and the first root, and what lies below a switch, and is not that switch, lies below one child of it.
///
/// So, if no two switches have one GUID, the sides of a switch, towards its parent and towards each child, part
/// the others: each other switch lies on one side; and whoever goes over the link on a side has the switch behind,
/// with all that lies on its other sides.
pub fn the_tree_has_sides()
    ensures sided { TheTreeHasSides }
    ensures parted { SidesPartTheTree }
{}

/// What is said of places holds of the switches that stand there: the order, the walks and their ports, and
/// what is chosen.
pub fn places_keep_order_and_walks()
    ensures order { PlacesKeepTheOrder }
    ensures own { PlacesAreTheirOwn }
    ensures walks { PlacesKeepTheWalks }
    ensures choices { PlacesKeepTheChoices }
{}

/// Two switches, worked out by hand, meet all that the laws ask for: so these are not proved of nothing.
pub fn the_two_switch_fabric_meets_the_laws()
    ensures { TwoSwitchesMeetTheLaws }
{}

/// So do four, two of which are roots: both have rank 0, and the second has depth 2.
pub fn the_four_switch_fabric_meets_the_laws()
    ensures { FourSwitchesMeetTheLaws }
{}

/// So do seven, one of which chooses by the routes that its neighbours take, and not by shorter ones that they
/// pass over.
pub fn the_seven_switch_fabric_meets_the_laws()
    ensures { SevenSwitchesMeetTheLaws }
{}
