//! Up/down routes between the switches of a subnet: what a route is, what follows from that, and how all of them
//! are computed.
//!
//! [`routes`] is the one call: over a graph and its LIDs it gives the [`Routes`], which keep both and report the port by
//! which a switch sends what is for a LID, the numbers of channels, and the spanning tree of multicast. The standard leaves
//! the choice of ways to a subnet manager (IBA volume 1, chapter 14).
//!
//! The cables between switches are rows of [`Link`]s, one row for each switch. `specs/Order.antt` says how far
//! switches are from roots, and which of two comes before the other: a step is up if it goes to the one that
//! does. `specs/UpDown.antt` says which walks are legal, `specs/Choice.antt` which port a switch chooses towards
//! another, `specs/Ties.antt` which of several that lead equally far, `specs/Tree.antt` by which port it is joined to the spanning tree of multicast, `specs/Sides.antt` what
//! lies on which side of it there, and `specs/Routes.antt` what routes answer. Laws over these definitions stand in
//! `src/laws.rt`.
//!
//! Routes do not depend on the order in which a sweep found the switches (`src/order_laws.rt`). `specs/Alike.antt` says when two
//! cablings differ in the order of their switches alone. Then switches have the same ranks in both, up/down paths (up, and then
//! down) lead between the same switches, a switch chooses the same port towards another, and the first pair that none joins is
//! the same by its LIDs. Two layouts of one fabric are so, and then each switch, by its GUID, has the same next hops. Sweeps and
//! routes are those of the IBA volume 1, chapter 14.
#![tactic(auto)]

mod answer;
mod cabling;
mod distance;
mod fault;
mod laws;
mod link;
mod order_laws;
mod place;
mod root;
mod routing;
mod row;
mod subnet_routes;
mod table;
mod tie_laws;
mod tie_rule;

pub use crate::answer::SwitchRoutes;
pub use crate::cabling::are_switches;
pub use crate::fault::RouteFault;
pub use crate::laws::{
    choices_lead_home, every_fabric_has_routes, joined_switches_have_distances, no_cycle_waits,
    one_choice_is_left, places_keep_order_and_walks, ranks_and_guids_order,
    the_four_switch_fabric_meets_the_laws, the_seven_switch_fabric_meets_the_laws,
    the_tree_has_sides, the_tree_leads_to_the_first_root, the_two_switch_fabric_meets_the_laws,
    ways_down_come_first,
};
pub use crate::link::Link;
pub use crate::order_laws::{
    choices_are_alike, graphs_of_one_fabric_are_alike, legal_paths_are_alike,
    next_hops_are_the_fabrics, none_is_reached_and_refused, one_pair_is_refused, ranks_are_alike,
    trees_are_alike,
};
pub use crate::routing::{routes, routes_over};
pub use crate::row::Row;
pub use crate::subnet_routes::Routes;
pub use crate::tie_laws::{
    adapters_ports_are_numbered, balanced_ties_are_shared, the_first_tie_is_the_least,
    wrong_numbers_are_refused, wrong_rules_of_ties_are_refused,
};
pub use crate::tie_rule::TieRule;
