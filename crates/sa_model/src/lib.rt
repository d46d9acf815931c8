//! What subnet administration (SA) remembers of groups and services, what it shows to a port that asks, and why it keeps
//! partitions apart. There is no code: here are definitions, and each function is a law over them.
//!
//! Multicast groups (MCMemberRecords, IBA volume 1, 15.2.5): the groups of a subnet are in `specs/Groups.antt`, what a join and a
//! leave do to them in `specs/Joining.antt` and `specs/Leaving.antt`, whom a packet reaches by them in `specs/Delivery.antt`, and
//! what of them a port sees in `specs/Sight.antt`. There is no table, block or hop in them.
//!
//! Services (ServiceRecords, IBA volume 1, 15.2.5.14): the services of a subnet are in `specs/Services.antt`, what a Set and a
//! Delete do to them in `specs/ServiceChange.antt`, and what of them a port is shown in `specs/ServiceSight.antt`.
//!
//! Queries (IBA volume 1, 15.2.1.1, 15.2.2 and 15.2.5): what a port can be shown is in `specs/Visible.antt`, as which records in
//! `specs/Shown.antt`, which of these a request selects in `specs/Selected.antt`, why it is refused in `specs/Refusals.antt`, and
//! what comes of it in `specs/Outcome.antt`.
#![tactic(auto)]

mod group_examples;
mod group_laws;
mod group_wrong_rules;
mod query_examples;
mod query_laws;
mod query_wrong_rules;
mod service_examples;
mod service_laws;
mod service_wrong_rules;

pub use crate::group_examples::{
    what_the_file_makes, which_mlids, who_joins, who_leaves, who_receives,
};
pub use crate::group_laws::{
    changes_are_reported, far_joins_are_not_seen, far_leaves_are_not_seen, groups_depend_on_near,
    joins_change_one, joins_keep_sound, leaves_are_seen_alike, leaves_keep_sound,
    mlids_report_partitions, near_joins_are_seen_alike, nothing_changes_alone,
    only_changes_are_reported, packets_reach_alike, packets_reach_those_near, partitions_stay,
    receivers_are_reached, receivers_stand_in_order, starts_are_sound, the_least_free_is_given,
};
pub use crate::group_wrong_rules::{
    limited_keepers_are_seen, mgids_alone_are_seen, one_pool_is_seen,
};
pub use crate::query_examples::{
    how_many_paths, which_bytes, which_groups, which_nodes, which_paths, which_rates,
    which_services,
};
pub use crate::query_laws::{
    answers_come_from_near, groups_are_shown_alike, paths_lead_to_near, queries_depend_on_near,
    queries_end_alike, selected_alike, selected_say_their_source, services_are_shown_alike,
    visible_comes_from_near, visible_stands_in_order,
};
pub use crate::query_wrong_rules::{
    all_of_file_is_wrong, groups_of_all_report, paths_by_base_report, services_of_ports_near_report,
};
pub use crate::service_examples::{how_many_services, who_deletes, who_sees_services};
pub use crate::service_laws::{
    deleted_services_are_gone, far_services_are_not_near, far_services_are_not_seen,
    keys_stand_by_base, near_services_stay_alike, no_services_are_sound, places_stay,
    services_are_seen_alike, services_depend_on_near, services_stay_sound, set_services_are_there,
    shown_services_are_near,
};
pub use crate::service_wrong_rules::services_of_partitions_report;
