//! What subnet administration (SA) answers, as MADs, and what each port receives in whole runs with it. There is no code: here are
//! definitions, and each function is a law over them.
//!
//! One MAD: what it asks (`specs/Request.antt`), how it is answered
//! (`specs/Reply.antt`), what joins, leaves, Sets and Deletes bring (`specs/Joins.antt`,
//! `specs/ServiceRequests.antt`), tables in segments (`specs/Transfers.antt`), all of it together
//! (`specs/Answer.antt`), and beside it what the bytes of records come from (`specs/Notes.antt`): IBA
//! volume 1, 13.4.5, 15.2.1.1, 15.2.2 and 15.2.5.
//!
//! Whole runs: `subnet_model` says what happens in a subnet whoever answers what is asked of the SA; here it is this SA
//! (`specs/Administration.antt`), with the way in which a port that asks acknowledges a table (`specs/Asking.antt`): IBA volume 1,
//! chapters 13 and 15. The sentence is [`runs_are_isolated`]: whatever ports send and
//! ask, what a port receives depends only on the ports near it; and [`records_come_from_near`]: each byte of a record among
//! it comes from one of them, or from the partition file.
//!
//! Requests in the words of the standard (IBA volume 1, 15.2.1.1, 15.2.2 and 15.2.5): what a join leaves (`specs/Entered.antt`),
//! what a leave leaves (`specs/Left.antt`), that only fields that the ComponentMask names are looked at (`specs/Named.antt`), and
//! which requests are refused (`specs/Refused.antt`). Each is stated of any rule for answers, and `specs/RequestWrongRules.antt`
//! has rules that it refuses.
#![tactic(auto)]

mod examples;
mod laws;
mod request_laws;
mod request_wrong_rules;
mod run_examples;
mod run_laws;
mod run_wrong_rules;
mod wrong_rules;

pub use crate::examples::{
    how_many_services, what_leaves_a_table, which_partitions, which_path, which_segments,
    which_speeds, who_is_in_groups, who_is_refused, who_only_sends,
};
pub use crate::laws::{
    answers_are_seen_alike, answers_keep_sound, answers_keep_states, answers_report_from_near,
    data_is_noted, far_requests_are_not_seen, join_replies_come_from_near, notes_encode_tables,
    notes_stand_beside, numbers_are_as_asked, others_change_no_receivers,
    refused_change_no_receivers, refused_change_nothing, requesters_are_answered_alike,
    requests_leave_the_rest, service_replies_come_from_near, services_deleted_are_gone,
    services_set_are_there, starts_are_states, the_greatest_is_taken, transfers_go_by_five_fields,
};
pub use crate::request_laws::{
    join_states_are_bits, joins_leave_the_rest_alone, leaves_leave_the_rest_alone,
    only_named_fields_count, requests_are_refused_by_reasons,
};
pub use crate::request_wrong_rules::{
    anchored_groups_stay, counts_are_named, gids_are_judged_first, groups_end_with_their_anchors,
    hop_limits_are_named, join_states_are_in_order, joiners_are_no_makers,
    joiners_throw_nobody_out, joins_are_compared_by_class, joins_are_compared_by_life_time,
    joins_change_no_parameters, joins_move_no_group, joins_name_their_port, leases_are_named,
    leaves_name_their_port, makers_name_the_class, makers_name_the_key, methods_are_judged_first,
    mgids_are_multicast, missing_services_are_not_deleted, new_groups_have_their_maker,
    other_bits_stay, others_do_not_leave, paths_name_their_sender, proxies_are_named,
    proxies_are_refused, scopes_are_named, sets_name_their_gid, sets_name_their_partition,
    several_are_too_many, unnamed_hop_limits_are_zero,
};
pub use crate::run_examples::{what_asking_brings, what_records_come_from, who_hears_a_group};
pub use crate::run_laws::{
    administration_keeps_apart, notes_stand_beside_runs, open_tables_are_noted,
    records_come_from_near, runs_are_isolated, runs_are_states, runs_name_sources, runs_stay_sound,
    sight_shows_all, states_depend_on_near, steps_name_notes, tables_are_brought_whole,
};
pub use crate::run_wrong_rules::what_is_shown_is_less;
pub use crate::wrong_rules::{
    all_nodes_report, lost_places_are_missed, nothing_noted_is_less, one_table_reports,
};
