//! Laws that join what other crates do: bring-up and audit, both forms of `load`, traces and loads, and what is printed of each
//! list. There is no code: each function is a law.
//!
//! The tables that our own bring-up writes pass our own audit: `subnet_fabric` brings the fabric of a topology up, and
//! `audit_routes` judges the tables that a dump shows, whichever subnet manager wrote them. Here both meet: of a fabric that is
//! brought up, whatever dump shows what its switches hold (`specs/Shown.antt`) passes the audit, and there is such a dump
//! (`specs/OwnTables.antt`). `specs/RouteLaws.antt` has the statements.
//!
//! The two forms of `fabric load` print the same. `load TOPO PARTS` counts by the LFTs that the simulated switches hold, `load
//! TOPO --dump DUMP` by a text in the form of `dump_fts`. `specs/Alike.antt` says what of a dump the loads depend on,
//! `specs/Held.antt` which dumps report all that the switches of a fabric hold, and `specs/LoadLaws.antt` has the statements:
//! what `fabric tables` prints is such a dump.
//!
//! A trace and the loads of links agree. `packet_trace` follows a packet through the simulated fabric by what its switches do;
//! `audit_loads` follows a LID by the entries of LFTs that a dump shows. Here both meet: a packet that is accepted leaves
//! switches by the ports by which it loads cables, and by no others (`specs/TraceLaws.antt`).
//!
//! What a command prints of a list has a line for each of it, however long it is. `specs/LineLaws.antt` has the statements, of
//! the texts that `check`, `shares`, `diff`, `cuts`, `tables`, `keys`, `trace` and `graph` print. For the texts of audits and
//! loads their own crates have such laws.
#![tactic(auto)]

mod line_laws;
mod line_wrong_rules;
mod load_laws;
mod load_wrong_rules;
mod route_laws;
mod trace_laws;
mod trace_wrong_rules;
mod wrong_tables;

pub use crate::line_laws::{
    all_changes_are_printed, all_cuts_are_printed, all_entries_are_printed, all_is_drawn,
    all_keys_are_printed, all_members_are_listed, all_shares_are_printed, all_steps_are_printed,
    all_tables_are_printed,
};
pub use crate::line_wrong_rules::{
    all_ports_are_listed, keys_of_all_ports_count, lost_entries_are_printed, many_ports_have_sums,
    no_cable_is_left_out, nodes_are_drawn_too, refusals_are_printed, tables_of_all_switches_count,
    what_goes_is_printed_too,
};
pub use crate::load_laws::{
    loads_are_of_entries, loads_are_of_what_is_held, no_link_is_left_out, own_rows_show_all,
    tables_are_read_back, the_forms_agree,
};
pub use crate::load_wrong_rules::{
    a_row_less_is_not_alike, end_ports_do_not_decide, rows_do_not_count,
};
pub use crate::route_laws::{
    a_dump_shows_what_is_held, it_is_sound, it_names_each_port, own_routes_are_safe,
    own_routes_pass, routes_are_safe_with_cables_down, some_switch_carries_a_host,
};
pub use crate::trace_laws::{loads_follow_traces, own_loads_follow_traces};
pub use crate::trace_wrong_rules::last_cables_load_too;
pub use crate::wrong_tables::{
    a_cycle_is_not_free, a_dead_end_does_not_pass, a_hole_does_not_pass, a_loop_does_not_pass,
    a_waiting_ring_does_not_pass, a_wrong_end_does_not_pass, no_entries_do_not_pass,
};
