//! The headline, stated so that no edit hollows it out, and the headline over texts. There is no code: each function is a law.
//!
//! The headline says of every port: what it receives depends only on the ports near it, each packet comes from one of them, and each
//! record that answers it from one of them or from the partition file. `subnet_core` promises it of `run`. Here it is a predicate over
//! a rule for what a command brings (`specs/Headline.antt`), with rules that it refuses (`specs/WrongRules.antt`).
//!
//! Over texts it says what an operator can try: which lines of a script do not matter to what a run prints of a port
//! (`specs/Texts.antt`).
#![tactic(auto)]

mod laws;
mod text_laws;
mod text_wrong_rules;
mod wrong_rules;

pub use crate::laws::{our_steps_keep_apart, runs_report_apart, scripts_are_kept_apart};
pub use crate::text_laws::runs_keep_texts_apart;
pub use crate::text_wrong_rules::{
    asks_of_far_ports_are_not_heard, cuts_are_not_heard, mends_are_not_heard,
    near_ports_are_not_left_out, sends_of_far_ports_are_not_heard,
};
pub use crate::wrong_rules::{
    cuts_are_not_told, empty_scripts_are_not_enough, far_nodes_are_not_shown,
    far_packets_are_not_delivered, far_ports_are_no_source, far_sends_are_not_repeated,
    far_tables_are_not_heard, later_answers_are_noted, no_bytes_are_refused,
    notes_are_of_their_command, nothing_noted_is_refused, refusals_stay_at_their_port,
    runs_report_no_far_packet, the_file_is_no_source_of_all, the_file_is_no_source_of_sends,
};
