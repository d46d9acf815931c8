//! The path of one packet through a simulated fabric, port by port, and why it ends.
//!
//! [`steps`] follows a packet by what the switches hold, and says at each port that it comes to what becomes of it there
//! (`specs/Trace.antt`); [`trace_text`] prints that, from the port that sends it on (`specs/Lines.antt`). A port accepts a
//! packet in its trace if and only if the packet is delivered there: [`traces_report_deliveries`]. Forwarding by LID and
//! the enforcement of partitions are those of the IBA volume 1, chapter 14.
#![tactic(auto)]

mod following;
mod laws;
mod lines;
mod spread;
mod trace;
mod turn;
mod wrong_rules;

pub use crate::following::steps;
pub use crate::laws::{
    adapters_accept, the_numbers, trace_lines_are_whole, traces_have_an_end,
    traces_report_deliveries, traces_show_all_ways,
};
pub use crate::lines::trace_text;
pub use crate::turn::{Step, Turn};
