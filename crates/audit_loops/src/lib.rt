//! The channel dependency graph of a fabric, and its cycles: credit loops.
//!
//! A channel is a port of a switch that has a cable to a switch. Which channels there are, and which waits for which along some LIDs, is
//! stated in `specs/Channels.antt`; at which switches the entries of a LID count, in `specs/Courses.antt`; which cycle is found, in
//! `specs/Cycle.antt`. [`deadlock_on`] finds one, and [`deadlock`] one along LIDs that count at all switches. `src/laws.rt` says that each
//! cycle that is found is one, and that none is missed.
#![tactic(auto)]

mod channels;
mod courses;
pub mod cycle;
mod examples;
mod laws;
mod wrong_rules;

pub use crate::channels::{all_channels, channel_at, deadlock, deadlock_on, is_channel, leaves_by};
pub use crate::courses::Course;
pub use crate::laws::{
    channels_are_reported, no_cycle_is_missed, no_cycle_is_missed_on_courses, reported_loops_wait,
    reported_loops_wait_on_courses,
};
