//! Whole runs: the texts of a topology, of partitions and of a script in, a report out.
//!
//! [`run`] is the call that the product is named for. Its clause `exact` says that its answer is what the three texts stand for
//! (`specs/Run.antt`), and its clause `apart` that what a port receives depends only on the ports that share a partition with it
//! (`specs/Headline.antt`). [`bring_up`], [`Subnet::parse`] and [`Subnet::step`] do the same piece by piece, and [`Report::text`]
//! prints it. A subnet is brought up over the simulated fabric of its topology, and `specs/BringUp.antt` says when that fails;
//! each step carries its command over that fabric (`specs/Senders.antt`), and gives the events, and leaves the memberships, that
//! the list of ports gives (`specs/Answering.antt`). Who is in a subnet takes no fabric: [`read_inventory`] reads it, of any size
//! [`read_large_inventory`], and [`Inventory::listing`] prints it (`specs/Listing.antt`). [`manage`] sets up a fabric behind any
//! wire as that of an inventory, and [`up_text`] prints that it is up (`specs/Managing.antt`).
//!
//! A fabric under subnet administration (`src/administrator.rt`, `src/administering.rt`): [`answer`] has an [`Administrator`],
//! which has a [`sa_answer::Registry`], handle what a port sends, and if the receivers of some partitions changed, pushes what
//! changes of the MLID ranges of these (IBA volume 1, chapters 14 and 15). If a cable is cut or mended, [`recable`] sets the
//! fabric up again, and pushes the MLID ranges in which somebody receives by its new routes. At all times the fabric is up with
//! the cables that are in place, with the masks of exactly those who receive (`specs/Served.antt`). So it is the fabric of the
//! list of its ports and of the groups that are remembered ([`a_served_fabric_is_as_listed`]), from before the first command on
//! ([`starts_are_served`]).
#![tactic(auto)]

mod acknowledging;
mod administering;
mod administration_laws;
mod administrator;
mod answering;
mod bringing_up;
mod comparing;
mod event_lines;
mod fault;
mod inventory;
mod large_inventory;
mod laws;
mod leaving;
mod listing;
mod lookup;
mod managing;
mod mlid_ranges;
mod recabling;
mod received;
mod report;
mod running;
mod stream;
mod streaming;
mod subnet;

pub use crate::administering::{AnswerFault, answer};
pub use crate::administration_laws::{
    a_served_fabric_has_no_idle_bits, a_served_fabric_is_as_listed, one_fabric_is_served,
    starts_are_served,
};
pub use crate::administrator::Administrator;
pub use crate::bringing_up::{bring_up, bring_up_by};
pub use crate::comparing::{Comparison, compare};
pub use crate::fault::{RunFault, StepFault};
pub use crate::inventory::{Inventory, read_inventory};
pub use crate::large_inventory::{LargeInventory, read_large_inventory};
pub use crate::laws::{
    all_ports_are_not_near, counted_events_report_of_far_ports, deliveries_are_reported,
    each_command_names_a_sender, near_is_listed, one_fabric_is_left, one_thing_becomes_of_a_fabric,
    refused_cuts_change_nothing, report_lines_are_whole, streams_keep_partitions_apart,
    texts_have_one_answer, two_runs_agree, wrong_steps_are_refused,
};
pub use crate::leaving::left_by;
pub use crate::managing::{manage, up_text};
pub use crate::recabling::{Listed, recable};
pub use crate::report::Report;
pub use crate::running::run;
pub use crate::streaming::run_stream;
pub use crate::subnet::Subnet;
pub use script_lines::ScriptCause;
pub use subnet_fabric::Event;
pub use subnet_model::Command;
