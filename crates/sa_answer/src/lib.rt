//! The SA in code: what the end ports of a subnet request, and how they are answered.
//!
//! A [`Registry`] has the database of a subnet's SA (`sa_store`), whose value is its own. It answers each MAD as `sa_replies`
//! defines (`specs/Answering.antt`): Get and GetTable of NodeRecord, PathRecord, MCMemberRecord and ServiceRecord, Set and Delete
//! of MCMemberRecord, which are joins and leaves, and of ServiceRecord, the MADs of RMPP transfers, and what is refused whatever it
//! asks for; IBA volume 1, 13.4.5, 15.2.1.1, 15.2.2 and 15.2.5. Each answer names the partitions whose receivers changed.
#![tactic(auto)]

mod answering;
mod change;
mod dispatch;
mod gid;
mod group_requests;
mod joins;
mod mc_member;
mod node;
mod outcome;
mod parameters;
mod path;
mod questions;
mod reaction;
mod registry;
mod reply;
mod request;
mod service;
mod service_requests;
mod taken;
mod transfers;
mod wanted;

pub use crate::reaction::Reaction;
pub use crate::registry::Registry;
pub use sa_store::{NodePort, are_configured};
