//! What a subnet is, and why its partitions keep apart.
//!
//! Here are the definitions that the product's promises are made of: who is near whom
//! (`specs/Near.antt`), whom a packet reaches (`specs/Delivery.antt`), what a list of commands brings
//! about (`specs/Report.antt`), and the sentence itself, that what a port receives depends only on
//! the ports near it (`specs/Isolation.antt`). No cable, table or hop bears on them: a subnet is a
//! list of ports with their LIDs and keys (IBA volume 1, chapter 14), and a cable that is cut or mended
//! brings nobody anything. Who answers what ports send to
//! subnet administration is a parameter of them (`specs/Administrator.antt`): whoever keeps ports apart
//! leaves every run isolated ([`every_keeper_isolates`]).
#![tactic(auto)]

mod command;
mod configuration;
mod event;
mod group_receiver;
mod laws;
mod lids;
mod nearness;
mod node_name;
mod subnet_port;

pub use crate::command::{AskCommand, CableCommand, Command, SendCommand};
pub use crate::configuration::Configuration;
pub use crate::event::{Outcome, PortEvent};
pub use crate::group_receiver::GroupReceiver;
pub use crate::laws::{
    every_keeper_isolates, far_sources_are_far, groups_reach_others,
    replies_are_under_the_managers_key, restrictions_drop_cables, slids_name_their_ports,
    sources_are_read, the_port_of_a_lid_is_near, wrong_reply_keys_are_refused,
};
pub use crate::lids::{lid_of, lids_of};
pub use crate::nearness::{is_near, near};
pub use crate::node_name::NodeName;
pub use crate::subnet_port::SubnetPort;
