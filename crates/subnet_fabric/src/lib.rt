//! The simulated fabric of a topology, brought up: its ports named by LIDs, its tables filled, its keys in place; and commands
//! over it.
//!
//! [`set_up`] sweeps any good fabric, assigns LIDs, computes routes from the roots and pushes ports, P_Key tables and LFTs (IBA
//! volume 1, chapter 14): `specs/SetUp.antt` says what the fabric is then, and why it may not be set up. [`bring_up_fabric`]
//! powers the fabric of a topology up and sets it up (`specs/BringUp.antt`). That it is the fabric of the list of end ports, so
//! that packets go as the list reports, is the law [`a_fabric_is_brought_up_as_listed`]; that one thing becomes of a topology's
//! fabric say [`too_far_excludes_the_rest`], [`no_path_excludes_coming_up`], [`one_pair_has_no_path`] and [`one_table_is_left`].
//! While cables are cut and mended, a fabric that is set up again is that of the topology with the cables that are in place:
//! [`recabled_is_as_brought_up`] (`specs/Recabled.antt`). [`plan`] says what such a change would do (`specs/Planning.antt`).
//! [`recable`] plans it, makes it and sets the fabric up again, or leaves all as it is (`specs/Standing.antt`): the fabric stays
//! that of the list of end ports ([`a_standing_fabric_is_as_listed`]). [`set_up_over`] sets up whatever answers SMPs behind any
//! wire, and [`manage`] as the fabric of a topology (`specs/Managing.antt`).
//!
//! Who is in the subnet that a topology brings up: [`configuration_of`] and [`large_configuration_of`] are the calls: the end
//! ports in order of their LIDs, each with the keys that a partition file gives it (`specs/Ports.antt`). The end port of a switch
//! is its port 0, and each port of a channel adapter that has a cable is one (IBA volume 1, chapter 14). What is so of every such
//! list stands in `specs/EndPorts.antt`; that it is the list of the simulated fabric's end ports, and of those that a sweep
//! finds, in `specs/FabricPorts.antt`.
//!
//! A command is carried out over the fabric, and answers go back. [`send`] and [`ask`] begin: the port that the command names
//! stamps the packet, the fabric's switches forward it (IBA volume 1, chapter 14), and each port that gets it is an [`Event`];
//! what is for subnet administration is a request. [`reply`] sends what answers it, from the port that received the request. What
//! comes of each is said by what the ports and switches of the fabric hold (`specs/Sends.antt`, `specs/Replies.antt`); in the
//! fabric of a subnet's list of ports it is what that list reports.
//!
//! Such a list (`subnet_model`) knows no cable, table or hop. `specs/OfFabric.antt` says when a fabric is the one that it
//! stands for; then its ports send and refuse as the list says ([`ports_stamp_as_reported`]), and deliver what the list says
//! ([`deliveries_are_what_is_reported`], [`requests_come_to_the_manager`]).
#![tactic(auto)]

mod bring_up;
mod end_ports;
mod event;
mod fault;
mod guid_order;
mod laws;
mod managing;
mod planning;
mod port_laws;
mod recabling;
mod replying;
mod same_graph;
mod send_laws;
mod sending;
mod sent;
mod setting_up;

pub use crate::bring_up::{BroughtUp, bring_up_fabric};
pub use crate::end_ports::{configuration_of, large_configuration_of};
pub use crate::event::Event;
pub use crate::fault::FabricFault;
pub use crate::laws::{
    a_fabric_is_brought_up_as_listed, a_fabric_with_groups_is_as_listed,
    a_standing_fabric_is_as_listed, brought_up_is_up_with_all, brought_up_stands, masks_keep_it_up,
    masks_let_it_stand, no_path_excludes_coming_up, one_cabling_follows, one_fabric_stands,
    one_pair_has_no_path, one_table_is_left, recabled_is_as_brought_up, too_far_excludes_the_rest,
    what_is_up_is_sound,
};
pub use crate::managing::{Managed, manage, set_up_over};
pub use crate::planning::{Planned, plan};
pub use crate::port_laws::{
    end_ports_are_the_fabrics, end_ports_stand_in_order, sweeps_find_what_is_listed,
};
pub use crate::recabling::recable;
pub use crate::replying::{manager_key, reply};
pub use crate::send_laws::{
    deliveries_are_what_is_reported, ports_stamp_as_reported, requests_come_to_the_manager,
};
pub use crate::sending::{ask, send};
pub use crate::sent::Sent;
pub use crate::setting_up::set_up;
