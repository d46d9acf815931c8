//! The database of the SA: what it knows of a subnet, and what it remembers between two requests.
//!
//! A [`Store`] has the end ports of a subnet with their P_Keys, and for each partition its MLID range ([`MlidRange`]) with the
//! multicast groups and their memberships. For each port it has the services that the port registered, and the RMPP transfer to it
//! that is in progress ([`KeptPort`]). Its value is that of the definitions (`specs/Registry.antt`); how it is stored is in
//! `specs/MlidRange.antt` and `specs/Kept.antt`. It decides no request: [`Store::join`], [`Store::leave`], [`Store::set_service`]
//! and [`Store::delete_service`] make one change each, as `sa_model` and `sa_model` define it, and [`Store::receivers`] lists
//! who receives what is sent to the groups of a partition (`specs/Receiving.antt`; IBA volume 1, 15.2.5).
#![tactic(auto)]

mod by_guid;
mod group;
mod joining;
mod kept_port;
mod keys;
mod leaving;
mod members;
mod memberships;
mod mlid_range;
mod named;
mod node_port;
mod premises;
mod receivers;
mod requester;
mod services;
mod store;
mod taking;

pub use crate::group::{Group, GroupParameters, PACKET_LIFE_TIME};
pub use crate::joining::Join;
pub use crate::kept_port::KeptPort;
pub use crate::leaving::Leave;
pub use crate::members::is_in;
pub use crate::mlid_range::MlidRange;
pub use crate::node_port::NodePort;
pub use crate::premises::are_configured;
pub use crate::requester::Requester;
pub use crate::services::{Service, ServicesOfBase};
pub use crate::store::Store;
