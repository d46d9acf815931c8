//! The attributes of subnet management, each 64 bytes in an SMP.
//!
//! A record is a struct of raw fields and one table of their places; contracts compare it with the list
//! of places that stands in `specs/`, in the terms of `mad_layout`. [`PortState`],
//! [`PortPhysicalState`], [`Mtu`], [`Rate`] and [`SmpAttribute`] name codes. [`PortBlock`] and
//! [`WordBlock`] are the blocks in which forwarding tables and P_Key tables travel, and [`block_place`]
//! says where an entry stands. The layouts are those of the IBA volume 1
//!, chapter 14.
#![tactic(auto)]

mod blocks;
mod laws;
mod mtu;
mod node_description;
mod node_info;
mod port_block;
mod port_info;
mod port_physical_state;
mod port_state;
mod rate;
mod smp_attribute;
mod switch_info;
mod word_block;

pub use crate::blocks::{BlockPlace, PORTS_PER_BLOCK, WORDS_PER_BLOCK, block_count, block_place};
pub use crate::laws::{
    attributes_are_encoded, blocks_tile, node_info_reads_back, port_block_reads_back,
    port_info_reads_back, switch_info_reads_back, the_numbers, word_block_reads_back,
};
pub use crate::mtu::Mtu;
pub use crate::node_description::NodeDescription;
pub use crate::node_info::NodeInfo;
pub use crate::port_block::PortBlock;
pub use crate::port_info::PortInfo;
pub use crate::port_physical_state::PortPhysicalState;
pub use crate::port_state::PortState;
pub use crate::rate::Rate;
pub use crate::smp_attribute::SmpAttribute;
pub use crate::switch_info::SwitchInfo;
pub use crate::word_block::WordBlock;
pub use fabric_parts::NodeType;
