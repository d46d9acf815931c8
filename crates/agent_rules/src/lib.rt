//! What the agents of subnet management share, whatever kind of node they answer for.
//!
//! [`is_request`], [`attribute_asked`] and [`put_reply`] read a request and write its reply,
//! [`port_info_after`] is a Set of PortInfo, [`word_block_at`] and [`set_word_block`] read and set a
//! block of a table of keys or masks. [`port_info_at_power_up`] and its like say what a simulated node
//! has at power-up, by its [`PortLink`]s. A kind of node adds what it gives for a Get and what it takes from
//! a Set (`specs/Agent.antt`). The rules are those of the IBA volume 1
//!, chapters 13 and 14; what a node has at power-up is ours.
#![tactic(auto)]

mod carried;
mod laws;
mod link;
mod local_port;
mod port_setting;
mod power_up;
mod request;
mod word_table;

pub use crate::carried::{linear_fdb_top_in, ports_in, words_in};
pub use crate::laws::{
    encoded_is_read, ports_take_back, replies_carry, settings_keep_good, the_numbers, unseen_passes,
};
pub use crate::link::PortLink;
pub use crate::local_port::shown_at;
pub use crate::port_setting::{PortSetting, port_info_after};
pub use crate::power_up::{
    LINEAR_TABLE, MULTICAST_TABLE, keys_at_power_up, node_info_of, port_info_at_power_up,
    switch_info_at_power_up,
};
pub use crate::request::{
    DIRECTED_ROUTE_CLASS, SMP_VERSION, attribute_asked, data_of, is_request, is_set, modifier_of,
    put_reply, whole,
};
pub use crate::word_table::{set_word_block, word_block_at};
