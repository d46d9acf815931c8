//! Tables written by SMPs: what the subnet manager sets in the agents of a fabric, over any wire.
//!
//! [`push_ports`] sets up all ports and LinearFDBTop, [`push_keys`] writes the P_Key tables of all end ports and of the ports of
//! switches that they are attached to, [`push_linear`] the LFTs of all switches. Nodes are reached by the paths that the sweep
//! found, blocks are set whole, and each reply is compared with what was set: [`PushFault`] says why a push stops.
//! [`push_multicast`] writes the MFTs of a partition for the receivers of each multicast LID, and [`push_changed`] the blocks of
//! them that differ from those that stand there. [`port_masks`] computes the port masks of one group at all switches, along the
//! [`Tree`] of the routes ([`tree_of`]), and sets nothing. [`push_all`] does the first three pushes. [`push_ports_counting`] and
//! [`push_all_counting`] also return how many ports of switches do not enforce partitions. `specs/BroughtUp.antt` says what a
//! fabric holds then, and [`pushes_bring_up`] that it does. [`brought_up_forwards_by_lid`] says that every packet goes by its LID
//! then, for routes that lead to each port ([`known_to_lead_home`]). The attributes are those of the IBA volume 1, chapter 14.
//!
//! Nothing that is pushed depends on the order in which a sweep found the switches (`src/order_laws.rt`). Two graphs of one
//! fabric differ in the order of their switches alone (`updn_routes`), and so routes over them, with the same LIDs and roots,
//! lead by the same ports. Here this is carried to all that is pushed by routes (IBA volume 1, chapter 14): LFTs, MFTs, P_Key
//! tables, PortInfo and SwitchInfo are the same whichever of the two is pushed.
#![tactic(auto)]

mod attachments;
mod changes;
mod fault;
mod groups;
mod keys;
mod laws;
mod linear;
mod masks;
mod multicast;
mod order_laws;
mod places;
mod ports;
mod pushing;
mod range_blocks;
mod setting;
mod tops;
mod trees;
mod wrong_rules;

pub use crate::changes::push_changed;
pub use crate::fault::PushFault;
pub use crate::groups::port_masks;
pub use crate::keys::push_keys;
pub use crate::laws::{
    brought_up_forwards_by_lid, brought_up_forwards_by_mlid, brought_up_has_no_idle_bits,
    brought_up_is_as_routed, every_switch_has_its_table, masks_are_read, masks_keep_what_is_up,
    mlid_ranges_are_of_the_whole, only_such_ports_count, pushes_bring_up, pushes_forget,
    pushes_keep_the_graph,
};
pub use crate::linear::push_linear;
pub use crate::multicast::push_multicast;
pub use crate::order_laws::pushes_are_the_fabrics;
pub use crate::ports::{push_ports, push_ports_counting};
pub use crate::pushing::{known_to_lead_home, push_all, push_all_counting};
pub use crate::trees::{Tree, tree_of};
pub use crate::wrong_rules::one_bit_is_not_both;
