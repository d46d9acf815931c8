//! The wire by which a subnet manager speaks to a fabric: directed-route SMPs, one after the other.
//!
//! [`SmpWire`] is the one contract that everything above rests on. A wire may stand for a fabric (a ghost member gives its nodes,
//! cables and agents): then [`SmpWire::exchange`] answers as the walk of `specs/Walk.antt` does, and the fabric changes as that
//! says. If it stands for none, a call returns, and nothing else is promised. [`PlainWire`] keeps a fabric as lists of [`Node`]s
//! and cables and follows the definition; [`CountingWire`] and [`SilencedWire`] stand round another wire. [`get_attribute`] and
//! [`set_attribute`] read and set one attribute over any wire, a [`Session`] does so under one TransactionID after the other, and
//! [`read_reply`] reports what one reply means. The walk is that of directed-route SMPs of the IBA volume 1, 14.2.1.2 and
//! chapter 14.
//!
//! Whom data packets reach by the tables that a fabric holds: `specs/Deliveries.antt` says which ports of channel adapters a
//! packet reaches, whatever stands in the tables: those to which some walk leads by what switches hold, and that accept its key.
//! `specs/Forwards.antt` says what tables have to hold, so that a packet goes by its LID; that it does then is
//! [`packets_go_by_lid`]. `specs/Groups.antt` says what masks have to hold, so that a packet to a multicast LID goes to its
//! receivers; that it does then is [`packets_go_by_mlid`], and when no bit of theirs is set in vain. Forwarding by tables and
//! masks, and enforcement, are those of the IBA volume 1, chapter 14.
#![tactic(auto)]

mod asking;
mod delivery_laws;
mod laws;
mod node;
mod numbers;
mod plain_wire;
mod reply;
mod request;
mod session;
mod walking;
mod wire;
mod wrappers;

pub use crate::asking::{get_attribute, set_attribute};
pub use crate::delivery_laws::{
    bits_towards_nobody_are_idle, deliveries_are_one_list, packets_go_by_lid, packets_go_by_mlid,
    the_two_switch_fabric_forwards_by_lid, the_two_switch_fabric_forwards_by_mlid,
    unicast_goes_one_way,
};
pub use crate::laws::{
    exchanges_change_what_they_name, exchanges_keep_the_fabric, gets_report, paths_go_on,
    ports_are_good, replies_answer, sets_report,
};
pub use crate::node::{AdapterPorts, BoxedSwitch, Node};
pub use crate::numbers::Numbers;
pub use crate::plain_wire::PlainWire;
pub use crate::reply::{ReplyFault, read_reply};
pub use crate::request::{get_request, set_request};
pub use crate::session::Session;
pub use crate::walking::{Arrival, agent_at, is_sent, is_switch_at};
pub use crate::wire::SmpWire;
pub use crate::wrappers::{CountingWire, SilencedWire};
