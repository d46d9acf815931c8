//! A switch of the simulated fabric: its agent of subnet management, and the ports by which it forwards
//! data packets.
//!
//! [`Switch::agent`] answers an SMP: its clauses say, by the definitions of `specs/Agent.antt`, whether
//! there is a reply, each bit of it, and what the switch holds from then on. A wire needs to know nothing
//! else. [`Switch::unicast_out`] says by which port a packet leaves, by the tables that SMPs wrote
//! (`specs/Forwarding.antt`), and [`Switch::fate`] what becomes of one that does not (`specs/Fate.antt`). What all
//! agents share stands in `agent_rules`. The attributes are those of
//! the IBA volume 1, chapter 14; what a switch holds at power-up is ours.
#![tactic(auto)]

mod enforcement;
mod fate;
mod laws;
mod linear_table;
mod multicast;
mod multicast_table;
mod ports;
mod switch;
mod switch_port;

pub use crate::enforcement::{passes_inbound, passes_outbound};
pub use crate::fate::Fate;
pub use crate::laws::{
    fates_report_ways_out, good_switches_give_attributes, links_show, ports_have_their_links,
    smps_are_read_alike, smps_change_what_they_name, smps_settle, switches_stay_good, the_numbers,
    unicast_goes_by_entries, unseen_comes_back,
};
pub use crate::multicast_table::POSITIONS;
pub use crate::switch::Switch;
pub use crate::switch_port::SwitchPort;
