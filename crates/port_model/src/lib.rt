//! A port of a channel adapter of the simulated fabric: its agent of subnet management, and the data
//! packets that it sends and takes.
//!
//! [`AdapterPort::agent`] answers an SMP: its clauses say, by the definitions of `specs/Agent.antt`,
//! whether there is a reply, each bit of it, and what the port holds from then on. A wire needs to know
//! nothing else. [`AdapterPort::stamp`] makes a packet or says why none is sent, and
//! [`AdapterPort::accept`] says which the port takes, by what SMPs wrote (`specs/Packets.antt`). What all
//! agents share stands in `agent_rules`. The attributes are those of the IBA volume 1
//!, chapter 14; what a port holds at power-up is ours.
#![tactic(auto)]

mod adapter_port;
mod laws;

pub use crate::adapter_port::AdapterPort;
pub use crate::laws::{
    good_ports_give_attributes, ports_answer_for_themselves, ports_stay_good, smps_are_read_alike,
    smps_change_what_they_name, smps_settle, unseen_comes_back,
};
