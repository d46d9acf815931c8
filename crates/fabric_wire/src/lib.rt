//! The simulated fabric of a topology, whose nodes hand SMPs on hop by hop.
//!
//! [`Fabric`] is a wire that stands for the fabric of a topology. Its code goes by the hop rules of
//! `smp_route`, each node knowing its own ports alone, and is proved to do what the walk of `smp_wire`
//! says. What a wire is, and the wires that are no simulator, stand in `smp_wire`, and are given on here.
#![tactic(auto)]

mod adapter_ports;
mod cabling;
mod carrying;
mod delivery;
mod fabric;
mod hopping;
mod laws;
mod power_up;
mod rows;
mod spreading;

pub use crate::adapter_ports::adapter_at;
pub use crate::delivery::Delivery;
pub use crate::fabric::Fabric;
pub use crate::laws::{
    cables_keep_fabrics, exchanges_go_by_hops, the_two_switch_fabric_is_good,
    topologies_give_good_fabrics,
};
pub use smp_wire::{
    AdapterPorts, BoxedSwitch, CountingWire, Node, PlainWire, ReplyFault, SilencedWire, SmpWire,
    exchanges_change_what_they_name, exchanges_keep_the_fabric, get_attribute, get_request,
    gets_report, paths_go_on, ports_are_good, read_reply, replies_answer, set_attribute,
    set_request, sets_report,
};
