//! Tests of the simulated fabric and of the subnet manager on it, through public calls alone: SMPs over its wires, packets that it
//! carries, sweeps, LIDs, routes, and pushes of ports, P_Key tables, LFTs and MFTs.
//!
//! They say what no clause says: that the definitions mean what the documents say, by byte vectors and worked requests; how many
//! SMPs a sweep or a push takes, what it answers over wires at fault, what an end port is set to, byte for byte; and that memory
//! is not refused if it is there.
#![tactic(auto)]

#[cfg(test)]
mod again;
#[cfg(test)]
mod balanced;
#[cfg(test)]
mod bring_up;
#[cfg(test)]
mod cables;
#[cfg(test)]
mod carrying;
#[cfg(test)]
mod enforcement;
#[cfg(test)]
mod fat_tree;
#[cfg(test)]
mod fault_texts;
#[cfg(test)]
mod faults;
#[cfg(test)]
mod fixtures;
#[cfg(test)]
mod multicast;
#[cfg(test)]
mod pushed_fat_tree;
#[cfg(test)]
mod sweeps;
#[cfg(test)]
mod up_down;
#[cfg(test)]
mod wires;
