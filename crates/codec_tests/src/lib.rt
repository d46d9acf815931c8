//! Tests through public calls alone: byte vectors from outside, for the crates that read and write bytes; and single nodes:
//! agents, packets at a port and in a switch, and the hops of SMPs.
//!
//! They say what no clause says: that the definitions mean what the documents say, by byte vectors and
//! worked requests.
#![tactic(auto)]

#[cfg(test)]
mod attributes;
#[cfg(test)]
mod fixtures;
#[cfg(test)]
mod forwarding;
#[cfg(test)]
mod headers;
#[cfg(test)]
mod hops;
#[cfg(test)]
mod node_fixtures;
#[cfg(test)]
mod port_agent;
#[cfg(test)]
mod records;
#[cfg(test)]
mod segments;
#[cfg(test)]
mod sending;
#[cfg(test)]
mod switch_agent;
