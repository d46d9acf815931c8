//! Fabrics whose SMPs go hop by hop.

use crate::texts::TWO_SWITCHES;
use fabric_wire::Fabric;
use std::alloc::Global;
use std::test::Fail;
use topo_file::{Topology, read};

/// The fabric of a topology.
pub fn fabric_over(alloc: Global, topology: &Topology) -> Result<Fabric, Fail> {
    Ok(Fabric::new(alloc, topology).or(Err("memory"))?)
}

/// The fabric that a text describes.
pub fn fabric_of(alloc: Global, text: &[u8]) -> Result<Fabric, Fail> {
    let topology = read(alloc, text).or(Err("the topology"))?;
    fabric_over(alloc, &topology)
}

/// The two-switch fabric.
pub fn two_switch_fabric(alloc: Global) -> Result<Fabric, Fail> {
    fabric_of(alloc, TWO_SWITCHES.as_bytes())
}
