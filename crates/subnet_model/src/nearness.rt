//! Which ports share a partition.

ghost use Rattle.std.specs.Prelude.{◌≡◌, IfOk};
ghost use Rattle.subnet_model.specs.Near.{is_near, near, ports_share, shares_with};

use crate::subnet_port::SubnetPort;
use std::alloc::{AllocError, Global};

/// The GUIDs of the ports near the port of this GUID: its own, and those of the ports that share a
/// partition with it, in the order of the ports.
pub fn near(alloc: Global, ports: &[SubnetPort], guid: u64) -> Result<Vec<u64>, AllocError>
    ensures { IfOk result (λ guids. guids.items ≡ near ports.now guid) }
{
    ports
        .iter()
        .map(|port| port.guid)
        .filter(|other| is_near(ports, guid, *other))
        .collect(alloc)
}

/// Whether the port of GUID `other` is near the port of GUID `guid`: it is that port, or shares a
/// partition with it.
pub fn is_near(ports: &[SubnetPort], guid: u64, other: u64) -> bool
    ensures { result ≡ is_near ports.now guid other }
{
    other == guid || ports_share(ports, guid, other)
}

fn ports_share(ports: &[SubnetPort], guid: u64, other: u64) -> bool
    ensures { result ≡ ports_share ports.now guid other }
{
    ports.iter().any(|port| port.guid == guid && shares_with(ports, port, other))
}

fn shares_with(ports: &[SubnetPort], port: &SubnetPort, other: u64) -> bool
    ensures { result ≡ shares_with ports.now port.now other }
{
    ports.iter().any(|candidate| candidate.guid == other && port.keys.shares(&candidate.keys))
}
