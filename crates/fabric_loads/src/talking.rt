//! Between which end ports packets go.

ghost use Rattle.std.specs.Prelude.{◌≡◌, ◌++◌, IfOk, OnOk};
ghost use Rattle.fabric_loads.specs.OwnLoads.{keys_of, port_keys, talk_of};

use audit_loads::{PortKeys, Talk};
use fabric_parts::PortRef;
use std::alloc::{AllocError, Global};
use subnet_model::SubnetPort;
use topo_file::Topology;

/// Adds the P_Keys of an end port, if the topology lists its node.
fn push_keys(
    ports: &mut Vec<PortKeys>,
    topology: &Topology,
    one: &SubnetPort,
) -> Result<(), AllocError>
    ensures { OnOk result (ports.new.items ≡ ports.old.items ++ port_keys topology.now.nodes one.now) }
{
    let Some(node) = topology.index_of(one.node_name.as_slice()) else {
        return Ok(());
    };
    let at = PortRef {
        node,
        port: one.number,
    };
    ports.push(PortKeys {
        at,
        keys: one.keys.clone()?,
    })?;
    Ok(())
}

fn keys_of(
    alloc: Global,
    topology: &Topology,
    ports: &[SubnetPort],
) -> Result<Vec<PortKeys>, AllocError>
    ensures { IfOk result (λ all. all.items ≡ keys_of topology.now.nodes ports.now) }
{
    let mut all = Vec::new(alloc);
    for one in ports {
        push_keys(&mut all, topology, one)?;
    }
    Ok(all)
}

/// Between those that share a partition, or, if all are asked for, between all. It can only run out of memory.
pub(crate) fn talk_of(
    alloc: Global,
    topology: &Topology,
    ports: &[SubnetPort],
    all: bool,
) -> Result<Talk, AllocError>
    ensures { IfOk result (λ talk. talk ≡ talk_of topology.now.nodes ports.now all) }
{
    if all {
        return Ok(Talk::of_all());
    }
    let keys = keys_of(alloc, topology, ports)?;
    let talk = Talk::by_keys(alloc, keys, topology.nodes().len())?;
    Ok(talk)
}
