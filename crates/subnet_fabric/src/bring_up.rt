//! How the fabric of a topology is brought up.

ghost use Rattle.std.specs.Prelude.{◌≡◌, IfOk};
ghost use Rattle.subnet_fabric.specs.BringUp.{ComesUp, root_guids};
ghost use Rattle.subnet_fabric.specs.SetUp.{IsByRule};

use crate::fault::FabricFault;
use crate::setting_up::set_up;
use fabric_wire::Fabric;
use pkey_rules::{KeyTable, PARTITIONS};
use std::alloc::{AllocError, Global};
use std::marker::Model;
use topo_file::{Topology, guid_at};
use updn_routes::{Routes, TieRule};

/// A fabric that is up, and the routes that brought it there.
#[derive(Debug, Drop)]
pub struct BroughtUp {
    /// The routes, with the graph that a sweep found and the LIDs.
    pub routes: Routes,
    /// The fabric.
    pub fabric: Fabric,
}

impl Model for BroughtUp {
    ghost use Rattle.subnet_fabric.specs.BringUp.{BroughtUpState};

    ghost Value = { BroughtUpState };

    ghost view = { λ up. record { routes = up.routes; fabric = up.fabric } };
}

/// The fabric of a topology, with the keys of its end ports, which stand in order of LID, and routes by that rule of ties.
///
/// `Sweep` if and only if a cable is too far from the SM for any SMP, and `NoLegalPath` if and only if the topology's
/// roots leave a port without a way. Nothing else is refused but memory.
pub fn bring_up_fabric(
    alloc: Global,
    topology: &Topology,
    keys: &[KeyTable<PARTITIONS>],
    rule: TieRule,
) -> Result<BroughtUp, FabricFault>
    ensures all { ComesUp topology.now keys.now result }
    ensures ruled { IfOk result (λ up. IsByRule rule up.routes) }
{
    topology.known_sound();
    let roots = root_guids(alloc, topology)?;
    let mut fabric = Fabric::new(alloc, topology)?;
    match set_up(alloc, &mut fabric, &roots, keys, rule) {
        Ok(routes) => Ok(BroughtUp { routes, fabric }),
        Err(fault) => Err(fault),
    }
}

/// The GUIDs of the topology's roots, in the order in which they are named.
pub(crate) fn root_guids(alloc: Global, topology: &Topology) -> Result<Vec<u64>, AllocError>
    ensures { IfOk result (λ guids. guids.items ≡ root_guids topology.now) }
{
    let nodes = topology.nodes();
    topology
        .roots()
        .iter()
        .map(|place| guid_at(nodes, *place))
        .collect(alloc)
}
