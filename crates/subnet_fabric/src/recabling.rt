//! How a fabric that is up is set up again after a cable of it is cut, or mended. That is planned first ([`plan`]), so that nothing
//! changes if the fabric could not be set up again.

ghost use Rattle.std.specs.Prelude.{IfOk};
ghost use Rattle.std.specs.Option.{ForSome};
ghost use Rattle.subnet_fabric.specs.SetUp.{IsByRule};
ghost use Rattle.subnet_fabric.specs.Standing.{IsStanding, Recables};

use crate::bring_up::root_guids;
use crate::fault::FabricFault;
use crate::planning::plan;
use crate::setting_up::set_up_by;
use fabric_wire::Fabric;
use pkey_rules::{KeyTable, PARTITIONS};
use std::alloc::Global;
use subnet_model::CableCommand;
use topo_file::Topology;
use updn_routes::Routes;

/// Cuts the cable between two switches of a topology's fabric that is up, or mends it, and sets the fabric up again, as from
/// power-up: the new routes, by the rule of ties of the old ones, or none if all stays as it is. The keys of the end ports stand in
/// order of LID.
///
/// All stays if there is no such cable that can be cut, or mended; if switches would not be joined any more, or a cable
/// would be too far from the subnet manager for any SMP; and if the topology's roots would leave a port without a way. The
/// masks of multicast forwarding tables stay in either case. It can only run out of memory; then some of the fabric may have
/// changed.
pub fn recable(
    alloc: Global,
    topology: &Topology,
    fabric: &mut Fabric,
    routes: &Routes,
    keys: &[KeyTable<PARTITIONS>],
    command: &CableCommand,
) -> Result<Option<Routes>, FabricFault>
    requires { IsStanding topology.now keys.now routes.now fabric.old }
    ensures all { Recables topology.now keys.now command.now.cable command.now.up routes.now fabric.old fabric.new result }
    ensures ruled { IfOk result (λ next. ForSome next (IsByRule routes.now.between.rule)) }
{
    topology.known_sound();
    fabric.known_kept();
    let (cable, up) = (command.cable, command.up);
    if !fabric.can_change(cable.first, cable.second, up) {
        return Ok(None);
    }
    let planned = plan(alloc, topology, routes, cable, up)?;
    if !planned.is_routed() {
        return Ok(None);
    }
    let roots = root_guids(alloc, topology)?;
    fabric.set_cable(cable.first, cable.second, up);
    fabric.known_kept();
    let rule = routes.between().rule();
    match set_up_by(alloc, fabric, &roots, keys, rule, planned.into_routes()) {
        Ok(routes) => Ok(Some(routes)),
        Err(fault) => Err(fault),
    }
}
