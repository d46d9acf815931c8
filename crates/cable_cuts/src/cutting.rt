//! What becomes of the fabric of a topology without one of its cables.

ghost use Rattle.std.specs.Prelude.{◌≡◌, true, if◌then◌else◌, IfOk};
ghost use Rattle.cable_cuts.specs.Cables.{can_be_cut, without_cable};
ghost use Rattle.cable_cuts.specs.Fate.{HaveBroughtUp, IsFate};
ghost use Rattle.topo_file.specs.Connectivity.{is_connected};

use crate::cables::cables_without;
use crate::fate::{Cut, Stop};
use fabric_parts::Cable;
use std::alloc::{AllocError, Global};
use subnet_fabric::{Planned, plan};
use topo_file::{Topology, is_connected};
use updn_routes::Routes;

/// What becomes of the fabric of a topology without one of its cables between switches. These routes brought the fabric up as it
/// is; those that are planned are by the same rule of ties. It can only run out of memory.
pub fn cut(
    alloc: Global,
    topology: &Topology,
    routes: &Routes,
    cable: Cable,
) -> Result<Cut, AllocError>
    requires up { HaveBroughtUp topology.now routes.now }
    requires cable { can_be_cut topology.now cable ≡ true }
    ensures { IfOk result (IsFate routes.now.between.rule (without_cable cable topology.now)) }
{
    topology.known_sound();
    match plan(alloc, topology, routes, cable, false)? {
        Planned::Routed(others) => Ok(Cut::Keeps(others)),
        Planned::NotWhole => Ok(Cut::Stops(unswept(alloc, topology, &cable)?)),
        Planned::NoLegalPath { switch, port } => Ok(Cut::Stops(Stop::NoLegalPath { switch, port })),
    }
}

/// Why the fabric without that cable is not swept: its cables do not join all switches, or else one is too far.
fn unswept(alloc: Global, topology: &Topology, cable: &Cable) -> Result<Stop, AllocError>
    ensures { IfOk result (λ stop. stop
        ≡ (if is_connected topology.now.nodes (without_cable cable.now topology.now).cables then Stop.TooFar else Stop.Apart)) }
{
    let cables = cables_without(alloc, topology.cables(), cable)?;
    if is_connected(alloc, topology.nodes(), &cables)? {
        Ok(Stop::TooFar)
    } else {
        Ok(Stop::Apart)
    }
}
