//! The cables that a fabric can't do without.

ghost use Rattle.std.specs.Prelude.{◌≡◌, true, IfOk};
ghost use Rattle.std.specs.Bool.{Decides};
ghost use Rattle.cable_cuts.specs.Cables.{can_be_cut, joins_switches};
ghost use Rattle.cable_cuts.specs.Fate.{HaveBroughtUp};
ghost use Rattle.cable_cuts.specs.Needed.{AreNeeded, IsNeeded};

use crate::cables::joins_switches;
use crate::cutting::cut;
use crate::fate::Cut;
use fabric_parts::Cable;
use std::alloc::{AllocError, Global};
use topo_file::Topology;
use updn_routes::Routes;

/// For each cable of a topology, in their order, whether its fabric can't come up without it. Of cables to channel adapters nothing
/// is asked: they are reported as not needed. These routes brought the fabric up. It can only run out of memory.
pub fn needed(alloc: Global, topology: &Topology, routes: &Routes) -> Result<Vec<bool>, AllocError>
    requires { HaveBroughtUp topology.now routes.now }
    ensures { IfOk result (λ all. AreNeeded topology.now topology.now.cables all.items) }
{
    let mut all = Vec::new(alloc);
    for cable in topology.cables() {
        all.push(is_needed(alloc, topology, routes, *cable)?)?;
    }
    Ok(all)
}

/// Whether the fabric can't come up without that cable.
fn is_needed(
    alloc: Global,
    topology: &Topology,
    routes: &Routes,
    cable: Cable,
) -> Result<bool, AllocError>
    requires up { HaveBroughtUp topology.now routes.now }
    requires cable { joins_switches topology.now.nodes cable ≡ true → can_be_cut topology.now cable ≡ true }
    ensures { IfOk result (λ needed. Decides needed (IsNeeded topology.now cable)) }
{
    if !joins_switches(topology, &cable) {
        return Ok(false);
    }
    match cut(alloc, topology, routes, cable)? {
        Cut::Keeps(_) => Ok(false),
        Cut::Stops(_) => Ok(true),
    }
}
