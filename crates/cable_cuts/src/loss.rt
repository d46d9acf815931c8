//! What the loss of each cable between switches does.

ghost use Rattle.std.specs.Prelude.{◌≡◌, true, IfOk};
ghost use Rattle.cable_cuts.specs.Cables.{can_be_cut};
ghost use Rattle.cable_cuts.specs.Fate.{HaveBroughtUp};
ghost use Rattle.cable_cuts.specs.Outcomes.{AreLosses, IsOutcome};

use crate::cables::joins_switches;
use crate::cutting::cut;
use crate::outcome::{Outcome, outcome_of};
use fabric_parts::Cable;
use std::alloc::{AllocError, Global};
use subnet_model::Configuration;
use topo_file::Topology;
use updn_routes::Routes;

/// A cable between two switches, and what its loss does.
#[derive(Clone, Copy, Debug, PartialEq, Eq)]
pub struct Loss {
    /// The cable, with its ends as the topology has them.
    pub cable: Cable,
    /// What its loss does.
    pub outcome: Outcome,
}

/// What the loss of each cable between switches does, in the order of the topology. These routes brought its fabric up, and these
/// are its end ports. It can only run out of memory.
pub fn losses(
    alloc: Global,
    topology: &Topology,
    configuration: &Configuration,
    routes: &Routes,
) -> Result<Vec<Loss>, AllocError>
    requires { HaveBroughtUp topology.now routes.now }
    ensures { IfOk result (λ all. AreLosses topology.now configuration.now routes.now all.items) }
{
    let mut all = Vec::new(alloc);
    for cable in topology.cables() {
        if joins_switches(topology, cable) {
            let outcome = outcome(alloc, topology, configuration, routes, *cable)?;
            all.push(Loss {
                cable: *cable,
                outcome,
            })?;
        }
    }
    Ok(all)
}

/// What the loss of a cable does.
fn outcome(
    alloc: Global,
    topology: &Topology,
    configuration: &Configuration,
    routes: &Routes,
    cable: Cable,
) -> Result<Outcome, AllocError>
    requires up { HaveBroughtUp topology.now routes.now }
    requires cable { can_be_cut topology.now cable ≡ true }
    ensures { IfOk result (IsOutcome topology.now configuration.now routes.now cable) }
{
    let fate = cut(alloc, topology, routes, cable)?;
    outcome_of(alloc, configuration, routes, &fate)
}
