//! The cables between switches.

ghost use Rattle.std.specs.Prelude.{◌≡◌, filter, IfOk};
ghost use Rattle.std.specs.List.{list_any};
ghost use Rattle.cable_cuts.specs.Cables.{can_be_cut, joins_switches};
ghost use Rattle.fabric_wire.specs.Cabling.{is_between, is_not_between};

use fabric_parts::Cable;
use std::alloc::{AllocError, Global};
use topo_file::Topology;

/// Whether a cable joins two switches of a topology.
pub fn joins_switches(topology: &Topology, cable: &Cable) -> bool
    ensures { result ≡ joins_switches topology.now.nodes cable.now }
{
    topology.is_switch_at(cable.first.node) && topology.is_switch_at(cable.second.node)
}

/// Whether a topology has a cable between these two ports, which are ports of switches.
pub fn can_be_cut(topology: &Topology, cable: &Cable) -> bool
    ensures { result ≡ can_be_cut topology.now cable.now }
{
    joins_switches(topology, cable) && is_there(topology.cables(), cable)
}

/// Whether there is a cable between the ends of this one.
fn is_there(cables: &[Cable], cable: &Cable) -> bool
    ensures { result ≡ list_any (is_between cable.now.first cable.now.second) cables.now }
{
    cables.iter().any(|one| is_between(one, cable))
}

/// Whether both cables are between the same ports.
fn is_between(one: &Cable, cable: &Cable) -> bool
    ensures { result ≡ is_between cable.now.first cable.now.second one.now }
{
    (one.first == cable.first && one.second == cable.second)
        || (one.first == cable.second && one.second == cable.first)
}

/// The cables but the one between these two ports. It can only run out of memory.
pub(crate) fn cables_without(
    alloc: Global,
    cables: &[Cable],
    cable: &Cable,
) -> Result<Vec<Cable>, AllocError>
    ensures { IfOk result (λ others. others.items ≡ filter (is_not_between cable.now.first cable.now.second) cables.now) }
{
    cables
        .iter()
        .filter(|one| !is_between(one, cable))
        .copied()
        .collect(alloc)
}
