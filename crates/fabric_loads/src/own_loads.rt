//! What is printed, and what a picture shows.

ghost use Rattle.std.specs.Prelude.{◌≡◌, filter, map, IfOk};
ghost use Rattle.fabric_loads.specs.OwnLoads.{cable_look, is_up, load_at, own_load_text, own_looks, plan_up};

use crate::own_dump::own_dump;
use crate::talking::talk_of;
use audit_loads::{Loaded, load_of_plan, loads_of_plan};
use audit_plan::Plan;
use cable_looks::{CableLoad, Look};
use fabric_parts::{Cable, PortRef};
use fabric_wire::Fabric;
use lid_assign::Lids;
use std::alloc::{AllocError, Global};
use subnet_model::SubnetPort;
use topo_file::Topology;

/// Whether packets go over this cable of the topology in the fabric.
fn is_up(fabric: &Fabric, cable: Cable) -> bool
    ensures { result ≡ is_up fabric.now cable }
{
    fabric.far_end(cable.first).is_some()
}

fn cables_up(alloc: Global, topology: &Topology, fabric: &Fabric) -> Result<Vec<Cable>, AllocError>
    ensures { IfOk result (λ cables. cables.items ≡ filter (is_up fabric.now) topology.now.cables) }
{
    topology
        .cables()
        .iter()
        .copied()
        .filter(|cable| is_up(fabric, *cable))
        .collect(alloc)
}

/// The topology without the cables that are down.
fn plan_up(alloc: Global, topology: &Topology, fabric: &Fabric) -> Result<Plan, AllocError>
    ensures { IfOk result (λ plan. plan ≡ plan_up fabric.now topology.now) }
{
    let cables = cables_up(alloc, topology, fabric)?;
    Ok(Plan::of(alloc, topology.as_large())?.with_cables(cables))
}

/// How many pairs go over each direction of a cable between two switches, by the LFTs that the switches of a topology's fabric hold:
/// those of these end ports that share a partition, or all. Its nodes stand as the topology lists them, and cables that are down are
/// left out. It can only run out of memory.
pub fn own_load_text(
    alloc: Global,
    topology: &Topology,
    ports: &[SubnetPort],
    lids: &Lids,
    fabric: &Fabric,
    all: bool,
) -> Result<Vec<u8>, AllocError>
    ensures { IfOk result (λ text. text.items ≡ own_load_text topology.now ports.now lids.now fabric.now all) }
{
    let plan = plan_up(alloc, topology, fabric)?;
    let dump = own_dump(alloc, topology, lids, fabric)?;
    let talk = talk_of(alloc, topology, ports, all)?;
    let text = load_of_plan(alloc, &plan, &dump, &talk)?;
    Ok(text)
}

/// The load of the channel of that port, if it is one.
fn load_at(all: &[Loaded], at: PortRef) -> Option<usize>
    ensures { result ≡ load_at all.now at }
{
    let one = all.iter().find(|one| one.at == at)?;
    Some(one.load)
}

/// How a cable is drawn: with its load, if packets go over it from one switch to another.
fn cable_look(all: &[Loaded], cable: Cable) -> Look
    ensures { result ≡ cable_look all.now cable }
{
    match (load_at(all, cable.first), load_at(all, cable.second)) {
        (Some(forth), Some(back)) => Look::Loaded(CableLoad { forth, back }),
        _ => Look::Plain,
    }
}

fn cable_looks(alloc: Global, all: &[Loaded], cables: &[Cable]) -> Result<Vec<Look>, AllocError>
    ensures { IfOk result (λ looks. looks.items ≡ map (cable_look all.now) cables.now) }
{
    cables
        .iter()
        .map(|cable| cable_look(all, *cable))
        .collect(alloc)
}

/// How a picture shows what [`own_load_text`] prints, by the places of cables in the topology. It can only run out of memory.
pub fn own_looks(
    alloc: Global,
    topology: &Topology,
    ports: &[SubnetPort],
    lids: &Lids,
    fabric: &Fabric,
    all: bool,
) -> Result<Vec<Look>, AllocError>
    ensures { IfOk result (λ looks. looks.items ≡ own_looks topology.now ports.now lids.now fabric.now all) }
{
    let plan = plan_up(alloc, topology, fabric)?;
    let dump = own_dump(alloc, topology, lids, fabric)?;
    let talk = talk_of(alloc, topology, ports, all)?;
    let loads = loads_of_plan(alloc, &plan, &dump, &talk)?;
    let looks = cable_looks(alloc, &loads, topology.cables())?;
    Ok(looks)
}
