//! How a subnet is brought up.

ghost use Rattle.std.specs.Prelude.{◌≡◌, ◌≤◌, length, Err, IfOk};
ghost use Rattle.std.specs.List.{Contains};
ghost use Rattle.std.specs.Option.{option_copied};
ghost use Rattle.subnet_core.specs.BringUp.{Becomes, ComesTo, IsStarted};
ghost use Rattle.subnet_core.specs.Fate.{Answers, up_from};
ghost use Rattle.subnet_core.specs.Inventory.{IsInventoried, inventory_by, inventory_of};
ghost use Rattle.subnet_fabric.specs.BringUp.{HasNoPath, Stops};
ghost use Rattle.subnet_fabric.specs.Laws.{all_keys};
ghost use Rattle.subnet_model.specs.Configured.{HaveLidsInOrder};

use crate::fault::RunFault;
use crate::inventory::{Inventory, read_inventory};
use crate::subnet::Subnet;
use pkey_rules::{KeyTable, PARTITIONS};
use std::alloc::{AllocError, Global};
use subnet_fabric::{BroughtUp, FabricFault, bring_up_fabric};
use subnet_model::{NodeName, SubnetPort};
use updn_routes::TieRule;

/// Brings up the subnet of a topology under a partition file: names its ports by LIDs, and has their LIDs, their keys and
/// the ways of packets between them written into its fabric. Without a file every end port is a full member of the
/// default partition.
pub fn bring_up(
    alloc: Global,
    topology: &[u8],
    partitions: Option<&[u8]>,
) -> Result<Subnet, RunFault>
    ensures exact { Answers (λ subnet. subnet.inventory) result (Becomes (inventory_of topology.now (option_copied partitions.entry)))
        (up_from (inventory_of topology.now (option_copied partitions.entry))) }
    ensures started { IfOk result IsStarted }
    ensures inventoried { IfOk result (λ subnet. IsInventoried subnet.inventory) }
{
    bring_up_by(alloc, topology, partitions, TieRule::LeastPort)
}

/// The same with routes by that rule of ties; [`bring_up`] takes the least of several ports that lead equally far.
pub fn bring_up_by(
    alloc: Global,
    topology: &[u8],
    partitions: Option<&[u8]>,
    rule: TieRule,
) -> Result<Subnet, RunFault>
    ensures exact { Answers (λ subnet. subnet.inventory) result (Becomes (inventory_by rule topology.now (option_copied partitions.entry)))
        (up_from (inventory_by rule topology.now (option_copied partitions.entry))) }
    ensures started { IfOk result IsStarted }
    ensures inventoried { IfOk result (λ subnet. IsInventoried subnet.inventory) }
{
    let inventory = read_inventory(alloc, topology, partitions, rule)?;
    let up = fabric_of(alloc, &inventory)?;
    inventory.known_listed();
    Ok(Subnet::new(alloc, inventory, up)?)
}

/// The fabric of an inventory, brought up.
fn fabric_of(alloc: Global, inventory: &Inventory) -> Result<BroughtUp, RunFault>
    ensures { ComesTo inventory.now result }
{
    let keys = keys_of(alloc, inventory.configuration().ports())?;
    match bring_up_fabric(alloc, inventory.topology(), &keys, inventory.rule()) {
        Ok(up) => Ok(up),
        Err(fault) => Err(reported(inventory, fault)),
    }
}

/// The keys of these ports, port by port.
pub(crate) fn keys_of(
    alloc: Global,
    ports: &[SubnetPort],
) -> Result<Vec<KeyTable<PARTITIONS>>, AllocError>
    ensures { IfOk result (λ keys. keys.items ≡ all_keys ports.now) }
{
    let mut keys = Vec::new(alloc);
    for port in ports {
        keys.push(port.keys.clone()?)?;
    }
    Ok(keys)
}

/// The same fault, with names in place of LIDs.
fn reported(inventory: &Inventory, fault: FabricFault) -> RunFault
    requires { Stops inventory.now.plan fault }
    ensures { ComesTo inventory.now (Err result) }
{
    match fault {
        FabricFault::NoMemory => RunFault::NoMemory,
        FabricFault::Sweep(fault) => RunFault::Sweep(fault),
        FabricFault::NoLegalPath { switch, port } => no_legal_path(inventory, switch, port),
        FabricFault::Push(fault) => RunFault::Push(fault),
    }
}

fn no_legal_path(inventory: &Inventory, switch: u16, port: u16) -> RunFault
    requires { HasNoPath inventory.now.plan switch port }
    ensures { ComesTo inventory.now (Err result) }
{
    inventory.known_listed();
    let ports = inventory.configuration().ports();
    let from = port_with_lid(ports, switch);
    let to = port_with_lid(ports, port);
    RunFault::NoLegalPath {
        switch: copy_of(&from.node_name),
        node: copy_of(&to.node_name),
        number: to.number,
    }
}

/// The port of this LID.
fn port_with_lid(ports: &[SubnetPort], lid: u16) -> &SubnetPort
    requires order { HaveLidsInOrder ports.now }
    requires first { 1 ≤ lid }
    requires last { lid ≤ length ports.now }
    ensures there { Contains ports.now result.now }
    ensures lid { result.now.lid ≡ lid }
{
    &ports[usize::from(lid) - 1]
}

pub(crate) fn copy_of(name: &NodeName) -> NodeName
    ensures { result ≡ name.now }
{
    NodeName::new(name.as_slice())
}
