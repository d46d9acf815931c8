//! A subnet whose fabric is behind a wire: a subnet manager's work over whatever answers its SMPs.

ghost use Rattle.std.specs.Prelude.{◌≡◌, ◌≤◌, ◌++◌, length, IfOk, OnOk};
ghost use Rattle.subnet_core.specs.Managing.{count_text, guids_in, not_enforcing_text, up_line, up_text};
ghost use Rattle.subnet_fabric.specs.BringUp.{root_guids};
ghost use Rattle.subnet_fabric.specs.Managing.{AreManaged};
ghost use Rattle.subnet_fabric.specs.SetUp.{IsByRule};

use crate::bringing_up::{copy_of, keys_of};
use crate::fault::RunFault;
use crate::inventory::Inventory;
use smp_wire::SmpWire;
use std::alloc::{AllocError, Global};
use subnet_fabric::{FabricFault, Managed};
use subnet_model::SubnetPort;
use sweep::SweepFault;
use text_words::push_decimal;

/// Sets up the fabric behind a wire as that of an inventory: its end ports have to be those of the topology. Returns the
/// routes, which are by the inventory's rule of ties, and how many ports of switches do not enforce partitions.
pub fn manage<W: SmpWire>(
    alloc: Global,
    inventory: &Inventory,
    wire: &mut W,
) -> Result<Managed, RunFault>
    ensures managed { IfOk result (λ managed.
        AreManaged (root_guids inventory.now.plan) (guids_in inventory.now.configuration.ports) managed.routes) }
    ensures ruled { IfOk result (λ managed. IsByRule inventory.now.rule managed.routes) }
    ensures few { IfOk result (λ managed. managed.not_enforcing ≤ length managed.routes.graph.ports) }
{
    let ports = inventory.configuration().ports();
    let keys = keys_of(alloc, ports)?;
    let guids = guids_in(alloc, ports)?;
    match subnet_fabric::manage(
        alloc,
        wire,
        inventory.topology(),
        &guids,
        &keys,
        inventory.rule(),
    ) {
        Ok(managed) => Ok(managed),
        Err(fault) => Err(fault_over(ports, fault)),
    }
}

/// The GUIDs of these ports.
fn guids_in(alloc: Global, ports: &[SubnetPort]) -> Result<Vec<u64>, AllocError>
    ensures { IfOk result (λ guids. guids.items ≡ guids_in ports.now) }
{
    ports.iter().map(|port| port.guid).collect(alloc)
}

/// The same fault, with names in place of LIDs; a LID that no port has is a wrong reply.
fn fault_over(ports: &[SubnetPort], fault: FabricFault) -> RunFault {
    match fault {
        FabricFault::NoMemory => RunFault::NoMemory,
        FabricFault::Sweep(fault) => RunFault::Sweep(fault),
        FabricFault::Push(fault) => RunFault::Push(fault),
        FabricFault::NoLegalPath { switch, port } => {
            match (port_of(ports, switch), port_of(ports, port)) {
                (Some(from), Some(to)) => RunFault::NoLegalPath {
                    switch: copy_of(&from.node_name),
                    node: copy_of(&to.node_name),
                    number: to.number,
                },
                _ => RunFault::Sweep(SweepFault::WrongReply),
            }
        }
    }
}

/// The port of this LID, if there is one.
fn port_of(ports: &[SubnetPort], lid: u16) -> Option<&SubnetPort> {
    ports.iter().find(|port| port.lid == lid)
}

/// What is printed of a fabric that is up: the listing of the inventory, then how many switches and end ports there are, how
/// many SMPs were exchanged, and how many ports of switches do not enforce partitions.
pub fn up_text(
    inventory: &Inventory,
    managed: &Managed,
    exchanges: u64,
) -> Result<Vec<u8>, AllocError>
    ensures { IfOk result (λ text. text.items ≡ up_text inventory.now.configuration managed.now exchanges) }
{
    let mut text = inventory.listing()?;
    let switches = managed.routes.graph().switches().len();
    let ports = inventory.configuration().ports().len();
    push_up_line(&mut text, switches, ports, exchanges as usize)?;
    push_not_enforcing(&mut text, managed.not_enforcing)?;
    Ok(text)
}

fn push_up_line(
    text: &mut Vec<u8>,
    switches: usize,
    ports: usize,
    exchanges: usize,
) -> Result<(), AllocError>
    ensures { OnOk result (text.new.items ≡ text.old.items ++ up_line switches ports exchanges) }
{
    text.extend_from_slice(b"up: ")?;
    push_count(text, switches, b" switches, ")?;
    push_count(text, ports, b" ports, ")?;
    push_count(text, exchanges, b" exchanges, ")
}

fn push_not_enforcing(text: &mut Vec<u8>, not_enforcing: usize) -> Result<(), AllocError>
    ensures { OnOk result (text.new.items ≡ text.old.items ++ not_enforcing_text not_enforcing) }
{
    push_count(text, not_enforcing, b" switch ports that do not enforce\n")
}

/// Adds a number, and of what.
fn push_count(text: &mut Vec<u8>, number: usize, unit: &[u8]) -> Result<(), AllocError>
    ensures { OnOk result (text.new.items ≡ text.old.items ++ count_text number unit.now) }
{
    push_decimal(text, number)?;
    text.extend_from_slice(unit)
}
