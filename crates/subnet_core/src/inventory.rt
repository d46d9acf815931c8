//! Who is in a subnet. That takes no fabric.

ghost use Rattle.std.specs.Prelude.{◌≡◌, IfOk};
ghost use Rattle.std.specs.Option.{option_copied};
ghost use Rattle.subnet_core.specs.Listing.{listing_text};
ghost use Rattle.script_lines.specs.NamedPort.{adapter_place, named_adapter_port, named_port};
ghost use Rattle.subnet_core.specs.Inventory.{IsInventoried, RunGives, of_text, partitions_for, inventory_by};
ghost use Rattle.subnet_core.specs.declared.fault.RunFault.TheVariants as run;
ghost use Rattle.topo_file.specs.Topology.{topology_of};

use crate::fault::RunFault;
use crate::listing;
use fabric_parts::PortRef;
use partition_file::{PartFault, Partitions, no_file};
use script_lines::{ScriptCause, adapter_place, named_adapter_port, named_port};
use std::alloc::{AllocError, Global};
use std::marker::Model;
use subnet_fabric::configuration_of;
use subnet_model::Configuration;
use topo_file::{TopoFault, Topology};
use updn_routes::TieRule;

/// A topology under a partition file: its end ports by LID, with their names and keys, and its partitions. And the rule of ties by
/// which its routes are to be.
#[derive(Debug, Drop)]
pub struct Inventory {
    alloc: Global,
    topology: Topology,
    configuration: Configuration,
    rule: TieRule,
}

impl Model for Inventory {
    ghost use Rattle.subnet_core.specs.Inventory.{IsInventoried, InventoryState};

    ghost Value = { InventoryState };

    ghost view = { λ inventory. record { plan = inventory.topology; configuration = inventory.configuration; rule = inventory.rule } };

    ghost invariant = { λ inventory.
        IsInventoried (record { plan = inventory.topology; configuration = inventory.configuration; rule = inventory.rule }) };
}

/// Reads the texts of a topology and of partitions. Without the second every end port is a full member of the default
/// partition. Routes are to be by that rule of ties.
#[tactic(auto, unfolding(crate::specs::Inventory::inventory_by))]
pub fn read_inventory(
    alloc: Global,
    topology: &[u8],
    partitions: Option<&[u8]>,
    rule: TieRule,
) -> Result<Inventory, RunFault>
    ensures { RunGives (λ inventory. inventory) result (inventory_by rule topology.now (option_copied partitions.entry)) }
{
    let topology = topology_of(alloc, topology)?;
    let partitions = partitions_for(alloc, partitions)?;
    let configuration = configuration_of(alloc, &topology, &partitions)?;
    topology.known_sound();
    // What partitions meet is known once they are looked at.
    let _ = partitions.as_slice();
    Ok(Inventory {
        alloc,
        topology,
        configuration,
        rule,
    })
}

fn topology_of(alloc: Global, text: &[u8]) -> Result<Topology, RunFault>
    ensures { RunGives (λ topology. topology) result (of_text run.Topology (topology_of text.now)) }
{
    match topo_file::read(alloc, text) {
        Ok(topology) => Ok(topology),
        Err(TopoFault::NoMemory) => Err(RunFault::NoMemory),
        Err(TopoFault::At { line, cause }) => Err(RunFault::Topology { line, cause }),
    }
}

pub(crate) fn partitions_for(alloc: Global, text: Option<&[u8]>) -> Result<Partitions, RunFault>
    ensures { RunGives (λ partitions. partitions) result (partitions_for (option_copied text.entry)) }
{
    let Some(text) = text else {
        return Ok(no_file(alloc)?);
    };
    match partition_file::read(alloc, text) {
        Ok(partitions) => Ok(partitions),
        Err(PartFault::NoMemory) => Err(RunFault::NoMemory),
        Err(PartFault::At { line, cause }) => Err(RunFault::Partitions { line, cause }),
    }
}

impl Inventory {
    /// The nodes and cables.
    pub fn topology(&self) -> &Topology
        ensures { result.now ≡ self.now.plan }
    {
        &self.topology
    }

    /// The end ports and the partitions.
    pub fn configuration(&self) -> &Configuration
        ensures { result.now ≡ self.now.configuration }
    {
        &self.configuration
    }

    /// Which of its ties a switch is to take.
    pub fn rule(&self) -> TieRule
        ensures { result ≡ self.now.rule }
    {
        self.rule
    }

    /// The GUID of the end port that a word names as the listing prints it: a port of a channel adapter that has a
    /// cable, or port 0 of a switch.
    pub fn named_port(&self, word: &[u8]) -> Result<u64, ScriptCause>
        ensures { result ≡ named_port self.now.plan word.now }
    {
        named_port(self.topology.as_large(), word)
    }

    /// Where the port of a channel adapter is that a word names: one that has a cable.
    pub fn adapter_place(&self, word: &[u8]) -> Result<PortRef, ScriptCause>
        ensures { result ≡ adapter_place self.now.plan word.now }
    {
        adapter_place(&self.topology, word)
    }

    /// The GUID of the port of a channel adapter that a word names: one that has a cable.
    pub fn named_adapter_port(&self, word: &[u8]) -> Result<u64, ScriptCause>
        ensures { result ≡ named_adapter_port self.now.plan word.now }
    {
        named_adapter_port(&self.topology, word)
    }

    /// Who is in the subnet, as it is printed in ASCII: a line for each end port by LID, then for each
    /// partition its line, and a line for each of its members by LID, with the key that it holds.
    pub fn listing(&self) -> Result<Vec<u8>, AllocError>
        ensures { IfOk result (λ text. text.items ≡ listing_text self.now.configuration) }
    {
        listing::listing_text(self.alloc, &self.configuration)
    }

    pub(crate) fn into_configuration(self) -> Configuration
        ensures { result ≡ self.configuration }
    {
        self.configuration
    }

    /// Some partitions are those that are listed.
    pub(crate) fn known_listed(&self)
        ensures { IsInventoried self.now }
    {
        let _ = &self.topology;
    }
}
