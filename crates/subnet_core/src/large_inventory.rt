//! Who is in a subnet of any size that we take. That takes no fabric, and none is simulated.

ghost use Rattle.std.specs.Prelude.{◌≡◌, ◌≤◌, length};
ghost use Rattle.std.specs.Option.{option_copied};
ghost use Rattle.fabric_parts.specs.declared.lid.TheConstants.{LAST_UNICAST_LID};
ghost use Rattle.fabric_parts.specs.declared.limits.Limits.TheVariants.{Large};
ghost use Rattle.partition_file.specs.Members.{AreSoundHeadings};
ghost use Rattle.script_lines.specs.NamedPort.{named_port};
ghost use Rattle.subnet_core.specs.Inventory.{RunGives, large_inventory_of, of_text};
ghost use Rattle.subnet_core.specs.declared.fault.RunFault.TheVariants as run;
ghost use Rattle.topo_file.specs.Topology.{topology_within};

use crate::fault::RunFault;
use crate::inventory::partitions_for;
use fabric_parts::Limits;
use script_lines::{ScriptCause, named_port};
use std::alloc::Global;
use std::marker::Model;
use subnet_fabric::large_configuration_of;
use subnet_model::Configuration;
use topo_file::{LargeTopology, TopoFault};

/// A topology under a partition file, as an [`Inventory`](crate::Inventory), but of any size that we take.
#[derive(Debug, Drop)]
pub struct LargeInventory {
    topology: LargeTopology,
    configuration: Configuration,
}

impl Model for LargeInventory {
    ghost use Rattle.std.specs.Prelude.{◌≤◌, length};
    ghost use Rattle.fabric_parts.specs.declared.lid.TheConstants.{LAST_UNICAST_LID};
    ghost use Rattle.partition_file.specs.Members.{AreSoundHeadings};
    ghost use Rattle.subnet_core.specs.Inventory.{InventoryState};
    ghost use Rattle.updn_routes.specs.declared.tie_rule.TieRule.TheVariants.{LeastPort};

    ghost Value = { InventoryState };

    ghost view = { λ inventory. record { plan = inventory.topology; configuration = inventory.configuration; rule = LeastPort } };

    ghost invariant = { λ inventory. (length inventory.configuration.ports ≤ LAST_UNICAST_LID)
        × AreSoundHeadings inventory.configuration.partitions };
}

/// Reads the texts of a topology of any size and of partitions. Without the second every end port is a full member of the
/// default partition.
#[tactic(auto, unfolding(crate::specs::Inventory::large_inventory_of))]
pub fn read_large_inventory(
    alloc: Global,
    topology: &[u8],
    partitions: Option<&[u8]>,
) -> Result<LargeInventory, RunFault>
    ensures { RunGives (λ inventory. inventory) result (large_inventory_of topology.now (option_copied partitions.entry)) }
{
    let topology = large_topology_of(alloc, topology)?;
    let partitions = partitions_for(alloc, partitions)?;
    let configuration = large_configuration_of(alloc, &topology, &partitions)?;
    Ok(LargeInventory {
        topology,
        configuration,
    })
}

fn large_topology_of(alloc: Global, text: &[u8]) -> Result<LargeTopology, RunFault>
    ensures { RunGives (λ topology. topology) result (of_text run.Topology (topology_within Large text.now)) }
{
    match topo_file::read_within(alloc, text, Limits::Large) {
        Ok(topology) => Ok(topology),
        Err(TopoFault::NoMemory) => Err(RunFault::NoMemory),
        Err(TopoFault::At { line, cause }) => Err(RunFault::Topology { line, cause }),
    }
}

impl LargeInventory {
    /// The end ports and the partitions.
    pub fn configuration(&self) -> &Configuration
        ensures value { result.now ≡ self.now.configuration }
        ensures few { length result.now.ports ≤ LAST_UNICAST_LID }
        ensures headings { AreSoundHeadings result.now.partitions }
    {
        &self.configuration
    }

    /// The GUID of the end port that a word names as the listing prints it: a port of a channel adapter that has a
    /// cable, or port 0 of a switch.
    pub fn named_port(&self, word: &[u8]) -> Result<u64, ScriptCause>
        ensures { result ≡ named_port self.now.plan word.now }
    {
        named_port(&self.topology, word)
    }
}
