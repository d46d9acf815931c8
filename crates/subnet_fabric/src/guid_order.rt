//! LIDs by the order of GUIDs: each is looked up in it.

ghost use Rattle.std.specs.Prelude.{◌≡◌, ◌<◌, ◌≤◌, not, filter, length, map, IfOk, List};
ghost use Rattle.pkey_rules.specs.declared.end_port.EndPort.{EndPort};
ghost use Rattle.fabric_parts.specs.declared.lid.TheConstants.{LAST_UNICAST_LID};
ghost use Rattle.subnet_model.specs.EndPorts.{lid_of};
ghost use Rattle.subnet_fabric.specs.GuidOrder.{AreGuidsOf};

use pkey_rules::EndPort;
use std::alloc::{AllocError, Global};
use std::marker::Model;

/// The GUIDs of all end ports except the SM's, in order.
#[derive(Drop)]
pub(crate) struct GuidOrder {
    guids: Vec<u64>,
}

impl Model for GuidOrder {
    ghost use Rattle.std.specs.Prelude.{ℕ, List};
    ghost use Rattle.std.specs.List.Sorted.{IsNonDecreasing};

    ghost Value = { List ℕ };

    ghost view = { λ order. order.guids.items };

    ghost invariant = { λ order. IsNonDecreasing order.guids.items };
}

impl GuidOrder {
    /// That of these ports.
    pub(crate) fn of(alloc: Global, ports: &[EndPort]) -> Result<GuidOrder, AllocError>
        ensures { IfOk result (AreGuidsOf ports.now) }
    {
        let mut guids = own_guids(alloc, ports)?;
        guids.sort_unstable();
        Ok(GuidOrder { guids })
    }

    /// The LID of a port: 1 for the SM's, else 2 and more, by how many GUIDs are below its own.
    pub(crate) fn lid_of(&self, port: &EndPort) -> u16
        requires { length self.now < LAST_UNICAST_LID }
        ensures { (ports : List EndPort) → AreGuidsOf ports self.now → result ≡ lid_of ports port.now }
    {
        if port.is_sm {
            return 1;
        }
        let guid = port.guid;
        2 + self.guids.partition_point(|other| *other < guid) as u16
    }
}

/// The GUIDs of the ports that are not the SM's.
fn own_guids(alloc: Global, ports: &[EndPort]) -> Result<Vec<u64>, AllocError>
    ensures { IfOk result (λ guids. guids.items ≡ map (λ port. port.guid) (filter (λ port. not port.is_sm) ports.now)) }
{
    ports
        .iter()
        .filter(|port| !port.is_sm)
        .map(|port| port.guid)
        .collect(alloc)
}
