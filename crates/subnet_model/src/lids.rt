//! The LIDs of end ports.

ghost use Rattle.std.specs.Prelude.{◌≡◌, ◌<◌, length, IfOk};
ghost use Rattle.fabric_parts.specs.declared.lid.TheConstants.{LAST_UNICAST_LID};
ghost use Rattle.subnet_model.specs.EndPorts.{lid_of, lids_of};

use pkey_rules::EndPort;
use std::alloc::{AllocError, Global};

/// The LID of each end port: 1 for the subnet manager's, the others from 2 in order of their GUIDs.
pub fn lids_of(alloc: Global, ports: &[EndPort]) -> Result<Vec<u16>, AllocError>
    requires { length ports.now < LAST_UNICAST_LID }
    ensures { IfOk result (λ lids. lids.items ≡ lids_of ports.now) }
{
    ports.iter().map(|port| lid_of(ports, port)).collect(alloc)
}

/// The LID of an end port among all of them.
pub fn lid_of(ports: &[EndPort], port: &EndPort) -> u16
    requires { length ports.now < LAST_UNICAST_LID }
    ensures { result ≡ lid_of ports.now port.now }
{
    if port.is_sm {
        1
    } else {
        let before = ports
            .iter()
            .filter(|other| !other.is_sm && other.guid < port.guid)
            .count();
        2 + before as u16
    }
}
