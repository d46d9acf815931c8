//! Topologies of what `ibnetdiscover` printed, and what is refused.

use netdiscover_file::{DiscoveryFault, read};
use std::alloc::Global;
use topo_file::TopologyCause;
use topology_import::{ImportCause, ImportFault, topology_text};

/// A switch whose port 0 has another GUID than the node, three nodes of one name, two of them with ports of GUIDs that
/// follow one another, and a router.
const THREE_HOSTS: &str = "\
# Initiated from node 00000000000000a0 port 00000000000000a1
switchguid=0x10(11)
Switch 4 \"S-0000000000000010\" # \"leaf; 1\" base port 0 lid 2 lmc 0
[1] \"H-00000000000000a0\"[1](a1) # \"host\" lid 1 4xEDR
[2] \"H-00000000000000a2\"[1](a2) # \"host\" lid 3 4xEDR
[3] \"H-00000000000000b0\"[1](b0) # \"host\" lid 4 4xEDR
[4] \"R-00000000000000c0\"[1](c1) # \"gateway\" lid 5 4xEDR
Ca 1 \"H-00000000000000b0\" # \"host\"
[1](b0) \"S-0000000000000010\"[3] # lid 4 lmc 0 \"leaf; 1\" lid 2 4xEDR
Ca 1 \"H-00000000000000a2\" # \"host\"
[1](a2) \"S-0000000000000010\"[2] # lid 3 lmc 0 \"leaf; 1\" lid 2 4xEDR
Ca 1 \"H-00000000000000a0\" # \"host\"
[1](a1) \"S-0000000000000010\"[1] # lid 1 lmc 0 \"leaf; 1\" lid 2 4xEDR
Rt 1 \"R-00000000000000c0\" # \"gateway\"
[1](c1) \"S-0000000000000010\"[4] # lid 5 lmc 0 \"leaf; 1\" lid 2 4xEDR
";

const THREE_HOSTS_TOPOLOGY: &str = "\
# fabric import, from ibnetdiscover at port 0x00000000000000a1
switch leaf__1 0x0000000000000011 4 # \"leaf; 1\" lid 2
adapter host 0x00000000000000af 1 # \"host\" port 1 lid 4
adapter host-2 0x00000000000000a0 2 # \"host\" port 1 lid 1; \"host\" port 1 lid 3
cable leaf__1/1 host-2/1
cable leaf__1/2 host-2/2
cable leaf__1/3 host/1
sm host-2/1
# router \"gateway\" 0x00000000000000c0 is left out
";

/// A port of the GUID that follows that of the switch's port 0.
const BESIDE_A_SWITCH: &str = "\
switchguid=0x10(11)
Switch 4 \"S-0000000000000010\" # \"leaf\" base port 0 lid 2 lmc 0
[1] \"H-0000000000000012\"[1](12) # \"host\" lid 1 4xEDR
Ca 1 \"H-0000000000000012\" # \"host\"
[1](12) \"S-0000000000000010\"[1] # lid 1 lmc 0 \"leaf\" lid 2 4xEDR
";

/// Two adapters that are joined to each other.
const WITHOUT_A_SWITCH: &str = "\
Ca 1 \"H-00000000000000b0\" # \"host\"
[1](b1) \"H-00000000000000a0\"[1] (a1) # lid 4 lmc 0 \"host\" lid 1 4xEDR
Ca 1 \"H-00000000000000a0\" # \"host\"
[1](a1) \"H-00000000000000b0\"[1] (b1) # lid 1 lmc 0 \"host\" lid 4 4xEDR
";

/// None if the text is no discovery.
fn imported(
    alloc: Global,
    text: &str,
    manager: Option<u64>,
) -> Option<Result<Vec<u8>, ImportFault>> {
    match read(alloc, text.as_bytes()) {
        Ok(discovery) => Some(topology_text(alloc, &discovery, manager)),
        Err(DiscoveryFault::NoMemory) => Some(Err(ImportFault::NoMemory)),
        Err(DiscoveryFault::At { .. }) => None,
    }
}

/// Whether this is the fault, or an allocation failed.
fn fails_at(
    alloc: Global,
    text: &str,
    manager: Option<u64>,
    line: usize,
    cause: ImportCause,
) -> bool {
    match imported(alloc, text, manager) {
        Some(Err(error)) => {
            error == ImportFault::At { line, cause } || error == ImportFault::NoMemory
        }
        _ => false,
    }
}

#[test]
fn a_topology_is_made_of_a_discovery_or_memory_is_refused(rt: HostRuntime) {
    match imported(rt.alloc(), THREE_HOSTS, None) {
        Some(Ok(text)) => assert!(rt; text.as_slice() == THREE_HOSTS_TOPOLOGY.as_bytes()),
        Some(Err(error)) => assert!(rt; error == ImportFault::NoMemory),
        None => assert!(rt; false),
    }
}

#[test]
fn a_discovery_that_makes_no_topology_is_refused_with_its_line(rt: HostRuntime) {
    let alloc = rt.alloc();
    let taken = ImportCause::GuidTaken {
        port: 0x12,
        guid: 0x11,
    };
    let joined = ImportCause::Refused(TopologyCause::WrongCableEnds);
    assert!(rt;
        fails_at(
            alloc,
            THREE_HOSTS,
            Some(0xc1),
            0,
            ImportCause::UnknownManager
        )
    );
    assert!(rt; fails_at(alloc, BESIDE_A_SWITCH, None, 0, ImportCause::UnknownManager));
    assert!(rt; fails_at(alloc, BESIDE_A_SWITCH, Some(0x12), 5, taken));
    assert!(rt; fails_at(alloc, WITHOUT_A_SWITCH, Some(0xa1), 2, joined));
}
