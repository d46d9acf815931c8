//! A registry of the two-switch fabric, made of its ports and their keys: it answers, or an allocation fails.

use fabric_parts::NodeType;
use mad_layout::Mad;
use partition_file::{Members, members};
use pkey_rules::EndPort;
use sa_answer::{NodePort, Registry, are_configured};
use std::alloc::Global;
use std::process::Abort;
use std::test::Fail;
use subnet_model::NodeName;

/// Of partition 1, h1 is a full member and h2 and h3 are limited ones.
const ONE_PARTITION: &str = "P1=0x0001: 0x111=full, 0x121, 0x131;\n";

/// The end ports by LID: the GUIDs of the port and its node, how many ports that has, and which of them it is. The subnet
/// manager is on the first.
const PORTS: [(u64, u64, u8, u8); 6] = [
    (0x101, 0x100, 1, 1),
    (0x10, 0x10, 4, 0),
    (0x20, 0x20, 4, 0),
    (H1, 0x110, 1, 1),
    (0x121, 0x120, 1, 1),
    (0x131, 0x130, 1, 1),
];

const H1: u64 = 0x111;

/// Bytes of a MAD, from a place on; all others are 0.
type Parts<'a> = &'a [(usize, &'a [u8])];

const TABLE_OF_NODES: Parts = &[(0, &[1, 3, 2, 0x12]), (15, &[7, 0, 0x11])];

// h1 makes a group, and leaves it.
const JOIN: Parts = &[
    (0, &[1, 3, 2, 2]),
    (15, &[1, 0, 0x38]),
    (53, &[0x01, 0x30, 0xc7]),
    (56, &[0xff, 0x12]),
    (71, &[10]),
    (72, &[0xfe, 0x80]),
    (86, &[0x01, 0x11]),
    (90, &[0x12, 0x34]),
    (96, &[0x80, 0x01]),
    (104, &[1]),
];

const LEAVE: Parts = &[
    (0, &[1, 3, 2, 0x15]),
    (15, &[2, 0, 0x38]),
    (53, &[0x01, 0x00, 0x03]),
    (56, &[0xff, 0x12]),
    (71, &[10]),
    (72, &[0xfe, 0x80]),
    (86, &[0x01, 0x11]),
    (104, &[1]),
];

fn mad_of(parts: Parts) -> Mad {
    let mut mad = [0; 256];
    for (first, bytes) in parts {
        for (place, byte) in mad.iter_mut().skip(*first).zip(*bytes) {
            *place = *byte;
        }
    }
    mad
}

fn ports(alloc: Global) -> Option<Vec<NodePort>> {
    let mut ports = Vec::new(alloc);
    let mut lid = 0u16;
    for (guid, node_guid, num_ports, number) in PORTS {
        lid = lid.wrapping_add(1);
        ports
            .push(NodePort {
                lid,
                guid,
                node_name: NodeName::new(b"node"),
                node_guid,
                num_ports,
                number,
                node_type: if number == 0 {
                    NodeType::Switch
                } else {
                    NodeType::ChannelAdapter
                },
            })
            .ok()?;
    }
    Some(ports)
}

fn members_of(alloc: Global, file: &[u8]) -> Option<Members> {
    let partitions = partition_file::read(alloc, file).ok()?;
    let mut end_ports = Vec::new(alloc);
    for (guid, _, _, number) in PORTS {
        end_ports
            .push(EndPort {
                guid,
                is_switch: number == 0,
                is_sm: guid == 0x101,
            })
            .ok()?;
    }
    members(alloc, &partitions, &end_ports).ok()
}

/// None if an allocation fails.
fn registry(rt: &impl Abort, alloc: Global) -> Option<Registry> {
    let ports = ports(alloc)?;
    let members = members_of(alloc, ONE_PARTITION.as_bytes())?;
    assert!(rt; members.keys().len() == ports.len());
    assert!(rt; are_configured(&ports, &members));
    Registry::new(alloc, &ports, &members).ok()
}

/// It is answered, or an allocation fails, and then again and for the receivers too.
fn answers(rt: &impl Abort, registry: &mut Registry, asked: Parts) {
    let asks = mad_of(asked);
    match registry.handle(H1, &asks) {
        Ok(reaction) => assert!(rt; reaction.replies.len() == 1),
        Err(_) => {
            assert!(rt; registry.handle(H1, &asks).is_err());
            assert!(rt; registry.receivers(1).is_err());
        }
    }
}

/// One that is refused the memory to list its receivers goes on.
fn has_receivers(rt: &impl Abort, registry: &mut Registry) {
    match registry.receivers(1) {
        Ok(receivers) => assert!(rt; receivers.len() < 2),
        Err(_) => answers(rt, registry, TABLE_OF_NODES),
    }
}

/// tests/refused-memory refuses each allocation of this test in turn.
#[test]
fn a_registry_answers_or_memory_is_refused(rt: HostRuntime) -> Result<(), Fail> {
    if let Some(mut registry) = registry(&rt, rt.alloc()) {
        answers(&rt, &mut registry, TABLE_OF_NODES);
        answers(&rt, &mut registry, JOIN);
        has_receivers(&rt, &mut registry);
        answers(&rt, &mut registry, LEAVE);
    }
    Ok(())
}
