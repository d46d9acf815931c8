//! The keys of end ports, under a partition file and without one.

use crate::fixtures::{end_ports, keys_of};
use partition_file::{Members, PartFault, Partitions, members, no_file, read};
use pkey_rules::EndPort;
use std::alloc::Global;
use std::process::Abort;
use std::test::Fail;

/// The members under a file of one partition, whose full members are the subnet manager's ports, and a limited one is of GUID 7.
fn named_members(alloc: Global, ports: &[EndPort]) -> Result<Members, Fail> {
    let partitions = read(alloc, b"P=1:SELF=full, 7;")?;
    let named = members(alloc, &partitions, ports)?;
    Ok(named)
}

/// Two ports of one GUID, and two that are the subnet manager's.
fn odd_ports() -> [EndPort; 4] {
    let port = |guid: u64, is_sm: bool| EndPort {
        guid,
        is_switch: false,
        is_sm,
    };
    [port(7, false), port(7, false), port(8, true), port(9, true)]
}

/// Their keys of the bases 0x7fff and 1.
const ODD_KEYS: [(usize, [u16; 2]); 4] = [
    (0, [0x7fff, 1]),
    (1, [0x7fff, 1]),
    (2, [0xffff, 0x8001]),
    (3, [0xffff, 0x8001]),
];

fn have_odd_keys(rt: &impl Abort, members: &Members) {
    for (place, keys) in ODD_KEYS {
        assert!(rt; keys_of(members, place, [0x7fff, 1]) == keys);
    }
}

/// Whether no ports have no keys.
fn none_for_none(alloc: Global) -> Result<bool, Fail> {
    let none = named_members(alloc, &[])?;
    Ok(none.keys().is_empty())
}

#[test]
fn any_list_of_ports_is_answered(rt: HostRuntime) -> Result<(), Fail> {
    assert!(rt; none_for_none(rt.alloc())?);
    have_odd_keys(&rt, &named_members(rt.alloc(), &odd_ports())?);
    Ok(())
}

/// Those of the two-switch fabric have their keys, or an allocation fails.
fn has_members(rt: &impl Abort, alloc: Global, partitions: &Partitions) {
    assert!(rt; partitions.as_slice().len() == 3);
    if let Ok(members) = members(alloc, partitions, &end_ports()) {
        assert!(rt; members.keys().len() == 6);
        assert!(rt; keys_of(&members, 3, [2, 1]) == [0x8002, 1]);
    }
}

#[test]
fn a_partition_file_is_read_or_memory_is_refused(rt: HostRuntime) {
    let text = b"A,ipoib:0x111=full,\n0x121;B=1:ALL_CAS;=1:SELF;";
    match read(rt.alloc(), text) {
        Ok(partitions) => has_members(&rt, rt.alloc(), &partitions),
        Err(fault) => assert!(rt; fault == PartFault::NoMemory),
    }
    if let Ok(partitions) = no_file(rt.alloc()) {
        assert!(rt; partitions.as_slice().len() == 1);
    }
}
