//! Steps and whole runs, carried out or refused since an allocation failed.

use std::alloc::Global;
use std::process::Abort;
use std::test::Fail;
use subnet_core::{RunFault, StepFault, Subnet, bring_up, run};
use subnet_model::Command;
use test_fabrics::TWO_SWITCHES;

/// The subnet of a topology without a partition file. It is given, and has no clause: a proof would read the text.
fn subnet_of(alloc: Global, topology: &[u8]) -> Result<Subnet, RunFault> {
    bring_up(alloc, topology, None)
}

/// The two-switch fabric without a partition file.
fn two_switch_subnet(alloc: Global) -> Result<Subnet, RunFault> {
    subnet_of(alloc, TWO_SWITCHES.as_bytes())
}

/// How many events a line leads to, and the port of the first.
fn heard(subnet: &mut Subnet, line: &[u8]) -> Result<(usize, Option<u64>), Fail> {
    let command = subnet.parse(1, line)?.ok_or("a command")?;
    let events = subnet.step(&command)?;
    Ok((events.len(), events.first().map(|event| event.port_guid())))
}

/// A line, and the port at which its one event is.
const STEPS: [(&[u8], u64); 3] = [
    (b"send h1/1 5 0xffff 7 2:beef\n", 0x121),
    (b"send h2/1 4 0x7fff 7 0:", 0x121),
    (b"send h2/1 4 0xffff 7 0: # h1", 0x111),
];

#[test]
fn a_step_reports_its_events(rt: HostRuntime) -> Result<(), Fail> {
    let mut subnet = two_switch_subnet(rt.alloc())?;
    for (line, port) in STEPS {
        assert!(rt; heard(&mut subnet, line)? == (1, Some(port)));
    }
    Ok(())
}

/// A partition of which h1 is a full member, and h2 and h3 are limited ones.
const PARTITIONS: &str = "P1=0x0001: 0x111=full, 0x121, 0x131;";

/// A group is made and joined, records come in segments, a service is set, and a packet goes to the group.
const ASKS: &str = "ask h1/1 set member tid=1 mgid=0xff12000000000000000000000000000a \
    portgid=0xfe800000000000000000000000000111 qkey=1 tclass=0 pkey=0x8001 sl=0 flow=0 join=1\n\
    ask h2/1 set member tid=1 mgid=0xff12000000000000000000000000000a \
    portgid=0xfe800000000000000000000000000121 pkey=0x8001 join=1\n\
    ask h1/1 table node tid=2\n\
    ask h2/1 set service tid=2 sid=1 gid=0xfe800000000000000000000000000121 pkey=0x0001\n\
    send h1/1 0xc020 0x8001 7 1:01\n";

/// The report of these, unless an allocation failed.
fn answers(rt: &impl Abort, alloc: Global) -> Option<Vec<u8>> {
    match run(
        alloc,
        TWO_SWITCHES.as_bytes(),
        Some(PARTITIONS.as_bytes()),
        ASKS.as_bytes(),
    ) {
        Ok(report) => report.text().ok(),
        Err(fault) => {
            assert!(rt; fault == RunFault::NoMemory);
            None
        }
    }
}

/// Of two runs at most one is refused memory, and what one reports the other reports. tests/refused-memory refuses each allocation
/// of this test, and of the last, in turn.
#[test]
fn a_run_that_asks_is_reported_or_memory_is_refused(rt: HostRuntime) -> Result<(), Fail> {
    let first = answers(&rt, rt.alloc());
    let second = answers(&rt, rt.alloc());
    assert!(rt; first.is_some() || second.is_some());
    if let (Some(one), Some(other)) = (first, second) {
        assert!(rt; one.as_slice() == other.as_slice());
        assert!(rt; one.iter().filter(|byte| **byte == b'\n').count() == 7);
    }
    Ok(())
}

/// Requests of members, as h1 on switch A makes a group and the others, both on B, join and leave it; and how many SMPs the subnet
/// manager sends for each: one for each block of a multicast forwarding table that changes.
const COSTS: [(&str, u64); 8] = [
    (
        "ask h1/1 set member tid=1 mgid=0xff12000000000000000000000000000a \
            portgid=0xfe800000000000000000000000000111 qkey=1 tclass=0 pkey=0x8001 sl=0 flow=0 join=1",
        2,
    ),
    (
        "ask h2/1 set member tid=2 mgid=0xff12000000000000000000000000000a \
            portgid=0xfe800000000000000000000000000121 pkey=0x8001 join=1",
        2,
    ),
    (
        "ask h3/1 set member tid=3 mgid=0xff12000000000000000000000000000a \
            portgid=0xfe800000000000000000000000000131 pkey=0x8001 join=1",
        1,
    ),
    (
        "ask h3/1 set member tid=4 mgid=0xff12000000000000000000000000000a \
            portgid=0xfe800000000000000000000000000131 pkey=0x8001 join=1",
        0,
    ),
    ("ask h2/1 table member tid=5", 0),
    ("send h1/1 0xc020 0x8001 7 1:01", 0),
    (
        "ask h3/1 delete member tid=6 mgid=0xff12000000000000000000000000000a \
            portgid=0xfe800000000000000000000000000131 pkey=0x8001 join=1",
        1,
    ),
    (
        "ask h2/1 delete member tid=7 mgid=0xff12000000000000000000000000000a \
            portgid=0xfe800000000000000000000000000121 pkey=0x8001 join=1",
        2,
    ),
];

/// How many SMPs a line costs.
fn cost(subnet: &mut Subnet, line: &str) -> Result<u64, Fail> {
    let before = subnet.fabric().exchanges();
    heard(subnet, line.as_bytes())?;
    Ok(subnet.fabric().exchanges().wrapping_sub(before))
}

#[test]
fn only_blocks_that_change_are_set(rt: HostRuntime) -> Result<(), Fail> {
    let mut subnet = bring_up(
        rt.alloc(),
        TWO_SWITCHES.as_bytes(),
        Some(PARTITIONS.as_bytes()),
    )?;
    for (line, smps) in COSTS {
        assert!(rt; cost(&mut subnet, line)? == smps);
    }
    Ok(())
}

/// Near h3 are the SM port, a full member of the default partition, h1, a full member of P1, and h3 itself. h2 is a limited
/// member of both, as h3 is.
const NEAR_H3: [u64; 3] = [0x101, 0x111, 0x131];

/// The ports near h3, unless an allocation failed.
fn near_h3(rt: &impl Abort, alloc: Global) -> Option<Vec<u64>> {
    match bring_up(alloc, TWO_SWITCHES.as_bytes(), Some(PARTITIONS.as_bytes())) {
        Ok(subnet) => subnet.near(0x131).ok(),
        Err(fault) => {
            assert!(rt; fault == RunFault::NoMemory);
            None
        }
    }
}

/// Whether they are listed: an allocation may fail.
fn are_listed(rt: &impl Abort, alloc: Global) -> bool {
    match near_h3(rt, alloc) {
        Some(guids) => {
            assert!(rt; guids.as_slice() == NEAR_H3.as_slice());
            true
        }
        None => false,
    }
}

/// Of two lists at most one is refused memory.
#[test]
fn near_ports_are_listed_or_memory_is_refused(rt: HostRuntime) -> Result<(), Fail> {
    let first = are_listed(&rt, rt.alloc());
    let second = are_listed(&rt, rt.alloc());
    assert!(rt; first || second);
    Ok(())
}

fn is_carried_out(rt: &impl Abort, subnet: &mut Subnet, command: &Command) {
    match subnet.step(command) {
        Ok(events) => assert!(rt; events.len() == 1),
        Err(fault) => {
            assert!(rt; fault == StepFault::NoMemory);
            assert!(rt; matches!(subnet.step(command), Err(StepFault::Broken)));
            assert!(rt; matches!(subnet.step(command), Err(StepFault::Broken)));
        }
    }
}

/// A step answers its event; if an allocation fails the subnet is broken from then on.
fn steps_or_breaks(rt: &impl Abort, subnet: &mut Subnet) -> Result<(), Fail> {
    assert!(rt; matches!(subnet.parse(7, b"# nothing\n"), Ok(None)));
    match subnet.parse(8, b"send h1/1 5 0xffff 7 2:beef\n") {
        Ok(command) => is_carried_out(rt, subnet, &command.ok_or("a command")?),
        Err(fault) => assert!(rt; fault == RunFault::NoMemory),
    }
    Ok(())
}

#[test]
fn a_subnet_that_ran_out_of_memory_is_broken(rt: HostRuntime) -> Result<(), Fail> {
    match two_switch_subnet(rt.alloc()) {
        Ok(mut subnet) => steps_or_breaks(&rt, &mut subnet),
        Err(fault) => {
            assert!(rt; fault == RunFault::NoMemory);
            Ok(())
        }
    }
}
