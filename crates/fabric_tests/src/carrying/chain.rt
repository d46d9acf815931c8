//! Five switches in a row, with an adapter on each. `bench/measure` counts the instructions of each call of `carry_1000`.

use crate::carrying::fixtures::{BOTH_WAYS, copies, packet, put_enforcement, put_entries};
use data_packet::Packet;
use fabric_wire::Fabric;
use std::alloc::Global;
use std::process::Abort;
use std::test::Fail;
use test_fabrics::fabric_of;

/// The GUID of the port of the first adapter.
const FIRST: u64 = 0x101;

/// Port 1 of a switch leads to the next, port 2 to the one before, and port 3 to its adapter.
const TEXT: &[u8] = b"\
switch s0 0x10 3
switch s1 0x20 3
switch s2 0x30 3
switch s3 0x40 3
switch s4 0x50 3
adapter h0 0x100 1
adapter h1 0x110 1
adapter h2 0x120 1
adapter h3 0x130 1
adapter h4 0x140 1
cable s0/3 h0/1
cable s1/3 h1/1
cable s2/3 h2/1
cable s3/3 h3/1
cable s4/3 h4/1
cable s0/1 s1/2
cable s1/1 s2/2
cable s2/1 s3/2
cable s3/1 s4/2
sm h0/1
";

/// The entries of each switch, which lead to LID 1 at the first adapter to LID 5 at the last.
const ENTRIES: [[u8; 7]; 5] = [
    [0xff, 3, 1, 1, 1, 1, 0xff],
    [0xff, 2, 3, 1, 1, 1, 0xff],
    [0xff, 2, 2, 3, 1, 1, 0xff],
    [0xff, 2, 2, 2, 3, 1, 0xff],
    [0xff, 2, 2, 2, 2, 3, 0xff],
];

fn put_tables(fabric: &mut Fabric) -> Option<()> {
    let path = [1; 5];
    for (entries, hops) in ENTRIES.iter().zip(1..6usize) {
        put_entries(fabric, &path[..hops.min(5)], entries)?;
        put_enforcement(fabric, &path[..hops.min(5)], 3, BOTH_WAYS)?;
    }
    Some(())
}

/// The row of switches, its tables filled.
fn chain(alloc: Global) -> Result<Fabric, Fail> {
    let mut fabric = fabric_of(alloc, TEXT)?;
    put_tables(&mut fabric).ok_or("the tables")?;
    Ok(fabric)
}

/// Carries a packet of the first adapter 1,000 times.
#[inline(never)]
fn carry_1000(rt: &impl Abort, alloc: Global, fabric: &Fabric, sent: &Packet) {
    for _ in 0..1000u16 {
        assert!(rt; copies(alloc, fabric, FIRST, sent) == Some(1));
    }
}

#[test]
fn packets_go_over_1_to_5_switches(rt: HostRuntime) -> Result<(), Fail> {
    let fabric = chain(rt.alloc())?;
    for lid in 1..6u16 {
        let sent = packet(lid, 0xffff).ok_or("a packet")?;
        carry_1000(&rt, rt.alloc(), &fabric, &sent);
    }
    Ok(())
}
