//! Packets to a group of all 256 adapters on the greatest fat tree. `bench/measure` counts the
//! instructions of ten of them.

use crate::carrying::fixtures::{copies, packet, put_mask};
use data_packet::Packet;
use fabric_wire::Fabric;
use std::alloc::Global;
use std::process::Abort;
use std::test::Fail;
use test_fabrics::fat_tree_of;

/// Puts these ports of a switch, bit n for port n, into the masks of 0xC000.
fn put_ports(fabric: &mut Fabric, path: &[u8], ports: u64) -> Option<()> {
    for position in 0..3u32 {
        let mask = (ports >> (16 * position) & 0xffff) as u16;
        put_mask(fabric, path, 0, position, mask)?;
    }
    Some(())
}

/// The ports of a leaf that lead to adapters.
const ADAPTERS: u64 = 0x1fe;

/// Puts all adapters into the group of 0xC000. Its tree has the first spine at its root, which is on port 9 + k of leaf 32 - k, for
/// k from 1 to 27, and on port 9 of the first leaf; of the other four leaves, leaf i is on port 6 - i of the sixth spine, which is
/// on port 14 of the first leaf.
fn put_group(fabric: &mut Fabric) -> Option<()> {
    put_ports(fabric, &[1], ADAPTERS | 1 << 9 | 1 << 14)?;
    put_ports(fabric, &[1, 9], 0x1fff_fffe)?;
    put_ports(fabric, &[1, 14], 0x7c)?;
    for k in 1..28u8 {
        put_ports(fabric, &[1, 9, k + 1], ADAPTERS | 1 << (9 + k))?;
    }
    for i in 1..5u8 {
        put_ports(fabric, &[1, 14, 6 - i], ADAPTERS | 1 << (14 - i))?;
    }
    Some(())
}

/// The GUID of the port of the first adapter, the subnet manager's.
const FIRST: u64 = 30001;

#[inline(never)]
fn ten_packets_reach_all_others(rt: &impl Abort, alloc: Global, fabric: &Fabric, sent: &Packet) {
    for _ in 0..10u8 {
        assert!(rt; copies(alloc, fabric, FIRST, sent) == Some(255));
    }
}

#[test]
fn packets_to_a_group_of_all_adapters_reach_all_others(rt: HostRuntime) -> Result<(), Fail> {
    let mut fabric = fat_tree_of(rt.alloc(), 32)?;
    put_group(&mut fabric).ok_or("the group")?;
    let sent = packet(0xc000, 0xffff).ok_or("a packet")?;
    ten_packets_reach_all_others(&rt, rt.alloc(), &fabric, &sent);
    Ok(())
}
