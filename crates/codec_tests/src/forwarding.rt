//! By which port a switch forwards a unicast packet, and by which ports one to a group, by the tables that SMPs wrote.

use crate::node_fixtures::{attribute_with, packet, request};
use crate::switch_agent::TestSwitch;
use agent_rules::PortLink;
use attr_tables::SmpAttribute;
use fabric_parts::SWITCH_PORTS;
use std::process::Abort;
use switch_model::Switch;

fn put(node: &mut TestSwitch, attribute: SmpAttribute, modifier: u32, first: u8, bytes: &[u8]) {
    let mut smp = request(2, attribute, modifier, attribute_with(first, bytes));
    node.agent(1, &mut smp);
}

/// Entries for the LIDs from 0 on, of which 6 is the last that counts.
const ENTRIES: [u8; 8] = [5, 0, 1, 36, 37, 0xff, 2, 3];

/// A switch of 36 ports, all Down, that SMPs gave these entries, and the port of that number these enforcement bits and keys.
fn switch_with(number: u8, enforcement: u8, keys: &[u8]) -> TestSwitch {
    let mut node: TestSwitch = Switch::new(0x10, b"A", &[PortLink::Uncabled; SWITCH_PORTS]);
    put(&mut node, SmpAttribute::SwitchInfo, 0, 6, &[0, 6]);
    put(
        &mut node,
        SmpAttribute::LinearForwardingTable,
        0,
        0,
        &ENTRIES,
    );
    let port_info = [0x40, 0, 0, 0, 0, 0, 0, enforcement];
    put(
        &mut node,
        SmpAttribute::PortInfo,
        u32::from(number),
        36,
        &port_info,
    );
    put(
        &mut node,
        SmpAttribute::PKeyTable,
        u32::from(number) << 16,
        0,
        keys,
    );
    node
}

/// By which port a packet leaves, if it does.
fn out_of(node: &TestSwitch, in_port: u8, dlid: u16, key: u16) -> Option<Option<u8>> {
    let packet = packet(dlid, key)?;
    Some(node.unicast_out(in_port, &packet))
}

/// The port by which a packet comes in, its DLID, and the port by which it leaves, if it does. LID 1 is the switch's own; port 0
/// is the switch itself, and there is no port 37.
const FORWARDED: [(u8, u16, Option<u8>); 16] = [
    (1, 0, Some(5)),
    (1, 1, None),
    (1, 2, Some(1)),
    (1, 3, Some(36)),
    (1, 4, None),
    (1, 5, None),
    (1, 6, Some(2)),
    (1, 7, None),
    (1, 8, None),
    (1, 511, None),
    (1, 512, None),
    (1, 0xc000, None),
    (1, 0xffff, None),
    (0, 2, Some(1)),
    (36, 2, Some(1)),
    (37, 2, None),
];

#[test]
fn a_packet_leaves_by_the_entry_of_its_lid(rt: HostRuntime) {
    let node = switch_with(1, 0, &[]);
    for (in_port, dlid, out) in FORWARDED {
        assert!(rt; out_of(&node, in_port, dlid, 0x0001) == Some(out));
    }
}

/// PartitionEnforcementInbound and PartitionEnforcementOutbound, in their byte.
const INBOUND: u8 = 0x08;

const OUTBOUND: u8 = 0x04;

/// Keys of a port that enforces partitions, a packet's key, and whether the packet passes.
const ENFORCED: [([u8; 4], u16, bool); 11] = [
    ([0xff, 0xff, 0x80, 0x01], 0x0001, true),
    ([0xff, 0xff, 0x80, 0x01], 0x8001, true),
    ([0xff, 0xff, 0x80, 0x01], 0x7fff, true),
    ([0xff, 0xff, 0x80, 0x01], 0x8002, false),
    ([0x00, 0x01, 0x80, 0x02], 0x0001, false),
    ([0x00, 0x01, 0x80, 0x01], 0x0001, false),
    ([0x80, 0x00, 0x80, 0x01], 0x0001, true),
    ([0, 0, 0, 0], 0xffff, false),
    ([0, 0, 0, 0], 0x7fff, false),
    ([0, 0, 0, 0], 0x8001, false),
    ([0, 0, 0, 0], 0x0001, false),
];

/// Which port enforces partitions, and which way, for packets that come in at port 1; their DLID, by which they leave by port 2
/// or come back; and whether that concerns them.
const ENFORCING: [(u8, u8, u16, u8, bool); 11] = [
    (1, INBOUND, 6, 2, true),
    (1, OUTBOUND, 6, 2, false),
    (1, 0x03, 6, 2, false),
    (2, INBOUND, 6, 2, false),
    (2, OUTBOUND, 6, 2, true),
    (2, INBOUND + OUTBOUND, 6, 2, true),
    (2, 0, 6, 2, false),
    (3, INBOUND + OUTBOUND, 6, 2, false),
    (1, INBOUND, 2, 1, true),
    (1, OUTBOUND, 2, 1, true),
    (1, INBOUND + OUTBOUND, 2, 1, true),
];

/// By which port a packet leaves the switch whose port of that number enforces partitions so.
fn out_of_enforcing(
    number: u8,
    enforcement: u8,
    keys: &[u8],
    dlid: u16,
    key: u16,
) -> Option<Option<u8>> {
    let node = switch_with(number, enforcement, keys);
    out_of(&node, 1, dlid, key)
}

fn is_enforced(
    rt: &impl Abort,
    number: u8,
    enforcement: u8,
    dlid: u16,
    out: u8,
    is_concerned: bool,
) {
    for (keys, key, passes) in ENFORCED {
        let left = if passes || !is_concerned {
            Some(out)
        } else {
            None
        };
        assert!(rt; out_of_enforcing(number, enforcement, &keys, dlid, key) == Some(left));
    }
}

#[test]
fn the_entry_port_enforces_inbound_and_the_other_outbound(rt: HostRuntime) {
    for (number, enforcement, dlid, out, is_concerned) in ENFORCING {
        is_enforced(&rt, number, enforcement, dlid, out, is_concerned);
    }
}

/// Which port enforces partitions, and which way, for packets of a group that come in at port 1; and a bit for each port by which
/// those leave that it does not let pass. The masks have ports 1, 2 and 3.
const SPREAD: [(u8, u8, u64); 7] = [
    (1, INBOUND, 0),
    (1, OUTBOUND, 0b1100),
    (2, INBOUND, 0b1100),
    (2, OUTBOUND, 0b1000),
    (2, INBOUND + OUTBOUND, 0b1000),
    (3, OUTBOUND, 0b0100),
    (4, INBOUND + OUTBOUND, 0b1100),
];

/// By which ports a packet to the first multicast LID leaves the switch whose port of that number enforces partitions so.
fn spread_by(number: u8, enforcement: u8, keys: &[u8], key: u16) -> Option<u64> {
    let mut node = switch_with(number, enforcement, keys);
    put(
        &mut node,
        SmpAttribute::MulticastForwardingTable,
        0,
        0,
        &[0, 0b1110],
    );
    let packet = packet(0xc000, key)?;
    Some(node.multicast_out(1, &packet))
}

fn is_spread(rt: &impl Abort, number: u8, enforcement: u8, left: u64) {
    for (keys, key, passes) in ENFORCED {
        let out = if passes { 0b1100 } else { left };
        assert!(rt; spread_by(number, enforcement, &keys, key) == Some(out));
    }
}

#[test]
fn a_group_is_enforced_where_it_comes_in_and_at_each_port_out(rt: HostRuntime) {
    for (number, enforcement, left) in SPREAD {
        is_spread(&rt, number, enforcement, left);
    }
}
