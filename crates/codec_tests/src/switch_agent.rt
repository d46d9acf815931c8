//! What the agent of a switch gives, takes and refuses.

use crate::node_fixtures::{attribute_with, port_info_with, replied, request, with_data};
use agent_rules::{LINEAR_TABLE, MULTICAST_TABLE, PortLink};
use attr_tables::SmpAttribute;
use mad_layout::Mad;
use switch_model::Switch;

pub type TestSwitch = Switch<LINEAR_TABLE, MULTICAST_TABLE>;

/// A switch of four ports, the last of which has no cable.
fn switch() -> TestSwitch {
    let links = [
        PortLink::Cabled,
        PortLink::Cabled,
        PortLink::Cabled,
        PortLink::Uncabled,
    ];
    Switch::new(0x10, b"A", &links)
}

/// What it answers to a request that comes in at port 3, if anything.
fn answer_of(request: Mad) -> Option<Mad> {
    let mut node = switch();
    let mut smp = request;
    if node.agent(3, &mut smp) {
        Some(smp)
    } else {
        None
    }
}

const NODE_INFO: [u8; 37] = [
    1, 1, 2, 4, // BaseVersion, ClassVersion, NodeType, NumPorts
    0, 0, 0, 0, 0, 0, 0, 0x10, // SystemImageGUID
    0, 0, 0, 0, 0, 0, 0, 0x10, // NodeGUID
    0, 0, 0, 0, 0, 0, 0, 0x10, // PortGUID
    0, 128, 0, 0, 0, 0, 0, 0, // PartitionCap, DeviceID, Revision
    3, // LocalPortNum
];

const SWITCH_INFO: [u8; 17] = [
    2,
    0,
    0,
    0,
    0x10,
    0, // LinearFDBCap, RandomFDBCap, MulticastFDBCap
    0,
    0, // LinearFDBTop
    0,
    0,
    0,
    18 << 3, // the default ports, LifeTimeValue
    0,
    0,
    0,
    128, // LIDsPerPort, PartitionEnforcementCap
    0xc0, // InboundEnforcementCap, OutboundEnforcementCap
];

/// The same, once LinearFDBTop is 511.
const WITH_TOP: [u8; 17] = [
    2,
    0,
    0,
    0,
    0x10,
    0, // LinearFDBCap, RandomFDBCap, MulticastFDBCap
    0x01,
    0xff, // LinearFDBTop
    0,
    0,
    0,
    18 << 3, // the default ports, LifeTimeValue
    0,
    0,
    0,
    128, // LIDsPerPort, PartitionEnforcementCap
    0xc0, // InboundEnforcementCap, OutboundEnforcementCap
];

/// The method of a request, an attribute, the modifier, the first bytes of what is asked for, and those of what is given.
const GIVEN: [(u8, SmpAttribute, u32, &[u8], &[u8]); 8] = [
    (1, SmpAttribute::NodeDescription, 0, &[], b"A"),
    (1, SmpAttribute::NodeInfo, 0, &[], &NODE_INFO),
    (1, SmpAttribute::SwitchInfo, 0, &[], &SWITCH_INFO),
    (
        2,
        SmpAttribute::SwitchInfo,
        0,
        &[9, 9, 9, 9, 9, 9, 1, 0xff, 9, 9, 9, 9],
        &WITH_TOP,
    ),
    (1, SmpAttribute::PKeyTable, 0x0004_0000, &[], &[0xff, 0xff]),
    (1, SmpAttribute::PKeyTable, 0x0004_0003, &[], &[]),
    (1, SmpAttribute::LinearForwardingTable, 7, &[], &[0xff; 64]),
    (
        1,
        SmpAttribute::MulticastForwardingTable,
        0x2000_007f,
        &[],
        &[],
    ),
];

#[test]
fn a_new_switch_gives_its_attributes(rt: HostRuntime) {
    for (method, attribute, modifier, asked, bytes) in GIVEN {
        let sent = request(method, attribute, modifier, attribute_with(0, asked));
        let given = with_data(replied(sent, 0x81, 0), attribute_with(0, bytes));
        assert!(rt; answer_of(sent) == Some(given));
    }
}

/// A port of a switch, its PortState, and its PortPhysicalState in its byte.
const STATES: [(u32, u8, u8); 3] = [(0, 4, 0x50), (1, 2, 0x50), (4, 1, 0x20)];

/// PortInfo of a port of a switch that the SMP came to by port 3.
fn port_info_of(state: u8, physical: u8) -> [u8; 64] {
    let mut info = port_info_with(state, 33, physical);
    // LocalPortNum, GUIDCap
    info[28] = 3;
    info[50] = 0;
    info
}

#[test]
fn ports_of_a_new_switch_are_reported_by_the_modifier(rt: HostRuntime) {
    for (number, state, physical) in STATES {
        let sent = request(1, SmpAttribute::PortInfo, number, [0; 64]);
        let given = with_data(replied(sent, 0x81, 0), port_info_of(state, physical));
        assert!(rt; answer_of(sent) == Some(given));
    }
}

/// The method of a request, an attribute that a switch does not have or does not take so, the modifier, the seventh byte of what
/// is asked for, and the status of the reply. In SwitchInfo the byte is the first of LinearFDBTop.
const REFUSED: [(u8, SmpAttribute, u32, u8, u8); 12] = [
    (1, SmpAttribute::PortInfo, 5, 0, 0x1c),
    (1, SmpAttribute::PKeyTable, 0x0005_0000, 0, 0x1c),
    (1, SmpAttribute::PKeyTable, 0x0004_0004, 0, 0x1c),
    (1, SmpAttribute::LinearForwardingTable, 8, 0, 0x1c),
    (1, SmpAttribute::MulticastForwardingTable, 128, 0, 0x1c),
    (
        1,
        SmpAttribute::MulticastForwardingTable,
        0x3000_0000,
        0,
        0x1c,
    ),
    (
        1,
        SmpAttribute::MulticastForwardingTable,
        0x0000_0200,
        0,
        0x1c,
    ),
    (
        1,
        SmpAttribute::MulticastForwardingTable,
        0x0800_0000,
        0,
        0x1c,
    ),
    (2, SmpAttribute::NodeInfo, 0, 0, 0x0c),
    (2, SmpAttribute::SwitchInfo, 0, 2, 0x1c),
    (2, SmpAttribute::SwitchInfo, 1, 0, 0x1c),
    (2, SmpAttribute::LinearForwardingTable, 0x0001_0000, 1, 0x1c),
];

#[test]
fn a_switch_refuses_what_it_does_not_have_and_what_is_not_set(rt: HostRuntime) {
    for (method, attribute, modifier, byte, status) in REFUSED {
        let sent = request(method, attribute, modifier, attribute_with(6, &[byte]));
        let refused = replied(sent, 0x81, status);
        assert!(rt; answer_of(sent) == Some(refused));
    }
}
