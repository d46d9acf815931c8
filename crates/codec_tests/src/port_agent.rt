//! What the agent of a channel adapter's port gives, takes and refuses.

use crate::node_fixtures::{asked_by, attribute_with, port_info_with, replied, request, with_data};
use agent_rules::PortLink;
use attr_tables::SmpAttribute;
use mad_layout::Mad;
use port_model::AdapterPort;

/// Port 1 of an adapter of one port, cabled, that SMPs took from Initialize to that state.
pub fn port_in(state: u8) -> AdapterPort {
    let mut port = AdapterPort::new(0x100, 1, 1, 0x101, b"h0", PortLink::Cabled);
    for next in [3, 4] {
        if next <= state {
            // LID
            let info = port_info_with(next, 17, 4);
            let mut smp = request(2, SmpAttribute::PortInfo, 1, info);
            port.agent(&mut smp);
        }
    }
    port
}

/// What it answers then, if anything.
fn answer_of(state: u8, request: Mad) -> Option<Mad> {
    let mut port = port_in(state);
    let mut smp = request;
    if port.agent(&mut smp) {
        Some(smp)
    } else {
        None
    }
}

const NODE_INFO: [u8; 40] = [
    1, 1, 1, 1, // BaseVersion, ClassVersion, NodeType, NumPorts
    0, 0, 0, 0, 0, 0, 1, 0, // SystemImageGUID
    0, 0, 0, 0, 0, 0, 1, 0, // NodeGUID
    0, 0, 0, 0, 0, 0, 1, 1, // PortGUID
    0, 128, 0, 0, 0, 0, 0, 0, // PartitionCap, DeviceID, Revision
    1, 0, 0, 0, // LocalPortNum, VendorID
];

/// An attribute, by the modifier, and what a new port gives from its first byte on.
const GIVEN: [(SmpAttribute, u32, &[u8]); 4] = [
    (SmpAttribute::NodeDescription, 0, b"h0"),
    (SmpAttribute::NodeInfo, 0, &NODE_INFO),
    (SmpAttribute::PKeyTable, 0, &[0xff, 0xff]),
    (SmpAttribute::PKeyTable, 3, &[]),
];

#[test]
fn a_new_adapter_port_gives_its_attributes(rt: HostRuntime) {
    for (attribute, modifier, bytes) in GIVEN {
        let sent = request(1, attribute, modifier, [0xee; 64]);
        let given = with_data(replied(sent, 0x81, 0), attribute_with(0, bytes));
        assert!(rt; answer_of(2, sent) == Some(given));
    }
}

/// The base version, the class, its version, the method, the attribute and the modifier of an SMP, and the method and the status
/// of the reply, in the order of the checks. What is no request of the class gets none, which stands here as method 0.
const REFUSED: [(u8, u8, u8, u8, u16, u32, u8, u8); 18] = [
    (1, 0x01, 1, 0x01, 0x11, 0, 0, 0),
    (1, 0x03, 1, 0x01, 0x11, 0, 0, 0),
    (1, 0x81, 1, 0x81, 0x11, 0, 0, 0),
    (1, 0x81, 1, 0x82, 0x11, 0, 0, 0),
    (1, 0x81, 2, 0x01, 0x11, 0, 0x81, 0x04),
    (2, 0x81, 1, 0x01, 0x11, 0, 0x81, 0x04),
    (1, 0x81, 2, 0x03, 0x11, 0, 0x83, 0x04),
    (1, 0x81, 1, 0x03, 0x11, 0, 0x83, 0x08),
    (1, 0x81, 1, 0x03, 0x13, 0, 0x83, 0x08),
    (1, 0x81, 1, 0x01, 0x13, 0, 0x81, 0x0c),
    (1, 0x81, 1, 0x01, 0x12, 0, 0x81, 0x0c),
    (1, 0x81, 1, 0x01, 0x19, 0, 0x81, 0x0c),
    (1, 0x81, 1, 0x01, 0x1b, 0, 0x81, 0x0c),
    (1, 0x81, 1, 0x02, 0x11, 1, 0x81, 0x0c),
    (1, 0x81, 1, 0x02, 0x10, 0, 0x81, 0x0c),
    (1, 0x81, 1, 0x01, 0x11, 1, 0x81, 0x1c),
    (1, 0x81, 1, 0x01, 0x16, 4, 0x81, 0x1c),
    (1, 0x81, 1, 0x01, 0x16, 0x0001_0000, 0x81, 0x1c),
];

#[test]
fn an_adapter_port_refuses_in_order(rt: HostRuntime) {
    for (base, class, version, asked, attribute, modifier, method, status) in REFUSED {
        let sent = asked_by(
            (base, class, version),
            asked,
            attribute,
            modifier,
            [0xee; 64],
        );
        let refused = replied(sent, method, status);
        let answer = if method == 0 { None } else { Some(refused) };
        assert!(rt; answer_of(2, sent) == answer);
    }
}

/// The state of a port, the modifier of a Set of its PortInfo, the state that it asks for, another byte of it, and the state that
/// is given then, or 0 if it is refused: for PortState, LMC, NeighborMTU, the LID and the modifier.
const ASKED: [(u8, u32, u8, u8, u8, u8); 19] = [
    (2, 1, 4, 16, 0, 0),
    (2, 1, 1, 16, 0, 0),
    (2, 1, 2, 16, 0, 0),
    (2, 1, 0, 16, 0, 2),
    (2, 1, 3, 16, 0, 3),
    (3, 0, 3, 16, 0, 3),
    (3, 1, 0, 16, 0, 3),
    (3, 1, 2, 16, 0, 0),
    (3, 1, 4, 16, 0, 4),
    (4, 1, 4, 16, 0, 4),
    (4, 1, 3, 16, 0, 0),
    (4, 1, 5, 16, 0, 0),
    (4, 1, 0, 16, 0, 4),
    (4, 1, 0, 34, 0x01, 0),
    (4, 1, 0, 36, 0x00, 0),
    (4, 1, 0, 36, 0x50, 0),
    (4, 1, 0, 16, 0xbf, 4),
    (4, 1, 0, 16, 0xc0, 0),
    (4, 2, 0, 16, 0, 0),
];

#[test]
fn a_port_takes_what_may_follow(rt: HostRuntime) {
    for (state, modifier, asked, place, byte, next) in ASKED {
        let sent = request(
            2,
            SmpAttribute::PortInfo,
            modifier,
            port_info_with(asked, place, byte),
        );
        let given = with_data(replied(sent, 0x81, 0), port_info_with(next, place, byte));
        let refused = replied(sent, 0x81, 0x1c);
        let answer = if next == 0 { refused } else { given };
        assert!(rt; answer_of(state, sent) == Some(answer));
    }
}
