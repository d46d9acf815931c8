//! The hops of an SMP to switch B of the two-switch fabric and back, and of one to the manager's own node, one node after the
//! other.

use fabric_parts::NodeType;
use fabric_parts::NodeType::{ChannelAdapter, Switch};
use smp_route::{Hop, back, outward};

/// An SMP with that hop count and hop pointer, whose path leaves by ports 1 and 3, and comes in by ports 1 and 3.
fn smp_with(count: u8, pointer: u8) -> [u8; 256] {
    let mut smp = [0; 256];
    smp[6] = pointer;
    smp[7] = count;
    smp[129] = 1;
    smp[130] = 3;
    smp[193] = 1;
    smp[194] = 3;
    smp
}

fn sent_on(node: NodeType, port: u8, count: u8, pointer: u8) -> (Hop, u8) {
    let mut smp = smp_with(count, pointer);
    let hop = outward(node, port, &mut smp);
    (hop, smp[6])
}

fn sent_back(node: NodeType, port: u8, count: u8, pointer: u8) -> (Hop, u8) {
    let mut smp = smp_with(count, pointer);
    let hop = back(node, port, &mut smp);
    (hop, smp[6])
}

/// The node, the port by which the SMP came, its count and pointer, what the node does with it, and the pointer then: at h0, A
/// and B, and at h0 without a hop.
const OUT: [(NodeType, u8, u8, u8, Hop, u8); 4] = [
    (ChannelAdapter, 0, 2, 0, Hop::Forward(1), 1),
    (Switch, 1, 2, 1, Hop::Forward(3), 2),
    (Switch, 3, 2, 2, Hop::ToAgent, 3),
    (ChannelAdapter, 0, 0, 0, Hop::ToAgent, 1),
];

/// The same of its answer: from B's agent, at A and at h0, and from h0's agent.
const BACK: [(NodeType, u8, u8, u8, Hop, u8); 4] = [
    (Switch, 0, 2, 3, Hop::Forward(3), 2),
    (Switch, 3, 2, 2, Hop::Forward(1), 1),
    (ChannelAdapter, 1, 2, 1, Hop::ToManager, 0),
    (ChannelAdapter, 0, 0, 1, Hop::ToManager, 0),
];

#[test]
fn an_smp_goes_its_path_and_its_answer_comes_back(rt: HostRuntime) {
    for (node, port, count, pointer, hop, next) in OUT {
        assert!(rt; sent_on(node, port, count, pointer) == (hop, next));
    }
    for (node, port, count, pointer, hop, next) in BACK {
        assert!(rt; sent_back(node, port, count, pointer) == (hop, next));
    }
}
