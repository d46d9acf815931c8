//! A worked text of `ibnetdiscover`, read or refused since an allocation failed.

use fabric_parts::PortRef;
use netdiscover_file::{Discovery, DiscoveryFault, FarEnd, NodeId, NodeKind, PortLine, read};

/// A switch with an adapter of two ports and a router, two ports that are joined to each other, and a line of each kind
/// that is passed over.
const EACH_KIND_OF_LINE: &str = "\
#
# Topology file: generated on Wed Nov 25 19:11:39 2026
# Initiated from node 0002c90300a1b200 port 0002c90300a1b201
# Initiated from node 0002c90300a1b300 port 0002c90300a1b302

Chassis 1 (guid 0x2c902004085b0)

# Spine Nodes
vendid=0x2c9
sysimgguid=0x2c902004085b0\t\t# Chassis 1
switchguid=0x2c902004085b0(2c902004085b1)\t# leaf
Switch\t4 \"S-0002c902004085b0\"\t\t# \"the \"left\" leaf, #1;  \" enhanced port 0 lid 5 lmc 0
[1]\t\"H-0002c90300a1b200\"[1](2c90300a1b201) \t\t# \"login \"01\" HCA-1\" lid 1 4xFDR
[3]\t\"S-0002c902004085b0\"[4]\t\t# \"the \"left\" leaf, #1;  \" lid 5 4xEDR s=4
[4]\t\"S-0002c902004085b0\"[3]\t\t# \"the \"left\" leaf, #1;  \" lid 5 4xEDR s=4

Non-Chassis Nodes

caguid=0x2c90300a1b200
Ca\t2 \"H-0002c90300a1b200\"\t\t# \"login \"01\" HCA-1\"
[1](2c90300a1b201) \t\"S-0002c902004085b0\"[1]\t\t# lid 1 lmc 0 \"the \"left\" leaf, #1;  \" lid 5 4xFDR
[2](2c90300a1b200) \t\"R-7cfe9003009f0a10\"[2] (7cfe9003009f0a12) \t\t# lid 2 lmc 1 \"gateway\" lid 3 4xQDR
rtguid=0x7cfe9003009f0a10
Rt\t2 \"R-7cfe9003009f0a10\"\t\t# \"\"\r
[2](7cfe9003009f0a12) \t\"H-0002c90300a1b200\"[2] (2c90300a1b200) \t\t# lid 3 lmc 0 \"login \"01\" HCA-1\" lid 2 4xQDR";

const LEAF: NodeId = NodeId {
    kind: NodeKind::Switch,
    guid: 0x2c902004085b0,
};

const LOGIN: NodeId = NodeId {
    kind: NodeKind::ChannelAdapter,
    guid: 0x2c90300a1b200,
};

const GATEWAY: NodeId = NodeId {
    kind: NodeKind::Router,
    guid: 0x7cfe9003009f0a10,
};

/// The line of the adapter's port that is joined to the switch, and that of its port that is joined to the router.
const LOGIN_LINES: [PortLine; 2] = [
    PortLine {
        port: PortRef { node: 1, port: 1 },
        guid: Some(0x2c90300a1b201),
        lid: Some(1),
        far: FarEnd {
            node: LEAF,
            port: 1,
            guid: None,
        },
        line: 21,
    },
    PortLine {
        port: PortRef { node: 1, port: 2 },
        guid: Some(0x2c90300a1b200),
        lid: Some(2),
        far: FarEnd {
            node: GATEWAY,
            port: 2,
            guid: Some(0x7cfe9003009f0a12),
        },
        line: 22,
    },
];

fn is_node(
    discovery: &Discovery,
    place: usize,
    id: NodeId,
    ports: u8,
    name: &[u8],
    line: usize,
) -> bool {
    match discovery.nodes().get(place) {
        Some(node) => {
            node.id == id
                && node.ports == ports
                && node.name.as_bytes() == name
                && node.line == line
        }
        None => false,
    }
}

fn has_all_nodes(discovery: &Discovery) -> bool {
    discovery.nodes().len() == 3
        && is_node(discovery, 0, LEAF, 4, b"the \"left\" leaf, #1;  ", 12)
        && is_node(discovery, 1, LOGIN, 2, b"login \"01\" HCA-1", 20)
        && is_node(discovery, 2, GATEWAY, 2, b"", 24)
        && discovery.place_of(LOGIN.guid) == Some(1)
}

fn has_port_0(discovery: &Discovery) -> bool {
    match discovery.nodes() {
        [leaf, login, _] => {
            leaf.lid == Some(5)
                && leaf.port_guid == Some(0x2c902004085b1)
                && login.lid == None
                && login.port_guid == None
        }
        _ => false,
    }
}

fn has_all_lines(discovery: &Discovery) -> bool {
    discovery.ports().len() == 6
        && discovery.ports().get(3) == Some(&LOGIN_LINES[0])
        && discovery.ports().get(4) == Some(&LOGIN_LINES[1])
        && discovery.line_of(PortRef { node: 0, port: 2 }) == None
}

#[test]
fn each_kind_of_line_is_read_or_memory_is_refused(rt: HostRuntime) {
    match read(rt.alloc(), EACH_KIND_OF_LINE.as_bytes()) {
        Ok(discovery) => {
            assert!(rt; has_all_nodes(&discovery));
            assert!(rt; has_port_0(&discovery));
            assert!(rt; has_all_lines(&discovery));
            assert!(rt; discovery.initiator() == Some(0x2c90300a1b201));
        }
        Err(fault) => assert!(rt; fault == DiscoveryFault::NoMemory),
    }
}
