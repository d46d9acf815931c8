//! Worked topologies, read or refused since an allocation failed.

use fabric_parts::{Cable, NodeType, PortRef};
use std::alloc::Global;
use std::process::Abort;
use std::test::Fail;
use test_fabrics::TWO_SWITCHES;
use topo_file::{TopoFault, Topology, is_connected, read};

/// The same with both switches as roots, B before A.
const TWO_ROOTS: &str = "\
switch A 0x10 4
switch B 0x20 4
adapter h0 0x100 1
adapter h1 0x110 1
root B
adapter h2 0x120 1
adapter h3 0x130 1
adapter h4 0x140 1
cable A/1 h0/1
cable A/2 h1/1
cable A/3 B/3
cable B/1 h2/1
cable B/2 h3/1
sm h0/1
root A
";

fn port(node: usize, port: u8) -> PortRef {
    PortRef { node, port }
}

fn is_node(
    topology: &Topology,
    place: usize,
    name: &[u8],
    node_type: NodeType,
    guid: u64,
    ports: u8,
) -> bool {
    match topology.nodes().get(place) {
        Some(node) => {
            topology.index_of(name) == Some(place)
                && node.name.as_bytes() == name
                && node.node_type == node_type
                && node.guid == guid
                && node.ports == ports
        }
        None => false,
    }
}

fn is_two_switches(topology: &Topology) -> bool {
    topology.nodes().len() == 7
        && is_node(topology, 0, b"A", NodeType::Switch, 0x10, 4)
        && is_node(topology, 5, b"h3", NodeType::ChannelAdapter, 0x130, 1)
        && topology.index_of(b"h") == None
        && topology.cables().len() == 5
        && topology.cables().get(2)
            == Some(&Cable {
                first: port(0, 3),
                second: port(1, 3),
            })
        && topology.sm() == port(2, 1)
}

#[test]
fn a_text_is_read_or_memory_is_refused(rt: HostRuntime) {
    match read(rt.alloc(), TWO_SWITCHES.as_bytes()) {
        Ok(topology) => assert!(rt; is_two_switches(&topology)),
        Err(fault) => assert!(rt; fault == TopoFault::NoMemory),
    }
}

#[test]
fn a_text_with_roots_is_read_or_memory_is_refused(rt: HostRuntime) {
    match read(rt.alloc(), TWO_ROOTS.as_bytes()) {
        Ok(topology) => {
            assert!(rt; is_two_switches(&topology));
            assert!(rt; topology.roots() == [1, 0].as_slice());
        }
        Err(fault) => assert!(rt; fault == TopoFault::NoMemory),
    }
}

/// Cables of an adapter to both switches.
const THROUGH_AN_ADAPTER: [Cable; 2] = [
    Cable {
        first: PortRef { node: 0, port: 1 },
        second: PortRef { node: 2, port: 1 },
    },
    Cable {
        first: PortRef { node: 2, port: 2 },
        second: PortRef { node: 1, port: 1 },
    },
];

fn are_joined_by_switches(rt: &impl Abort, alloc: Global, topology: &Topology) -> Result<(), Fail> {
    for (cables, joined) in [
        (topology.cables(), true),
        (THROUGH_AN_ADAPTER.as_slice(), false),
    ] {
        assert!(rt; is_connected(alloc, topology.nodes(), cables)? == joined);
    }
    Ok(())
}

#[test]
fn cables_between_switches_alone_join_switches(rt: HostRuntime) -> Result<(), Fail> {
    let topology = read(rt.alloc(), TWO_SWITCHES.as_bytes())?;
    are_joined_by_switches(&rt, rt.alloc(), &topology)
}
