//! Tables, masks and keys by chance: packets reach whom a plain search over the same numbers reaches.

use crate::carrying::fixtures::{put_enforcement, put_entries, put_key, put_mask, receivers};
use fabric_parts::{Cable, PortRef, far_end};
use fabric_wire::Fabric;
use std::alloc::Global;
use std::process::Abort;
use std::test::Fail;
use test_fabrics::{Chance, fabric_over};
use topo_file::read;

/// Three switches in a ring, and four adapters on ports 3 and 4. Port 4 of s1 and s2 has no cable.
const RING: &[u8] = b"\
switch s0 0x10 4
switch s1 0x20 4
switch s2 0x30 4
adapter h0 0x100 1
adapter h1 0x110 1
adapter h2 0x120 1
adapter h3 0x130 1
cable s0/1 s1/2
cable s1/1 s2/2
cable s2/1 s0/2
cable s0/3 h0/1
cable s0/4 h1/1
cable s1/3 h2/1
cable s2/3 h3/1
sm h0/1
";

/// The path to a node, by its place.
fn path_to(place: usize) -> &'static [u8] {
    match place {
        0 => &[1],
        1 => &[1, 1],
        2 => &[1, 2],
        3 => &[],
        4 => &[1, 4],
        5 => &[1, 1, 3],
        _ => &[1, 2, 3],
    }
}

/// The port for each of LIDs 0 to 6, the mask of 0xC000, and of ports 0 to 4 the key, or 0 for none, and the enforcement bits. An
/// adapter has but the key of port 1.
type Node = ([u8; 7], u16, [(u16, u8); 5]);

/// Three switches and four adapters.
type Nodes = [Node; 7];

/// What ports hold.
const HELD: [u16; 5] = [0x8001, 0x8001, 0x0001, 0x8002, 0];

/// What packets travel under.
const KEYS: [u16; 3] = [0x0001, 0x8001, 0x8002];

/// 0 is the switch itself, and port 5 is not there. Most ports are in the mask.
fn some_node(chance: &mut Chance) -> Node {
    let mut entries = [0; 7];
    for entry in &mut entries {
        *entry = chance.below(6);
    }
    let mask = u16::from(chance.below(16) | chance.below(16)) << 1;
    let mut ports = [(0xffff, 0); 5];
    for port in &mut ports {
        let bits = chance.below(4) & chance.below(4);
        *port = (HELD[usize::from(chance.below(5))], bits << 2);
    }
    (entries, mask, ports)
}

fn some_nodes(chance: &mut Chance) -> Nodes {
    let mut nodes = [([0; 7], 0, [(0, 0); 5]); 7];
    for node in &mut nodes {
        *node = some_node(chance);
    }
    nodes
}

fn put_switch(fabric: &mut Fabric, path: &[u8], (entries, mask, ports): &Node) -> Option<()> {
    put_entries(fabric, path, entries)?;
    put_mask(fabric, path, 0, 0, *mask)?;
    for ((key, bits), number) in ports.iter().zip(0..5u8) {
        put_key(fabric, path, number, *key)?;
        put_enforcement(fabric, path, number, *bits)?;
    }
    Some(())
}

fn put_nodes(fabric: &mut Fabric, nodes: &Nodes) -> Option<()> {
    for (node, place) in nodes.iter().zip(0..7usize) {
        if place < 3 {
            put_switch(fabric, path_to(place), node)?;
        } else {
            put_key(fabric, path_to(place), 0, node.2[1].0)?;
        }
    }
    Some(())
}

fn matches(a: u16, b: u16) -> bool {
    a % 0x8000 != 0 && a % 0x8000 == b % 0x8000 && (a >= 0x8000 || b >= 0x8000)
}

/// Whether a port that holds this lets through what it is to check if that bit is set.
fn passes(held: (u16, u8), bit: u8, key: u16) -> bool {
    held.1 & bit == 0 || matches(held.0, key)
}

/// Whether a switch sends a packet to that LID, which came in at that port, out of this one.
fn leads(node: &Node, lid: u16, entered: u8, out: u8) -> bool {
    if lid == 0xc000 {
        node.1 >> (out % 16) & 1 == 1 && out != entered
    } else {
        node.0[usize::from(lid % 7)] == out
    }
}

/// Where a packet that came in here comes in next, if it goes out of that port.
fn next(
    nodes: &Nodes,
    cables: &[Cable],
    here: PortRef,
    out: u8,
    lid: u16,
    key: u16,
) -> Option<PortRef> {
    let node = &nodes[here.node % 7];
    let entered = node.2[usize::from(here.port % 5)];
    let left = node.2[usize::from(out % 5)];
    if passes(entered, 8, key) && passes(left, 4, key) && leads(node, lid, here.port, out) {
        far_end(
            cables,
            PortRef {
                node: here.node,
                port: out,
            },
        )
    } else {
        None
    }
}

/// Where a packet has come in, by node and port.
type Marks = [[bool; 5]; 7];

/// Marks where the packet comes in from here.
fn spread(nodes: &Nodes, cables: &[Cable], here: PortRef, lid: u16, key: u16, marks: &mut Marks) {
    for out in 1..5u8 {
        if let Some(there) = next(nodes, cables, here, out, lid, key) {
            marks[there.node % 7][usize::from(there.port % 5)] = true;
        }
    }
}

/// Marks where the packet comes in by one more hop, or by some.
fn hop(nodes: &Nodes, cables: &[Cable], lid: u16, key: u16, marks: &mut Marks) {
    for place in 0..15u8 {
        let here = PortRef {
            node: usize::from(place / 5),
            port: place % 5,
        };
        if marks[here.node % 7][usize::from(here.port % 5)] {
            spread(nodes, cables, here, lid, key, marks);
        }
    }
}

/// Where a packet of that adapter comes in. No shortest way has more than 16 hops.
fn marks_of(nodes: &Nodes, cables: &[Cable], sender: usize, lid: u16, key: u16) -> Marks {
    let mut marks = [[false; 5]; 7];
    let from = PortRef {
        node: sender,
        port: 1,
    };
    if let Some(first) = far_end(cables, from) {
        marks[first.node % 7][usize::from(first.port % 5)] = true;
    }
    for _hops in 0..16u8 {
        hop(nodes, cables, lid, key, &mut marks);
    }
    marks
}

/// Whose ports a packet reaches, as digits.
fn reached(nodes: &Nodes, cables: &[Cable], sender: usize, lid: u16, key: u16) -> u32 {
    let marks = marks_of(nodes, cables, sender, lid, key);
    let mut digits = 0u32;
    for adapter in 1..5u32 {
        let place = adapter as usize + 2;
        if marks[place % 7][1] && matches(nodes[place % 7].2[1].0, key) {
            digits = digits << 4 | adapter;
        }
    }
    digits
}

/// Sends packets of one adapter by chance, and counts those that somebody gets.
fn send(
    rt: &impl Abort,
    alloc: Global,
    fabric: &Fabric,
    nodes: &Nodes,
    cables: &[Cable],
    chance: &mut Chance,
) -> u32 {
    let mut delivered = 0u32;
    for _ in 0..20u8 {
        let adapter = chance.below(4);
        let key = KEYS[usize::from(chance.below(3))];
        let lid = [1, 2, 3, 4, 5, 6, 0xc000, 0xc000][usize::from(chance.below(8))];
        let got = reached(nodes, cables, usize::from(adapter) + 3, lid, key);
        let sender = 0x101 + 0x10 * u64::from(adapter);
        assert!(rt; receivers(alloc, fabric, sender, lid, key) == Some(got));
        delivered = delivered.saturating_add(u32::from(got != 0));
    }
    delivered
}

/// Fills the tables again and again, and sends packets after each.
fn send_all(rt: &impl Abort, alloc: Global, fabric: &mut Fabric, cables: &[Cable]) -> Option<u32> {
    let mut chance = Chance { state: 34 };
    let mut delivered = 0u32;
    for _ in 0..100u8 {
        let nodes = some_nodes(&mut chance);
        put_nodes(fabric, &nodes)?;
        let more = send(rt, alloc, fabric, &nodes, cables, &mut chance);
        delivered = delivered.saturating_add(more);
    }
    Some(delivered)
}

#[test]
fn by_chance_packets_go_as_in_a_plain_search(rt: HostRuntime) -> Result<(), Fail> {
    let topology = read(rt.alloc(), RING).or(Err("the topology"))?;
    let mut fabric = fabric_over(rt.alloc(), &topology)?;
    let delivered = send_all(&rt, rt.alloc(), &mut fabric, topology.cables());
    // Of 2,000 packets enough are delivered for the comparison to say something.
    assert!(rt; delivered > Some(100));
    Ok(())
}
