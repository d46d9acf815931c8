//! Ways that no subnet manager of ours leaves: SMPs of the test write into tables and masks, and the trace says what becomes
//! of a packet then.

use attr_tables::SmpAttribute::{
    self, LinearForwardingTable, MulticastForwardingTable, PKeyTable, SwitchInfo,
};
use fabric_parts::PortRef;
use fabric_wire::{Fabric, get_attribute, set_attribute};
use packet_trace::trace_text;
use std::alloc::Global;
use std::test::Fail;
use subnet_core::bring_up;
use test_fabrics::TWO_SWITCHES;
use topo_file::read;

/// Bytes that are written: the attribute and its modifier, the path to the node, the first byte's place, and they.
type Written<'a> = (SmpAttribute, u32, &'a [u8], usize, &'a [u8]);

/// A topology, what is written into its fabric, and what is traced then of a packet from port 1 of an adapter to a LID.
type Way<'a> = (&'a str, &'a [Written<'a>], &'a [u8], u16, &'a str);

/// Three switches in a ring, with an adapter on port 3 of each.
const RING: &str = "\
switch a 0x10 3
switch b 0x11 3
switch c 0x12 3
adapter ha 0x200 1
adapter hb 0x210 1
adapter hc 0x220 1
cable a/1 b/2
cable b/1 c/2
cable c/1 a/2
cable a/3 ha/1
cable b/3 hb/1
cable c/3 hc/1
sm ha/1
";

const WAYS: [Way; 13] = [
    // In a linear forwarding table byte 5 is the entry for LID 5: B sends the packet back, A knows no way, A sends it where
    // no cable is.
    (
        TWO_SWITCHES,
        &[(LinearForwardingTable, 0, &[1, 3], 5, &[3])],
        b"h1",
        5,
        "\
h1/1 stamps 0x0004 0x0005 0xffff
A in 2 out 3
B in 3 out 3
A in 3 out 3
B in 3 again
",
    ),
    (
        TWO_SWITCHES,
        &[(LinearForwardingTable, 0, &[1], 5, &[5])],
        b"h1",
        5,
        "\
h1/1 stamps 0x0004 0x0005 0xffff
A in 2 drops entry 5
",
    ),
    (
        TWO_SWITCHES,
        &[(LinearForwardingTable, 0, &[1], 5, &[4])],
        b"h1",
        5,
        "\
h1/1 stamps 0x0004 0x0005 0xffff
A in 2 out 4 no cable
",
    ),
    // In SwitchInfo byte 7 is the low one of LinearFDBTop.
    (
        TWO_SWITCHES,
        &[(SwitchInfo, 0, &[1], 7, &[4])],
        b"h1",
        5,
        "\
h1/1 stamps 0x0004 0x0005 0xffff
A in 2 drops top
",
    ),
    // In the P_Key table of port 2 byte 1 is of the default partition's key.
    (
        TWO_SWITCHES,
        &[(PKeyTable, 2 << 16, &[1], 1, &[0])],
        b"h1",
        5,
        "\
h1/1 stamps 0x0004 0x0005 0xffff
A in 2 drops inbound
",
    ),
    // The first entry of block 1 is the mask of 0xC020, bit n for port n: a member, and one who is none.
    (
        TWO_SWITCHES,
        &[
            (MulticastForwardingTable, 1, &[1], 0, &[0, 0x0c]),
            (MulticastForwardingTable, 1, &[1, 3], 0, &[0, 0x0a]),
        ],
        b"h1",
        0xc020,
        "\
h1/1 stamps 0x0004 0xc020 0xffff
A in 2 out 3
B in 3 out 1
h2/1 accepts
",
    ),
    (
        TWO_SWITCHES,
        &[
            (MulticastForwardingTable, 1, &[1], 0, &[0, 0x0c]),
            (MulticastForwardingTable, 1, &[1, 3], 0, &[0, 0x0a]),
        ],
        b"h0",
        0xc020,
        "\
h0/1 stamps 0x0001 0xc020 0xffff
A in 1 out 2
A in 1 out 3
h1/1 accepts
B in 3 out 1
h2/1 accepts
",
    ),
    // Port 0 is the switch itself, and port 4 has no cable.
    (
        TWO_SWITCHES,
        &[(MulticastForwardingTable, 1, &[1], 0, &[0, 0x13])],
        b"h1",
        0xc020,
        "\
h1/1 stamps 0x0004 0xc020 0xffff
A in 2 takes
A in 2 out 1
A in 2 out 4 no cable
h0/1 accepts
",
    ),
    // The masks have the port of entry alone, or none.
    (
        TWO_SWITCHES,
        &[(MulticastForwardingTable, 1, &[1], 0, &[0, 0x04])],
        b"h1",
        0xc020,
        "\
h1/1 stamps 0x0004 0xc020 0xffff
A in 2 drops mask
",
    ),
    (
        TWO_SWITCHES,
        &[(MulticastForwardingTable, 1, &[1], 0, &[0, 0x08])],
        b"h1",
        0xc020,
        "\
h1/1 stamps 0x0004 0xc020 0xffff
A in 2 out 3
B in 3 drops mask
",
    ),
    // Both ways round the ring meet, at each adapter and at the switches.
    (
        RING,
        &[
            (MulticastForwardingTable, 1, &[1], 0, &[0, 0x0e]),
            (MulticastForwardingTable, 1, &[1, 1], 0, &[0, 0x0e]),
            (MulticastForwardingTable, 1, &[1, 2], 0, &[0, 0x0e]),
        ],
        b"ha",
        0xc020,
        "\
ha/1 stamps 0x0001 0xc020 0xffff
a in 3 out 1
a in 3 out 2
b in 2 out 1
b in 2 out 3
c in 1 out 2
c in 1 out 3
c in 2 out 1
c in 2 out 3 again
hb/1 accepts
b in 1 out 2
b in 1 out 3 again
hc/1 accepts
a in 2 out 1 again
a in 2 out 3
a in 1 out 2 again
a in 1 out 3 again
ha/1 accepts
",
    ),
    // All ports of A but port 4 are in its mask, and one of them lacks the key.
    (
        TWO_SWITCHES,
        &[
            (MulticastForwardingTable, 1, &[1], 0, &[0, 0x0e]),
            (PKeyTable, 1 << 16, &[1], 1, &[0]),
        ],
        b"h1",
        0xc020,
        "\
h1/1 stamps 0x0004 0xc020 0xffff
A in 2 out 1 drops outbound
A in 2 out 3
B in 3 drops mask
",
    ),
    (
        TWO_SWITCHES,
        &[
            (MulticastForwardingTable, 1, &[1], 0, &[0, 0x0e]),
            (PKeyTable, 2 << 16, &[1], 1, &[0]),
        ],
        b"h1",
        0xc020,
        "\
h1/1 stamps 0x0004 0xc020 0xffff
A in 2 drops inbound
",
    ),
];

fn write(fabric: &mut Fabric, written: &Written) -> Result<(), Fail> {
    let (attribute, modifier, path, place, bytes) = *written;
    if path.len() > 63 {
        return Err("a path of 63 hops at most")?;
    }
    let mut reported = get_attribute(fabric, 1, attribute, modifier, path).or(Err("a Get"))?;
    for (byte, new) in reported.iter_mut().skip(place).zip(bytes) {
        *byte = *new;
    }
    set_attribute(fabric, 2, attribute, modifier, path, &reported).or(Err("a Set"))?;
    Ok(())
}

/// The fabric of a topology, brought up, and with these bytes.
fn written(alloc: Global, topology: &str, all: &[Written]) -> Result<Fabric, Fail> {
    let mut fabric = bring_up(alloc, topology.as_bytes(), None)?.into_parts().1;
    for one in all {
        write(&mut fabric, one)?;
    }
    Ok(fabric)
}

fn traced(alloc: Global, fabric: &Fabric, way: &Way) -> Result<Vec<u8>, Fail> {
    let topology = read(alloc, way.0.as_bytes()).or(Err("the topology"))?;
    let node = topology.index_of(way.2).ok_or("an adapter")?;
    let from = PortRef { node, port: 1 };
    Ok(trace_text(alloc, &topology, fabric, from, way.3, 0xffff)?)
}

#[test]
fn what_is_written_into_tables_and_masks_shows_in_the_way_of_a_packet(
    rt: HostRuntime,
) -> Result<(), Fail> {
    for way in &WAYS {
        let fabric = written(rt.alloc(), way.0, way.1)?;
        let reported = traced(rt.alloc(), &fabric, way)?;
        assert!(rt; reported.as_slice() == way.4.as_bytes());
    }
    Ok(())
}
