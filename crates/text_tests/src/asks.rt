//! Lines by which ports of the two-switch fabric ask subnet administration, and those that are at fault.

use mad_layout::Mad;
use script_lines::{ScriptCause, command_of};
use std::test::Fail;
use subnet_model::Command;
use test_fabrics::TWO_SWITCHES;
use topo_file::{Topology, read};

/// A line, the GUID of its port, and which bytes stand where in its MAD. All else is 0.
struct Asked {
    line: &'static [u8],
    port_guid: u64,
    parts: &'static [(usize, &'static [u8])],
}

/// The GIDs of h1/1 and h2/1.
const H1_GID: &[u8] = b"\xfe\x80\x00\x00\x00\x00\x00\x00\x00\x00\x00\x00\x00\x00\x01\x11";

const H2_GID: &[u8] = b"\xfe\x80\x00\x00\x00\x00\x00\x00\x00\x00\x00\x00\x00\x00\x01\x21";

// BaseVersion, class, ClassVersion and method at byte 0; TransactionID at 8, AttributeID at 16, ComponentMask at 48, and
// from 56 on the record (IBA volume 1, 13.4.2, 15.2.1.1, 15.2.5).
const ASKED: [Asked; 7] = [
    // DGID and SGID.
    Asked {
        line: b"ask h1/1 get path tid=7 dgid=0xfe800000000000000000000000000111 sgid=0xfe800000000000000000000000000121\n",
        port_guid: 0x111,
        parts: &[
            (0, b"\x01\x03\x02\x01"),
            (8, b"\x00\x00\x00\x00\x00\x00\x00\x07"),
            (16, b"\x00\x35"),
            (48, b"\x00\x00\x00\x00\x00\x00\x00\x0c"),
            (64, H1_GID),
            (80, H2_GID),
        ],
    },
    // MGID, PortGID, P_Key, and JoinState behind Scope in one byte.
    Asked {
        line: b"ask h2/1 set member tid=2 mgid=0xff12401b80010000000000000000000a portgid=0x121 pkey=0x8001 join=1",
        port_guid: 0x121,
        parts: &[
            (0, b"\x01\x03\x02\x02"),
            (8, b"\x00\x00\x00\x00\x00\x00\x00\x02"),
            (16, b"\x00\x38"),
            (48, b"\x00\x00\x00\x00\x00\x01\x00\x83"),
            (
                56,
                b"\xff\x12\x40\x1b\x80\x01\x00\x00\x00\x00\x00\x00\x00\x00\x00\x0a",
            ),
            (
                72,
                b"\x00\x00\x00\x00\x00\x00\x00\x00\x00\x00\x00\x00\x00\x00\x01\x21",
            ),
            (96, b"\x80\x01"),
            (104, b"\x01"),
        ],
    },
    // ServiceID, ServiceGID, ServiceP_Key, ServiceKey, and ServiceName, which is text.
    Asked {
        line: b"ask h2/1 set service tid=10 sid=1 gid=0xfe800000000000000000000000000121 pkey=0x0001 key=0x77 name=3:646273",
        port_guid: 0x121,
        parts: &[
            (0, b"\x01\x03\x02\x02"),
            (8, b"\x00\x00\x00\x00\x00\x00\x00\x0a"),
            (16, b"\x00\x31"),
            (48, b"\x00\x00\x00\x00\x00\x00\x00\x67"),
            (56, b"\x00\x00\x00\x00\x00\x00\x00\x01"),
            (64, H2_GID),
            (80, b"\x00\x01"),
            (
                88,
                b"\x00\x00\x00\x00\x00\x00\x00\x00\x00\x00\x00\x00\x00\x00\x00\x77",
            ),
            (104, b"\x64\x62\x73"),
        ],
    },
    // Numbers in ServiceData, from byte 168 on: Data64_2, Data8_1 and Data16_8.
    Asked {
        line: b"ask h1/1 table service tid=0xffffffffffffffff data64_2=5 data8_1=0xff data16_8=0x2233",
        port_guid: 0x111,
        parts: &[
            (0, b"\x01\x03\x02\x12"),
            (8, b"\xff\xff\xff\xff\xff\xff\xff\xff"),
            (16, b"\x00\x31"),
            (48, b"\x00\x00\x00\x10\x40\x00\x00\x80"),
            (168, b"\xff"),
            (198, b"\x22\x33"),
            (224, b"\x00\x00\x00\x00\x00\x00\x00\x05"),
        ],
    },
    // MTUSelector and MTU share a byte; ProxyJoin is the first bit of another.
    Asked {
        line: b"ask h1/1 delete member tid=1 proxy=1 mtu=4 mtusel=2",
        port_guid: 0x111,
        parts: &[
            (0, b"\x01\x03\x02\x15"),
            (8, b"\x00\x00\x00\x00\x00\x00\x00\x01"),
            (16, b"\x00\x38"),
            (48, b"\x00\x00\x00\x00\x00\x02\x00\x30"),
            (94, b"\x84"),
            (105, b"\x80"),
        ],
    },
    // A name of zero bytes alone.
    Asked {
        line: b"ask h1/1 get service tid=0 name=64:",
        port_guid: 0x111,
        parts: &[
            (0, b"\x01\x03\x02\x01"),
            (16, b"\x00\x31"),
            (48, b"\x00\x00\x00\x00\x00\x00\x00\x40"),
        ],
    },
    // No field at all.
    Asked {
        line: b"ask\th1/1 set node tid=1 # LID 1",
        port_guid: 0x111,
        parts: &[
            (0, b"\x01\x03\x02\x02"),
            (8, b"\x00\x00\x00\x00\x00\x00\x00\x01"),
            (16, b"\x00\x11"),
        ],
    },
];

const AT_FAULT: [(&[u8], ScriptCause); 16] = [
    (b"ask h1/1 get node", ScriptCause::Malformed),
    (b"ask h9/1 GET node tid=1", ScriptCause::Malformed),
    (b"ask h9/1 get nodes tid=1", ScriptCause::Malformed),
    (b"ask h9/1 get node lid=1", ScriptCause::UnknownPort),
    (b"ask h0/1 get node lid=1", ScriptCause::ManagerPort),
    (b"ask h4/1 get node lid=1", ScriptCause::UncabledPort),
    (b"ask h1/1 get node lid=1", ScriptCause::BadField),
    (
        b"ask h1/1 get node tid=0x10000000000000000",
        ScriptCause::BadField,
    ),
    (b"ask h1/1 get node tid=1 tid=1", ScriptCause::BadField),
    (b"ask h1/1 get node tid=1 lid", ScriptCause::BadField),
    (b"ask h1/1 get node tid=1 LID=1", ScriptCause::BadField),
    (
        b"ask h1/1 get node tid=1 lid=1 lid=1",
        ScriptCause::BadField,
    ),
    (
        b"ask h1/1 get node tid=1 lid=0x10000",
        ScriptCause::BadField,
    ),
    (b"ask h1/1 get node tid=1 name=0:", ScriptCause::BadField),
    (
        b"ask h1/1 get service tid=1 name=65:",
        ScriptCause::BadField,
    ),
    (
        b"ask h1/1 get service tid=1 name=1:6162",
        ScriptCause::BadField,
    ),
];

#[test]
fn a_line_asks_by_a_whole_mad(rt: HostRuntime) -> Result<(), Fail> {
    let topology = read(rt.alloc(), TWO_SWITCHES.as_bytes())?;
    for asked in ASKED.iter() {
        assert!(rt;
            mad_in(&topology, asked.line) == Some((asked.port_guid, mad_with(asked.parts)))
        );
    }
    Ok(())
}

#[test]
fn a_line_that_asks_nothing_is_refused(rt: HostRuntime) -> Result<(), Fail> {
    let topology = read(rt.alloc(), TWO_SWITCHES.as_bytes())?;
    for (line, cause) in AT_FAULT.iter() {
        assert!(rt; command_of(&topology, *line).err() == Some(*cause));
    }
    Ok(())
}

/// The port that a line asks by, and its MAD.
fn mad_in(topology: &Topology, line: &[u8]) -> Option<(u64, Mad)> {
    match command_of(topology, line) {
        Ok(Some(Command::Ask(asked))) => {
            let mad = asked.mad;
            Some((asked.port_guid, mad))
        }
        _ => None,
    }
}

fn mad_with(parts: &[(usize, &[u8])]) -> Mad {
    let mut mad = [0; 256];
    for (first, bytes) in parts {
        put(&mut mad, *first, *bytes);
    }
    mad
}

fn put(mad: &mut Mad, first: usize, bytes: &[u8]) {
    for (at, byte) in bytes.iter().enumerate() {
        if let Some(place) = mad.get_mut(first.wrapping_add(at)) {
            *place = *byte;
        }
    }
}
