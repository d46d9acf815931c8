//! Worked paths over the wires of the two-switch fabric.

ghost use Rattle.std.specs.Prelude.{None};

use attr_tables::{NodeInfo, SmpAttribute};
use fabric_wire::{
    CountingWire, Fabric, PlainWire, ReplyFault, SmpWire, get_attribute, get_request, set_attribute,
};
use mad_layout::{Header, Mad};
use std::alloc::AllocError;
use std::process::Abort;
use std::test::Fail;
use test_fabrics::{TWO_SWITCHES, two_switch_fabric, two_switch_wire};
use topo_file::read;

/// A path from h0, and the beginning of the name and the GUID of the node at its end.
const PATHS: [(&[u8], [u8; 3], u64); 6] = [
    (&[], *b"h0\0", 0x100),
    (&[1], *b"A\0\0", 0x10),
    (&[1, 2], *b"h1\0", 0x110),
    (&[1, 3], *b"B\0\0", 0x20),
    (&[1, 3, 1], *b"h2\0", 0x120),
    (&[1, 3, 2], *b"h3\0", 0x130),
];

/// An attribute that is asked for along a path in vain: h1 hands nothing on, port 4 of A has no cable, A has no port 5, and a
/// channel adapter has no SwitchInfo.
const FAULTS: [(SmpAttribute, &[u8], ReplyFault); 4] = [
    (SmpAttribute::NodeInfo, &[1, 2, 1], ReplyFault::NoReply),
    (SmpAttribute::NodeInfo, &[1, 4], ReplyFault::NoReply),
    (SmpAttribute::NodeInfo, &[1, 5], ReplyFault::NoReply),
    (SmpAttribute::SwitchInfo, &[1, 2], ReplyFault::Refused),
];

/// The beginning of the name and the GUID of the node at the end of a path.
fn node_at(fabric: &mut Fabric, path: &[u8]) -> Option<([u8; 3], u64)> {
    if path.len() > 63 {
        return None;
    }
    let name = get_attribute(fabric, 1, SmpAttribute::NodeDescription, 0, path).ok()?;
    let info = get_attribute(fabric, 2, SmpAttribute::NodeInfo, 0, path).ok()?;
    Some(([name[0], name[1], name[2]], NodeInfo::read(&info).node_guid))
}

fn nodes_are_read(rt: &impl Abort, fabric: &mut Fabric) {
    for (path, name, guid) in PATHS {
        assert!(rt; node_at(fabric, path) == Some((name, guid)));
    }
    for (attribute, path, fault) in FAULTS {
        let read = get_attribute(fabric, 3, attribute, 0, path);
        assert!(rt; read == Err(fault));
    }
}

/// Bytes of the answer of B to a Get of its NodeInfo along ports 1 and 3 that are not those of the request: method and direction
/// bit, the ports of the return path, and of NodeInfo versions, type, NumPorts, GUIDs, PartitionCap and LocalPortNum.
const ANSWERED: [(u8, u8); 13] = [
    (3, 0x81),
    (4, 0x80),
    (193, 1),
    (194, 3),
    (64, 1),
    (65, 1),
    (66, 2),
    (67, 4),
    (75, 0x20),
    (83, 0x20),
    (91, 0x20),
    (93, 128),
    (100, 3),
];

fn answer_to(request: &Mad) -> Mad {
    let mut answer = *request;
    for (place, byte) in ANSWERED {
        answer[usize::from(place)] = byte;
    }
    answer
}

/// What has come back is not sent again, and no SMP begins in the middle of its path.
fn an_answer_comes_back(rt: &impl Abort, fabric: &mut Fabric) {
    let request = get_request(0x0102_0304, SmpAttribute::NodeInfo, 0, &[1, 3]);
    let answer = answer_to(&request);
    let mut begun = request;
    begun[6] = 1;
    for (sent, back) in [(request, Some(answer)), (answer, None), (begun, None)] {
        assert!(rt; fabric.exchange(&sent) == back);
    }
}

/// Whether a block of the linear forwarding table is set to 3 throughout or read, the block, how many hops of the path to B are
/// gone, and the byte that all of it is then; none if it is refused.
const BLOCKS: [(bool, u32, usize, Option<u8>); 5] = [
    (true, 7, 2, Some(3)),
    (false, 7, 2, Some(3)),
    (false, 6, 2, Some(255)),
    (false, 7, 1, Some(255)),
    (true, 8, 2, None),
];

fn a_block_is_set(rt: &impl Abort, fabric: &mut Fabric) {
    let table = SmpAttribute::LinearForwardingTable;
    for (is_set, block, hops, byte) in BLOCKS {
        let path = &[1, 3][..hops.min(2)];
        let reported = if is_set {
            set_attribute(fabric, 1, table, block, path, &[3; 64])
        } else {
            get_attribute(fabric, 2, table, block, path)
        };
        let expected = match byte {
            Some(byte) => Ok([byte; 64]),
            None => Err(ReplyFault::Refused),
        };
        assert!(rt; reported == expected);
    }
}

#[test]
fn smps_go_along_paths_and_their_answers_come_back(rt: HostRuntime) -> Result<(), Fail> {
    let mut fabric = two_switch_fabric(rt.alloc())?;
    nodes_are_read(&rt, &mut fabric);
    an_answer_comes_back(&rt, &mut fabric);
    a_block_is_set(&rt, &mut fabric);
    Ok(())
}

/// A path, and how many SMPs were sent after a Get along it, and after a Set: from B comes an answer, over
/// port 4 of A none, and from h1 a refusal.
const SENT: [(u8, u64, u64); 3] = [(3, 1, 2), (4, 3, 4), (2, 5, 6)];

fn each_is_one_smp(rt: &impl Abort, wire: &mut CountingWire<PlainWire>) {
    for (port, after_get, after_set) in SENT {
        let path = [1, port];
        let _read = get_attribute(wire, 1, SmpAttribute::SwitchInfo, 0, &path);
        assert!(rt; wire.count == after_get);
        let _set = set_attribute(wire, 2, SmpAttribute::SwitchInfo, 0, &path, &[0; 64]);
        assert!(rt; wire.count == after_set);
    }
}

/// No clause of a caller says how often it uses its wire.
#[test]
fn a_get_and_a_set_are_one_smp_each(rt: HostRuntime) -> Result<(), Fail> {
    let wire = two_switch_wire(rt.alloc())?;
    each_is_one_smp(&rt, &mut CountingWire { wire, count: 0 });
    Ok(())
}

/// Answers every request under the same TransactionID, whatever the request's was. It stands for no fabric.
#[derive(Drop)]
struct LateWire {
    wire: PlainWire,
}

impl SmpWire for LateWire {
    ghost fabric = { λ _. None };

    fn exchange(&mut self, smp: &Mad) -> Option<Mad> {
        let mut reply = self.wire.exchange(smp)?;
        let mut header = Header::read(&reply);
        header.transaction_id = 0x0102_0304_0506_0708;
        header.write(&mut reply);
        Some(reply)
    }
}

fn each_has_its_number(rt: &impl Abort, wire: &mut LateWire) {
    let table = SmpAttribute::LinearForwardingTable;
    for number in [0x0102_0304_0506_0708, 0x0102_0304_0506_0709, 0] {
        let reported = if number == 0x0102_0304_0506_0708 {
            Ok([3; 64])
        } else {
            Err(ReplyFault::WrongReply)
        };
        let set = set_attribute(wire, number, table, 7, &[1, 3], &[3; 64]);
        assert!(rt; set == reported);
        assert!(rt; get_attribute(wire, number, table, 7, &[1, 3]) == reported);
    }
}

/// No clause of a Get or a Set says which TransactionID went out: over a fabric the answer has the same.
#[test]
fn a_get_and_a_set_go_out_under_their_transaction_id(rt: HostRuntime) -> Result<(), Fail> {
    let wire = two_switch_wire(rt.alloc())?;
    each_has_its_number(&rt, &mut LateWire { wire });
    Ok(())
}

#[test]
fn a_fabric_is_made_or_memory_is_refused(rt: HostRuntime) {
    let Ok(topology) = read(rt.alloc(), TWO_SWITCHES.as_bytes()) else {
        return;
    };
    match Fabric::new(rt.alloc(), &topology) {
        Ok(mut fabric) => nodes_are_read(&rt, &mut fabric),
        Err(AllocError) => {}
    }
}
