//! Sweeps over wires whose replies are wrong, contradict one another, or never end.

ghost use Rattle.std.specs.Prelude.{None};

use fabric_wire::{CountingWire, PlainWire, SmpWire};
use mad_layout::Mad;
use std::alloc::Global;
use std::test::Fail;
use sweep::{SweepFault, sweep};
use test_fabrics::two_switch_wire;

/// The place of an SMP's class version, of its method, and so on; of what is longer than one byte these are the places of the last.
const CLASS_VERSION: usize = 2;

const METHOD: usize = 3;

const STATUS: usize = 5;

const HOP_COUNT: usize = 7;

const TRANSACTION_ID: usize = 15;

const ATTRIBUTE: usize = 17;

const MODIFIER: usize = 23;

/// The place of NodeInfo's node type, in the data, which begin at 64.
const NODE_TYPE: usize = 64 + 2;

const NUM_PORTS: usize = 64 + 3;

const NODE_GUID: usize = 64 + 19;

const PORT_GUID: usize = 64 + 27;

const LOCAL_PORT_NUM: usize = 64 + 36;

/// The place of PortInfo's port state, which shares its byte.
const PORT_STATE: usize = 64 + 32;

const NODE_INFO: u8 = 0x11;

const PORT_INFO: u8 = 0x15;

/// The two-switch fabric, with one byte set in those of its replies that have these bytes. It answers no request whose
/// TransactionID is not the number of the exchange, counted from 1. It stands for no fabric.
#[derive(Drop)]
struct EditedWire {
    wire: PlainWire,
    exchanges: u8,
    of: &'static [(usize, u8)],
    place: usize,
    value: u8,
}

impl SmpWire for EditedWire {
    ghost fabric = { λ _. None };

    fn exchange(&mut self, smp: &Mad) -> Option<Mad> {
        self.exchanges = self.exchanges.wrapping_add(1);
        if smp[TRANSACTION_ID] != self.exchanges {
            return None;
        }
        let mut reply = self.wire.exchange(smp)?;
        if has_bytes(&reply, self.of) {
            *reply.get_mut(self.place)? = self.value;
        }
        Some(reply)
    }
}

fn has_bytes(reply: &Mad, bytes: &[(usize, u8)]) -> bool {
    for (place, value) in bytes {
        if reply.get(*place) != Some(value) {
            return false;
        }
    }
    true
}

/// What a sweep over such a wire answers, and how many SMPs it sent.
fn swept(
    alloc: Global,
    of: &'static [(usize, u8)],
    place: usize,
    value: u8,
) -> Result<(Option<SweepFault>, u8), Fail> {
    let mut wire = EditedWire {
        wire: two_switch_wire(alloc)?,
        exchanges: 0,
        of,
        place,
        value,
    };
    let fault = sweep(alloc, &mut wire).err();
    Ok((fault, wire.exchanges))
}

/// Which replies are edited, where and to what, and how many SMPs a sweep sends before it stops: at the first reply, or when
/// all was asked.
const EDITS: [(&'static [(usize, u8)], usize, u8, u8); 8] = [
    // Each is of another version of its class.
    (&[], CLASS_VERSION, 2, 1),
    // Each PortInfo is that of another port.
    (&[(ATTRIBUTE, PORT_INFO)], MODIFIER, 9, 4),
    // Seen from B, A has fewer ports than before.
    (
        &[(ATTRIBUTE, NODE_INFO), (HOP_COUNT, 3), (NODE_GUID, 0x10)],
        NUM_PORTS,
        3,
        21,
    ),
    // Each reply has another TransactionID than its request, which count from 1.
    (&[], TRANSACTION_ID, 0, 1),
    // Each has the first one.
    (&[], TRANSACTION_ID, 1, 2),
    // Each is refused: a field of the attribute, or its modifier, is invalid.
    (&[], STATUS, 0x1C, 1),
    // B has the GUID of A.
    (
        &[(ATTRIBUTE, NODE_INFO), (HOP_COUNT, 2), (NODE_GUID, 0x20)],
        NODE_GUID,
        0x10,
        12,
    ),
    // Port 3 of B is Down, though a cable leads there from A.
    (
        &[(ATTRIBUTE, PORT_INFO), (HOP_COUNT, 2), (MODIFIER, 3)],
        PORT_STATE,
        1,
        21,
    ),
];

/// And if an edit changes nothing, it finds the fabric by SMPs that are numbered from 1 to 22.
#[test]
fn a_sweep_takes_no_wrong_reply(rt: HostRuntime) -> Result<(), Fail> {
    for (of, place, value, smps) in EDITS {
        let reported = swept(rt.alloc(), of, place, value)?;
        assert!(rt; reported == (Some(SweepFault::WrongReply), smps));
    }
    assert!(rt; swept(rt.alloc(), &[], METHOD, 0x81)? == (None, 22));
    Ok(())
}

/// Every port of a switch leads to a new switch of 36 ports, for ever. It stands for no fabric.
#[derive(Drop)]
struct EndlessWire {
    switches: u8,
}

impl SmpWire for EndlessWire {
    ghost fabric = { λ _. None };

    fn exchange(&mut self, smp: &Mad) -> Option<Mad> {
        let mut reply = *smp;
        reply[METHOD] = 0x81;
        if smp[ATTRIBUTE] == NODE_INFO {
            let is_switch = smp[HOP_COUNT] != 0;
            self.switches = self.switches.wrapping_add(1);
            reply[NODE_TYPE] = if is_switch { 2 } else { 1 };
            reply[NUM_PORTS] = if is_switch { 36 } else { 1 };
            reply[NODE_GUID] = self.switches;
            reply[PORT_GUID] = self.switches;
            reply[LOCAL_PORT_NUM] = 1;
        }
        if smp[ATTRIBUTE] == PORT_INFO {
            reply[PORT_STATE] = 2;
        }
        Some(reply)
    }
}

/// NodeInfo of the SM port, three SMPs for each switch, and one less for the first, whose port is
/// not asked.
#[test]
fn a_sweep_without_end_stops_at_the_65th_switch(rt: HostRuntime) -> Result<(), Fail> {
    let mut wire = CountingWire {
        wire: EndlessWire { switches: 0 },
        count: 0,
    };
    let swept = sweep(rt.alloc(), &mut wire);
    assert!(rt; swept.err() == Some(SweepFault::TooManyNodes));
    assert!(rt; wire.count == 1 + 3 * 65 - 1);
    Ok(())
}
