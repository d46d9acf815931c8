//! Pushes over a wire at fault: each stops at the first exchange that is, and numbers its requests.

ghost use Rattle.std.specs.Prelude.{None};

use crate::fixtures::{Push, found, keys_of};
use fabric_wire::{Fabric, SmpWire};
use mad_layout::Mad;
use pkey_rules::{KeyTable, PARTITIONS};
use std::alloc::Global;
use std::process::Abort;
use std::test::Fail;
use table_push::PushFault;
use updn_routes::Routes;

/// The pushes over the two-switch fabric: how many exchanges each takes, and how many of them are Sets. Ports: Get and Set of two
/// ports 0 and of SwitchInfo twice; of the ten ports that a cable ends in a Get and a Set to Armed, and when all are Armed a Get
/// and a Set to Active. P_Key tables: of two ports 0, and of both ends of four cables, a Set of the first block and a Get of each
/// of the three empty ones. LFTs: eight blocks each of two switches. An MLID range of multicast tables: a block at each of three
/// positions of two switches.
const PUSHES: [(Push, u64, u64); 4] = [
    (Push::Multicast, 6, 6),
    (Push::Ports, 48, 24),
    (Push::Keys, 40, 10),
    (Push::Linear, 16, 16),
];

/// The method of a Get and of a Set.
const GET: u8 = 1;

const SET: u8 = 2;

/// Where the class version stands in an SMP, the method, the status in a reply, the TransactionID, the modifier, the
/// attribute's number and its data, and PortState in PortInfo.
const CLASS_VERSION: usize = 2;

const METHOD: usize = 3;

const STATUS: usize = 5;

const TRANSACTION_ID: usize = 15;

const ATTRIBUTE: usize = 17;

const MODIFIER: usize = 23;

const DATA: usize = 64;

const STATE: usize = DATA + 32;

/// Where LMC stands in PortInfo, the last three bits of a byte.
const LMC: usize = DATA + 34;

/// Where PortStateChange stands in SwitchInfo, and its bit.
const STATE_CHANGE: usize = DATA + 11;

const STATE_CHANGE_BIT: u8 = 4;

/// A place that no SMP has.
const NOWHERE: usize = 256;

/// Of requests by that method, or a greater one: which byte of the reply is turned, and in which bits. If there is no such
/// byte, no reply comes. And what a push stops with. Of what is set these are the first and the last byte, and one of a
/// LID or, of SwitchInfo, of LinearFDBTop.
const SPOILS: [((u8, usize, u8), PushFault); 8] = [
    ((GET, NOWHERE, 0), PushFault::NoReply),
    ((GET, TRANSACTION_ID, 1), PushFault::NotAsSet),
    ((GET, CLASS_VERSION, 3), PushFault::NotAsSet),
    ((GET, MODIFIER, 0x40), PushFault::NotAsSet),
    ((SET, DATA, 1), PushFault::NotAsSet),
    ((SET, DATA + 7, 2), PushFault::NotAsSet),
    ((SET, DATA + 17, 4), PushFault::NotAsSet),
    ((SET, DATA + 63, 0x80), PushFault::NotAsSet),
];

/// Passes so many exchanges on, of those that it may spoil, spoils the next, and passes on what comes then: so a push that
/// does not stop there is seen. If requests are to be numbered, it answers none whose TransactionID is not the number
/// of the exchange. It stands for no fabric.
#[derive(Drop)]
struct FaultyWire {
    wire: Fabric,
    exchanges: u8,
    is_numbered: bool,
    left: u64,
    spoil: (u8, usize, u8),
}

impl SmpWire for FaultyWire {
    ghost fabric = { λ _. None };

    fn exchange(&mut self, smp: &Mad) -> Option<Mad> {
        self.exchanges = self.exchanges.wrapping_add(1);
        if self.is_numbered && smp[TRANSACTION_ID] != self.exchanges {
            return None;
        }
        let mut reply = self.wire.exchange(smp)?;
        let (method, place, bits) = self.spoil;
        if smp[METHOD] >= method {
            self.left = self.left.wrapping_sub(1);
            if self.left == u64::MAX {
                *reply.get_mut(place)? ^= bits;
            }
        }
        Some(reply)
    }
}

/// What a push answers over the two-switch fabric if the exchange behind so many is spoilt.
fn pushed(
    alloc: Global,
    push: &Push,
    is_numbered: bool,
    left: u64,
    spoil: (u8, usize, u8),
) -> Result<Result<(), PushFault>, Fail> {
    let keys = keys_of(alloc, 6)?;
    let (wire, routes) = found(alloc)?;
    let faulty = FaultyWire {
        wire,
        exchanges: 0,
        is_numbered,
        left,
        spoil,
    };
    Ok(pushed_over(faulty, push, &routes, &keys))
}

fn pushed_over(
    mut wire: FaultyWire,
    push: &Push,
    routes: &Routes,
    keys: &[KeyTable<PARTITIONS>],
) -> Result<(), PushFault> {
    push.over(&mut wire, routes, keys)
}

/// A push stops wherever one of so many exchanges is spoilt, and has no more.
fn stops(
    rt: &impl Abort,
    alloc: Global,
    push: &Push,
    is_numbered: bool,
    count: u64,
    spoiled: ((u8, usize, u8), PushFault),
) -> Result<(), Fail> {
    let (spoil, fault) = spoiled;
    for left in 0..count {
        let reported = pushed(alloc, push, is_numbered, left, spoil)?;
        assert!(rt; reported == Err(fault));
    }
    let reported = pushed(alloc, push, is_numbered, count, spoil)?;
    assert!(rt; reported == Ok(()));
    Ok(())
}

#[test]
fn a_push_stops_at_the_first_exchange_at_fault(rt: HostRuntime) -> Result<(), Fail> {
    for (push, exchanges, sets) in PUSHES.iter() {
        for (spoil, fault) in SPOILS {
            let count = if spoil.0 == SET { *sets } else { *exchanges };
            stops(&rt, rt.alloc(), push, true, count, (spoil, fault))?;
        }
    }
    Ok(())
}

/// The numbers of the requests of each push begin at 1.
#[test]
fn all_pushes_stop_where_one_of_them_does(rt: HostRuntime) -> Result<(), Fail> {
    stops(&rt, rt.alloc(), &Push::All, false, 48 + 40 + 16, SPOILS[0])
}

/// Which of the Sets of ports ask for no state: those of port 0 of each switch.
const NO_STATE_ASKED: [u64; 2] = [0, 2];

#[test]
fn a_state_that_was_not_asked_is_not_compared(rt: HostRuntime) -> Result<(), Fail> {
    for left in 0..24 {
        let reported = pushed(rt.alloc(), &Push::Ports, true, left, (SET, STATE, 1))?;
        assert!(rt; reported.is_ok() == NO_STATE_ASKED.contains(&left));
    }
    Ok(())
}

/// Which exchanges of a push of ports get and set SwitchInfo of a switch, and which of its Sets those are.
const SWITCH_INFOS: [u64; 4] = [44, 45, 46, 47];

const SWITCH_INFO_SETS: [u64; 2] = [22, 23];

/// What a Get says of it is written back, and the switch then says otherwise, as one that clears it if 1 is written; or the
/// switch says that it has changed since the Get.
#[test]
fn port_state_change_is_not_compared(rt: HostRuntime) -> Result<(), Fail> {
    for left in SWITCH_INFOS {
        let spoil = (GET, STATE_CHANGE, STATE_CHANGE_BIT);
        let reported = pushed(rt.alloc(), &Push::Ports, true, left, spoil)?;
        assert!(rt; reported == Ok(()));
    }
    Ok(())
}

#[test]
fn what_stands_beside_port_state_change_is_compared(rt: HostRuntime) -> Result<(), Fail> {
    for left in SWITCH_INFO_SETS {
        for bits in [STATE_CHANGE_BIT * 2, STATE_CHANGE_BIT / 2] {
            let spoil = (SET, STATE_CHANGE, bits);
            let reported = pushed(rt.alloc(), &Push::Ports, true, left, spoil)?;
            assert!(rt; reported == Err(PushFault::NotAsSet));
        }
    }
    Ok(())
}

/// Which exchanges of the first round of a push of ports get PortInfo of an end port.
const END_PORTS_ARE_GOT: [u64; 6] = [0, 4, 10, 14, 18, 22];

/// The agents of the simulated fabric refuse each LMC but 0, so that is what is set.
#[test]
fn end_ports_with_an_lmc_of_another_manager_get_lmc_0(rt: HostRuntime) -> Result<(), Fail> {
    for left in END_PORTS_ARE_GOT {
        for lmc in [1, 7] {
            let reported = pushed(rt.alloc(), &Push::Ports, true, left, (GET, LMC, lmc))?;
            assert!(rt; reported == Ok(()));
        }
    }
    Ok(())
}

/// The status of an agent that refuses.
const REFUSAL: u8 = 0x1c;

/// Of each P_Key table the first block is set, and the three behind it are got, since they are to be empty: one that is refused
/// is no block of the port, and empty.
fn asks_for_an_empty_block(push: &Push, left: u64) -> bool {
    matches!(push, Push::Keys) && left % 4 != 0
}

/// Each Set of PortInfo comes behind a Get of it. One that is refused is followed by another Get: that says that it is carried out.
fn sets_port_info(push: &Push, left: u64) -> bool {
    matches!(push, Push::Ports) && left % 2 == 1 && !SWITCH_INFOS.contains(&left)
}

#[test]
fn a_push_stops_where_an_agent_refuses_what_is_needed(rt: HostRuntime) -> Result<(), Fail> {
    for (push, exchanges, _) in PUSHES.iter() {
        for left in 0..*exchanges {
            let reported = pushed(rt.alloc(), push, true, left, (GET, STATUS, REFUSAL))?;
            if asks_for_an_empty_block(push, left) || sets_port_info(push, left) {
                assert!(rt; reported == Ok(()));
            } else {
                assert!(rt; reported == Err(PushFault::Refused));
            }
        }
    }
    Ok(())
}

/// The numbers of SwitchInfo and PortInfo, and the states Armed and Active.
const SWITCH_INFO: u8 = 0x12;

const PORT_INFO: u8 = 0x15;

const ARMED: u8 = 3;

const ACTIVE: u8 = 4;

/// How many ports a cable ends in.
const CABLED_PORTS: u32 = 10;

/// Refuses to make a port Active before all ports with cables are Armed, as a port refuses whose cable's other end is not.
#[derive(Drop)]
struct PatientWire {
    wire: Fabric,
    armed: u32,
}

impl SmpWire for PatientWire {
    ghost fabric = { λ _. None };

    fn exchange(&mut self, smp: &Mad) -> Option<Mad> {
        let mut asked = *smp;
        let mut status = 0;
        if smp[METHOD] == SET && smp[ATTRIBUTE] == PORT_INFO {
            match smp[STATE] & 0x0f {
                ARMED => self.armed = self.armed.wrapping_add(1),
                ACTIVE if self.armed < CABLED_PORTS => {
                    asked[METHOD] = GET;
                    status = REFUSAL;
                }
                _ => {}
            }
        }
        let mut reply = self.wire.exchange(&asked)?;
        reply[STATUS] |= status;
        Some(reply)
    }
}

fn pushed_patiently(mut wire: PatientWire, routes: &Routes) -> Result<(), PushFault> {
    Push::Ports.over(&mut wire, routes, &[])
}

#[test]
fn all_ports_are_armed_before_one_becomes_active(rt: HostRuntime) -> Result<(), Fail> {
    let (wire, routes) = found(rt.alloc())?;
    let reported = pushed_patiently(PatientWire { wire, armed: 0 }, &routes);
    assert!(rt; reported == Ok(()));
    Ok(())
}

/// Where CapabilityMask2 of later editions stands in PortInfo, and MulticastFDBTop in SwitchInfo: outside our fields.
const CAPABILITY_MASK_2: usize = DATA + 61;

const MULTICAST_TOP: usize = DATA + 19;

/// Says of each port and switch what stands there, whatever is set, so a Set to anything else is at fault.
#[derive(Drop)]
struct LaterWire {
    wire: Fabric,
}

impl SmpWire for LaterWire {
    ghost fabric = { λ _. None };

    fn exchange(&mut self, smp: &Mad) -> Option<Mad> {
        let mut reply = self.wire.exchange(smp)?;
        match smp[ATTRIBUTE] {
            PORT_INFO => reply[CAPABILITY_MASK_2] = 0x30,
            SWITCH_INFO => reply[MULTICAST_TOP] = 7,
            _ => {}
        }
        Some(reply)
    }
}

fn pushed_later(mut wire: LaterWire, routes: &Routes) -> Result<(), PushFault> {
    Push::Ports.over(&mut wire, routes, &[])
}

#[test]
fn what_stands_outside_our_fields_is_set_to_what_it_was(rt: HostRuntime) -> Result<(), Fail> {
    let (wire, routes) = found(rt.alloc())?;
    let reported = pushed_later(LaterWire { wire }, &routes);
    assert!(rt; reported == Ok(()));
    Ok(())
}
