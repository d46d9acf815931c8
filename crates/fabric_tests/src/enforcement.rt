//! Ports that do not take all of a Set of PortInfo: switches that do not enforce partitions, and Sets that are refused.

ghost use Rattle.std.specs.Prelude.{None};

use crate::fixtures::found;
use fabric_wire::{Fabric, SmpWire};
use mad_layout::Mad;
use std::alloc::Global;
use std::process::Abort;
use std::test::Fail;
use table_push::{PushFault, push_ports_counting};
use updn_routes::Routes;

/// The method of a Get and of a Set, and the number of PortInfo.
const GET: u8 = 1;

const SET: u8 = 2;

const PORT_INFO: u8 = 0x15;

/// Where the method stands in an SMP, the status in a reply, and the attribute's number.
const METHOD: usize = 3;

const STATUS: usize = 5;

const ATTRIBUTE: usize = 17;

/// Where PartitionEnforcementInbound and PartitionEnforcementOutbound stand in PortInfo, and their bits.
const ENFORCEMENT: usize = 64 + 43;

const INBOUND: u8 = 8;

const OUTBOUND: u8 = 4;

const BOTH: u8 = 12;

/// The other bits of that byte.
const OTHERS: u8 = 0xf3;

/// How many Sets of PortInfo a push of ports has over the two-switch fabric. The first round: port 0 of a switch and its port to the
/// other switch, twice; then four times a port of a switch and the port of a channel adapter behind it. The second round: the
/// two ports between switches, and the same eight. Before each is a Get.
const SETS: u64 = 22;

/// Which of them are of a port of a switch before a channel adapter, in the first round.
const BEFORE_ADAPTERS: [u64; 4] = [4, 6, 8, 10];

/// And of a port between the switches.
const BETWEEN: [u64; 2] = [1, 3];

/// What a wire does to one exchange, the one behind so many of its kind.
#[derive(Clone, Copy)]
enum Turn {
    /// Turns these bits of the enforcement bits in the reply to a Set of PortInfo.
    Bits(u8),
    /// Does not enforce partitions: it takes no enforcement bit of any Set. A Get of PortInfo says that the port does.
    Enforces,
    /// Refuses a Set of PortInfo that is carried out.
    RefusesDone,
    /// Refuses a Set of PortInfo, and does not carry it out.
    Refuses,
}

impl Turn {
    /// The method of the requests that are counted.
    fn method(self) -> u8 {
        match self {
            Turn::Enforces => GET,
            _ => SET,
        }
    }

    /// What is sent to the fabric in place of a request.
    fn asked(self, smp: &Mad, is_turned: bool) -> Mad {
        let mut asked = *smp;
        match self {
            Turn::Enforces => asked[ENFORCEMENT] &= OTHERS,
            Turn::Refuses if is_turned => asked[METHOD] = GET,
            _ => {}
        }
        asked
    }

    /// The reply that comes in place of one.
    fn reply(self, given: &Mad) -> Mad {
        let mut reply = *given;
        match self {
            Turn::Bits(bits) => reply[ENFORCEMENT] ^= bits,
            Turn::Enforces => reply[ENFORCEMENT] |= BOTH,
            _ => reply[STATUS] = 0x1c,
        }
        reply
    }
}

/// A fabric with one turned exchange. It stands for no fabric.
#[derive(Drop)]
struct TurnedWire {
    wire: Fabric,
    left: u64,
    turn: Turn,
}

impl SmpWire for TurnedWire {
    ghost fabric = { λ _. None };

    fn exchange(&mut self, smp: &Mad) -> Option<Mad> {
        if smp[ATTRIBUTE] != PORT_INFO {
            return self.wire.exchange(smp);
        }
        let is_counted = smp[METHOD] == self.turn.method();
        let is_turned = is_counted && self.left == 0;
        if is_counted {
            self.left = self.left.wrapping_sub(1);
        }
        let reply = self.wire.exchange(&self.turn.asked(smp, is_turned))?;
        if is_turned {
            Some(self.turn.reply(&reply))
        } else {
            Some(reply)
        }
    }
}

/// What a push of ports over the two-switch fabric counts, if the exchange behind so many is turned.
fn counted(alloc: Global, left: u64, turn: Turn) -> Result<Result<usize, PushFault>, Fail> {
    let (wire, routes) = found(alloc)?;
    Ok(counted_over(TurnedWire { wire, left, turn }, &routes))
}

fn counted_over(mut wire: TurnedWire, routes: &Routes) -> Result<usize, PushFault> {
    push_ports_counting(&mut wire, routes)
}

/// What it counts then.
fn wanted(left: u64, turn: Turn) -> Result<usize, PushFault> {
    let is_before = BEFORE_ADAPTERS.contains(&left);
    match turn {
        Turn::Enforces if is_before || BETWEEN.contains(&left) || left == SETS => Ok(4),
        Turn::Bits(BOTH) if is_before => Ok(1),
        Turn::Bits(_) | Turn::Refuses if left == SETS => Ok(0),
        Turn::Bits(_) | Turn::Enforces => Err(PushFault::NotAsSet),
        Turn::Refuses => Err(PushFault::Refused),
        Turn::RefusesDone => Ok(0),
    }
}

/// Each of the exchanges is turned in its turn, and in the end none.
fn each_is(rt: &impl Abort, alloc: Global, turn: Turn) -> Result<(), Fail> {
    for left in 0..SETS + 1 {
        let reported = counted(alloc, left, turn)?;
        assert!(rt; reported == wanted(left, turn));
    }
    Ok(())
}

/// A port of a switch before a channel adapter counts if it takes neither bit. If it takes one alone, or a port between switches or
/// of a channel adapter has one, that is a fault.
#[test]
fn ports_before_adapters_that_do_not_enforce_are_counted(rt: HostRuntime) -> Result<(), Fail> {
    for bits in [BOTH, INBOUND, OUTBOUND] {
        each_is(&rt, rt.alloc(), Turn::Bits(bits))?;
    }
    Ok(())
}

/// Over switches none of which enforces partitions each such port is counted. A port that says to a Get that it enforces
/// partitions, and does not take these bits, is at fault if it was not to enforce any, or in the second round.
#[test]
fn ports_that_are_not_to_enforce_take_all(rt: HostRuntime) -> Result<(), Fail> {
    each_is(&rt, rt.alloc(), Turn::Enforces)
}

/// The reply to a Set may be lost. If the Set comes again, a port that is Armed refuses to become Armed.
#[test]
fn a_set_that_is_refused_since_it_is_carried_out_is_no_fault(rt: HostRuntime) -> Result<(), Fail> {
    each_is(&rt, rt.alloc(), Turn::RefusesDone)
}

#[test]
fn a_set_that_is_refused_and_not_carried_out_is_a_fault(rt: HostRuntime) -> Result<(), Fail> {
    each_is(&rt, rt.alloc(), Turn::Refuses)
}
