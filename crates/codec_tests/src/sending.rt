//! What a port of a channel adapter sends and takes, once SMPs have set it up.

use crate::node_fixtures::{attribute_with, packet, request};
use crate::port_agent::port_in;
use attr_tables::SmpAttribute;
use data_packet::{QueuePair, Refusal};
use port_model::AdapterPort;
use std::process::Abort;

/// The words `7fff 8001` of a P_Key table; all behind them are 0.
const TWO_KEYS: &[u8] = &[0x7f, 0xff, 0x80, 0x01];

/// The same, with an empty place of the full member's form and second keys of both bases behind them.
const SECOND_KEYS: &[u8] = &[0x7f, 0xff, 0x80, 0x01, 0x80, 0x00, 0x00, 0x01, 0xff, 0xff];

/// The state of a port, and its keys.
const PORTS: [(u8, &[u8]); 4] = [
    (4, TWO_KEYS),
    (4, SECOND_KEYS),
    (2, TWO_KEYS),
    (3, SECOND_KEYS),
];

/// DLID, P_Key, queue pair, and why an active port does not send the packet, if it does not.
const SENDS: [(u16, u16, u32, Option<Refusal>); 15] = [
    (5, 0x8001, 7, None),
    (5, 0x7fff, 7, None),
    (4, 0x8001, 1, None),
    (0xc000, 0x8001, 0xffffff, None),
    (0xfffe, 0x8001, 1, None),
    (5, 0x0001, 7, Some(Refusal::KeyNotHeld)),
    (5, 0xffff, 7, Some(Refusal::KeyNotHeld)),
    (5, 0x8002, 7, Some(Refusal::KeyNotHeld)),
    (5, 0x0000, 7, Some(Refusal::KeyNotHeld)),
    (5, 0x8000, 7, Some(Refusal::KeyNotHeld)),
    (0, 0x0001, 0, Some(Refusal::KeyNotHeld)),
    (5, 0x8001, 0, Some(Refusal::QpZero)),
    (0xffff, 0x8001, 0, Some(Refusal::QpZero)),
    (0, 0x8001, 7, Some(Refusal::ReservedDlid)),
    (0xffff, 0x8001, 7, Some(Refusal::ReservedDlid)),
];

/// P_Key, and whether a port with these keys takes what travels under it.
const ACCEPTED: [(u16, bool); 8] = [
    (0x8001, true),
    (0x0001, true),
    (0xffff, true),
    (0x7fff, false),
    (0x8002, false),
    (0x0002, false),
    (0xfffe, false),
    (0x0100, false),
];

fn port_with(state: u8, keys: &[u8]) -> AdapterPort {
    let mut port = port_in(state);
    let mut smp = request(2, SmpAttribute::PKeyTable, 0, attribute_with(0, keys));
    port.agent(&mut smp);
    port
}

/// Why the port does not send this packet, if it does not.
fn refusal_of(port: &AdapterPort, dlid: u16, key: u16, number: u32) -> Option<Option<Refusal>> {
    let destination_qp = QueuePair::new(number)?;
    Some(port.stamp(dlid, key, destination_qp, &[]).err())
}

fn sends(rt: &impl Abort, port: &AdapterPort, is_active: bool) {
    for (dlid, key, number, refusal) in SENDS {
        let reported = refusal_of(port, dlid, key, number);
        let not_active = Some(Refusal::PortNotActive);
        let expected = if is_active { refusal } else { not_active };
        assert!(rt; reported == Some(expected));
    }
}

/// Whether the port takes a packet under this key.
fn takes(port: &AdapterPort, key: u16) -> Option<bool> {
    let arrived = packet(17, key)?;
    Some(port.accept(&arrived))
}

fn takes_what_matches(rt: &impl Abort, port: &AdapterPort) {
    for (key, accepted) in ACCEPTED {
        assert!(rt; takes(port, key) == Some(accepted));
    }
}

/// It takes what matches the first key of a base: neither its state nor its LID is asked for.
#[test]
fn an_active_port_sends_under_the_keys_that_it_holds(rt: HostRuntime) {
    for (state, keys) in PORTS {
        let port = port_with(state, keys);
        sends(&rt, &port, state == 4);
        takes_what_matches(&rt, &port);
    }
}
