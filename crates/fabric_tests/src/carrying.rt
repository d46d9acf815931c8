//! Data packets over the two-switch fabric, by the tables that SMPs wrote.

mod by_chance;
mod chain;
mod fixtures;
mod groups;

use crate::carrying::fixtures::{
    H0, H1, H2, H3, TO_A, TO_B, digits_of, packet, put_entries, put_key, put_mask, receivers,
    set_up,
};
use fabric_wire::Fabric;
use std::alloc::{AllocError, Global};
use std::process::Abort;
use std::test::Fail;
use test_fabrics::{TWO_SWITCHES, two_switch_fabric};
use topo_file::read;

/// Sender, DLID, and who gets the packet. LIDs 2 and 3 are those of the switches, and 7 is nobody's. Members of the group of
/// 0xC020 reach each other and never themselves, who is no member reaches both; all are members of 0xCFFF, whose deliveries are
/// in the order of LIDs though the search from h3 comes to h2 first; the mask of 0xC041 leads to h0, to the switch, which takes
/// no data, and to no cable. No port of an adapter are A, adapter h1, the port of h4 without a cable and who is not there.
const SENDS: [(u64, u16, u32); 29] = [
    (H0, 4, 0x2),
    (H0, 5, 0x3),
    (H0, 1, 0x1),
    (H1, 1, 0x1),
    (H1, 5, 0x3),
    (H1, 6, 0x4),
    (H1, 4, 0x2),
    (H2, 6, 0x4),
    (H3, 4, 0x2),
    (H1, 2, 0),
    (H1, 3, 0),
    (H1, 7, 0),
    (H1, 0xbfff, 0),
    (H1, 0xc020, 0x3),
    (H2, 0xc020, 0x2),
    (H0, 0xc020, 0x23),
    (H3, 0xc020, 0x23),
    (H3, 0xcfff, 0x123),
    (H0, 0xcfff, 0x234),
    (H1, 0xc041, 0x1),
    (H1, 0xc021, 0),
    (H1, 0xc000, 0),
    (H1, 0xcffe, 0),
    (H1, 0xd000, 0),
    (H1, 0xfffe, 0),
    (0x10, 4, 0),
    (0x110, 4, 0),
    (0x141, 4, 0),
    (0x999, 4, 0),
];

fn reach(rt: &impl Abort, alloc: Global, fabric: &Fabric) {
    for (sender, dlid, got) in SENDS {
        assert!(rt; receivers(alloc, fabric, sender, dlid, 0xffff) == Some(got));
    }
}

/// Fills its tables, with two more groups.
fn fill(fabric: &mut Fabric) -> Option<()> {
    set_up(fabric)?;
    put_mask(fabric, TO_A, 0xfff, 0, 0x000e)?;
    put_mask(fabric, TO_B, 0xfff, 0, 0x000e)?;
    put_mask(fabric, TO_A, 0x41, 0, 0x0013)
}

/// The two-switch fabric, its tables filled.
fn brought_up(alloc: Global) -> Result<Fabric, Fail> {
    let mut fabric = two_switch_fabric(alloc)?;
    fill(&mut fabric).ok_or("the tables")?;
    Ok(fabric)
}

#[test]
fn packets_go_to_the_port_of_their_lid_and_to_their_group(rt: HostRuntime) -> Result<(), Fail> {
    let fabric = brought_up(rt.alloc())?;
    reach(&rt, rt.alloc(), &fabric);
    Ok(())
}

/// The entries of A and B for LID 5, and where a packet of h1 to it goes then: to h2, back to h1, which asks for no LID, or nowhere,
/// as port 4 has no cable, there is no port 5, 0 is the switch itself, and the last two lead in a cycle.
const ENTRIES_FOR_5: [(u8, u8, u32); 9] = [
    (3, 1, 0x3),
    (2, 1, 0x2),
    (1, 1, 0x1),
    (0, 1, 0),
    (4, 1, 0),
    (5, 1, 0),
    (36, 1, 0),
    (0xff, 1, 0),
    (3, 3, 0),
];

/// Who gets packets to LID 5 by these entries, and to LID 6 as before.
fn got_by(alloc: Global, fabric: &mut Fabric, at_a: u8, at_b: u8) -> Option<(u32, u32)> {
    put_entries(fabric, TO_A, &[0xff, 1, 0, 3, 2, at_a, 3])?;
    put_entries(fabric, TO_B, &[0xff, 3, 3, 0, 3, at_b, 2])?;
    let to_5 = receivers(alloc, fabric, H1, 5, 0xffff)?;
    let to_6 = receivers(alloc, fabric, H1, 6, 0xffff)?;
    Some((to_5, to_6))
}

fn go_by_entries(rt: &impl Abort, alloc: Global, fabric: &mut Fabric) {
    for (at_a, at_b, got) in ENTRIES_FOR_5 {
        assert!(rt; got_by(alloc, fabric, at_a, at_b) == Some((got, 0x4)));
    }
}

#[test]
fn a_packet_goes_by_the_stored_entry(rt: HostRuntime) -> Result<(), Fail> {
    let mut fabric = brought_up(rt.alloc())?;
    go_by_entries(&rt, rt.alloc(), &mut fabric);
    Ok(())
}

/// The path to a port, and its number, which is 0 for an adapter's own: 0x01 to 0x03 are those of h1 to h3, 0xA2 is port 2 of A,
/// and 0xB2 that of B.
fn place_of(port: u8) -> (&'static [u8], u8) {
    match port {
        0x01 => (&[1, 2], 0),
        0x02 => (&[1, 3, 1], 0),
        0x03 => (&[1, 3, 2], 0),
        _ if port < 0xb0 => (TO_A, port % 16),
        _ => (TO_B, port % 16),
    }
}

/// Two such ports and the key of both, or 0 for none, and who gets a packet of that port to that LID under that key. Without a key
/// h1 sends and gets nothing, and what faces h1 lets nothing in; limited members reach full ones alone; groups end where keys do.
const KEYS: [(u8, u8, u16, u64, u16, u16, u32); 15] = [
    (0x02, 0x02, 0, H1, 5, 0xffff, 0),
    (0x02, 0x02, 0, H1, 6, 0xffff, 0x4),
    (0xb1, 0xb1, 0, H1, 5, 0xffff, 0),
    (0xb1, 0xb1, 0, H1, 6, 0xffff, 0x4),
    (0xb3, 0xa3, 0, H1, 5, 0xffff, 0x3),
    (0xb3, 0xa3, 0, H1, 6, 0xffff, 0x4),
    (0xa2, 0xa2, 0, H1, 5, 0xffff, 0),
    (0xa2, 0xa2, 0, H1, 6, 0xffff, 0),
    (0x01, 0x02, 0x7fff, H1, 5, 0x7fff, 0),
    (0x01, 0x02, 0x7fff, H1, 6, 0x7fff, 0x4),
    (0x01, 0x02, 0x7fff, H2, 4, 0x7fff, 0),
    (0x01, 0x02, 0x7fff, H3, 5, 0xffff, 0x3),
    (0x02, 0xb2, 0x8001, H0, 0xcfff, 0xffff, 0x2),
    (0x02, 0xb2, 0x8001, H0, 0xc020, 0xffff, 0x2),
    (0x02, 0xb2, 0x8001, H0, 0xc020, 0x8001, 0),
];

fn put_key_at(fabric: &mut Fabric, port: u8, key: u16) -> Option<()> {
    let (path, number) = place_of(port);
    put_key(fabric, path, number, key)
}

/// Who gets that packet if both ports have that key; then they have that of power-up again.
fn got_under(
    alloc: Global,
    fabric: &mut Fabric,
    (one, other, held): (u8, u8, u16),
    (sender, dlid, key): (u64, u16, u16),
) -> Option<u32> {
    put_key_at(fabric, one, held)?;
    put_key_at(fabric, other, held)?;
    let got = receivers(alloc, fabric, sender, dlid, key)?;
    put_key_at(fabric, one, 0xffff)?;
    put_key_at(fabric, other, 0xffff)?;
    Some(got)
}

fn go_by_keys(rt: &impl Abort, alloc: Global, fabric: &mut Fabric) {
    for (one, other, held, sender, dlid, key, got) in KEYS {
        let reported = got_under(alloc, fabric, (one, other, held), (sender, dlid, key));
        assert!(rt; reported == Some(got));
    }
}

#[test]
fn packets_pass_where_keys_match(rt: HostRuntime) -> Result<(), Fail> {
    let mut fabric = brought_up(rt.alloc())?;
    go_by_keys(&rt, rt.alloc(), &mut fabric);
    Ok(())
}

/// The two-switch fabric; nothing if an allocation fails.
fn fabric_or_none(alloc: Global) -> Option<Fabric> {
    let topology = read(alloc, TWO_SWITCHES.as_bytes()).ok()?;
    Fabric::new(alloc, &topology).ok()
}

/// Who gets a packet of that port to that LID, as digits; if an allocation fails, who should get it.
fn receivers_or(
    alloc: Global,
    fabric: &mut Fabric,
    sender: u64,
    dlid: u16,
    got: u32,
) -> Option<u32> {
    set_up(fabric)?;
    let sent = packet(dlid, 0xffff)?;
    match fabric.carry(alloc, sender, &sent) {
        Ok(deliveries) => digits_of(&deliveries, &sent),
        Err(AllocError) => Some(got),
    }
}

fn is_delivered_or_refused(rt: &impl Abort, alloc: Global, sender: u64, dlid: u16, got: u32) {
    if let Some(mut fabric) = fabric_or_none(alloc) {
        let reported = receivers_or(alloc, &mut fabric, sender, dlid, got);
        assert!(rt; reported == Some(got));
    }
}

#[test]
fn a_packet_is_delivered_or_memory_is_refused(rt: HostRuntime) {
    is_delivered_or_refused(&rt, rt.alloc(), H1, 4, 0x2);
}
