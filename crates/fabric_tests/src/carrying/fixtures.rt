//! The two-switch fabric as a subnet manager leaves it, and what becomes of packets there.

use attr_tables::SmpAttribute;
use data_packet::{Packet, Payload, QueuePair};
use fabric_wire::{Delivery, Fabric, set_attribute};
use pkey_rules::PKey;
use std::alloc::Global;

/// The GUIDs of the ports of h0 to h3, whose LIDs are 1, 4, 5 and 6.
pub const H0: u64 = 0x101;

pub const H1: u64 = 0x111;

pub const H2: u64 = 0x121;

pub const H3: u64 = 0x131;

/// The paths to the switches, from h0.
pub const TO_A: &[u8] = &[1];

pub const TO_B: &[u8] = &[1, 3];

/// An attribute of zero bytes except these, from that byte on.
fn attribute_with(first: u8, bytes: &[u8]) -> [u8; 64] {
    let mut attribute = [0; 64];
    let mut place = first;
    for byte in bytes {
        attribute[usize::from(place % 64)] = *byte;
        place = place.wrapping_add(1);
    }
    attribute
}

/// Sets a part of an attribute at the end of a path to zero bytes except these.
fn put(
    fabric: &mut Fabric,
    path: &[u8],
    attribute: SmpAttribute,
    modifier: u32,
    first: u8,
    bytes: &[u8],
) -> Option<()> {
    if path.len() > 63 {
        return None;
    }
    let wanted = attribute_with(first, bytes);
    set_attribute(fabric, 1, attribute, modifier, path, &wanted).ok()?;
    Some(())
}

/// PartitionEnforcementInbound and PartitionEnforcementOutbound.
pub const BOTH_WAYS: u8 = 0x0c;

/// Has a port of a switch enforce partitions, in the directions of these bits.
pub fn put_enforcement(fabric: &mut Fabric, path: &[u8], number: u8, bits: u8) -> Option<()> {
    // NeighborMTU 2048
    let bytes = [0x40, 0, 0, 0, 0, 0, 0, bits];
    put(
        fabric,
        path,
        SmpAttribute::PortInfo,
        u32::from(number),
        36,
        &bytes,
    )
}

/// Takes the port of an adapter over a state, and gives it its LID.
fn put_state(fabric: &mut Fabric, path: &[u8], lid: u8, state: u8) -> Option<()> {
    let bytes = [
        lid, 0, 0, 0, 0, 0, 0, 0, 0, 0, 0, 0, 0, 0, 0, state, 0, 0, 0, 0x40,
    ];
    put(fabric, path, SmpAttribute::PortInfo, 0, 17, &bytes)
}

/// Gives a switch these entries for the LIDs from 0 on, and LinearFDBTop 6.
pub fn put_entries(fabric: &mut Fabric, path: &[u8], entries: &[u8; 7]) -> Option<()> {
    put(
        fabric,
        path,
        SmpAttribute::LinearForwardingTable,
        0,
        0,
        entries,
    )?;
    put(fabric, path, SmpAttribute::SwitchInfo, 0, 6, &[0, 6])
}

/// Gives a port one key, or none: that of this number of a switch, or an adapter's own, which is number 0.
pub fn put_key(fabric: &mut Fabric, path: &[u8], number: u8, key: u16) -> Option<()> {
    let modifier = u32::from(number) << 16;
    put(
        fabric,
        path,
        SmpAttribute::PKeyTable,
        modifier,
        0,
        &key.to_be_bytes(),
    )
}

/// Sets the mask of a multicast LID, reported by its distance from 0xC000, at one position of the table of a switch, and those of
/// the other LIDs of its block to 0.
pub fn put_mask(
    fabric: &mut Fabric,
    path: &[u8],
    lid: u16,
    position: u32,
    mask: u16,
) -> Option<()> {
    let entry = (lid % 32) as u8 * 2;
    let modifier = u32::from(lid / 32) | position << 28;
    put(
        fabric,
        path,
        SmpAttribute::MulticastForwardingTable,
        modifier,
        entry,
        &mask.to_be_bytes(),
    )
}

/// Of each switch its path, its entries for LIDs 0 to 6, and the ports to h1 and h2 in its mask of 0xC020.
const SWITCHES: [(&[u8], [u8; 7], u16); 2] = [
    (TO_A, [0xff, 1, 0, 3, 2, 3, 3], 0x000c),
    (TO_B, [0xff, 3, 3, 0, 3, 1, 2], 0x000a),
];

/// Ports 1 and 2 face adapters.
fn set_up_switches(fabric: &mut Fabric) -> Option<()> {
    for (path, entries, mask) in SWITCHES {
        put_entries(fabric, path, &entries)?;
        put_enforcement(fabric, path, 1, BOTH_WAYS)?;
        put_enforcement(fabric, path, 2, BOTH_WAYS)?;
        put_mask(fabric, path, 0x20, 0, mask)?;
    }
    Some(())
}

/// The paths to the adapters, and their LIDs.
const ADAPTERS: [(&[u8], u8); 4] = [(&[], 1), (&[1, 2], 4), (&[1, 3, 1], 5), (&[1, 3, 2], 6)];

fn put_states(fabric: &mut Fabric, state: u8) -> Option<()> {
    for (path, lid) in ADAPTERS {
        put_state(fabric, path, lid, state)?;
    }
    Some(())
}

/// Fills the tables of the two-switch fabric, so that they lead to each LID, and to h1 and h2 in the group of 0xC020; ports of
/// switches that face adapters enforce partitions. The keys are those of power-up, which hold without a partition file, too.
pub fn set_up(fabric: &mut Fabric) -> Option<()> {
    set_up_switches(fabric)?;
    put_states(fabric, 3)?;
    put_states(fabric, 4)
}

/// A packet to that LID under this key.
pub fn packet(dlid: u16, key: u16) -> Option<Packet> {
    Some(Packet {
        slid: 9,
        dlid,
        p_key: PKey::new(key).ok()?,
        destination_qp: QueuePair::new(7)?,
        payload: Payload::new(b"abc"),
    })
}

/// Whose these deliveries are, in their order, a hexadecimal digit each, which is 1 for h0, 2 for h1, 3 for h2 and 4 for h3; none
/// where one is not of this packet.
pub fn digits_of(deliveries: &[Delivery], sent: &Packet) -> Option<u32> {
    let mut digits = 0u32;
    for delivery in deliveries {
        if *delivery.packet() != *sent {
            return None;
        }
        let adapter = (delivery.port() >> 4 & 15) as u32;
        digits = digits << 4 | adapter + 1;
    }
    Some(digits)
}

/// Who gets a packet to that LID under this key, as digits, which are 0 for nobody; whether the sender would stamp it or not.
pub fn receivers(alloc: Global, fabric: &Fabric, sender: u64, dlid: u16, key: u16) -> Option<u32> {
    let sent = packet(dlid, key)?;
    let deliveries = fabric.carry(alloc, sender, &sent).ok()?;
    digits_of(&deliveries, &sent)
}

/// How many ports get a packet from that one.
pub fn copies(alloc: Global, fabric: &Fabric, sender: u64, sent: &Packet) -> Option<usize> {
    let deliveries = fabric.carry(alloc, sender, sent).ok()?;
    Some(deliveries.len())
}
