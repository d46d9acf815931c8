//! The requests and the packets of these tests.

use attr_tables::SmpAttribute;
use data_packet::{Packet, Payload, QueuePair};
use mad_layout::{DrSmp, Header, Mad};
use pkey_rules::PKey;

/// A request of that method, 1 for a Get and 2 for a Set, with TransactionID, M_Key and paths that a reply has to give back.
pub fn request(method: u8, attribute: SmpAttribute, modifier: u32, data: [u8; 64]) -> Mad {
    asked_by((1, 0x81, 1), method, attribute.code(), modifier, data)
}

/// The same of these versions and of that class.
pub fn asked_by(
    class: (u8, u8, u8),
    method: u8,
    attribute_id: u16,
    attribute_modifier: u32,
    data: [u8; 64],
) -> Mad {
    let (base_version, mgmt_class, class_version) = class;
    let header = Header {
        base_version,
        mgmt_class,
        class_version,
        method,
        status: 0,
        class_specific: 0x0102,
        transaction_id: 0x0123456789abcdef,
        attribute_id,
        attribute_modifier,
    };
    let mut smp = [0x5a; 256];
    header.write(&mut smp);
    with_data(smp, data)
}

/// The SMP with this attribute.
pub fn with_data(smp: Mad, data: [u8; 64]) -> Mad {
    let mut fields = DrSmp::read(&smp);
    fields.data = data;
    let mut changed = smp;
    fields.write(&mut changed);
    changed
}

/// The request with the method and the status of a reply.
pub fn replied(smp: Mad, method: u8, status: u8) -> Mad {
    let mut reply = smp;
    reply[3] = method;
    reply[5] = status;
    reply
}

/// An attribute of zero bytes except these, from that byte on.
pub fn attribute_with(first: u8, bytes: &[u8]) -> [u8; 64] {
    let mut attribute = [0; 64];
    let mut place = first;
    for byte in bytes {
        attribute[usize::from(place % 64)] = *byte;
        place = place.wrapping_add(1);
    }
    attribute
}

/// PortInfo from LocalPortNum on, of a cabled port of an adapter at power-up, except its state.
const AT_POWER_UP: [u8; 23] = [
    0x01, // LocalPortNum
    0x03, // LinkWidthEnabled
    0x03, // LinkWidthSupported
    0x02, // LinkWidthActive
    0x10, // LinkSpeedSupported, PortState
    0x50, // PortPhysicalState, LinkDownDefaultState
    0x00, // M_KeyProtectBits, LMC
    0x11, // LinkSpeedActive, LinkSpeedEnabled
    0x40, // NeighborMTU, MasterSMSL
    0x10, // VLCap, InitType
    0x00, // VLHighLimit
    0x00, // VLArbitrationHighCap
    0x00, // VLArbitrationLowCap
    0x04, // InitTypeReply, MTUCap
    0x00, // VLStallCount, HOQLife
    0x10, // OperationalVLs, the enforcement and filter bits
    0x00, 0x00, 0x00, 0x00, 0x00, 0x00, // violations
    0x01, // GUIDCap
];

/// That PortInfo in a state, with another byte at that place.
pub fn port_info_with(state: u8, place: u8, byte: u8) -> [u8; 64] {
    let mut info = attribute_with(28, &AT_POWER_UP);
    info[32] = 0x10 + state % 16;
    info[usize::from(place % 64)] = byte;
    info
}

/// A packet from LID 9 to that LID, under this key.
pub fn packet(dlid: u16, key: u16) -> Option<Packet> {
    Some(Packet {
        slid: 9,
        dlid,
        p_key: PKey::new(key).ok()?,
        destination_qp: QueuePair::new(7)?,
        payload: Payload::new(&[]),
    })
}
