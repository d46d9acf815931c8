//! Vectors of the headers of MADs.

use crate::fixtures::{bytes_from, filled};
use bitflags::Flags;
use mad_layout::{DrSmp, Header, Mad, MadStatus, Method, RmppFlags, RmppHeader, RmppKind, SaMad};

/// The bytes of a header, its fields, and the names of its method and status.
const MAD_HEADERS: [([u8; 24], Header, Option<Method>, Option<MadStatus>); 3] = [
    // an answer with a table of node records
    (
        [
            0x01, // BaseVersion
            0x03, // MgmtClass
            0x02, // ClassVersion
            0x92, // R, Method
            0x00, 0x00, // Status
            0x00, 0x00, // ClassSpecific
            0x00, 0x00, 0x00, 0x00, 0x00, 0x00, 0x00, 0x04, // TransactionID
            0x00, 0x11, // AttributeID
            0x00, 0x00, // reserved
            0x00, 0x00, 0x00, 0x00, // AttributeModifier
        ],
        Header {
            base_version: 1,
            mgmt_class: 0x03,
            class_version: 2,
            method: 0x92,
            status: 0,
            class_specific: 0,
            transaction_id: 4,
            attribute_id: 0x0011,
            attribute_modifier: 0,
        },
        Some(Method::GetTableResp),
        None,
    ),
    // a refusal for its version
    (
        [
            0x01, // BaseVersion
            0x03, // MgmtClass
            0x02, // ClassVersion
            0x81, // R, Method
            0x00, 0x04, // Status
            0x00, 0x00, // ClassSpecific
            0x00, 0x00, 0x00, 0x00, 0x00, 0x00, 0x00, 0x05, // TransactionID
            0x00, 0x00, // AttributeID
            0x00, 0x00, // reserved
            0x00, 0x00, 0x00, 0x00, // AttributeModifier
        ],
        Header {
            base_version: 1,
            mgmt_class: 0x03,
            class_version: 2,
            method: 0x81,
            status: 0x0004,
            class_specific: 0,
            transaction_id: 5,
            attribute_id: 0,
            attribute_modifier: 0,
        },
        Some(Method::GetResp),
        Some(MadStatus::BadVersion),
    ),
    // a refusal for its method, which has no name
    (
        [
            0x01, // BaseVersion
            0x03, // MgmtClass
            0x02, // ClassVersion
            0x93, // R, Method
            0x00, 0x08, // Status
            0x00, 0x00, // ClassSpecific
            0x00, 0x00, 0x00, 0x00, 0x00, 0x00, 0x00, 0x06, // TransactionID
            0x00, 0x00, // AttributeID
            0x00, 0x00, // reserved
            0x00, 0x00, 0x00, 0x00, // AttributeModifier
        ],
        Header {
            base_version: 1,
            mgmt_class: 0x03,
            class_version: 2,
            method: 0x93,
            status: 0x0008,
            class_specific: 0,
            transaction_id: 6,
            attribute_id: 0,
            attribute_modifier: 0,
        },
        None,
        Some(MadStatus::MethodNotSupported),
    ),
];

#[test]
fn mad_headers_read_and_write(rt: HostRuntime) {
    for (bytes, header, method, status) in MAD_HEADERS {
        let mad = filled(&bytes);
        let read = Header::read(&mad);
        assert!(rt; read == header);
        assert!(rt; read.method() == method);
        assert!(rt; read.status() == status);
        assert!(rt; read.is_response());
        let mut written = [0; 256];
        read.write(&mut written);
        assert!(rt; written == mad);
    }
}

/// RMPPVersion, RMPPType, RRespTime and RMPPFlags, RMPPStatus, SegmentNumber (4), PayloadLength (4), and
/// what they say: the kind, the flags, the status, the segment's number and the payload's length.
const RMPP_HEADERS: [([u8; 12], (u8, u8, u8, u32, u32)); 6] = [
    // the first of three segments of node records, the second and the last; the only segment of a
    // table without records; aborts, for too small a window and for too big a segment number
    (
        [0x01, 0x01, 0x03, 0x00, 0, 0, 0, 1, 0x00, 0x00, 0x01, 0xfc],
        (1, 0b011, 0, 1, 0x1fc),
    ),
    (
        [0x01, 0x01, 0x01, 0x00, 0, 0, 0, 2, 0x00, 0x00, 0x00, 0x00],
        (1, 0b001, 0, 2, 0),
    ),
    (
        [0x01, 0x01, 0x05, 0x00, 0, 0, 0, 3, 0x00, 0x00, 0x00, 0x44],
        (1, 0b101, 0, 3, 0x44),
    ),
    (
        [0x01, 0x01, 0x07, 0x00, 0, 0, 0, 1, 0x00, 0x00, 0x00, 0x14],
        (1, 0b111, 0, 1, 0x14),
    ),
    (
        [0x01, 0x04, 0x01, 0x7a, 0, 0, 0, 0, 0x00, 0x00, 0x00, 0x00],
        (4, 0b001, 122, 0, 0),
    ),
    (
        [0x01, 0x04, 0x01, 0x7b, 0, 0, 0, 0, 0x00, 0x00, 0x00, 0x00],
        (4, 0b001, 123, 0, 0),
    ),
];

#[test]
fn rmpp_headers_read_and_write(rt: HostRuntime) {
    for (bytes, (kind, flags, status, segment_number, payload_length)) in RMPP_HEADERS {
        let mad = bytes_from(24, &bytes);
        let read = RmppHeader::read(&mad);
        let header = RmppHeader {
            version: 1,
            kind,
            response_time: 0,
            flags,
            status,
            segment_number,
            payload_length_or_new_window_last: payload_length,
        };
        assert!(rt; read == header);
        assert!(rt; (read.kind() == Some(RmppKind::Data)) == (kind == 1));
        assert!(rt; (read.kind() == Some(RmppKind::Abort)) == (kind == 4));
        assert!(rt; read.flags().contains(RmppFlags::ACTIVE));
        assert!(rt; read.flags().contains(RmppFlags::FIRST) == (segment_number == 1));
        assert!(rt; read.flags().contains(RmppFlags::LAST) == (flags >= 4));
        let mut written = [0; 256];
        read.write(&mut written);
        assert!(rt; written == mad);
    }
}

/// SM_Key (8), AttributeOffset (2), reserved (2), ComponentMask (8), and the offset and the mask.
const ADMINISTRATION_FIELDS: [([u8; 20], u16, u64); 3] = [
    // node records, then services: 112 and 176 bytes from one to the next
    (
        [
            0, 0, 0, 0, 0, 0, 0, 0, 0x00, 0x0e, 0, 0, 0, 0, 0, 0, 0, 0, 0, 0,
        ],
        14,
        0,
    ),
    (
        [
            0, 0, 0, 0, 0, 0, 0, 0, 0x00, 0x16, 0, 0, 0, 0, 0, 0, 0, 0, 0, 0,
        ],
        22,
        0,
    ),
    // a multicast group that is joined by its MGID, PortGID, Q_Key and more
    (
        [
            0, 0, 0, 0, 0, 0, 0, 0, 0x00, 0x00, 0, 0, 0, 0, 0, 0, 0x00, 0x01, 0x30, 0xc7,
        ],
        0,
        0x130c7,
    ),
];

fn written(fields: &SaMad) -> Mad {
    let mut mad = [0; 256];
    fields.write(&mut mad);
    mad
}

#[test]
fn administration_fields_read_and_write(rt: HostRuntime) {
    for (bytes, attribute_offset, component_mask) in ADMINISTRATION_FIELDS {
        let mad = bytes_from(36, &bytes);
        let read = SaMad::read(&mad);
        assert!(rt; read.sm_key == 0);
        assert!(rt; read.data == [0; 200]);
        assert!(rt; read.attribute_offset == attribute_offset);
        assert!(rt; read.component_mask == component_mask);
        assert!(rt; written(&read) == mad);
    }
}

/// An SMP that comes back over two hops, by ports 1 and 3 out and in; an agent says that an attribute's modifier or value
/// is invalid.
fn refused_smp() -> DrSmp {
    let path = bytes_from(1, &[1, 3]);
    let mut smp = DrSmp {
        direction: true,
        status: 0x1c,
        hop_pointer: 3,
        hop_count: 2,
        m_key: 7,
        dr_slid: 0xffff,
        dr_dlid: 0xfffe,
        data: [0; 64],
        initial_path: path,
        return_path: path,
    };
    smp.data[0] = 5;
    smp.data[63] = 6;
    smp
}

/// Its bytes.
fn refused_bytes() -> Mad {
    // D and Status, HopPointer, HopCount
    let mut mad: Mad = bytes_from(4, &[0x80, 0x1c, 3, 2]);
    // InitialPath and ReturnPath, from entry 1 on
    mad[129] = 1;
    mad[130] = 3;
    mad[193] = 1;
    mad[194] = 3;
    // the last byte of M_Key, DrSLID and DrDLID
    mad[31] = 7;
    mad[32..36].copy_from_slice(&[0xff, 0xff, 0xff, 0xfe]);
    // the first and the last byte of the data
    mad[64] = 5;
    mad[127] = 6;
    mad
}

#[test]
fn directed_route_fields_stand_in_their_bytes(rt: HostRuntime) {
    assert!(rt; Header::read(&refused_bytes()).status == 0x801c);
    let smp = DrSmp::read(&refused_bytes());
    assert!(rt; smp == refused_smp());
    let mut written = [0; 256];
    smp.write(&mut written);
    assert!(rt; written == refused_bytes());
}
