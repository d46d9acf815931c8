//! Vectors of the four records of subnet administration, and what a request asks of them.

use crate::fixtures::filled;
use bitflags::Flags;
use mad_layout::JoinState;
use sa_records::{McMemberRecord, NodeRecord, PathRecord, SaRecord, ServiceRecord};

/// The ports with GUID 0x111 and 0x121.
const FIRST_GID: u128 = 0xfe80_0000_0000_0000_0000_0000_0000_0111;

const SECOND_GID: u128 = 0xfe80_0000_0000_0000_0000_0000_0000_0121;

/// The SM port of an adapter h0 with GUID 0x100, whose node has one port.
const ADAPTER_PORT: [u8; 46] = [
    0x00, 0x01, // LID
    0x00, 0x00, // reserved
    0x01, 0x01, 0x01, 0x01, // BaseVersion, ClassVersion, NodeType, NumPorts
    0, 0, 0, 0, 0, 0, 0x01, 0x00, // SystemImageGUID
    0, 0, 0, 0, 0, 0, 0x01, 0x00, // NodeGUID
    0, 0, 0, 0, 0, 0, 0x01, 0x01, // PortGUID
    0x00, 0x80, 0x00, 0x00, // PartitionCap, DeviceID
    0x00, 0x00, 0x00, 0x00, // Revision
    0x01, 0x00, 0x00, 0x00, // LocalPortNum, VendorID
    b'h', b'0', // NodeDescription
];

/// Port 0 of a switch A with GUID 0x10 and four ports.
const SWITCH_PORT: [u8; 45] = [
    0x00, 0x02, // LID
    0x00, 0x00, // reserved
    0x01, 0x01, 0x02, 0x04, // BaseVersion, ClassVersion, NodeType, NumPorts
    0, 0, 0, 0, 0, 0, 0x00, 0x10, // SystemImageGUID
    0, 0, 0, 0, 0, 0, 0x00, 0x10, // NodeGUID
    0, 0, 0, 0, 0, 0, 0x00, 0x10, // PortGUID
    0x00, 0x80, 0x00, 0x00, // PartitionCap, DeviceID
    0x00, 0x00, 0x00, 0x00, // Revision
    0x00, 0x00, 0x00, 0x00, // LocalPortNum, VendorID
    b'A', // NodeDescription
];

fn adapter_port() -> NodeRecord {
    NodeRecord {
        lid: 1,
        base_version: 1,
        class_version: 1,
        node_type: 1,
        num_ports: 1,
        system_image_guid: 0x100,
        node_guid: 0x100,
        port_guid: 0x101,
        partition_cap: 128,
        device_id: 0,
        revision: 0,
        local_port_num: 1,
        vendor_id: 0,
        node_string: filled(b"h0"),
    }
}

fn switch_port() -> NodeRecord {
    NodeRecord {
        lid: 2,
        node_type: 2,
        num_ports: 4,
        system_image_guid: 0x10,
        node_guid: 0x10,
        port_guid: 0x10,
        local_port_num: 0,
        node_string: filled(b"A"),
        ..adapter_port()
    }
}

#[test]
fn nodes_read_and_write(rt: HostRuntime) {
    let adapter = filled(&ADAPTER_PORT);
    let read = NodeRecord::read(&adapter);
    assert!(rt; read == adapter_port());
    assert!(rt; SaRecord::Node(read).data() == adapter);
    let switch = filled(&SWITCH_PORT);
    let read = NodeRecord::read(&switch);
    assert!(rt; read == switch_port());
    assert!(rt; SaRecord::Node(read).data() == switch);
}

#[test]
fn nodes_are_asked_for_by_five_bits_of_the_mask(rt: HostRuntime) {
    let shown = adapter_port();
    // what each bit of the mask looks at; bit 1 and those from 5 on look at nothing
    for (bits, other) in [
        (1u64 << 0, NodeRecord { lid: 2, ..shown }),
        (
            1u64 << 2,
            NodeRecord {
                base_version: 2,
                ..shown
            },
        ),
        (
            1u64 << 3,
            NodeRecord {
                class_version: 2,
                ..shown
            },
        ),
        (
            1u64 << 4,
            NodeRecord {
                node_type: 2,
                ..shown
            },
        ),
    ] {
        assert!(rt; !shown.selected_by(bits, &other));
        assert!(rt; shown.selected_by(!bits, &other));
        assert!(rt; !shown.selected_by(u64::MAX, &other));
    }
    assert!(rt; shown.selected_by(u64::MAX, &shown));
    assert!(rt; shown.selected_by(0, &switch_port()));
    assert!(rt; shown.selected_by(0xffff_ffff_ffff_ffe2, &switch_port()));
}

/// A path from the second port to the first.
const PATH: [u8; 58] = [
    0, 0, 0, 0, 0, 0, 0, 0, // ServiceID
    0xfe, 0x80, 0, 0, 0, 0, 0, 0, 0, 0, 0, 0, 0, 0, 0x01, 0x11, // DGID
    0xfe, 0x80, 0, 0, 0, 0, 0, 0, 0, 0, 0, 0, 0, 0, 0x01, 0x21, // SGID
    0x00, 0x04, 0x00, 0x05, // DLID, SLID
    0x00, 0x00, 0x00, 0x00, // RawTraffic, FlowLabel, HopLimit
    0x00, 0x80, // TClass; Reversible and NumbPath
    0x00, 0x01, // P_Key
    0x00, 0x00, // QoSClass, SL
    0x84, 0x83, 0x92, // MTU, Rate, PacketLifeTime, each with its selector
    0x00, // Preference
];

fn path() -> PathRecord {
    PathRecord {
        service_id: 0,
        dgid: FIRST_GID,
        sgid: SECOND_GID,
        dlid: 4,
        slid: 5,
        raw_traffic: false,
        flow_label: 0,
        hop_limit: 0,
        t_class: 0,
        reversible: true,
        numb_path: 0,
        p_key: 0x0001,
        qos_class: 0,
        sl: 0,
        mtu_selector: 2,
        mtu: 4,
        rate_selector: 2,
        rate: 3,
        packet_life_time_selector: 2,
        packet_life_time: 18,
        preference: 0,
    }
}

/// Bytes whose fields all differ. Reserved bits are set, which are not read.
const ODD_PATH: [u8; 64] = [
    0x01, 0x02, 0x03, 0x04, 0x05, 0x06, 0x07, 0x08, // ServiceID
    0x11, 0x12, 0x13, 0x14, 0x15, 0x16, 0x17, 0x18, // DGID
    0x19, 0x1a, 0x1b, 0x1c, 0x1d, 0x1e, 0x1f, 0x20, //
    0x21, 0x22, 0x23, 0x24, 0x25, 0x26, 0x27, 0x28, // SGID
    0x29, 0x2a, 0x2b, 0x2c, 0x2d, 0x2e, 0x2f, 0x30, //
    0x31, 0x32, 0x33, 0x34, // DLID, SLID
    0xfa, 0xbc, 0xde, 0x35, // RawTraffic, FlowLabel, HopLimit
    0x36, 0x85, // TClass; Reversible and NumbPath
    0x37, 0x38, // P_Key
    0x12, 0x3f, // QoSClass, SL
    0x45, 0x86, 0xc7, // MTU, Rate, PacketLifeTime, each with its selector
    0x39, // Preference
    0xff, 0xff, 0xff, 0xff, 0xff, 0xff, // reserved
];

fn odd_path() -> PathRecord {
    PathRecord {
        service_id: 0x0102_0304_0506_0708,
        dgid: 0x1112_1314_1516_1718_191a_1b1c_1d1e_1f20,
        sgid: 0x2122_2324_2526_2728_292a_2b2c_2d2e_2f30,
        dlid: 0x3132,
        slid: 0x3334,
        raw_traffic: true,
        flow_label: 0xabcde,
        hop_limit: 0x35,
        t_class: 0x36,
        reversible: true,
        numb_path: 5,
        p_key: 0x3738,
        qos_class: 0x123,
        sl: 15,
        mtu_selector: 1,
        mtu: 5,
        rate_selector: 2,
        rate: 6,
        packet_life_time_selector: 3,
        packet_life_time: 7,
        preference: 0x39,
    }
}

#[test]
fn paths_read_and_write(rt: HostRuntime) {
    let bytes = filled(&PATH);
    let read = PathRecord::read(&bytes);
    assert!(rt; read == path());
    assert!(rt; SaRecord::Path(read).data() == bytes);
    assert!(rt; PathRecord::read(&filled(&ODD_PATH)) == odd_path());
}

/// RateSelector, the code that is asked, and whether a path of 10 Gb/s, code 3, is selected: 5 Gb/s has code 5, 2.5
/// has code 2, 30 has code 4, and 20, 40, 60, 80 and 120 have codes 6 to 10; 11 is no rate's. The last selector asks for
/// any.
const RATES: [(u8, u8, bool); 22] = [
    (0, 5, true),
    (0, 2, true),
    (0, 3, false),
    (0, 4, false),
    (1, 5, false),
    (1, 2, false),
    (1, 3, false),
    (1, 4, true),
    (2, 5, false),
    (2, 2, false),
    (2, 3, true),
    (3, 5, true),
    (3, 4, true),
    (0, 11, false),
    (1, 11, false),
    (2, 11, false),
    (3, 11, true),
    (1, 6, true),
    (1, 7, true),
    (1, 8, true),
    (1, 9, true),
    (1, 10, true),
];

#[test]
fn rates_are_compared_by_their_speed(rt: HostRuntime) {
    for (rate_selector, rate, selected) in RATES {
        let asked = PathRecord {
            rate_selector,
            rate,
            ..path()
        };
        assert!(rt; path().selected_by(0b11 << 18, &asked) == selected);
        // one without the other constrains nothing
        assert!(rt; path().selected_by(1 << 18, &asked));
        assert!(rt; path().selected_by(1 << 19, &asked));
    }
    // a path whose own code is no rate's agrees with none, not even the same
    let unknown = PathRecord { rate: 11, ..path() };
    assert!(rt; !unknown.selected_by(0b11 << 18, &unknown));
}

/// Selector, the code that is asked, and whether a path of MTU 4 is selected.
const MTUS: [(u8, u8, bool); 9] = [
    (0, 3, true),
    (0, 4, false),
    (0, 5, false),
    (1, 4, false),
    (1, 5, true),
    (2, 3, false),
    (2, 4, true),
    (3, 1, true),
    (3, 5, true),
];

#[test]
fn mtus_and_life_times_are_compared_by_their_codes(rt: HostRuntime) {
    for (selector, code, selected) in MTUS {
        let asked = PathRecord {
            mtu_selector: selector,
            mtu: code,
            packet_life_time_selector: selector,
            packet_life_time: code + 14,
            ..path()
        };
        for first in [16, 20] {
            assert!(rt; path().selected_by(0b11 << first, &asked) == selected);
            assert!(rt; path().selected_by(1 << first, &asked));
            assert!(rt; path().selected_by(2 << first, &asked));
        }
    }
}

#[test]
fn service_ids_reversible_and_numb_path_constrain_no_path(rt: HostRuntime) {
    assert!(rt; path().selected_by(u64::MAX, &path()));
    // and a key is asked for by its partition
    let alike = PathRecord {
        p_key: 0x8001,
        service_id: 7,
        reversible: false,
        numb_path: 3,
        preference: 9,
        ..path()
    };
    assert!(rt; path().selected_by(u64::MAX, &alike));
}

#[test]
fn paths_are_asked_for_by_what_constrains_them(rt: HostRuntime) {
    // each field by its word in scripts, its bit and another value
    for (word, bits, other) in [
        (b"dgid".as_slice(), 1u64 << 2, SECOND_GID),
        (b"sgid".as_slice(), 1u64 << 3, FIRST_GID),
        (b"dlid".as_slice(), 1u64 << 4, 5),
        (b"slid".as_slice(), 1u64 << 5, 4),
        (b"raw".as_slice(), 1u64 << 6, 1),
        (b"flow".as_slice(), 1u64 << 8, 1),
        (b"hop".as_slice(), 1u64 << 9, 1),
        (b"tclass".as_slice(), 1u64 << 10, 1),
        (b"pkey".as_slice(), 1u64 << 13, 0x0002),
        (b"qos".as_slice(), 1u64 << 14, 1),
        (b"sl".as_slice(), 1u64 << 15, 1),
    ] {
        let mut asked = path();
        assert!(rt; asked.ask_by(word, other) == Some(bits));
        assert!(rt; !path().selected_by(bits, &asked));
        assert!(rt; path().selected_by(!bits, &asked));
    }
}

/// A group that was made by a join, with the port that joined; and one that a partition file made.
const JOINED_GROUP: [u8; 49] = [
    0xff, 0x12, 0, 0, 0, 0, 0, 0, 0, 0, 0, 0, 0, 0, 0x00, 0x0a, // MGID
    0xfe, 0x80, 0, 0, 0, 0, 0, 0, 0, 0, 0, 0, 0, 0, 0x01, 0x11, // PortGID
    0x00, 0x00, 0x12, 0x34, // Q_Key
    0xc0, 0x20, // MLID
    0x84, 0x00, // MTU with its selector, TClass
    0x80, 0x01, // P_Key
    0x83, 0x92, // Rate, PacketLifeTime, each with its selector
    0x00, 0x00, 0x00, 0x00, // SL, FlowLabel, HopLimit
    0x21, // Scope, JoinState
];

const FILE_GROUP: [u8; 49] = [
    0xff, 0x12, 0x40, 0x1b, 0x80, 0x01, 0, 0, 0, 0, 0, 0, 0xff, 0xff, 0xff, 0xff, // MGID
    0, 0, 0, 0, 0, 0, 0, 0, 0, 0, 0, 0, 0, 0, 0, 0, // PortGID
    0x00, 0x00, 0x0b, 0x1b, // Q_Key
    0xc0, 0x20, // MLID
    0x84, 0x00, // MTU with its selector, TClass
    0x80, 0x01, // P_Key
    0x83, 0x92, // Rate, PacketLifeTime, each with its selector
    0x00, 0x00, 0x00, 0x00, // SL, FlowLabel, HopLimit
    0x20, // Scope, JoinState
];

fn joined_group() -> McMemberRecord {
    McMemberRecord {
        mgid: 0xff12_0000_0000_0000_0000_0000_0000_000a,
        port_gid: FIRST_GID,
        q_key: 0x1234,
        mlid: 0xc020,
        mtu_selector: 2,
        mtu: 4,
        t_class: 0,
        p_key: 0x8001,
        rate_selector: 2,
        rate: 3,
        packet_life_time_selector: 2,
        packet_life_time: 18,
        sl: 0,
        flow_label: 0,
        hop_limit: 0,
        scope: 2,
        join_state: 1,
        proxy_join: false,
    }
}

fn file_group() -> McMemberRecord {
    McMemberRecord {
        mgid: 0xff12_401b_8001_0000_0000_0000_ffff_ffff,
        port_gid: 0,
        q_key: 0x0b1b,
        join_state: 0,
        ..joined_group()
    }
}

/// The first with other values in the bytes of SL, FlowLabel, HopLimit, Scope, JoinState and ProxyJoin.
const ODD_GROUP: [u8; 50] = [
    0xff, 0x12, 0, 0, 0, 0, 0, 0, 0, 0, 0, 0, 0, 0, 0x00, 0x0a, // MGID
    0xfe, 0x80, 0, 0, 0, 0, 0, 0, 0, 0, 0, 0, 0, 0, 0x01, 0x11, // PortGID
    0x00, 0x00, 0x12, 0x34, // Q_Key
    0xc0, 0x20, // MLID
    0x84, 0x00, // MTU with its selector, TClass
    0x80, 0x01, // P_Key
    0x83, 0x92, // Rate, PacketLifeTime, each with its selector
    0x5a, 0xbc, 0xde, 0x0f, // SL, FlowLabel, HopLimit
    0x36, // Scope, JoinState
    0x80, // ProxyJoin
];

fn odd_group() -> McMemberRecord {
    McMemberRecord {
        sl: 5,
        flow_label: 0xabcde,
        hop_limit: 15,
        scope: 3,
        join_state: 6,
        proxy_join: true,
        ..joined_group()
    }
}

#[test]
fn groups_read_and_write(rt: HostRuntime) {
    for (bytes, record) in [
        (JOINED_GROUP.as_slice(), joined_group()),
        (FILE_GROUP.as_slice(), file_group()),
        (ODD_GROUP.as_slice(), odd_group()),
    ] {
        let bytes = filled(bytes);
        let read = McMemberRecord::read(&bytes);
        assert!(rt; read == record);
        assert!(rt; SaRecord::Group(read).data() == bytes);
    }
}

#[test]
fn a_full_member_is_no_non_member(rt: HostRuntime) {
    let state = joined_group().join_state();
    assert!(rt; state.contains(JoinState::FULL_MEMBER));
    assert!(rt; !state.contains(JoinState::NON_MEMBER));
}

#[test]
fn a_group_agrees_with_itself_and_with_either_key_of_its_partition(rt: HostRuntime) {
    let shown = joined_group();
    assert!(rt; shown.selected_by(u64::MAX, &shown));
    let alike = McMemberRecord {
        p_key: 0x0001,
        ..shown
    };
    assert!(rt; shown.selected_by(u64::MAX, &alike));
}

#[test]
fn groups_are_asked_for_by_what_constrains_them(rt: HostRuntime) {
    // each field by its word in scripts, its bit and another value
    for (word, bits, other) in [
        (b"mgid".as_slice(), 1u64 << 0, 1u128),
        (b"portgid".as_slice(), 1u64 << 1, 0),
        (b"qkey".as_slice(), 1u64 << 2, 1),
        (b"mlid".as_slice(), 1u64 << 3, 0xc021),
        (b"tclass".as_slice(), 1u64 << 6, 1),
        (b"pkey".as_slice(), 1u64 << 7, 0x8002),
        (b"sl".as_slice(), 1u64 << 12, 1),
        (b"flow".as_slice(), 1u64 << 13, 1),
        (b"hop".as_slice(), 1u64 << 14, 1),
        (b"scope".as_slice(), 1u64 << 15, 1),
        (b"join".as_slice(), 1u64 << 16, 2),
        (b"proxy".as_slice(), 1u64 << 17, 1),
    ] {
        let mut asked = joined_group();
        assert!(rt; asked.ask_by(word, other) == Some(bits));
        assert!(rt; !joined_group().selected_by(bits, &asked));
        assert!(rt; joined_group().selected_by(!bits, &asked));
    }
}

#[test]
fn a_selector_of_a_group_and_its_code_are_one_component(rt: HostRuntime) {
    for (word, selector, code, other) in [
        (b"mtu".as_slice(), 1u64 << 4, 1u64 << 5, 3),
        (b"rate".as_slice(), 1u64 << 8, 1u64 << 9, 2),
        (b"life".as_slice(), 1u64 << 10, 1u64 << 11, 17),
    ] {
        let mut asked = joined_group();
        assert!(rt; asked.ask_by(word, other) == Some(code));
        assert!(rt; !joined_group().selected_by(selector | code, &asked));
        assert!(rt; joined_group().selected_by(selector, &asked));
        assert!(rt; joined_group().selected_by(code, &asked));
        assert!(rt; joined_group().selected_by(!(selector | code), &asked));
    }
}

/// A service named dbs.
const SERVICE: [u8; 51] = [
    0, 0, 0, 0, 0, 0, 0, 1, // ServiceID
    0xfe, 0x80, 0, 0, 0, 0, 0, 0, 0, 0, 0, 0, 0, 0, 0x01, 0x21, // ServiceGID
    0x80, 0x01, // ServiceP_Key
    0x00, 0x00, // reserved
    0x00, 0x00, 0x00, 0x00, // ServiceLease
    0, 0, 0, 0, 0, 0, 0, 0, 0, 0, 0, 0, 0, 0, 0, 0, // ServiceKey
    b'd', b'b', b's', // ServiceName
];

fn service() -> ServiceRecord {
    ServiceRecord {
        service_id: 1,
        service_gid: SECOND_GID,
        service_p_key: 0x8001,
        service_lease: 0,
        service_key: 0,
        service_name: filled(b"dbs"),
        service_data: [0; 64],
    }
}

/// The same with a lease, a key and data.
const ODD_SERVICE: [u8; 114] = [
    0, 0, 0, 0, 0, 0, 0, 1, // ServiceID
    0xfe, 0x80, 0, 0, 0, 0, 0, 0, 0, 0, 0, 0, 0, 0, 0x01, 0x21, // ServiceGID
    0x80, 0x01, // ServiceP_Key
    0x00, 0x00, // reserved
    0x01, 0x02, 0x03, 0x04, // ServiceLease
    0x05, 0, 0, 0, 0, 0, 0, 0, 0, 0, 0, 0, 0, 0, 0, 0, // ServiceKey
    b'd', b'b', b's', 0, 0, 0, 0, 0, 0, 0, 0, 0, 0, 0, 0, 0, // ServiceName
    0, 0, 0, 0, 0, 0, 0, 0, 0, 0, 0, 0, 0, 0, 0, 0, //
    0, 0, 0, 0, 0, 0, 0, 0, 0, 0, 0, 0, 0, 0, 0, 0, //
    0, 0, 0, 0, 0, 0, 0, 0, 0, 0, 0, 0, 0, 0, 0, 0, //
    0x06, 0x07, // ServiceData
];

fn odd_service() -> ServiceRecord {
    ServiceRecord {
        service_lease: 0x0102_0304,
        service_key: 0x05 << 120,
        service_data: filled(&[0x06, 0x07]),
        ..service()
    }
}

#[test]
fn services_read_and_write(rt: HostRuntime) {
    for (bytes, record) in [
        (SERVICE.as_slice(), service()),
        (ODD_SERVICE.as_slice(), odd_service()),
    ] {
        let bytes = filled(bytes);
        let read = ServiceRecord::read(&bytes);
        assert!(rt; read == record);
        assert!(rt; SaRecord::Service(read).data() == bytes);
    }
}

/// For each field but the data its bit of the mask, and a service that is like this one except there.
fn others(shown: ServiceRecord) -> [(u64, ServiceRecord); 6] {
    [
        (
            1u64 << 0,
            ServiceRecord {
                service_id: 2,
                ..shown
            },
        ),
        (
            1u64 << 1,
            ServiceRecord {
                service_gid: FIRST_GID,
                ..shown
            },
        ),
        (
            1u64 << 2,
            ServiceRecord {
                service_p_key: 0x8002,
                ..shown
            },
        ),
        (
            1u64 << 4,
            ServiceRecord {
                service_lease: 1,
                ..shown
            },
        ),
        (
            1u64 << 5,
            ServiceRecord {
                service_key: 1,
                ..shown
            },
        ),
        (
            1u64 << 6,
            ServiceRecord {
                service_name: filled(b"dbt"),
                ..shown
            },
        ),
    ]
}

#[test]
fn services_are_asked_for_by_what_constrains_them(rt: HostRuntime) {
    let shown = service();
    assert!(rt; shown.selected_by(u64::MAX, &shown));
    assert!(rt;
        shown.selected_by(
            u64::MAX,
            &ServiceRecord {
                service_p_key: 0x0001,
                ..shown
            }
        )
    );
    for (bits, other) in others(shown) {
        assert!(rt; !shown.selected_by(bits, &other));
        assert!(rt; shown.selected_by(!bits, &other));
    }
}

/// The bit of the mask for each byte of ServiceData: 16 numbers of 1 byte, 8 of 2, 4 of 4 and 2 of 8.
const DATA_BITS: [u32; 64] = [
    7, 8, 9, 10, 11, 12, 13, 14, 15, 16, 17, 18, 19, 20, 21, 22, 23, 23, 24, 24, 25, 25, 26, 26,
    27, 27, 28, 28, 29, 29, 30, 30, 31, 31, 31, 31, 32, 32, 32, 32, 33, 33, 33, 33, 34, 34, 34, 34,
    35, 35, 35, 35, 35, 35, 35, 35, 36, 36, 36, 36, 36, 36, 36, 36,
];

/// The service, with a 1 in that byte of its data.
fn with_data_at(place: usize) -> ServiceRecord {
    let mut other = service();
    if let Some(byte) = other.service_data.get_mut(place) {
        *byte = 1;
    }
    other
}

#[test]
fn each_number_of_service_data_has_its_bit(rt: HostRuntime) {
    let shown = service();
    for (place, bit) in DATA_BITS.iter().enumerate() {
        let other = with_data_at(place);
        let bits = 1u64.checked_shl(*bit).unwrap_or(0);
        assert!(rt; !shown.selected_by(bits, &other));
        assert!(rt; shown.selected_by(!bits, &other));
    }
}
