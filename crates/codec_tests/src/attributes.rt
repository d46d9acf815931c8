//! Vectors of the attributes of subnet management, of nodes at power-up.

use crate::fixtures::{bytes_from, filled};
use agent_rules::{PortLink, node_info_of, port_info_at_power_up, switch_info_at_power_up};
use attr_tables::{
    BlockPlace, Mtu, NodeDescription, NodeInfo, PortBlock, PortInfo, PortPhysicalState, PortState,
    SwitchInfo, WordBlock, block_count, block_place,
};
use fabric_parts::NodeType;

/// PortInfo of a cabled port of a channel adapter at power-up, from byte 28 on.
const CABLED_ADAPTER_PORT: [u8; 16] = [
    0x01, // LocalPortNum
    0x03, // LinkWidthEnabled
    0x03, // LinkWidthSupported
    0x02, // LinkWidthActive
    0x12, // LinkSpeedSupported, PortState
    0x50, // PortPhysicalState, LinkDownDefaultState
    0x00, // M_KeyProtectBits, LMC
    0x11, // LinkSpeedActive, LinkSpeedEnabled
    0x40, // NeighborMTU, MasterSMSL
    0x10, // VLCap, InitType
    0x00, // VLHighLimit
    0x00, // VLArbitrationHighCap
    0x00, // VLArbitrationLowCap
    0x04, // InitTypeReply, MTUCap
    0x00, // VLStallCount, HOQLife
    0x10, // OperationalVLs, the enforcement and filter bits
];

#[test]
fn a_cabled_adapter_port_at_power_up(rt: HostRuntime) {
    let mut bytes = bytes_from(28, &CABLED_ADAPTER_PORT);
    // GUIDCap
    bytes[50] = 0x01;
    let info = port_info_at_power_up(NodeType::ChannelAdapter, 1, PortLink::Cabled);
    let mut written = [0xff; 64];
    info.write(&mut written);
    assert!(rt; written == bytes);
    let read = PortInfo::read(&bytes);
    assert!(rt; read == info);
    assert!(rt; read.port_state() == Some(PortState::Initialize));
    assert!(rt; read.port_physical_state() == Some(PortPhysicalState::LinkUp));
    assert!(rt; read.neighbor_mtu() == Some(Mtu::Bytes2048));
}

/// SwitchInfo of a switch at power-up.
const SWITCH: [u8; 17] = [
    0x02, 0x00, // LinearFDBCap
    0x00, 0x00, // RandomFDBCap
    0x10, 0x00, // MulticastFDBCap
    0x00, 0x00, // LinearFDBTop
    0x00, // DefaultPort
    0x00, // DefaultMulticastPrimaryPort
    0x00, // DefaultMulticastNotPrimaryPort
    0x90, // LifeTimeValue, PortStateChange
    0x00, 0x00, // LIDsPerPort
    0x00, 0x80, // PartitionEnforcementCap
    0xc0, // InboundEnforcementCap, OutboundEnforcementCap
];

#[test]
fn a_switch_at_power_up(rt: HostRuntime) {
    let bytes = filled(&SWITCH);
    let info = switch_info_at_power_up();
    let mut written = [0xff; 64];
    info.write(&mut written);
    assert!(rt; written == bytes);
    assert!(rt; SwitchInfo::read(&bytes) == info);
}

/// NodeInfo, its type, number of ports, GUID, the GUID of the port and its number; and the name.
const NODES: [([u8; 40], (NodeType, u8, u64, u64, u8), [u8; 2]); 2] = [
    // a channel adapter of one port, named h0
    (
        [
            0x01, // BaseVersion
            0x01, // ClassVersion
            0x01, // NodeType
            0x01, // NumPorts
            0, 0, 0, 0, 0, 0, 0x01, 0x00, // SystemImageGUID
            0, 0, 0, 0, 0, 0, 0x01, 0x00, // NodeGUID
            0, 0, 0, 0, 0, 0, 0x01, 0x01, // PortGUID
            0x00, 0x80, // PartitionCap
            0x00, 0x00, // DeviceID
            0x00, 0x00, 0x00, 0x00, // Revision
            0x01, // LocalPortNum
            0x00, 0x00, 0x00, // VendorID
        ],
        (NodeType::ChannelAdapter, 1, 0x100, 0x101, 1),
        [0x68, 0x30],
    ),
    // a switch of four ports, named A
    (
        [
            0x01, // BaseVersion
            0x01, // ClassVersion
            0x02, // NodeType
            0x04, // NumPorts
            0, 0, 0, 0, 0, 0, 0x00, 0x10, // SystemImageGUID
            0, 0, 0, 0, 0, 0, 0x00, 0x10, // NodeGUID
            0, 0, 0, 0, 0, 0, 0x00, 0x10, // PortGUID
            0x00, 0x80, // PartitionCap
            0x00, 0x00, // DeviceID
            0x00, 0x00, 0x00, 0x00, // Revision
            0x00, // LocalPortNum
            0x00, 0x00, 0x00, // VendorID
        ],
        (NodeType::Switch, 4, 0x10, 0x10, 0),
        [0x41, 0x00],
    ),
];

#[test]
fn nodes_say_what_they_are(rt: HostRuntime) {
    for (bytes, (node_type, num_ports, node_guid, port_guid, port), _) in NODES {
        let attribute = filled(&bytes);
        let info = node_info_of(node_type, num_ports, node_guid, port_guid, port);
        assert!(rt; NodeInfo::read(&attribute) == info);
        assert!(rt; info.node_type() == Some(node_type));
        let mut written = [0xff; 64];
        info.write(&mut written);
        assert!(rt; written == attribute);
    }
}

#[test]
fn nodes_have_names(rt: HostRuntime) {
    for (_, _, name) in NODES {
        let attribute = filled(&name);
        let description = NodeDescription::of_text(&name);
        assert!(rt; NodeDescription::read(&attribute) == description);
        let mut written = [0xff; 64];
        description.write(&mut written);
        assert!(rt; written == attribute);
    }
}

/// The first two entries of a block: the keys of an adapter port and of a switch port, the masks of two
/// switches.
const WORDS: [([u8; 4], (u16, u16)); 4] = [
    ([0x7f, 0xff, 0x80, 0x01], (0x7fff, 0x8001)),
    ([0xff, 0xff, 0x80, 0x01], (0xffff, 0x8001)),
    ([0x00, 0x0c, 0x00, 0x00], (0x000c, 0x0000)),
    ([0x00, 0x0a, 0x00, 0x00], (0x000a, 0x0000)),
];

#[test]
fn blocks_of_keys_and_masks_read_and_write(rt: HostRuntime) {
    for (bytes, (first, second)) in WORDS {
        let attribute = filled(&bytes);
        let mut words = [0; 32];
        words[0] = first;
        words[1] = second;
        let block = WordBlock::read(&attribute);
        assert!(rt; block == WordBlock { words });
        let mut written = [0xff; 64];
        block.write(&mut written);
        assert!(rt; written == attribute);
    }
}

/// The ports to LIDs 1 to 6.
const ENTRIES: [u8; 64] = [
    0xff, 0x01, 0x00, 0x03, 0x02, 0x03, 0x03, 0xff, 0xff, 0xff, 0xff, 0xff, 0xff, 0xff, 0xff, 0xff,
    0xff, 0xff, 0xff, 0xff, 0xff, 0xff, 0xff, 0xff, 0xff, 0xff, 0xff, 0xff, 0xff, 0xff, 0xff, 0xff,
    0xff, 0xff, 0xff, 0xff, 0xff, 0xff, 0xff, 0xff, 0xff, 0xff, 0xff, 0xff, 0xff, 0xff, 0xff, 0xff,
    0xff, 0xff, 0xff, 0xff, 0xff, 0xff, 0xff, 0xff, 0xff, 0xff, 0xff, 0xff, 0xff, 0xff, 0xff, 0xff,
];

#[test]
fn a_block_of_ports_reads_and_writes(rt: HostRuntime) {
    let block = PortBlock::read(&ENTRIES);
    assert!(rt; (block.ports[0], block.ports[1]) == (0xff, 1));
    assert!(rt; (block.ports[2], block.ports[3]) == (0, 3));
    let mut written = [0; 64];
    block.write(&mut written);
    assert!(rt; written == ENTRIES);
}

#[test]
fn tables_are_cut_into_blocks(rt: HostRuntime) {
    assert!(rt; block_count::<64>(512) == 8);
    assert!(rt; block_count::<32>(4096) == 128);
    assert!(rt; block_count::<32>(33) == 2);
    assert!(rt;
        block_place::<64>(511)
            == BlockPlace {
                block: 7,
                place: 63
            }
    );
    // the mask of LID 0xc020
    assert!(rt; block_place::<32>(0x20) == BlockPlace { block: 1, place: 0 });
}
