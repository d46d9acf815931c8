//! What nodes hold at power-up.

ghost use Rattle.std.specs.Prelude.{◌≡◌};
ghost use Rattle.agent_rules.specs.PowerUp.{is_uncabled, keys_at_power_up, node_info_of, port_info_at_power_up, switch_info_at_power_up};
ghost use Rattle.attr_tables.specs.PortInfo.{port_info};
ghost use Rattle.agent_rules.specs.PortSetting.{is_down};
ghost use Rattle.mad_layout.specs.Layout.{Fits};

use crate::link::PortLink;
use attr_tables::{Mtu, NodeInfo, PortInfo, PortPhysicalState, PortState, SwitchInfo};
use fabric_parts::NodeType;
use pkey_rules::{DEFAULT_BASE, PARTITIONS, key_of};

/// How many entries the linear forwarding table of a simulated switch has.
pub const LINEAR_TABLE: usize = 512;

/// How many entries the multicast forwarding table of a simulated switch has.
pub const MULTICAST_TABLE: usize = 4096;

/// What a port of a simulated node has at power-up.
pub fn port_info_at_power_up(node_type: NodeType, local_port_num: u8, link: PortLink) -> PortInfo
    ensures value { result ≡ port_info_at_power_up node_type local_port_num link }
    ensures fits { Fits (port_info result) }
    ensures down { is_down result ≡ is_uncabled link }
{
    let (port_state, physical_state) = match link {
        PortLink::Cabled => (PortState::Initialize, PortPhysicalState::LinkUp),
        PortLink::Uncabled => (PortState::Down, PortPhysicalState::Polling),
        PortLink::Internal => (PortState::Active, PortPhysicalState::LinkUp),
    };
    let guid_cap = match node_type {
        NodeType::ChannelAdapter => 1,
        NodeType::Switch => 0,
    };
    PortInfo {
        local_port_num,
        link_width_enabled: 3,
        link_width_supported: 3,
        link_width_active: 2,
        link_speed_supported: 1,
        port_state: port_state.code(),
        port_physical_state: physical_state.code(),
        link_speed_active: 1,
        link_speed_enabled: 1,
        neighbor_mtu: Mtu::Bytes2048.code(),
        vl_cap: 1,
        mtu_cap: Mtu::Bytes2048.code(),
        operational_vls: 1,
        guid_cap,
        ..PortInfo::default()
    }
}

/// What a simulated switch has at power-up.
pub fn switch_info_at_power_up() -> SwitchInfo
    ensures { result ≡ switch_info_at_power_up }
{
    SwitchInfo {
        linear_fdb_cap: LINEAR_TABLE as u16,
        multicast_fdb_cap: MULTICAST_TABLE as u16,
        life_time_value: 18,
        partition_enforcement_cap: PARTITIONS as u16,
        inbound_enforcement_cap: true,
        outbound_enforcement_cap: true,
        ..SwitchInfo::default()
    }
}

/// What a simulated node says of itself at that port.
pub fn node_info_of(
    node_type: NodeType,
    num_ports: u8,
    node_guid: u64,
    port_guid: u64,
    local_port_num: u8,
) -> NodeInfo
    ensures { result ≡ node_info_of node_type num_ports node_guid port_guid local_port_num }
{
    NodeInfo {
        base_version: 1,
        class_version: 1,
        node_type: node_type.code(),
        num_ports,
        system_image_guid: node_guid,
        node_guid,
        port_guid,
        partition_cap: PARTITIONS as u16,
        device_id: 0,
        revision: 0,
        local_port_num,
        vendor_id: 0,
    }
}

/// The P_Key table of each port of a simulated node at power-up: the full key of the default partition,
/// and empty places.
pub fn keys_at_power_up() -> [u16; PARTITIONS]
    ensures { result ≡ keys_at_power_up }
{
    let mut keys = [0; PARTITIONS];
    keys[0] = key_of(DEFAULT_BASE, true);
    keys
}
