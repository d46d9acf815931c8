//! The bits of the ComponentMask that name the components of a request by PathRecord (IBA volume 1, 15.2.5).

/// ServiceID, which has two bits.
pub const SERVICE_ID: u64 = 0b11 << 0;

/// DGID.
pub const DGID: u64 = 1 << 2;

/// SGID.
pub const SGID: u64 = 1 << 3;

/// DLID.
pub const DLID: u64 = 1 << 4;

/// SLID.
pub const SLID: u64 = 1 << 5;

/// RawTraffic.
pub const RAW_TRAFFIC: u64 = 1 << 6;

/// FlowLabel.
pub const FLOW_LABEL: u64 = 1 << 8;

/// HopLimit.
pub const HOP_LIMIT: u64 = 1 << 9;

/// TClass.
pub const T_CLASS: u64 = 1 << 10;

/// Reversible.
pub const REVERSIBLE: u64 = 1 << 11;

/// NumbPath.
pub const NUMB_PATH: u64 = 1 << 12;

/// P_Key.
pub const P_KEY: u64 = 1 << 13;

/// QoSClass.
pub const QOS_CLASS: u64 = 1 << 14;

/// SL.
pub const SL: u64 = 1 << 15;

/// MtuSelector.
pub const MTU_SELECTOR: u64 = 1 << 16;

/// Mtu.
pub const MTU: u64 = 1 << 17;

/// RateSelector.
pub const RATE_SELECTOR: u64 = 1 << 18;

/// Rate.
pub const RATE: u64 = 1 << 19;

/// PacketLifeTimeSelector.
pub const PACKET_LIFE_TIME_SELECTOR: u64 = 1 << 20;

/// PacketLifeTime.
pub const PACKET_LIFE_TIME: u64 = 1 << 21;

/// Mtu with its selector.
pub const SELECTED_MTU: u64 = 0b11 << 16;

/// Rate with its selector.
pub const SELECTED_RATE: u64 = 0b11 << 18;

/// PacketLifeTime with its selector.
pub const SELECTED_LIFE_TIME: u64 = 0b11 << 20;
