//! The bits of the ComponentMask that name the components of a request by MCMemberRecord (IBA volume 1, 15.2.5).

/// MGID.
pub const MGID: u64 = 1 << 0;

/// PortGID.
pub const PORT_GID: u64 = 1 << 1;

/// Q_Key.
pub const Q_KEY: u64 = 1 << 2;

/// MLID.
pub const MLID: u64 = 1 << 3;

/// MTUSelector.
pub const MTU_SELECTOR: u64 = 1 << 4;

/// MTU.
pub const MTU: u64 = 1 << 5;

/// TClass.
pub const T_CLASS: u64 = 1 << 6;

/// P_Key.
pub const P_KEY: u64 = 1 << 7;

/// RateSelector.
pub const RATE_SELECTOR: u64 = 1 << 8;

/// Rate.
pub const RATE: u64 = 1 << 9;

/// PacketLifeTimeSelector.
pub const PACKET_LIFE_TIME_SELECTOR: u64 = 1 << 10;

/// PacketLifeTime.
pub const PACKET_LIFE_TIME: u64 = 1 << 11;

/// SL.
pub const SL: u64 = 1 << 12;

/// FlowLabel.
pub const FLOW_LABEL: u64 = 1 << 13;

/// HopLimit.
pub const HOP_LIMIT: u64 = 1 << 14;

/// Scope.
pub const SCOPE: u64 = 1 << 15;

/// JoinState.
pub const JOIN_STATE: u64 = 1 << 16;

/// ProxyJoin.
pub const PROXY_JOIN: u64 = 1 << 17;

/// MTU with its selector.
pub const SELECTED_MTU: u64 = 0b11 << 4;

/// Rate with its selector.
pub const SELECTED_RATE: u64 = 0b11 << 8;

/// PacketLifeTime with its selector.
pub const SELECTED_LIFE_TIME: u64 = 0b11 << 10;
