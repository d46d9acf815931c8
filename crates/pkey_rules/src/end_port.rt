//! An end port, as partitions know it.

/// An end port of a subnet, as membership rules see it: a cabled port of a channel adapter, or port
/// 0 of a switch.
#[derive(Clone, Copy, Debug, PartialEq, Eq)]
pub struct EndPort {
    /// The GUID of the port.
    pub guid: u64,
    /// Whether it is port 0 of a switch.
    pub is_switch: bool,
    /// Whether the subnet manager runs on it.
    pub is_sm: bool,
}
