//! Ports of channel adapters by their numbers.

/// The numbers of a port of a channel adapter. Ports are ordered by LID, those of one LID by GUID.
#[derive(Clone, Copy, Debug, PartialEq, Eq, PartialOrd, Ord)]
pub struct Numbers {
    /// Its LID, 0 if it has none.
    pub lid: u16,
    /// Its GUID.
    pub guid: u64,
}
