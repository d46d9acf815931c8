//! Ports that receive what is sent to a multicast group.

/// A port that receives what is sent to a multicast group.
#[derive(Clone, Copy, Debug, PartialEq, Eq)]
pub struct GroupReceiver {
    /// The multicast LID of the group.
    pub mlid: u16,
    /// The LID of the port.
    pub lid: u16,
}
