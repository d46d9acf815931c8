//! What becomes of a packet at a port.

use fabric_parts::PortRef;

/// What becomes of a packet at a port at which it comes in: of a switch the first of these that is so, and for a packet to a
/// multicast LID the first for each port that is in the masks of its LID.
#[derive(Clone, Copy, Debug, PartialEq, Eq)]
pub enum Turn {
    /// It came in there before, so it goes in a cycle.
    Again,
    /// The port lets nothing under its key in.
    DropsInbound,
    /// Its LID is over LinearFDBTop.
    DropsTop,
    /// The switch has no port of the number that stands in the entry for its LID.
    DropsEntry(u8),
    /// No bit of another port of the switch is set in the masks of its LID.
    DropsMask,
    /// The switch takes it, since the LID is its own or the masks have the bit of port 0, and it takes no data.
    Takes,
    /// The port by which it would leave lets nothing under its key out.
    DropsOutbound(u8),
    /// The port by which it would leave has no cable.
    NoCable(u8),
    /// It leaves by that port, to where a copy of it came in before.
    Meets(u8),
    /// It leaves by that port.
    GoesOut(u8),
    /// The port of a channel adapter accepts it.
    Accepts,
    /// No key of the port matches its own.
    DropsKey,
}

/// A packet at a port of a node.
#[derive(Clone, Copy, Debug, PartialEq, Eq)]
pub struct Step {
    /// The port at which it comes in.
    pub at: PortRef,
    /// What becomes of it there.
    pub turn: Turn,
}
