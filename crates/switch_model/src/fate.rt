//! What becomes of a packet at a switch.

/// What a switch makes of a unicast packet that came in at one of its ports: the first of these that is so.
#[derive(Clone, Copy, Debug, PartialEq, Eq)]
pub enum Fate {
    /// The port by which it came in lets nothing under its key in.
    KeptOut,
    /// Its LID is over LinearFDBTop.
    OverTop,
    /// The switch has no port of the number that stands in the entry for its LID.
    NoPort(u8),
    /// The switch takes it, since the entry is port 0: the LID is its own, and it takes no data.
    Taken,
    /// The port by which it would leave lets nothing under its key out.
    KeptIn(u8),
    /// It leaves by that port.
    Leaves(u8),
}
