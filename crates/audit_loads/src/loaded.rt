//! A channel, and how many pairs go over it.

use fabric_parts::PortRef;

/// A channel, and how many pairs go over it.
#[derive(Clone, Copy, Debug, PartialEq, Eq)]
pub struct Loaded {
    /// How many pairs go over it.
    pub load: usize,
    /// The port of a switch, which has a cable to a switch.
    pub at: PortRef,
}
