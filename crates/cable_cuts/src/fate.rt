//! What becomes of a fabric without one of its cables.

use updn_routes::Routes;

/// Why the fabric of a topology does not come up.
#[derive(Clone, Copy, Debug, PartialEq, Eq)]
pub enum Stop {
    /// Cables do not join all switches.
    Apart,
    /// A cable is too far from the subnet manager for any SMP.
    TooFar,
    /// From a switch that carries adapters' ports no up/down path leads to one of these. Of all such pairs this is the first, by
    /// the switch's LID and then by the port's.
    NoLegalPath {
        /// The switch's LID.
        switch: u16,
        /// The LID of the adapter's port.
        port: u16,
    },
}

/// What becomes of a fabric without one of its cables.
#[derive(Debug, Drop)]
pub enum Cut {
    /// It comes up, and packets go by these routes.
    Keeps(Routes),
    /// It does not come up.
    Stops(Stop),
}
