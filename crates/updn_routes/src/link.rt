//! A link of a switch to another.

/// A cable between two switches, as one of them sees it.
#[derive(Clone, Copy, Debug, PartialEq, Eq)]
pub struct Link {
    /// The port that it leaves by, from 1.
    pub port: u8,
    /// The switch at its other end, by its number.
    pub to: usize,
}
