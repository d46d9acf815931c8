//! What a port of a node is joined to.

/// What a simulated port is linked to.
#[derive(Clone, Copy, Debug, PartialEq, Eq)]
pub enum PortLink {
    /// A cable.
    Cabled,
    /// Nothing.
    Uncabled,
    /// The inside of its switch: it is port 0.
    Internal,
}
