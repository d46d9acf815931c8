//! What a node does with a directed-route SMP.

/// Where a directed-route SMP goes from a node.
#[derive(Clone, Copy, Debug, PartialEq, Eq)]
pub enum Hop {
    /// Out of this port, which is never 0.
    Forward(u8),
    /// To the agent of this node.
    ToAgent,
    /// To the subnet manager, if it runs on this node.
    ToManager,
    /// Nowhere.
    Discard,
}
