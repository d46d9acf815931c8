//! Ports of nodes, and the cables between them.

ghost use Rattle.std.specs.Prelude.{◌≡◌};
ghost use Rattle.fabric_parts.specs.Cable.{ends_at, far_end, other_end};

/// A port of a node.
#[derive(Clone, Copy, Debug, PartialEq, Eq, Hash)]
pub struct PortRef {
    /// The place of the node in the list that it is taken from: the nodes of a topology and of its fabric, or, for a port of
    /// a graph, the switches that a sweep found.
    pub node: usize,
    /// The number of the port: from 1, and 0 for a switch itself.
    pub port: u8,
}

/// A cable between two ports.
#[derive(Clone, Copy, Debug, PartialEq, Eq)]
pub struct Cable {
    /// The end that a text names first.
    pub first: PortRef,
    /// The other end.
    pub second: PortRef,
}

impl Cable {
    /// Whether it ends at the port.
    pub fn ends_at(&self, port: PortRef) -> bool
        ensures { result ≡ ends_at port self.now }
    {
        self.first == port || self.second == port
    }

    /// The end that is not this one.
    pub fn other_end(&self, here: PortRef) -> PortRef
        ensures { result ≡ other_end here self.now }
    {
        if self.first == here {
            self.second
        } else {
            self.first
        }
    }
}

/// The other end of the first cable at a port, looked for among all of them.
pub fn far_end(cables: &[Cable], here: PortRef) -> Option<PortRef>
    ensures { result ≡ far_end cables.now here }
{
    cables
        .iter()
        .find(|cable| cable.ends_at(here))
        .map(|cable| cable.other_end(here))
}
