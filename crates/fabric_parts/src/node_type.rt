//! The types of nodes.

ghost use Rattle.std.specs.Prelude.{◌≡◌, Some, IfSome};
ghost use Rattle.fabric_parts.specs.NodeType.{is_switch_type, most_ports, node_type_code};

use crate::limits::{PORTS_OF_AN_ADAPTER, SWITCH_PORTS};

/// What kind of node this is.
///
/// Source: IBA volume 1, 14.2.5.3 (NodeInfo).
#[derive(Clone, Copy, Debug, PartialEq, Eq)]
pub enum NodeType {
    /// A channel adapter: its ports are ends, and count from 1.
    ChannelAdapter = 1,
    /// A switch: its ports pass packets on and count from 1, and its port 0, the switch itself, is an end.
    Switch = 2,
}

impl NodeType {
    /// The kind of that code, if there is one.
    pub fn from_code(code: u8) -> Option<NodeType>
        ensures known { IfSome result (λ kind. node_type_code kind ≡ code) }
        ensures every { (kind : NodeType) → node_type_code kind ≡ code → result ≡ Some kind }
    {
        match code {
            1 => Some(NodeType::ChannelAdapter),
            2 => Some(NodeType::Switch),
            _ => None,
        }
    }

    /// The code of the kind.
    pub fn code(self) -> u8
        ensures { result ≡ node_type_code self }
    {
        self as u8
    }

    /// Whether it is a switch.
    pub fn is_switch(self) -> bool
        ensures { result ≡ is_switch_type self }
    {
        match self {
            NodeType::Switch => true,
            NodeType::ChannelAdapter => false,
        }
    }

    /// How many ports such a node of ours has at most.
    pub fn most_ports(self) -> u8
        ensures { result ≡ most_ports self }
    {
        match self {
            NodeType::Switch => SWITCH_PORTS as u8,
            NodeType::ChannelAdapter => PORTS_OF_AN_ADAPTER as u8,
        }
    }
}
