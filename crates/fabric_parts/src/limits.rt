//! How big a fabric may be.

ghost use Rattle.std.specs.Prelude.{◌≡◌};
ghost use Rattle.fabric_parts.specs.Limits.{most_adapter_ports, most_ports_within, most_switches};
ghost use Rattle.fabric_parts.specs.declared.limits.Limits.TheVariants.{Large};

use crate::node_type::NodeType;

/// How many switches a simulated fabric has at most.
pub const SWITCHES: usize = 64;

/// How many ports the channel adapters of a simulated fabric have at most, all together.
pub const ADAPTER_PORTS: usize = 256;

/// How many ports a switch of a simulated fabric has at most, its port 0 not counted.
pub const SWITCH_PORTS: usize = 36;

/// How many ports a channel adapter has at most.
pub const PORTS_OF_AN_ADAPTER: usize = 8;

/// How many bytes the name of a node has at most.
pub const NAME_BYTES: usize = 32;

/// How many switches a fabric has at most if nothing of it is simulated.
pub const LARGE_SWITCHES: usize = 5_000;

/// How many ports the channel adapters of a fabric have at most, all together, if nothing of it is simulated. With
/// [`LARGE_SWITCHES`] these are fewer ends than there are unicast LIDs.
pub const LARGE_ADAPTER_PORTS: usize = 44_000;

/// How many ports a switch has at most if nothing of its fabric is simulated: a port number has one byte, and 255 is
/// no port.
pub const LARGE_SWITCH_PORTS: usize = 254;

/// How big the fabric of a topology may be.
#[derive(Clone, Copy, Debug, PartialEq, Eq)]
pub enum Limits {
    /// Of a fabric that is simulated.
    Simulated,
    /// Of a fabric that is only read: its files are compared, listed or audited.
    Large,
}

impl Limits {
    /// How many switches there are at most.
    pub fn switches(self) -> usize
        ensures { result ≡ most_switches self }
    {
        match self {
            Limits::Simulated => SWITCHES,
            Limits::Large => LARGE_SWITCHES,
        }
    }

    /// How many ports the channel adapters have at most, all together.
    pub fn adapter_ports(self) -> usize
        ensures { result ≡ most_adapter_ports self }
    {
        match self {
            Limits::Simulated => ADAPTER_PORTS,
            Limits::Large => LARGE_ADAPTER_PORTS,
        }
    }

    /// How many ports a node of this type has at most.
    pub fn ports_of(self, node_type: NodeType) -> u8
        ensures { result ≡ most_ports_within self node_type }
    {
        match self {
            Limits::Simulated => node_type.most_ports(),
            Limits::Large => large_ports(node_type),
        }
    }
}

fn large_ports(node_type: NodeType) -> u8
    ensures { result ≡ most_ports_within Large node_type }
{
    match node_type {
        NodeType::Switch => LARGE_SWITCH_PORTS as u8,
        NodeType::ChannelAdapter => PORTS_OF_AN_ADAPTER as u8,
    }
}
