//! What is seen of a node, asked at one of its ports.

ghost use Rattle.std.specs.Prelude.{◌≡◌};
ghost use Rattle.sweep.specs.Seen.{is_of_ours, seen_of};

use crate::fault::SweepFault;
use attr_tables::NodeInfo;
use fabric_parts::NodeType;

/// What NodeInfo reports of a node and of the port that was asked.
#[derive(Clone, Copy, Debug, PartialEq, Eq)]
pub struct Seen {
    /// What kind of node it is.
    pub node_type: NodeType,
    /// How many ports it has, port 0 of a switch not counted.
    pub num_ports: u8,
    /// The GUID of the node.
    pub node_guid: u64,
    /// The GUID of the port; each port of a switch has the switch's.
    pub port_guid: u64,
    /// The number of the port.
    pub local_port_num: u8,
}

/// What NodeInfo reports, or `WrongReply` if no node of a fabric shows it: a type that is none, a number of
/// ports that no such node has, a port that the node has not.
#[tactic(auto, unfolding(crate::specs::Seen::seen_of))]
pub fn seen_of(info: &NodeInfo) -> Result<Seen, SweepFault>
    ensures { result ≡ seen_of info.now }
{
    let Some(node_type) = NodeType::from_code(info.node_type) else {
        return Err(SweepFault::WrongReply);
    };
    if !is_of_ours(info, node_type) {
        return Err(SweepFault::WrongReply);
    }
    Ok(Seen {
        node_type,
        num_ports: info.num_ports,
        node_guid: info.node_guid,
        port_guid: info.port_guid,
        local_port_num: info.local_port_num,
    })
}

/// Whether such a node may have so many ports, and the port that was asked is one of them.
fn is_of_ours(info: &NodeInfo, node_type: NodeType) -> bool
    ensures { result ≡ is_of_ours info.now node_type }
{
    1 <= info.num_ports
        && info.num_ports <= node_type.most_ports()
        && 1 <= info.local_port_num
        && info.local_port_num <= info.num_ports
}
