//! A port of a subnet.

use crate::node_name::NodeName;
use fabric_parts::NodeType;
use pkey_rules::{KeyTable, PARTITIONS};

/// An end port of a subnet: all that the subnet knows of it. The ports of a subnet stand in order of
/// their LIDs.
#[derive(Debug, Drop)]
pub struct SubnetPort {
    /// Its address within the subnet, from 1; the SM port has 1.
    pub lid: u16,
    /// Its GUID.
    pub guid: u64,
    /// The name of its node.
    pub node_name: NodeName,
    /// The GUID of its node.
    pub node_guid: u64,
    /// How many ports its node has, port 0 of a switch not counted.
    pub num_ports: u8,
    /// Which port of its node it is: from 1 on a channel adapter, 0 on a switch.
    pub number: u8,
    /// The type of its node. A port of a channel adapter sends and receives data; port 0 of a switch has
    /// a LID and keys, and takes no data.
    pub node_type: NodeType,
    /// The keys that it holds.
    pub keys: KeyTable<PARTITIONS>,
}
