//! The ports of a subnet, as a registry is given them.

ghost use Rattle.std.specs.Prelude.{◌≡◌};
ghost use Rattle.sa_store.specs.NodePorts.{with_keys};

use fabric_parts::NodeType;
use pkey_rules::{KeyTable, PARTITIONS};
use subnet_model::{NodeName, SubnetPort};

/// An end port of a subnet without its keys: its addresses, and what its node says of itself.
#[derive(Debug, Drop)]
pub struct NodePort {
    /// Its address within the subnet, from 1.
    pub lid: u16,
    /// Its GUID.
    pub guid: u64,
    /// The name of its node.
    pub node_name: NodeName,
    /// The GUID of its node.
    pub node_guid: u64,
    /// How many ports its node has, port 0 of a switch not counted.
    pub num_ports: u8,
    /// Which port of its node it is: from 1 on a channel adapter, 0 on a switch.
    pub number: u8,
    /// The type of its node.
    pub node_type: NodeType,
}

impl NodePort {
    /// The port with the keys that it holds.
    pub(crate) fn with_keys(&self, keys: KeyTable<PARTITIONS>) -> SubnetPort
        ensures { result ≡ with_keys self.now keys }
    {
        SubnetPort {
            lid: self.lid,
            guid: self.guid,
            node_name: NodeName::new(self.node_name.as_slice()),
            node_guid: self.node_guid,
            num_ports: self.num_ports,
            number: self.number,
            node_type: self.node_type,
            keys,
        }
    }
}
