//! NodeInfo.

ghost use Rattle.std.specs.Prelude.{◌≡◌, ◌<◌, Some, IfSome, replicate};
ghost use Rattle.mad_layout.specs.Layout.{Holds, Fits, put_all, Encodes};
ghost use Rattle.attr_tables.specs.NodeInfo.{node_info, node_info_bytes};
ghost use Rattle.fabric_parts.specs.NodeType.{node_type_code};

use fabric_parts::NodeType;
use mad_layout::{read_fields, write_fields};

/// What a node is, each field as its raw bits.
///
/// Source: IBA volume 1, 14.2.5.3.
#[derive(Clone, Copy, Debug, PartialEq, Eq)]
pub struct NodeInfo {
    /// The version of the MAD's base format that the node supports.
    pub base_version: u8,
    /// The version of the SMP's format that the node supports.
    pub class_version: u8,
    /// What kind of node this is. [`NodeInfo::node_type`] names it.
    pub node_type: u8,
    /// How many ports the node has, a switch's port 0 not counted.
    pub num_ports: u8,
    /// The GUID of the system that the node is part of.
    pub system_image_guid: u64,
    /// The GUID of the node.
    pub node_guid: u64,
    /// The GUID of the port that was asked.
    pub port_guid: u64,
    /// How many entries each P_Key table of the node has.
    pub partition_cap: u16,
    /// The device, as its vendor numbers it.
    pub device_id: u16,
    /// The device's revision.
    pub revision: u32,
    /// The port that was asked.
    pub local_port_num: u8,
    /// The device's vendor, 24 bits.
    pub vendor_id: u32,
}

/// NodeInfo (IBA volume 1, 14.2.5.3): field, type, first bit, bits.
macro_rules! node_info_layout {
    ($then:ident!($($context:tt)*)) => {
        $then!($($context)*;
            base_version: u8, 0, 8;
            class_version: u8, 8, 8;
            node_type: u8, 16, 8;
            num_ports: u8, 24, 8;
            system_image_guid: u64, 32, 64;
            node_guid: u64, 96, 64;
            port_guid: u64, 160, 64;
            partition_cap: u16, 224, 16;
            device_id: u16, 240, 16;
            revision: u32, 256, 32;
            local_port_num: u8, 288, 8;
            vendor_id: u32, 296, 24;
        )
    };
}

impl NodeInfo {
    /// Reads the attribute; bits outside its fields are not looked at.
    pub fn read(bytes: &[u8; 64]) -> NodeInfo
        ensures fields { Holds bytes.now (node_info result) }
        ensures vendor_id { result.vendor_id < 16777216 }
    {
        node_info_layout!(read_fields!(NodeInfo bytes))
    }

    /// Writes the attribute; every bit outside its fields is 0.
    pub fn write(&self, bytes: &mut [u8; 64])
        requires { self.now.vendor_id < 16777216 }
        ensures encodes { Encodes bytes.new (node_info self.now) }
        ensures bytes { bytes.new ≡ node_info_bytes self.now }
    {
        self.put_over_zeros(bytes);
    }

    /// The attribute's bytes.
    pub fn to_bytes(&self) -> [u8; 64]
        requires { self.now.vendor_id < 16777216 }
        ensures { result ≡ node_info_bytes self.now }
    {
        let mut bytes = [0; 64];
        self.write(&mut bytes);
        bytes
    }

    /// The kind of node, if it is one of those.
    pub fn node_type(&self) -> Option<NodeType>
        ensures known { IfSome result (λ one. node_type_code one ≡ self.now.node_type) }
        ensures every { (one : NodeType) → node_type_code one ≡ self.now.node_type → result ≡ Some one }
    {
        NodeType::from_code(self.node_type)
    }

    fn put_over_zeros(&self, bytes: &mut [u8; 64])
        requires { self.now.vendor_id < 16777216 }
        ensures fields { bytes.new ≡ put_all (replicate 64 0) (node_info self.now) }
        ensures fits { Fits (node_info self.now) }
    {
        *bytes = [0; 64];
        node_info_layout!(write_fields!(self bytes))
    }
}
