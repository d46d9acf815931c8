//! NodeRecord.

ghost use Rattle.std.specs.Prelude.{◌≡◌, replicate};
ghost use Rattle.mad_layout.specs.Layout.{Holds, Fits, put_all, Encodes};
ghost use Rattle.sa_records.specs.Asked.{asked_by, bits_of, with_value};
ghost use Rattle.sa_records.specs.NodeRecord.{node_in, node_record, node_record_asked, node_record_bytes, node_record_selected};

use crate::asked::{component_agrees, is_word, selected, set_asked, set_field};
use crate::component::agrees;
use crate::node_mask as mask;
use mad_layout::{SA_DATA_BYTES, read_fields, write_fields};

/// How many bytes a NodeRecord fills in a table: its 108, and zero bytes up to a multiple of 8.
pub const NODE_RECORD_BYTES: usize = 112;

/// AttributeOffset of a table of NodeRecords: the same in units of 8 bytes.
pub const NODE_RECORD_OFFSET: u16 = (NODE_RECORD_BYTES / 8) as u16;

/// A port of a node, with what the node says of itself, each field as its raw bits.
///
/// Source: IBA volume 1, 15.2.5; NodeInfo is 14.2.5.3.
#[derive(Clone, Copy, Debug, PartialEq, Eq)]
pub struct NodeRecord {
    /// The LID of the port.
    pub lid: u16,
    /// The version of the MAD's base format that the node supports.
    pub base_version: u8,
    /// The version of the SMP's format that the node supports.
    pub class_version: u8,
    /// What kind of node it is.
    pub node_type: u8,
    /// How many ports the node has, a switch's port 0 not counted.
    pub num_ports: u8,
    /// The GUID of the system that the node is part of.
    pub system_image_guid: u64,
    /// The GUID of the node.
    pub node_guid: u64,
    /// The GUID of the port.
    pub port_guid: u64,
    /// How many entries each P_Key table of the node has.
    pub partition_cap: u16,
    /// The device, as its vendor numbers it.
    pub device_id: u16,
    /// The device's revision.
    pub revision: u32,
    /// The port's own number.
    pub local_port_num: u8,
    /// The device's vendor, 24 bits.
    pub vendor_id: u32,
    /// The name of the node: text, and zero bytes after it.
    pub node_string: [u8; 64],
}

/// NodeRecord (IBA volume 1, 15.2.5): field, type, first bit, bits.
macro_rules! node_record_layout {
    ($then:ident!($($context:tt)*)) => {
        $then!($($context)*;
            lid: u16, 0, 16;
            base_version: u8, 32, 8;
            class_version: u8, 40, 8;
            node_type: u8, 48, 8;
            num_ports: u8, 56, 8;
            system_image_guid: u64, 64, 64;
            node_guid: u64, 128, 64;
            port_guid: u64, 192, 64;
            partition_cap: u16, 256, 16;
            device_id: u16, 272, 16;
            revision: u32, 288, 32;
            local_port_num: u8, 320, 8;
            vendor_id: u32, 328, 24;
            node_string: bytes_64, 352, 512;
        )
    };
}

/// What nodes are asked by (IBA volume 1, 15.2.5): word in scripts, bits of the ComponentMask, field, type, bits, and
/// how it constrains.
macro_rules! node_record_components {
    ($then:ident!($($context:tt)*)) => {
        $then!($($context)*;
            b"lid", mask::LID, lid: u16, 16, equal;
            b"base", mask::BASE_VERSION, base_version: u8, 8, equal;
            b"class", mask::CLASS_VERSION, class_version: u8, 8, equal;
            b"kind", mask::NODE_TYPE, node_type: u8, 8, equal;
        )
    };
}

impl NodeRecord {
    /// Reads the record that the data of a MAD of subnet administration begin with; bits outside its fields are not
    /// looked at.
    pub fn read(bytes: &[u8; SA_DATA_BYTES]) -> NodeRecord
        ensures fields { Holds bytes.now (node_record result) }
        ensures fits { Fits (node_record result) }
        ensures value { result ≡ node_in bytes.now }
    {
        Self::fields_of(bytes)
    }

    /// The record that asks by nothing: each of its fields is 0.
    pub fn blank() -> NodeRecord
        ensures zeros { node_record_bytes result ≡ replicate 112 0 }
        ensures fits { Fits (node_record result) }
    {
        Self::read(&[0; SA_DATA_BYTES])
    }

    /// Writes the record; every bit outside its fields is 0.
    pub fn write(&self, bytes: &mut [u8; NODE_RECORD_BYTES])
        requires { Fits (node_record self.now) }
        ensures encodes { Encodes bytes.new (node_record self.now) }
        ensures bytes { bytes.new ≡ node_record_bytes self.now }
    {
        self.put_over_zeros(bytes);
    }

    /// Whether the record agrees with `asked` on every component that the mask names.
    #[tactic(auto, unfolding(crate::specs::NodeRecord::node_record_selected))]
    pub fn selected_by(&self, mask: u64, asked: &NodeRecord) -> bool
        ensures { result ≡ node_record_selected mask self.now asked.now }
    {
        node_record_components!(selected!(self asked mask))
    }

    /// Asks by the field of this name: sets its value, and gives the bits of the ComponentMask that name it. None, and
    /// nothing is set, if nodes have no such field or the value is wider than it.
    pub fn ask_by(&mut self, field: &[u8], value: u128) -> Option<u64>
        ensures bits { result ≡ bits_of (asked_by field.now value node_record_asked) }
        ensures set { node_record self.new ≡ with_value value (asked_by field.now value node_record_asked) (node_record self.old) }
        ensures fits { Fits (node_record self.old) → Fits (node_record self.new) }
    {
        self.set_by(field, value)
    }

    #[tactic(auto, unfolding(crate::specs::Asked::asked_by))]
    fn set_by(&mut self, field: &[u8], value: u128) -> Option<u64>
        ensures bits { result ≡ bits_of (asked_by field.now value node_record_asked) }
        ensures set { node_record self.new ≡ with_value value (asked_by field.now value node_record_asked) (node_record self.old) }
    {
        node_record_components!(set_asked!(self field value))
    }

    #[tactic(auto, unfolding(crate::specs::NodeRecord::node_in))]
    fn fields_of(bytes: &[u8; SA_DATA_BYTES]) -> NodeRecord
        ensures fields { Holds bytes.now (node_record result) }
        ensures value { result ≡ node_in bytes.now }
    {
        node_record_layout!(read_fields!(NodeRecord bytes))
    }

    fn put_over_zeros(&self, bytes: &mut [u8; NODE_RECORD_BYTES])
        requires { Fits (node_record self.now) }
        ensures { bytes.new ≡ put_all (replicate 112 0) (node_record self.now) }
    {
        *bytes = [0; NODE_RECORD_BYTES];
        node_record_layout!(write_fields!(self bytes))
    }
}
