//! A record of any kind.

ghost use Rattle.std.specs.Prelude.{◌≡◌, ◌++◌, ◌-◌, length, replicate};
ghost use Rattle.sa_records.specs.Asked.{bits_of};
ghost use Rattle.sa_records.specs.SaRecord.{AskedBy, RecordFits, attribute_of, bits_asked, blank_size, name_bits, named, record_bytes};

use crate::mc_member_record::{MC_MEMBER_RECORD_BYTES, McMemberRecord};
use crate::node_record::{NODE_RECORD_BYTES, NodeRecord};
use crate::path_record::{PATH_RECORD_BYTES, PathRecord};
use crate::sa_attribute::SaAttribute;
use crate::service_record::{SERVICE_RECORD_BYTES, ServiceRecord};
use mad_layout::SA_DATA_BYTES;

/// One of the records of subnet administration.
///
/// Source: IBA volume 1, 15.2.5.
#[derive(Clone, Copy, Debug, PartialEq, Eq)]
pub enum SaRecord {
    /// A port of a node.
    Node(NodeRecord),
    /// A path between two ports.
    Path(PathRecord),
    /// A multicast group.
    Group(McMemberRecord),
    /// A service that a port offers.
    Service(ServiceRecord),
}

impl SaRecord {
    /// The record of this kind that asks by nothing: each of its fields is 0.
    pub fn blank(attribute: SaAttribute) -> SaRecord
        ensures kind { attribute_of result ≡ attribute }
        ensures zeros { record_bytes result ≡ replicate (blank_size attribute) 0 }
        ensures fits { RecordFits result }
    {
        match attribute {
            SaAttribute::NodeRecord => SaRecord::Node(NodeRecord::blank()),
            SaAttribute::PathRecord => SaRecord::Path(PathRecord::blank()),
            SaAttribute::McMemberRecord => SaRecord::Group(McMemberRecord::blank()),
            SaAttribute::ServiceRecord => SaRecord::Service(ServiceRecord::blank()),
        }
    }

    /// Its kind.
    pub fn attribute(&self) -> SaAttribute
        ensures { result ≡ attribute_of self.now }
    {
        match self {
            SaRecord::Node(_) => SaAttribute::NodeRecord,
            SaRecord::Path(_) => SaAttribute::PathRecord,
            SaRecord::Group(_) => SaAttribute::McMemberRecord,
            SaRecord::Service(_) => SaAttribute::ServiceRecord,
        }
    }

    /// Asks by the field of this name: sets its value, and gives the bits of the ComponentMask that name it. None, and
    /// nothing is set, if records of this kind have no such field or the value is wider than it.
    pub fn ask_by(&mut self, field: &[u8], value: u128) -> Option<u64>
        ensures bits { result ≡ bits_asked field.now value self.old }
        ensures set { AskedBy field.now value self.old self.new }
        ensures fits { RecordFits self.old → RecordFits self.new }
    {
        match self {
            SaRecord::Node(node) => node.ask_by(field, value),
            SaRecord::Path(path) => path.ask_by(field, value),
            SaRecord::Group(group) => group.ask_by(field, value),
            SaRecord::Service(service) => service.ask_by(field, value),
        }
    }

    /// Asks by ServiceName, and gives its bit of the ComponentMask. None, and nothing is set, if it is no service.
    pub fn ask_by_name(&mut self, name: &[u8; 64]) -> Option<u64>
        ensures bits { result ≡ name_bits self.old }
        ensures set { self.new ≡ named name.now self.old }
    {
        match self {
            SaRecord::Service(service) => Some(service.ask_by_name(name)),
            _ => None,
        }
    }

    /// The data of a MAD that asks by this record: its bytes, and 0 after them.
    pub fn data(&self) -> [u8; SA_DATA_BYTES]
        requires { RecordFits self.now }
        ensures { result ≡ record_bytes self.now ++ replicate (200 - length (record_bytes self.now)) 0 }
    {
        let mut data = [0; SA_DATA_BYTES];
        match self {
            SaRecord::Node(node) => {
                let mut bytes = [0; NODE_RECORD_BYTES];
                node.write(&mut bytes);
                data[..NODE_RECORD_BYTES].copy_from_slice(&bytes);
            }
            SaRecord::Path(path) => {
                let mut bytes = [0; PATH_RECORD_BYTES];
                path.write(&mut bytes);
                data[..PATH_RECORD_BYTES].copy_from_slice(&bytes);
            }
            SaRecord::Group(group) => {
                let mut bytes = [0; MC_MEMBER_RECORD_BYTES];
                group.write(&mut bytes);
                data[..MC_MEMBER_RECORD_BYTES].copy_from_slice(&bytes);
            }
            SaRecord::Service(service) => {
                let mut bytes = [0; SERVICE_RECORD_BYTES];
                service.write(&mut bytes);
                data[..SERVICE_RECORD_BYTES].copy_from_slice(&bytes);
            }
        }
        data
    }
}
