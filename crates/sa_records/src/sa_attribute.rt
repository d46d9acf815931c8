//! The attributes of subnet administration, by their codes.

ghost use Rattle.std.specs.Prelude.{◌≡◌};
ghost use Rattle.sa_records.specs.SaAttribute.{sa_attribute_code, sa_attribute_of};

/// A kind of record, the AttributeID of the MADs that ask for it and answer by it.
///
/// Source: IBA volume 1, 15.2.5.
#[derive(Clone, Copy, Debug, PartialEq, Eq)]
pub enum SaAttribute {
    /// A port of a node, with what the node says of itself.
    NodeRecord = 0x0011,
    /// A service that a port offers.
    ServiceRecord = 0x0031,
    /// A path between two ports.
    PathRecord = 0x0035,
    /// A multicast group, and how a port is a member of it.
    McMemberRecord = 0x0038,
}

impl SaAttribute {
    /// The attribute of that code, if there is one.
    pub fn from_code(code: u16) -> Option<SaAttribute>
        ensures { result ≡ sa_attribute_of code }
    {
        match code {
            0x0011 => Some(SaAttribute::NodeRecord),
            0x0031 => Some(SaAttribute::ServiceRecord),
            0x0035 => Some(SaAttribute::PathRecord),
            0x0038 => Some(SaAttribute::McMemberRecord),
            _ => None,
        }
    }

    /// Its code.
    pub fn code(self) -> u16
        ensures { result ≡ sa_attribute_code self }
    {
        self as u16
    }
}
