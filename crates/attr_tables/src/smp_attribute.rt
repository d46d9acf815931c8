//! The attributes of subnet management, by their codes.

ghost use Rattle.std.specs.Prelude.{◌≡◌, Some, IfSome};
ghost use Rattle.attr_tables.specs.SmpAttribute.{smp_attribute_code, smp_attribute_of};

/// An attribute that an SMP carries, the AttributeID of its header.
///
/// Source: IBA volume 1, chapter 14.
#[derive(Clone, Copy, Debug, PartialEq, Eq)]
pub enum SmpAttribute {
    /// The name of the node.
    NodeDescription = 0x0010,
    /// What the node is.
    NodeInfo = 0x0011,
    /// What the switch can do.
    SwitchInfo = 0x0012,
    /// The state and the limits of a port.
    PortInfo = 0x0015,
    /// A block of the keys of a port.
    PKeyTable = 0x0016,
    /// A block of the table of unicast LIDs.
    LinearForwardingTable = 0x0019,
    /// A block of the table of multicast LIDs, for 16 ports.
    MulticastForwardingTable = 0x001b,
}

impl SmpAttribute {
    /// The attribute of that code, if there is one.
    pub fn from_code(code: u16) -> Option<SmpAttribute>
        ensures known { IfSome result (λ one. smp_attribute_code one ≡ code) }
        ensures every { (one : SmpAttribute) → smp_attribute_code one ≡ code → result ≡ Some one }
        ensures value { result ≡ smp_attribute_of code }
    {
        match code {
            0x0010 => Some(SmpAttribute::NodeDescription),
            0x0011 => Some(SmpAttribute::NodeInfo),
            0x0012 => Some(SmpAttribute::SwitchInfo),
            0x0015 => Some(SmpAttribute::PortInfo),
            0x0016 => Some(SmpAttribute::PKeyTable),
            0x0019 => Some(SmpAttribute::LinearForwardingTable),
            0x001b => Some(SmpAttribute::MulticastForwardingTable),
            _ => None,
        }
    }

    /// Its code.
    pub fn code(self) -> u16
        ensures { result ≡ smp_attribute_code self }
    {
        self as u16
    }
}
