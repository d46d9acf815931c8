//! A MAD of an answer, from its headers and data.

ghost use Rattle.std.specs.Prelude.{◌≡◌, ◌<◌};
ghost use Rattle.mad_layout.specs.Layout.{Encodes};
ghost use Rattle.rmpp_core.specs.Reply.{reply_fields, reply_bytes};

use mad_layout::{Header, Mad, RmppHeader, SaMad};

/// The version of the MAD's base format.
///
/// Source: IBA volume 1, 13.4.2.
pub const BASE_VERSION: u8 = 1;

/// The management class of subnet administration (SA).
///
/// Source: IBA volume 1, 13.4.4.
pub const SA_CLASS: u8 = 3;

/// The version of that class.
///
/// Source: IBA volume 1, 15.2.1.1.
pub const SA_CLASS_VERSION: u8 = 2;

/// What every MAD of one transfer begins with: the header of the answer, and what subnet administration
/// says of its records.
///
/// Source: IBA volume 1, 15.2.1.1.
#[derive(Clone, Copy, Debug, PartialEq, Eq)]
pub struct ReplyHeader {
    /// The MAD's header.
    pub header: Header,
    /// From one record of the table to the next, in units of 8 bytes.
    pub attribute_offset: u16,
    /// Which components the request asked by.
    pub component_mask: u64,
}

/// The MAD with these three headers and this data; every bit outside their fields is 0.
pub fn sa_mad(header: &Header, rmpp: &RmppHeader, fields: &SaMad) -> Mad
    requires response_time { rmpp.now.response_time < 32 }
    requires flags { rmpp.now.flags < 8 }
    ensures encodes { Encodes result (reply_fields header.now rmpp.now fields.now) }
    ensures bytes { result ≡ reply_bytes header.now rmpp.now fields.now }
{
    let mut mad = [0; 256];
    header.write(&mut mad);
    rmpp.write(&mut mad);
    fields.write(&mut mad);
    mad
}
