//! The header of segments.

ghost use Rattle.std.specs.Prelude.{◌≡◌, ◌<◌, Some, IfSome};
ghost use Rattle.mad_layout.specs.Layout.{Holds, Fits, put_all, Sets};
ghost use Rattle.mad_layout.specs.RmppHeader.{rmpp_header, rmpp_in};
ghost use Rattle.mad_layout.specs.RmppKind.{rmpp_kind_code};

use crate::mad_header::Mad;
use crate::rmpp_flags::RmppFlags;
use crate::rmpp_kind::RmppKind;
use crate::{read_fields, write_fields};

/// The header by which a MAD is a segment of a longer transfer (RMPP), or answers one, each field as
/// its raw bits.
///
/// Source: IBA volume 1, chapter 13.
#[derive(Clone, Copy, Debug, PartialEq, Eq)]
pub struct RmppHeader {
    /// The version of this header.
    pub version: u8,
    /// What the MAD is to the transfer. [`RmppHeader::kind`] names it.
    pub kind: u8,
    /// How long the sender may take to answer, 5 bits.
    pub response_time: u8,
    /// Whether the MAD is a segment, and the first or the last one, 3 bits. [`RmppHeader::flags`]
    /// names them.
    pub flags: u8,
    /// Why a transfer stops or aborts, or 0.
    pub status: u8,
    /// The segment's number, from 1; in an ACK that of the last segment received.
    pub segment_number: u32,
    /// PayloadLength in DATA, NewWindowLast in an ACK.
    pub payload_length_or_new_window_last: u32,
}

/// The RMPP header (IBA volume 1, chapter 13): field, type, first bit, bits.
macro_rules! rmpp_header_layout {
    ($then:ident!($($context:tt)*)) => {
        $then!($($context)*;
            version: u8, 192, 8;
            kind: u8, 200, 8;
            response_time: u8, 208, 5;
            flags: u8, 213, 3;
            status: u8, 216, 8;
            segment_number: u32, 224, 32;
            payload_length_or_new_window_last: u32, 256, 32;
        )
    };
}

impl RmppHeader {
    /// The RMPP header of a MAD.
    pub fn read(mad: &Mad) -> RmppHeader
        ensures fields { Holds mad.now (rmpp_header result) }
        ensures value { result ≡ rmpp_in mad.now }
        ensures response_time { result.response_time < 32 }
        ensures flags { result.flags < 8 }
    {
        rmpp_header_layout!(read_fields!(RmppHeader mad))
    }

    /// Writes the header, and leaves every bit outside its fields.
    pub fn write(&self, mad: &mut Mad)
        requires response_time { self.now.response_time < 32 }
        requires flags { self.now.flags < 8 }
        ensures fields { Sets mad.old mad.new (rmpp_header self.now) }
        ensures bytes { mad.new ≡ put_all mad.old (rmpp_header self.now) }
    {
        self.put_fields(mad);
    }

    /// What the MAD is to the transfer, if it is one of those.
    pub fn kind(&self) -> Option<RmppKind>
        ensures known { IfSome result (λ kind. rmpp_kind_code kind ≡ self.now.kind) }
        ensures every { (kind : RmppKind) → rmpp_kind_code kind ≡ self.now.kind → result ≡ Some kind }
    {
        RmppKind::from_code(self.kind)
    }

    /// The flags as a set.
    pub fn flags(&self) -> RmppFlags
        ensures { result.0 ≡ self.now.flags }
    {
        RmppFlags(self.flags)
    }

    fn put_fields(&self, mad: &mut Mad)
        requires response_time { self.now.response_time < 32 }
        requires flags { self.now.flags < 8 }
        ensures fields { mad.new ≡ put_all mad.old (rmpp_header self.now) }
        ensures fits { Fits (rmpp_header self.now) }
    {
        rmpp_header_layout!(write_fields!(self mad))
    }
}
