//! MADs of subnet administration.

ghost use Rattle.std.specs.Prelude.{◌≡◌, slice_range};
ghost use Rattle.mad_layout.specs.Layout.{Holds, Fits, put_all, Sets};
ghost use Rattle.mad_layout.specs.SaMad.{sa_mad, sa_mad_in};

use crate::bits::known_bytes;
use crate::mad_header::Mad;
use crate::{read_fields, write_fields};

/// How many bytes of data a MAD of subnet administration has.
pub const SA_DATA_BYTES: usize = 200;

/// What a MAD of subnet administration (SA) has after its RMPP header, each field as its raw bits.
///
/// Source: IBA volume 1, 15.2.1.1.
#[derive(Clone, Copy, Debug, PartialEq, Eq)]
pub struct SaMad {
    /// The key that the receiver may ask for.
    pub sm_key: u64,
    /// From one record of a table to the next, in units of 8 bytes.
    pub attribute_offset: u16,
    /// Which components of the record a request asks by, a bit for each.
    pub component_mask: u64,
    /// The record, or this segment's part of a table of records.
    pub data: [u8; SA_DATA_BYTES],
}

/// A MAD of subnet administration (IBA volume 1, 15.2.1.1): field, type, first bit, bits.
macro_rules! sa_mad_layout {
    ($then:ident!($($context:tt)*)) => {
        $then!($($context)*;
            sm_key: u64, 288, 64;
            attribute_offset: u16, 352, 16;
            component_mask: u64, 384, 64;
            data: bytes_200, 448, 1600;
        )
    };
}

impl SaMad {
    /// The subnet administration fields of a MAD.
    pub fn read(mad: &Mad) -> SaMad
        ensures fields { Holds mad.now (sa_mad result) }
        ensures value { result ≡ sa_mad_in mad.now }
        ensures data { result.data ≡ slice_range mad.now 56 256 }
    {
        sa_mad_layout!(read_fields!(SaMad mad))
    }

    /// Writes these fields, and leaves every bit outside them.
    pub fn write(&self, mad: &mut Mad)
        ensures fields { Sets mad.old mad.new (sa_mad self.now) }
        ensures bytes { mad.new ≡ put_all mad.old (sa_mad self.now) }
        ensures data { slice_range mad.new 56 256 ≡ self.now.data }
    {
        known_bytes(&self.data);
        self.put_fields(mad);
        known_bytes(mad);
    }

    fn put_fields(&self, mad: &mut Mad)
        ensures fields { mad.new ≡ put_all mad.old (sa_mad self.now) }
        ensures fits { Fits (sa_mad self.now) }
    {
        sa_mad_layout!(write_fields!(self mad))
    }
}
