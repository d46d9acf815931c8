//! The header of directed-route SMPs.

ghost use Rattle.std.specs.Prelude.{◌≡◌, ◌<◌, slice_range};
ghost use Rattle.mad_layout.specs.Layout.{Holds, Fits, put_all, Sets};
ghost use Rattle.mad_layout.specs.DrSmp.{dr_smp, dr_smp_in};

use crate::bits::known_bytes;
use crate::mad_header::Mad;
use crate::{read_fields, write_fields};

/// What a directed-route subnet management packet (SMP) has beside the header that every MAD has, each
/// field as its raw bits.
///
/// Source: IBA volume 1, 14.2.1.2.
#[derive(Clone, Copy, Debug, PartialEq, Eq)]
pub struct DrSmp {
    /// The D bit: set if the SMP returns to its sender.
    pub direction: bool,
    /// What went wrong, or 0, 15 bits.
    pub status: u16,
    /// How far along its path the SMP is.
    pub hop_pointer: u8,
    /// How many hops the path has.
    pub hop_count: u8,
    /// The key that the receiver may ask for.
    pub m_key: u64,
    /// The LID at which the path begins, 0xffff for none.
    pub dr_slid: u16,
    /// The LID at which the path ends, 0xffff for none.
    pub dr_dlid: u16,
    /// The attribute.
    pub data: [u8; 64],
    /// The port by which each hop leaves, the first in entry 1.
    pub initial_path: [u8; 64],
    /// The port by which each hop came in, the first in entry 1.
    pub return_path: [u8; 64],
}

/// A directed-route SMP (IBA volume 1, 14.2.1.2): field, type, first bit, bits.
macro_rules! dr_smp_layout {
    ($then:ident!($($context:tt)*)) => {
        $then!($($context)*;
            direction: bool, 32, 1;
            status: u16, 33, 15;
            hop_pointer: u8, 48, 8;
            hop_count: u8, 56, 8;
            m_key: u64, 192, 64;
            dr_slid: u16, 256, 16;
            dr_dlid: u16, 272, 16;
            data: bytes_64, 512, 512;
            initial_path: bytes_64, 1024, 512;
            return_path: bytes_64, 1536, 512;
        )
    };
}

impl DrSmp {
    /// The directed-route fields of a MAD.
    pub fn read(mad: &Mad) -> DrSmp
        ensures fields { Holds mad.now (dr_smp result) }
        ensures value { result ≡ dr_smp_in mad.now }
        ensures status { result.status < 32768 }
        ensures data { result.data ≡ slice_range mad.now 64 128 }
        ensures initial_path { result.initial_path ≡ slice_range mad.now 128 192 }
        ensures return_path { result.return_path ≡ slice_range mad.now 192 256 }
    {
        dr_smp_layout!(read_fields!(DrSmp mad))
    }

    /// Writes these fields, and leaves every bit outside them.
    pub fn write(&self, mad: &mut Mad)
        requires { self.now.status < 32768 }
        ensures fields { Sets mad.old mad.new (dr_smp self.now) }
        ensures bytes { mad.new ≡ put_all mad.old (dr_smp self.now) }
        ensures data { slice_range mad.new 64 128 ≡ self.now.data }
        ensures initial_path { slice_range mad.new 128 192 ≡ self.now.initial_path }
        ensures return_path { slice_range mad.new 192 256 ≡ self.now.return_path }
    {
        known_bytes(&self.data);
        known_bytes(&self.initial_path);
        known_bytes(&self.return_path);
        self.put_fields(mad);
        known_bytes(mad);
    }

    fn put_fields(&self, mad: &mut Mad)
        requires { self.now.status < 32768 }
        ensures fields { mad.new ≡ put_all mad.old (dr_smp self.now) }
        ensures fits { Fits (dr_smp self.now) }
    {
        dr_smp_layout!(write_fields!(self mad))
    }
}
