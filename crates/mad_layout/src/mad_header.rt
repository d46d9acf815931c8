//! The header that all MADs share.

ghost use Rattle.std.specs.Prelude.{◌≡◌, Some, IfSome, nat_le};
ghost use Rattle.mad_layout.specs.Layout.{Holds, Fits, put_all, Sets};
ghost use Rattle.mad_layout.specs.MadHeader.{header_in, mad_header};
ghost use Rattle.mad_layout.specs.MadStatus.{mad_status_code};
ghost use Rattle.mad_layout.specs.Method.{method_code};

use crate::method::Method;
use crate::status::MadStatus;
use crate::{read_fields, write_fields};

/// A management datagram: always 256 bytes.
pub type Mad = [u8; 256];

/// The header that every MAD begins with, each field as its raw bits.
///
/// Source: IBA volume 1, 13.4.2.
#[derive(Clone, Copy, Debug, PartialEq, Eq)]
pub struct Header {
    /// The version of the MAD's base format.
    pub base_version: u8,
    /// The management class: which agents and managers the MAD is for.
    pub mgmt_class: u8,
    /// The version of that class' format.
    pub class_version: u8,
    /// The method, its R bit first. [`Header::method`] names it.
    pub method: u8,
    /// Why a request is refused, or 0. [`Header::status`] names it.
    pub status: u16,
    /// What the class says of it; a directed-route SMP has its hop pointer and hop count here.
    pub class_specific: u16,
    /// The number by which a requester knows the answer.
    pub transaction_id: u64,
    /// The attribute that is asked for or set.
    pub attribute_id: u16,
    /// Which part of that attribute, as a port or a block.
    pub attribute_modifier: u32,
}

/// The header of a MAD (IBA volume 1, 13.4.2): field, type, first bit, bits.
macro_rules! mad_header_layout {
    ($then:ident!($($context:tt)*)) => {
        $then!($($context)*;
            base_version: u8, 0, 8;
            mgmt_class: u8, 8, 8;
            class_version: u8, 16, 8;
            method: u8, 24, 8;
            status: u16, 32, 16;
            class_specific: u16, 48, 16;
            transaction_id: u64, 64, 64;
            attribute_id: u16, 128, 16;
            attribute_modifier: u32, 160, 32;
        )
    };
}

impl Header {
    /// The header that a MAD begins with.
    pub fn read(mad: &Mad) -> Header
        ensures fields { Holds mad.now (mad_header result) }
        ensures value { result ≡ header_in mad.now }
    {
        mad_header_layout!(read_fields!(Header mad))
    }

    /// Writes the header, and leaves every bit outside its fields.
    pub fn write(&self, mad: &mut Mad)
        ensures fields { Sets mad.old mad.new (mad_header self.now) }
        ensures bytes { mad.new ≡ put_all mad.old (mad_header self.now) }
    {
        self.put_fields(mad);
    }

    /// The method, if it is one of those.
    pub fn method(&self) -> Option<Method>
        ensures known { IfSome result (λ method. method_code method ≡ self.now.method) }
        ensures every { (method : Method) → method_code method ≡ self.now.method → result ≡ Some method }
    {
        Method::from_code(self.method)
    }

    /// Whether the R bit of the method is set: the MAD answers another.
    pub fn is_response(&self) -> bool
        ensures { result ≡ nat_le 128 self.now.method }
    {
        self.method >= 0x80
    }

    /// The refusal, if the status is one of those.
    pub fn status(&self) -> Option<MadStatus>
        ensures known { IfSome result (λ status. mad_status_code status ≡ self.now.status) }
        ensures every { (status : MadStatus) → mad_status_code status ≡ self.now.status → result ≡ Some status }
    {
        MadStatus::from_code(self.status)
    }

    fn put_fields(&self, mad: &mut Mad)
        ensures fields { mad.new ≡ put_all mad.old (mad_header self.now) }
        ensures fits { Fits (mad_header self.now) }
    {
        mad_header_layout!(write_fields!(self mad))
    }
}
