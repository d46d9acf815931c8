//! The laws of fields and headers. Each function's contract is its law; it does nothing.

ghost use Rattle.std.specs.Prelude.{◌≡◌, ◌<◌};
ghost use Rattle.mad_layout.specs.DrSmp.{dr_smp};
ghost use Rattle.mad_layout.specs.Layout.{Sets};
ghost use Rattle.mad_layout.specs.MadHeader.{mad_header};
ghost use Rattle.mad_layout.specs.RmppHeader.{rmpp_header};
ghost use Rattle.mad_layout.specs.SaMad.{sa_mad};
ghost use Rattle.mad_layout.specs.Laws.{PutReadsBack, PutLeavesOthers, PartsHaveFields, BytesAreFields, BytesAreSet, LayoutsSet, LayoutsEncode, WhatIsHeldFits};

use crate::dr_smp::DrSmp;
use crate::mad_header::{Header, Mad};
use crate::rmpp_header::RmppHeader;
use crate::sa_mad::SaMad;

/// A field that is set reads as the value. Like the laws below it does nothing: its contract is the
/// law.
pub fn put_reads_back()
    ensures { PutReadsBack }
{}

/// A field that has no bit in common with one that is set stays.
pub fn put_leaves_others()
    ensures { PutLeavesOthers }
{}

/// A field of a part of some bytes is a field of the whole.
pub fn parts_have_fields()
    ensures { PartsHaveFields }
{}

/// A byte is the field of its 8 bits.
pub fn bytes_are_fields()
    ensures { BytesAreFields }
{}

/// To write a byte is to set that field.
pub fn bytes_are_set()
    ensures { BytesAreSet }
{}

/// A layout that is written over bytes is set there, and all other fields stay.
pub fn layouts_set()
    ensures { LayoutsSet }
{}

/// A layout that is written over zero bytes is encoded there, and all other bits are 0.
pub fn layouts_encode()
    ensures { LayoutsEncode }
{}

/// What bytes hold is narrow enough for its fields.
pub fn what_is_held_fits()
    ensures { WhatIsHeldFits }
{}

/// A header that is written is read again.
pub fn header_reads_back(header: &Header, mad: &mut Mad) -> Header
    ensures read { result ≡ header.now }
    ensures written { Sets mad.old mad.new (mad_header header.now) }
{
    header.write(mad);
    Header::read(mad)
}

/// The fields of a directed-route SMP that are written are read again.
pub fn dr_smp_reads_back(smp: &DrSmp, mad: &mut Mad) -> DrSmp
    requires { smp.now.status < 32768 }
    ensures read { result ≡ smp.now }
    ensures written { Sets mad.old mad.new (dr_smp smp.now) }
{
    smp.write(mad);
    DrSmp::read(mad)
}

/// An RMPP header that is written is read again.
pub fn rmpp_header_reads_back(header: &RmppHeader, mad: &mut Mad) -> RmppHeader
    requires response_time { header.now.response_time < 32 }
    requires flags { header.now.flags < 8 }
    ensures read { result ≡ header.now }
    ensures written { Sets mad.old mad.new (rmpp_header header.now) }
{
    header.write(mad);
    RmppHeader::read(mad)
}

/// The fields of a subnet administration MAD that are written are read again.
pub fn sa_mad_reads_back(fields: &SaMad, mad: &mut Mad) -> SaMad
    ensures read { result ≡ fields.now }
    ensures written { Sets mad.old mad.new (sa_mad fields.now) }
{
    fields.write(mad);
    SaMad::read(mad)
}
