//! What has come of a transfer.

ghost use Rattle.std.specs.Prelude.{◌≡◌, ◌≤◌, ◌<◌, ◌+◌, ◌^◌, length, option_map, IfOk};
ghost use Rattle.rmpp_core.specs.Receiving.{nothing, is_data, is_expected, first_length_of, has_right_length, carried, with_segment, Grows, whole_of};
ghost use Rattle.mad_layout.specs.RmppHeader.{rmpp_in};

use crate::receiver::ReceiveFault;
use crate::sender::{FIELD_BYTES, RMPP_VERSION, SEGMENT_BYTES};
use bitflags::Flags;
use mad_layout::{Mad, RmppFlags, RmppHeader, RmppKind, SaMad};
use std::alloc::Global;
use std::marker::Model;

/// The segments of a transfer that have come, put together.
#[derive(Debug, Drop)]
pub(crate) struct Reassembly {
    segments: u32,
    first_length: u32,
    bytes: Vec<u8>,
    is_whole: bool,
}

impl Model for Reassembly {
    ghost use Rattle.std.specs.Prelude.{length, ◌≤◌, ◌*◌};
    ghost use Rattle.rmpp_core.specs.Receiving.{ReassemblyState};

    ghost Value = { ReassemblyState };

    ghost view = { λ r. record {
      segments = r.segments;
      first_length = r.first_length;
      bytes = r.bytes.items;
      is_whole = r.is_whole;
    } };

    ghost invariant = { λ r. length r.bytes.items ≤ 200 * r.segments };
}

impl Reassembly {
    pub(crate) fn new(alloc: Global) -> Reassembly
        ensures { result ≡ nothing }
    {
        Reassembly {
            segments: 0,
            first_length: 0,
            bytes: Vec::new(alloc),
            is_whole: false,
        }
    }

    /// Takes the next segment.
    #[tactic(auto, unfolding(crate::specs::Receiving::with_segment))]
    pub(crate) fn take_segment(&mut self, mad: &Mad) -> Result<(), ReceiveFault>
        ensures { Grows (with_segment self.old mad.now) result self.new }
    {
        let rmpp = rmpp_of(mad);
        let count = self.carried(&rmpp)?;
        let first_length = self.first_length_of(&rmpp);
        let data = SaMad::read(mad).data;
        self.bytes.extend_from_slice(&data[..count])?;
        self.segments = rmpp.segment_number;
        self.first_length = first_length;
        self.is_whole = rmpp.flags().contains(RmppFlags::LAST);
        Ok(())
    }

    /// The bytes, once the last segment has come.
    pub(crate) fn whole(&self) -> Option<&[u8]>
        ensures { option_map (λ bytes. bytes.now) result ≡ whole_of self.now }
    {
        if self.is_whole {
            Some(self.bytes.as_slice())
        } else {
            None
        }
    }

    /// How many bytes of its data a segment has, if it is the next one and reports the right length.
    fn carried(&self, rmpp: &RmppHeader) -> Result<usize, ReceiveFault>
        ensures value { result ≡ carried self.now rmpp.now }
        ensures fits { IfOk result (λ count. count ≤ SEGMENT_BYTES) }
        ensures next { IfOk result (λ count. rmpp.now.segment_number ≡ self.now.segments + 1) }
    {
        if !self.is_expected(rmpp) {
            return Err(ReceiveFault::UnexpectedSegment);
        }
        if !rmpp.flags().contains(RmppFlags::LAST) {
            return Ok(SEGMENT_BYTES);
        }
        if !self.has_right_length(rmpp) {
            return Err(ReceiveFault::WrongLength);
        }
        Ok((rmpp.payload_length_or_new_window_last - FIELD_BYTES) as usize)
    }

    /// Whether this is the segment that is next.
    fn is_expected(&self, rmpp: &RmppHeader) -> bool
        ensures { result ≡ is_expected self.now rmpp.now }
    {
        let is_first = rmpp.flags().contains(RmppFlags::FIRST);
        is_data(rmpp)
            && !self.is_whole
            && u64::from(rmpp.segment_number) == u64::from(self.segments) + 1
            && is_first == (self.segments == 0)
    }

    /// Whether the last segment reports the length of its data, and the first one that of all segments.
    fn has_right_length(&self, rmpp: &RmppHeader) -> bool
        ensures { result ≡ has_right_length self.now rmpp.now }
    {
        let own = rmpp.payload_length_or_new_window_last;
        if own < FIELD_BYTES || own > FIELD_BYTES + SEGMENT_BYTES as u32 {
            return false;
        }
        let all = u64::from(FIELD_BYTES) * (u64::from(self.segments) + 1)
            + self.bytes.len() as u64
            + u64::from(own - FIELD_BYTES);
        u64::from(self.first_length_of(rmpp)) == all
    }

    /// The length that the first segment reported, which may be this one.
    fn first_length_of(&self, rmpp: &RmppHeader) -> u32
        ensures { result ≡ first_length_of self.now rmpp.now }
    {
        if self.segments == 0 {
            rmpp.payload_length_or_new_window_last
        } else {
            self.first_length
        }
    }
}

/// Whether the MAD is a segment at all.
fn is_data(rmpp: &RmppHeader) -> bool
    ensures { result ≡ is_data rmpp.now }
{
    rmpp.version == RMPP_VERSION
        && rmpp.kind == RmppKind::Data.code()
        && rmpp.flags().contains(RmppFlags::ACTIVE)
}

fn rmpp_of(mad: &Mad) -> RmppHeader
    ensures { result ≡ rmpp_in mad.now }
{
    RmppHeader::read(mad)
}
