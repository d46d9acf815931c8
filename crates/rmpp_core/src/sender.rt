//! The side that has the bytes.

ghost use Rattle.std.specs.Prelude.{◌≡◌, ◌≤◌, ◌<◌, ◌+◌, ◌*◌, ◌^◌, length, max, IfOk, OnOk, OnErr};
ghost use Rattle.mad_layout.specs.Layout.{Encodes};
ghost use Rattle.rmpp_core.specs.Segments.{opened, payload_size, segment_count, segment_fields, segment_mad, flags_of, payload_length, padded_segment, segment_of};
ghost use Rattle.rmpp_core.specs.Acks.{after_ack, abort_fields, abort_mad};

use crate::abort::AbortCause;
use crate::mads::{ReplyHeader, sa_mad};
use bitflags::Flags;
use mad_layout::{Mad, RmppFlags, RmppHeader, RmppKind, SaMad};
use std::alloc::{AllocError, Global};
use std::marker::Model;

/// How many bytes of data a segment has room for.
pub const SEGMENT_BYTES: usize = 200;

/// What a segment counts for in a PayloadLength beside its data: what stands between the RMPP header and
/// the data, from SM_Key to ComponentMask.
pub const FIELD_BYTES: u32 = 20;

/// What a full segment counts for in a PayloadLength.
pub const SEGMENT_PAYLOAD: u32 = SEGMENT_BYTES as u32 + FIELD_BYTES;

/// The one version of RMPP.
pub const RMPP_VERSION: u8 = 1;

/// What an ACK brings: the segments `first` to `last` are to be sent, none if `last` is below `first`.
#[derive(Clone, Copy, Debug, PartialEq, Eq)]
pub struct Acknowledged {
    /// The first segment to be sent.
    pub first: u32,
    /// The last segment to be sent.
    pub last: u32,
    /// Whether the transfer has ended: its last segment is acknowledged.
    pub is_complete: bool,
}

/// A table of records that is sent in segments.
///
/// Its value is the header of the answers, the bytes of the table and the window: the last segment that the
/// receiver wants before it has acknowledged again.
#[derive(Debug, Drop)]
pub struct Sender {
    header: ReplyHeader,
    bytes: Vec<u8>,
    window: u32,
}

impl Model for Sender {
    ghost use Rattle.std.specs.Prelude.{◌<◌, ◌^◌};
    ghost use Rattle.rmpp_core.specs.Segments.{Transfer, payload_size};

    ghost Value = { Transfer };

    ghost view = { λ sender. record { header = sender.header; bytes = sender.bytes.items; window = sender.window } };

    ghost invariant = { λ sender. payload_size sender.bytes.items < 2 ^ 32 };
}

impl Sender {
    /// A table of these bytes, of which segment 1 is sent at once: the window is 1. It can only run out of
    /// memory.
    pub fn open(alloc: Global, header: ReplyHeader, bytes: &[u8]) -> Result<Sender, AllocError>
        requires { payload_size bytes.now < 2 ^ 32 }
        ensures { IfOk result (λ sender. sender ≡ opened header bytes.now) }
    {
        let mut kept = Vec::new(alloc);
        kept.extend_from_slice(bytes)?;
        Ok(Sender {
            header,
            bytes: kept,
            window: 1,
        })
    }

    /// What each of its MADs begins with.
    pub fn header(&self) -> &ReplyHeader
        ensures { result.now ≡ self.now.header }
    {
        &self.header
    }

    /// How many segments the table has.
    pub fn segment_count(&self) -> u32
        ensures { result ≡ segment_count self.now.bytes }
    {
        self.bytes.len().div_ceil(SEGMENT_BYTES).max(1) as u32
    }

    /// The MAD of that segment, counted from 1.
    pub fn segment(&self, number: u32) -> Mad
        requires first { 1 ≤ number }
        requires last { number ≤ segment_count self.now.bytes }
        ensures encodes { Encodes result (segment_fields self.now number) }
        ensures bytes { result ≡ segment_mad self.now number }
    {
        let rmpp = RmppHeader {
            version: RMPP_VERSION,
            kind: RmppKind::Data.code(),
            response_time: 0,
            flags: self.flags_of(number),
            status: 0,
            segment_number: number,
            payload_length_or_new_window_last: self.payload_length(number),
        };
        let fields = SaMad {
            sm_key: 0,
            attribute_offset: self.header.attribute_offset,
            component_mask: self.header.component_mask,
            data: self.padded_segment(number),
        };
        sa_mad(&self.header.header, &rmpp, &fields)
    }

    /// Takes an ACK of this segment, with this window (NewWindowLast). An `Err` changes nothing; the transfer
    /// has ended by it, as it has if the answer is complete.
    pub fn on_ack(&mut self, segment: u32, window: u32) -> Result<Acknowledged, AbortCause>
        ensures answer { result ≡ after_ack self.old.window (segment_count self.old.bytes) segment window }
        ensures next { OnOk result (self.new ≡ record self.old { window = max self.old.window window }) }
        ensures refused { OnErr result (self.new ≡ self.old) }
    {
        if window < segment {
            return Err(AbortCause::WindowTooSmall);
        }
        let count = self.segment_count();
        if segment > count {
            return Err(AbortCause::SegmentTooBig);
        }
        let first = self.window.min(count) + 1;
        self.window = self.window.max(window);
        Ok(Acknowledged {
            first,
            last: self.window.min(count),
            is_complete: segment == count,
        })
    }

    /// The MAD by which the transfer aborts.
    pub fn abort(&self, cause: AbortCause) -> Mad
        ensures encodes { Encodes result (abort_fields self.now.header cause) }
        ensures bytes { result ≡ abort_mad self.now.header cause }
    {
        let rmpp = RmppHeader {
            version: RMPP_VERSION,
            kind: RmppKind::Abort.code(),
            response_time: 0,
            flags: RmppFlags::ACTIVE.bits(),
            status: cause.code(),
            segment_number: 0,
            payload_length_or_new_window_last: 0,
        };
        let fields = SaMad {
            sm_key: 0,
            attribute_offset: 0,
            component_mask: self.header.component_mask,
            data: [0; SEGMENT_BYTES],
        };
        sa_mad(&self.header.header, &rmpp, &fields)
    }

    fn flags_of(&self, number: u32) -> u8
        ensures value { result ≡ flags_of (segment_count self.now.bytes) number }
        ensures narrow { result < 8 }
    {
        let mut flags = RmppFlags::ACTIVE;
        if number == 1 {
            flags.insert(RmppFlags::FIRST);
        }
        if number == self.segment_count() {
            flags.insert(RmppFlags::LAST);
        }
        flags.bits()
    }

    fn payload_length(&self, number: u32) -> u32
        requires first { 1 ≤ number }
        requires last { number ≤ segment_count self.now.bytes }
        ensures { result ≡ payload_length self.now.bytes number }
    {
        let count = self.segment_count();
        if number == 1 {
            self.bytes.len() as u32 + FIELD_BYTES * count
        } else if number == count {
            self.data_of(number).len() as u32 + FIELD_BYTES
        } else {
            0
        }
    }

    /// The bytes of the table that the segment carries.
    fn data_of(&self, number: u32) -> &[u8]
        requires first { 1 ≤ number }
        requires last { number ≤ segment_count self.now.bytes }
        ensures value { result.now ≡ segment_of self.now.bytes number }
        ensures narrow { length result.now ≤ SEGMENT_BYTES }
    {
        let first = SEGMENT_BYTES * (number as usize - 1);
        let last = (first + SEGMENT_BYTES).min(self.bytes.len());
        &self.bytes[first..last]
    }

    /// The same, with zero bytes after them.
    fn padded_segment(&self, number: u32) -> [u8; SEGMENT_BYTES]
        requires first { 1 ≤ number }
        requires last { number ≤ segment_count self.now.bytes }
        ensures { result ≡ padded_segment self.now.bytes number }
    {
        let part = self.data_of(number);
        let mut data = [0; SEGMENT_BYTES];
        data[..part.len()].copy_from_slice(part);
        data
    }
}
