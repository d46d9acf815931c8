//! How a port that asks acknowledges a table that answers it in segments.

ghost use Rattle.std.specs.Prelude.{◌≡◌, ◌<◌, ◌≤◌, ◌+◌, ◌^◌, IfOk};
ghost use Rattle.sa_replies.specs.Asking.{ack_mad, acknowledgements, acks_of, is_first_segment, segments_reported};

use bitflags::Flags;
use mad_layout::{Header, Mad, Method, RmppFlags, RmppHeader, RmppKind, SA_DATA_BYTES, SaMad};
use rmpp_core::{RMPP_VERSION, SEGMENT_PAYLOAD, sa_mad};
use std::alloc::{AllocError, Global};

/// The MADs by which a port acknowledges those that answer it: one for each segment of a table, in order, and none if
/// the first is no first segment of a table.
///
/// Source: IBA volume 1, chapter 13.
pub(crate) fn acknowledgements(alloc: Global, mads: &[Mad]) -> Result<Vec<Mad>, AllocError>
    ensures { IfOk result (λ acks. acks.items ≡ acknowledgements mads.now) }
{
    let Some(first) = mads.first() else {
        return Ok(Vec::new(alloc));
    };
    let rmpp = RmppHeader::read(first);
    if !is_first_segment(&rmpp) {
        return Ok(Vec::new(alloc));
    }
    let count = segments_reported(rmpp.payload_length_or_new_window_last);
    acks_of(alloc, &Header::read(first), count)
}

fn is_first_segment(rmpp: &RmppHeader) -> bool
    ensures { result ≡ is_first_segment rmpp.now }
{
    rmpp.version == RMPP_VERSION
        && rmpp.kind == RmppKind::Data.code()
        && rmpp.flags().contains(RmppFlags::ACTIVE)
        && rmpp.flags().contains(RmppFlags::FIRST)
}

/// How many segments a table has whose first one reports this length: each counts for 20 bytes more than its data.
fn segments_reported(length: u32) -> u32
    ensures value { result ≡ segments_reported length }
    ensures few { result < 2 ^ 31 }
{
    u64::from(length)
        .div_ceil(u64::from(SEGMENT_PAYLOAD))
        .max(1) as u32
}

/// The ACKs of so many segments.
fn acks_of(alloc: Global, segment: &Header, count: u32) -> Result<Vec<Mad>, AllocError>
    requires { count < 2 ^ 31 }
    ensures { IfOk result (λ acks. acks.items ≡ acks_of segment.now count) }
{
    let mut acks = Vec::new(alloc);
    for done in 0..count {
        acks.push(ack_mad(segment, count, done + 1))?;
    }
    Ok(acks)
}

/// The ACK of a segment: with the window up to the next one, and at the last one up to that.
fn ack_mad(segment: &Header, count: u32, number: u32) -> Mad
    requires { number < 2 ^ 31 }
    ensures { result ≡ ack_mad segment.now count number }
{
    let header = Header {
        method: Method::GetTable.code(),
        ..*segment
    };
    let rmpp = RmppHeader {
        version: RMPP_VERSION,
        kind: RmppKind::Ack.code(),
        response_time: 0,
        flags: RmppFlags::ACTIVE.bits(),
        status: 0,
        segment_number: number,
        payload_length_or_new_window_last: if number == count { number } else { number + 1 },
    };
    let fields = SaMad {
        sm_key: 0,
        attribute_offset: 0,
        component_mask: 0,
        data: [0; SA_DATA_BYTES],
    };
    sa_mad(&header, &rmpp, &fields)
}
