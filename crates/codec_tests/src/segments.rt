//! Worked segments of long answers, sent and received.

use mad_layout::{Header, Mad};
use rmpp_core::{AbortCause, ReceiveFault, Receiver, ReplyHeader, Sender};
use std::alloc::Global;
use std::process::Abort;
use std::test::Fail;

/// A table of node records, 112 bytes from one to the next.
const NODE_RECORDS: ReplyHeader = ReplyHeader {
    header: Header {
        base_version: 1,
        mgmt_class: 0x03,
        class_version: 2,
        method: 0x92,
        status: 0,
        class_specific: 0,
        transaction_id: 4,
        attribute_id: 0x0011,
        attribute_modifier: 0,
    },
    attribute_offset: 14,
    component_mask: 0,
};

/// The header of such a MAD.
const NODE_RECORDS_HEADER: [u8; 24] = [
    0x01, // BaseVersion
    0x03, // MgmtClass
    0x02, // ClassVersion
    0x92, // R, Method
    0x00, 0x00, // Status
    0x00, 0x00, // ClassSpecific
    0x00, 0x00, 0x00, 0x00, 0x00, 0x00, 0x00, 0x04, // TransactionID
    0x00, 0x11, // AttributeID
    0x00, 0x00, // reserved
    0x00, 0x00, 0x00, 0x00, // AttributeModifier
];

/// SM_Key, AttributeOffset, reserved, ComponentMask.
const NODE_RECORDS_FIELDS: [u8; 20] = [
    0, 0, 0, 0, 0, 0, 0, 0, 0x00, 0x0e, 0, 0, 0, 0, 0, 0, 0, 0, 0, 0,
];

/// Bytes that differ from their neighbours, and from those of the segments before and after.
fn table() -> [u8; 600] {
    let mut bytes = [0; 600];
    for (place, byte) in bytes.iter_mut().enumerate() {
        *byte = (place % 251) as u8;
    }
    bytes
}

/// How many bytes a table has and in how many segments; the number of a segment, the bytes of its RMPP header,
/// and which bytes of the table it has.
const SEGMENTS: [(usize, u32, u32, [u8; 12], (usize, usize)); 9] = [
    // four node records
    (
        448,
        3,
        1,
        [1, 1, 3, 0, 0, 0, 0, 1, 0x00, 0x00, 0x01, 0xfc],
        (0, 200),
    ),
    (
        448,
        3,
        2,
        [1, 1, 1, 0, 0, 0, 0, 2, 0x00, 0x00, 0x00, 0x00],
        (200, 400),
    ),
    (
        448,
        3,
        3,
        [1, 1, 5, 0, 0, 0, 0, 3, 0x00, 0x00, 0x00, 0x44],
        (400, 448),
    ),
    // no record at all
    (
        0,
        1,
        1,
        [1, 1, 7, 0, 0, 0, 0, 1, 0x00, 0x00, 0x00, 0x14],
        (0, 0),
    ),
    // one segment that is full, two that begin a byte later, two that are full
    (
        200,
        1,
        1,
        [1, 1, 7, 0, 0, 0, 0, 1, 0x00, 0x00, 0x00, 0xdc],
        (0, 200),
    ),
    (
        201,
        2,
        1,
        [1, 1, 3, 0, 0, 0, 0, 1, 0x00, 0x00, 0x00, 0xf1],
        (0, 200),
    ),
    (
        201,
        2,
        2,
        [1, 1, 5, 0, 0, 0, 0, 2, 0x00, 0x00, 0x00, 0x15],
        (200, 201),
    ),
    (
        400,
        2,
        1,
        [1, 1, 3, 0, 0, 0, 0, 1, 0x00, 0x00, 0x01, 0xb8],
        (0, 200),
    ),
    (
        400,
        2,
        2,
        [1, 1, 5, 0, 0, 0, 0, 2, 0x00, 0x00, 0x00, 0xdc],
        (200, 400),
    ),
];

/// A MAD of these headers and of this data.
fn mad_of(header: &[u8; 24], rmpp: &[u8; 12], fields: &[u8; 20], part: &[u8]) -> Mad {
    let bytes = header.iter().chain(rmpp).chain(fields).chain(part);
    let mut mad = [0; 256];
    for (to, from) in mad.iter_mut().zip(bytes) {
        *to = *from;
    }
    mad
}

/// The segment of that number, or zero bytes if there is none.
fn segment_of(sender: &Sender, number: u32) -> Mad {
    if number >= 1 && number <= sender.segment_count() {
        sender.segment(number)
    } else {
        [0; 256]
    }
}

#[test]
fn a_table_is_cut_into_segments_of_200_bytes(rt: HostRuntime) -> Result<(), Fail> {
    let bytes = table();
    for (size, count, number, rmpp, (first, last)) in SEGMENTS {
        let sender = Sender::open(rt.alloc(), NODE_RECORDS, bytes.get(..size).unwrap_or(&[]))?;
        assert!(rt; sender.segment_count() == count);
        let part = bytes.get(first..last).unwrap_or(&[]);
        assert!(rt; part.len() == last.saturating_sub(first));
        let wanted = mad_of(&NODE_RECORDS_HEADER, &rmpp, &NODE_RECORDS_FIELDS, part);
        assert!(rt; segment_of(&sender, number) == wanted);
    }
    Ok(())
}

/// A sender of four node records, in three segments.
fn three_segments(alloc: Global) -> Result<Sender, Fail> {
    Ok(Sender::open(alloc, NODE_RECORDS, table().get(..448).unwrap_or(&[]))?)
}

/// The segment and the window of an ACK; the first and the last segment that it brings, and whether all have come.
type Ack = (u32, u32, Result<(u32, u32, bool), AbortCause>);

/// ACKs of three segments, one after the other.
const ACKS: [&[Ack]; 4] = [
    // the window is too small, the segment too big; neither changes anything, so all are sent then
    &[
        (2, 1, Err(AbortCause::WindowTooSmall)),
        (4, 9, Err(AbortCause::SegmentTooBig)),
        (4, 3, Err(AbortCause::WindowTooSmall)),
        (1, 9, Ok((2, 3, false))),
        (3, 3, Ok((4, 3, true))),
    ],
    // the greatest window there is; after it a small one takes nothing back
    &[
        (1, 0xffff_ffff, Ok((2, 3, false))),
        (2, 2, Ok((4, 3, false))),
        (3, 0xffff_ffff, Ok((4, 3, true))),
    ],
    // one after the other; an ACK that comes again brings nothing again
    &[
        (0, 0, Ok((2, 1, false))),
        (1, 2, Ok((2, 2, false))),
        (1, 2, Ok((3, 2, false))),
        (1, 1, Ok((3, 2, false))),
        (2, 3, Ok((3, 3, false))),
        (3, 3, Ok((4, 3, true))),
    ],
    // of a segment that was not sent yet
    &[(2, 2, Ok((2, 2, false))), (3, 3, Ok((3, 3, true)))],
];

fn are_answered(rt: &impl Abort, sender: &mut Sender, acks: &[Ack]) {
    for (segment, window, brings) in acks {
        let answer = match sender.on_ack(*segment, *window) {
            Ok(sent) => Ok((sent.first, sent.last, sent.is_complete)),
            Err(cause) => Err(cause),
        };
        assert!(rt; answer == *brings);
    }
}

#[test]
fn an_ack_brings_the_segments_of_its_window(rt: HostRuntime) -> Result<(), Fail> {
    for acks in ACKS {
        let mut sender = three_segments(rt.alloc())?;
        are_answered(&rt, &mut sender, acks);
    }
    Ok(())
}

/// The fields of an ABORT of a table that was asked for by the mask 0x1d: that stands, and no AttributeOffset.
const ABORT_FIELDS: [u8; 20] = [
    0, 0, 0, 0, 0, 0, 0, 0, 0x00, 0x00, 0, 0, 0, 0, 0, 0, 0, 0, 0, 0x1d,
];

/// Whether it aborts so, with this status, and no data.
fn aborts(sender: &Sender, cause: AbortCause, status: u8) -> bool {
    let rmpp = [1, 4, 1, status, 0, 0, 0, 0, 0, 0, 0, 0];
    let wanted = mad_of(&NODE_RECORDS_HEADER, &rmpp, &ABORT_FIELDS, &[]);
    sender.abort(cause) == wanted
}

#[test]
fn an_abort_has_no_data(rt: HostRuntime) -> Result<(), Fail> {
    let header = ReplyHeader {
        component_mask: 0x1d,
        ..NODE_RECORDS
    };
    let sender = Sender::open(rt.alloc(), header, table().get(..448).unwrap_or(&[]))?;
    assert!(rt; aborts(&sender, AbortCause::WindowTooSmall, 0x7a));
    assert!(rt; aborts(&sender, AbortCause::SegmentTooBig, 0x7b));
    Ok(())
}

/// Whether these bytes come whole, and not before the last segment.
fn comes_whole(alloc: Global, sender: &Sender, bytes: &[u8]) -> Result<bool, Fail> {
    let mut receiver = Receiver::new(alloc);
    for number in 1..=sender.segment_count() {
        if receiver.bytes().is_some() {
            return Ok(false);
        }
        receiver.on_data(&sender.segment(number))?;
    }
    Ok(receiver.bytes() == Some(bytes))
}

#[test]
fn segments_in_order_are_the_table(rt: HostRuntime) -> Result<(), Fail> {
    let bytes = table();
    for size in [0, 1, 199, 200, 201, 399, 400, 401, 448, 600] {
        let part = bytes.get(..size).unwrap_or(&[]);
        let sender = Sender::open(rt.alloc(), NODE_RECORDS, part)?;
        assert!(rt; comes_whole(rt.alloc(), &sender, part)?);
    }
    Ok(())
}

/// Whether a receiver is given these MADs of three, refuses the last one of them for this fault, and has nothing to show.
fn refuses(receiver: &mut Receiver, mads: &[Mad], fault: ReceiveFault) -> bool {
    let mut last = Ok(());
    for mad in mads {
        last = receiver.on_data(mad);
    }
    last == Err(fault) && receiver.bytes().is_none()
}

/// The second first, one twice, one left out, one after the last; 0 is no segment at all.
const OUT_OF_ORDER: [&[u32]; 7] = [
    &[2],
    &[1, 1],
    &[1, 2, 2],
    &[1, 3],
    &[1, 2, 3, 3],
    &[1, 2, 3, 4],
    &[0],
];

/// The segments of these numbers.
fn segments(alloc: Global, sender: &Sender, numbers: &[u32]) -> Result<Vec<Mad>, Fail> {
    let mut mads = Vec::new(alloc);
    for number in numbers {
        mads.push(segment_of(sender, *number))?;
    }
    Ok(mads)
}

/// And every segment after that.
fn refuses_for_good(
    alloc: Global,
    sender: &Sender,
    numbers: &[u32],
    fault: ReceiveFault,
) -> Result<bool, Fail> {
    let mads = segments(alloc, sender, numbers)?;
    let mut receiver = Receiver::new(alloc);
    let is_refused = refuses(&mut receiver, &mads, fault);
    Ok(is_refused && refuses(&mut receiver, &[segment_of(sender, 1)], fault))
}

#[test]
fn segments_out_of_order_are_refused_for_good(rt: HostRuntime) -> Result<(), Fail> {
    let sender = three_segments(rt.alloc())?;
    for numbers in OUT_OF_ORDER {
        let fault = ReceiveFault::UnexpectedSegment;
        assert!(rt; refuses_for_good(rt.alloc(), &sender, numbers, fault)?);
    }
    Ok(())
}

/// The byte of a MAD that is changed and what it is then, in the first segment and in the third, and what a receiver of
/// all three says to it.
const CHANGED: [(u32, usize, u8, ReceiveFault); 15] = [
    // RMPPVersion, RMPPType (ACK, STOP, ABORT), RMPPFlags: not Active, not First, First on the last
    (1, 24, 2, ReceiveFault::UnexpectedSegment),
    (1, 25, 2, ReceiveFault::UnexpectedSegment),
    (1, 25, 3, ReceiveFault::UnexpectedSegment),
    (3, 25, 4, ReceiveFault::UnexpectedSegment),
    (1, 26, 2, ReceiveFault::UnexpectedSegment),
    (1, 26, 1, ReceiveFault::UnexpectedSegment),
    (3, 26, 7, ReceiveFault::UnexpectedSegment),
    // SegmentNumber
    (3, 28, 1, ReceiveFault::UnexpectedSegment),
    (3, 31, 4, ReceiveFault::UnexpectedSegment),
    // PayloadLength of the first: without 20 for each segment, without the first two bytes, and of the last: 19, 221,
    // and the 200 of a whole segment
    (1, 35, 0xc0, ReceiveFault::WrongLength),
    (1, 34, 0x00, ReceiveFault::WrongLength),
    (1, 32, 0x01, ReceiveFault::WrongLength),
    (3, 35, 19, ReceiveFault::WrongLength),
    (3, 35, 221, ReceiveFault::WrongLength),
    (3, 35, 200, ReceiveFault::WrongLength),
];

/// The three segments, with another byte in one of them.
fn changed(sender: &Sender, number: u32, place: usize, value: u8) -> [Mad; 3] {
    let mut mads = [
        segment_of(sender, 1),
        segment_of(sender, 2),
        segment_of(sender, 3),
    ];
    for (mad, each) in mads.iter_mut().zip([1, 2, 3]) {
        if each == number {
            if let Some(byte) = mad.get_mut(place) {
                *byte = value;
            }
        }
    }
    mads
}

#[test]
fn contradictions_are_refused_for_good(rt: HostRuntime) -> Result<(), Fail> {
    let sender = three_segments(rt.alloc())?;
    for (number, place, value, fault) in CHANGED {
        let mads = changed(&sender, number, place, value);
        assert!(rt; refuses(&mut Receiver::new(rt.alloc()), &mads, fault));
    }
    Ok(())
}

/// How many bytes a receiver has of a table of one segment with this PayloadLength, if it takes that.
fn taken(alloc: Global, length: u8) -> Option<usize> {
    let rmpp = [1, 1, 7, 0, 0, 0, 0, 1, 0, 0, 0, length];
    let bytes = table();
    let data = bytes.get(..200).unwrap_or(&[]);
    let mad = mad_of(&NODE_RECORDS_HEADER, &rmpp, &NODE_RECORDS_FIELDS, data);
    let mut receiver = Receiver::new(alloc);
    match receiver.on_data(&mad) {
        Ok(()) => Some(receiver.bytes()?.len()),
        Err(_) => None,
    }
}

#[test]
fn a_single_segment_is_held_to_both_lengths(rt: HostRuntime) {
    for (length, size) in [
        (20, Some(0)),
        (21, Some(1)),
        (220, Some(200)),
        (19, None),
        (221, None),
        (0, None),
    ] {
        assert!(rt; taken(rt.alloc(), length) == size);
    }
}

/// A table that is sent and received: what came, or nothing if an allocation failed.
fn passed_on(alloc: Global, size: usize) -> Result<Vec<u8>, ReceiveFault> {
    let sender = Sender::open(alloc, NODE_RECORDS, table().get(..size).unwrap_or(&[]))?;
    let mut receiver = Receiver::new(alloc);
    for number in 1..=sender.segment_count() {
        if let Err(fault) = receiver.on_data(&sender.segment(number)) {
            // for good, and with nothing to show
            let stays = receiver.on_data(&sender.segment(number)) == Err(fault);
            return Err(if stays && receiver.bytes().is_none() {
                fault
            } else {
                ReceiveFault::UnexpectedSegment
            });
        }
    }
    let mut bytes = Vec::new(alloc);
    bytes.extend_from_slice(receiver.bytes().unwrap_or(&[]))?;
    Ok(bytes)
}

#[test]
fn a_table_is_passed_on_or_memory_is_refused(rt: HostRuntime) {
    match passed_on(rt.alloc(), 448) {
        Ok(bytes) => assert!(rt; bytes.as_slice() == table().get(..448).unwrap_or(&[])),
        Err(fault) => assert!(rt; fault == ReceiveFault::NoMemory),
    }
}
