//! Tables that are sent in segments, and what a MAD does to them.

ghost use Rattle.std.specs.Prelude.{◌≡◌, ◌+◌, ◌≤◌, [], ◌∷◌, IfOk};
ghost use Rattle.rmpp_core.specs.Segments.{segment_count};
ghost use Rattle.sa_replies.specs.Transfers.{by_kind, is_of_table, on_ack, on_rmpp, segments_between};

use crate::request::Request;
use mad_layout::{Mad, RmppHeader, RmppKind};
use rmpp_core::{Acknowledged, RMPP_VERSION, Sender};
use std::alloc::{AllocError, Global};

/// MADs that answer, and the table that is open then.
pub(crate) type Sent = (Vec<Mad>, Option<Sender>);

/// Answers a MAD of a transfer, if one is in progress to the port that sends it, or none is.
pub(crate) fn on_rmpp(
    alloc: Global,
    table: Option<Sender>,
    request: &Request,
) -> Result<Sent, AllocError>
    ensures mads { IfOk result (λ sent. sent.0.items ≡ (on_rmpp request.now table).0) }
    ensures next { IfOk result (λ sent. sent.1 ≡ (on_rmpp request.now table).1) }
{
    match table {
        Some(sender) if is_of_table(&sender, request) => by_kind(alloc, sender, &request.rmpp),
        other => Ok((Vec::new(alloc), other)),
    }
}

/// Answers one of that table, by its kind.
fn by_kind(alloc: Global, sender: Sender, rmpp: &RmppHeader) -> Result<Sent, AllocError>
    ensures mads { IfOk result (λ sent. sent.0.items ≡ (by_kind sender rmpp.now).0) }
    ensures next { IfOk result (λ sent. sent.1 ≡ (by_kind sender rmpp.now).1) }
{
    if rmpp.kind == RmppKind::Ack.code() {
        on_ack(alloc, sender, rmpp)
    } else if rmpp.kind == RmppKind::Stop.code() || rmpp.kind == RmppKind::Abort.code() {
        Ok((Vec::new(alloc), None))
    } else {
        Ok((Vec::new(alloc), Some(sender)))
    }
}

/// Takes an ACK.
fn on_ack(alloc: Global, mut sender: Sender, rmpp: &RmppHeader) -> Result<Sent, AllocError>
    ensures mads { IfOk result (λ sent. sent.0.items ≡ (on_ack sender rmpp.now).0) }
    ensures next { IfOk result (λ sent. sent.1 ≡ (on_ack sender rmpp.now).1) }
{
    match sender.on_ack(rmpp.segment_number, rmpp.payload_length_or_new_window_last) {
        Ok(acked) => {
            let mads = segments_between(alloc, &sender, &acked)?;
            let open = if acked.is_complete {
                None
            } else {
                Some(sender)
            };
            Ok((mads, open))
        }
        Err(cause) => Ok((only(alloc, sender.abort(cause))?, None)),
    }
}

/// Whether the MAD is of this table: of the version of RMPP that we know, and of the same transaction.
fn is_of_table(sender: &Sender, request: &Request) -> bool
    ensures { result ≡ is_of_table sender.now request.now }
{
    request.rmpp.version == RMPP_VERSION
        && request.header.transaction_id == sender.header().header.transaction_id
}

/// The segments that an ACK brings.
fn segments_between(
    alloc: Global,
    sender: &Sender,
    acked: &Acknowledged,
) -> Result<Vec<Mad>, AllocError>
    requires first { 1 ≤ acked.now.first }
    requires last { acked.now.last ≤ segment_count sender.now.bytes }
    requires span { acked.now.first ≤ acked.now.last + 1 }
    ensures { IfOk result (λ mads. mads.items ≡ segments_between sender.now acked.now) }
{
    let mut mads = Vec::new(alloc);
    for number in u64::from(acked.first)..u64::from(acked.last) + 1 {
        mads.push(sender.segment(number as u32))?;
    }
    Ok(mads)
}

/// One MAD alone.
pub(crate) fn only(alloc: Global, mad: Mad) -> Result<Vec<Mad>, AllocError>
    ensures { IfOk result (λ mads. mads.items ≡ mad ∷ []) }
{
    let mut mads = Vec::new(alloc);
    mads.push(mad)?;
    Ok(mads)
}
