//! Replies, as MADs.

ghost use Rattle.std.specs.Prelude.{◌≡◌, ◌<◌};
ghost use Rattle.sa_replies.specs.Reply.{refusal_reply, reply_header, reply_method, table_header};
ghost use Rattle.sa_answer.specs.Replying.{reply_with};

use crate::request::Request;
use mad_layout::{Header, Mad, MadStatus, Method, RmppHeader, SA_DATA_BYTES, SaMad};
use rmpp_core::{BASE_VERSION, ReplyHeader, SA_CLASS, SA_CLASS_VERSION, sa_mad};

/// The header of a MAD that is no segment.
const NO_RMPP: RmppHeader = RmppHeader {
    version: 0,
    kind: 0,
    response_time: 0,
    flags: 0,
    status: 0,
    segment_number: 0,
    payload_length_or_new_window_last: 0,
};

/// The reply with this data.
pub(crate) fn reply(request: &Request, content: &[u8; SA_DATA_BYTES]) -> Mad
    requires { request.now.header.method < 128 }
    ensures { result ≡ reply_with request.now 0 content.now }
{
    reply_of(request, 0, content)
}

/// The reply that has a status in place of data.
pub(crate) fn refusal_reply(request: &Request, status: MadStatus) -> Mad
    requires { request.now.header.method < 128 }
    ensures { result ≡ refusal_reply request.now status }
{
    reply_of(request, status.code(), &[0; SA_DATA_BYTES])
}

/// What each segment of a table begins with; from one of its records to the next there are so many units of 8 bytes.
pub(crate) fn table_header(request: &Request, spacing: u16) -> ReplyHeader
    requires { request.now.header.method < 128 }
    ensures { result ≡ table_header request.now spacing }
{
    ReplyHeader {
        header: reply_header(request, 0),
        attribute_offset: spacing,
        component_mask: request.component_mask,
    }
}

fn reply_of(request: &Request, status: u16, content: &[u8; SA_DATA_BYTES]) -> Mad
    requires { request.now.header.method < 128 }
    ensures { result ≡ reply_with request.now status content.now }
{
    let fields = SaMad {
        sm_key: 0,
        attribute_offset: 0,
        component_mask: request.component_mask,
        data: *content,
    };
    sa_mad(&reply_header(request, status), &NO_RMPP, &fields)
}

/// What a reply copies of its request, and 0 for all else.
fn reply_header(request: &Request, status: u16) -> Header
    requires { request.now.header.method < 128 }
    ensures { result ≡ reply_header request.now status }
{
    Header {
        base_version: BASE_VERSION,
        mgmt_class: SA_CLASS,
        class_version: SA_CLASS_VERSION,
        method: reply_method(request.header.method),
        status,
        class_specific: 0,
        transaction_id: request.header.transaction_id,
        attribute_id: request.header.attribute_id,
        attribute_modifier: request.header.attribute_modifier,
    }
}

/// GetResp answers a Set; else the method with the R bit does.
fn reply_method(method: u8) -> u8
    requires { method < 128 }
    ensures { result ≡ reply_method method }
{
    if method == Method::Set.code() {
        Method::GetResp.code()
    } else {
        method + 0x80
    }
}
