//! What the reply to a request reports.

ghost use Rattle.std.specs.Prelude.{◌≡◌};
ghost use Rattle.smp_wire.specs.Replies.{answers, reported_by};

use agent_rules::data_of;
use mad_layout::{DrSmp, Header, Mad, Method};

/// Why a request reported nothing.
#[derive(Clone, Copy, Debug, PartialEq, Eq)]
pub enum ReplyFault {
    /// Nothing came back.
    NoReply,
    /// The reply has a status other than 0: the agent refuses.
    Refused,
    /// The reply is of another request: its method is not that of a response, or its versions, class,
    /// TransactionID, attribute or modifier are not the request's.
    WrongReply,
}

/// The 64 bytes of the attribute in the reply to a request, or the first fault: a status other than 0,
/// then a reply of another request.
///
/// Source: IBA volume 1, 13.4.2.
#[tactic(auto, unfolding(crate::specs::Replies::reported_by))]
pub fn read_reply(request: &Mad, reply: &Mad) -> Result<[u8; 64], ReplyFault>
    ensures { result ≡ reported_by request.now reply.now }
{
    if DrSmp::read(reply).status != 0 {
        return Err(ReplyFault::Refused);
    }
    if !answers(request, reply) {
        return Err(ReplyFault::WrongReply);
    }
    Ok(data_of(reply))
}

/// Whether the reply answers the request.
fn answers(request: &Mad, reply: &Mad) -> bool
    ensures { result ≡ answers request.now reply.now }
{
    let asked = Header::read(request);
    let reported = Header::read(reply);
    reported.method == Method::GetResp.code()
        && reported.base_version == asked.base_version
        && reported.mgmt_class == asked.mgmt_class
        && reported.class_version == asked.class_version
        && reported.transaction_id == asked.transaction_id
        && reported.attribute_id == asked.attribute_id
        && reported.attribute_modifier == asked.attribute_modifier
}
