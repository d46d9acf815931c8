//! What an SMP asks for, and the reply in its place.

ghost use Rattle.std.specs.Prelude.{◌≡◌, ◌+◌, ◌%◌, ◌<◌, ◌^◌, ◌≤◌, Ok, Err, IfOk};
ghost use Rattle.mad_layout.specs.Bits.{number, field};
ghost use Rattle.mad_layout.specs.MadStatus.{mad_status_code};
ghost use Rattle.attr_tables.specs.Attribute.{IsAttribute};
ghost use Rattle.agent_rules.specs.Agent.{whole};
ghost use Rattle.agent_rules.specs.Request.{KeepsRest, attribute_asked, data_of, is_request, is_set, modifier_of};
ghost use Rattle.agent_rules.specs.Request.{reply_method, reply_status, reply_to};

use attr_tables::SmpAttribute;
use mad_layout::{Header, Mad, MadStatus, Method, bytes_at, known_bytes, put_bits, put_bytes_at};

/// The class of SMPs that are directed along a path.
///
/// Source: IBA volume 1, 13.4.4 and 14.2.1.2.
pub const DIRECTED_ROUTE_CLASS: u8 = 0x81;

/// The version of the base format, and of the class' format, that our agents know.
pub const SMP_VERSION: u8 = 1;

/// Whether the SMP asks an agent: it is of the class of directed routes, and no response.
#[tactic(auto, unfolding(crate::specs::Request::is_request))]
pub fn is_request(smp: &Mad) -> bool
    ensures { result ≡ is_request smp.now }
{
    let header = Header::read(smp);
    header.mgmt_class == DIRECTED_ROUTE_CLASS && !header.is_response()
}

/// Whether the SMP asks to set its attribute.
pub fn is_set(smp: &Mad) -> bool
    ensures { result ≡ is_set smp.now }
{
    Header::read(smp).method == Method::Set.code()
}

/// Which part of the attribute the SMP asks for.
pub fn modifier_of(smp: &Mad) -> u32
    ensures { result ≡ modifier_of smp.now }
{
    Header::read(smp).attribute_modifier
}

/// The attribute that the SMP asks for, or why every agent refuses it: for its version, then for its
/// method, then since there is no such attribute.
#[tactic(auto, unfolding(crate::specs::Request::attribute_asked))]
pub fn attribute_asked(smp: &Mad) -> Result<SmpAttribute, MadStatus>
    ensures { result ≡ attribute_asked smp.now }
{
    let header = Header::read(smp);
    if header.base_version != SMP_VERSION || header.class_version != SMP_VERSION {
        return Err(MadStatus::BadVersion);
    }
    if header.method != Method::Get.code() && header.method != Method::Set.code() {
        return Err(MadStatus::MethodNotSupported);
    }
    SmpAttribute::from_code(header.attribute_id).ok_or(MadStatus::AttributeNotSupported)
}

/// The answer to a Get of an attribute that the node has once, so that no modifier but 0 has a meaning.
pub fn whole(modifier: u32, attribute: [u8; 64]) -> Result<[u8; 64], MadStatus>
    ensures { result ≡ whole modifier attribute }
{
    if modifier == 0 {
        Ok(attribute)
    } else {
        Err(MadStatus::InvalidField)
    }
}

/// Turns a request into its reply: the attribute with status 0, or the refusal with the data as they
/// came. The direction bit, the path and all else stay.
pub fn put_reply(smp: &mut Mad, answer: &Result<[u8; 64], MadStatus>)
    ensures reply { smp.new ≡ reply_to smp.old answer.now }
    ensures status { field smp.new 33 15 ≡ reply_status answer.now }
    ensures kept { KeepsRest smp.old smp.new }
    ensures encoded { IfOk answer.now IsAttribute }
{
    match answer {
        Ok(attribute) => put_attribute(smp, attribute),
        Err(status) => put_refusal(smp, *status),
    }
}

#[tactic(auto, unfolding(crate::specs::Request::reply_to))]
fn put_attribute(smp: &mut Mad, attribute: &[u8; 64])
    ensures reply { smp.new ≡ reply_to smp.old (Ok attribute.now) }
    ensures fits { number attribute.now < 2 ^ 512 }
    ensures encoded { IsAttribute attribute.now }
{
    known_bytes(attribute);
    let method = reply_method(smp);
    put_bits::<24, 8>(smp, u64::from(method));
    put_bits::<33, 15>(smp, 0);
    put_bytes_at::<512, 512, 64>(smp, attribute);
}

#[tactic(auto, unfolding(crate::specs::Request::reply_to))]
fn put_refusal(smp: &mut Mad, status: MadStatus)
    ensures reply { smp.new ≡ reply_to smp.old (Err status) }
    ensures fits { mad_status_code status < 2 ^ 15 }
{
    let method = reply_method(smp);
    put_bits::<24, 8>(smp, u64::from(method));
    put_bits::<33, 15>(smp, u64::from(status_bits(status)));
}

/// The code of a refusal, which the direction bit leaves 15 bits.
fn status_bits(status: MadStatus) -> u16
    ensures value { result ≡ mad_status_code status }
    ensures fits { result < 2 ^ 15 }
{
    status.code()
}

/// The method of the reply: GetResp to a Set, else the same method with the R bit.
fn reply_method(smp: &Mad) -> u8
    ensures { result ≡ reply_method smp.now }
{
    let method = Header::read(smp).method;
    if method == Method::Set.code() {
        return Method::GetResp.code();
    }
    128 + method % 128
}

/// The 64 bytes of the attribute that the SMP carries.
pub fn data_of(smp: &Mad) -> [u8; 64]
    ensures { result ≡ data_of smp.now }
{
    bytes_at::<512, 512, 64>(smp)
}
