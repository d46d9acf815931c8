//! Lines by which a port asks subnet administration.

ghost use Rattle.std.specs.Prelude.{◌≡◌};
ghost use Rattle.script_lines.specs.Ask.{ask_of, ask_encoded, asking_mad, attribute_in, method_in, tid_in};

use crate::asking::asked_in;
use crate::script_cause::ScriptCause;
use crate::sender::sender_of;
use mad_layout::{Header, Mad, Method, RmppHeader, SaMad};
use rmpp_core::{BASE_VERSION, SA_CLASS, SA_CLASS_VERSION, sa_mad};
use sa_records::SaAttribute;
use subnet_model::{AskCommand, Command};
use text_words::{Words, cut_at, number_in};
use topo_file::Topology;

/// The command of a line `ask`, by the words behind that one.
#[tactic(auto, unfolding(crate::specs::Ask::ask_of))]
pub(crate) fn ask_of(topology: &Topology, words: Words<'_>) -> Result<Command, ScriptCause>
    ensures { result ≡ ask_of topology.now words.entry }
{
    let mut words = words;
    let (Some(port), Some(method), Some(attribute), Some(tid)) = (
        words.next(),
        words.next(),
        words.next(),
        words.next(),
    ) else {
        return Err(ScriptCause::Malformed);
    };
    ask_encoded(topology, port, method, attribute, tid, words)
}

#[tactic(auto, unfolding(crate::specs::Ask::ask_encoded, crate::specs::Asking::asked_in))]
fn ask_encoded(
    topology: &Topology,
    port: &[u8],
    method: &[u8],
    attribute: &[u8],
    tid: &[u8],
    fields: Words<'_>,
) -> Result<Command, ScriptCause>
    ensures { result ≡ ask_encoded topology.now port.now method.now attribute.now tid.now fields.entry }
{
    let method = method_in(method).ok_or(ScriptCause::Malformed)?;
    let attribute = attribute_in(attribute).ok_or(ScriptCause::Malformed)?;
    let port_guid = sender_of(topology, port)?;
    let transaction_id = tid_in(tid)?;
    let asked = asked_in(attribute, fields)?;
    let mad = asking_mad(method, attribute, transaction_id, &asked);
    Ok(Command::Ask(AskCommand { port_guid, mad }))
}

fn method_in(word: &[u8]) -> Option<Method>
    ensures { result ≡ method_in word.now }
{
    if word == b"get".as_slice() {
        Some(Method::Get)
    } else if word == b"table".as_slice() {
        Some(Method::GetTable)
    } else if word == b"set".as_slice() {
        Some(Method::Set)
    } else if word == b"delete".as_slice() {
        Some(Method::Delete)
    } else {
        None
    }
}

fn attribute_in(word: &[u8]) -> Option<SaAttribute>
    ensures { result ≡ attribute_in word.now }
{
    if word == b"node".as_slice() {
        Some(SaAttribute::NodeRecord)
    } else if word == b"path".as_slice() {
        Some(SaAttribute::PathRecord)
    } else if word == b"member".as_slice() {
        Some(SaAttribute::McMemberRecord)
    } else if word == b"service".as_slice() {
        Some(SaAttribute::ServiceRecord)
    } else {
        None
    }
}

/// The TransactionID that `tid=NUM` gives.
fn tid_in(word: &[u8]) -> Result<u64, ScriptCause>
    ensures { result ≡ tid_in word.now }
{
    let (name, value) = cut_at(b'=', word).ok_or(ScriptCause::BadField)?;
    if name != b"tid".as_slice() {
        return Err(ScriptCause::BadField);
    }
    match number_in(value) {
        Some(number) if number < 1 << 64 => Ok(number as u64),
        _ => Err(ScriptCause::BadField),
    }
}

/// The MAD that asks so; every bit that no line names is 0.
fn asking_mad(method: Method, attribute: SaAttribute, transaction_id: u64, asked: &SaMad) -> Mad
    ensures { result ≡ asking_mad method attribute transaction_id asked.now }
{
    let header = Header {
        base_version: BASE_VERSION,
        mgmt_class: SA_CLASS,
        class_version: SA_CLASS_VERSION,
        method: method.code(),
        status: 0,
        class_specific: 0,
        transaction_id,
        attribute_id: attribute.code(),
        attribute_modifier: 0,
    };
    let rmpp = RmppHeader {
        version: 0,
        kind: 0,
        response_time: 0,
        flags: 0,
        status: 0,
        segment_number: 0,
        payload_length_or_new_window_last: 0,
    };
    sa_mad(&header, &rmpp, asked)
}
