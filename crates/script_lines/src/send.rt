//! Lines by which a port sends a packet.

ghost use Rattle.std.specs.Prelude.{◌≡◌, ◌^◌, ◌≤◌, IfOk};
ghost use Rattle.std.specs.Option.{ForSome, option_map};
ghost use Rattle.step_results.specs.Gives.{seen_by};
ghost use Rattle.data_packet.specs.declared.payload.TheConstants.{PAYLOAD_BYTES};
ghost use Rattle.script_lines.specs.Seen.{written};
ghost use Rattle.script_lines.specs.Send.{field_of, fitting, payload_of, send_of, send_encoded, u16_field};
ghost use Rattle.script_lines.specs.EncodedBytes.{encoded};

use crate::encoded_bytes::{Written, encoded, written_in};
use crate::script_cause::ScriptCause;
use crate::sender::sender_of;
use data_packet::{PAYLOAD_BYTES, Payload, QueuePair};
use subnet_model::{Command, SendCommand};
use text_words::{Words, number_in, u16_in};
use topo_file::Topology;

/// The command of a line `send`, by the words behind that one.
#[tactic(auto, unfolding(crate::specs::Send::send_of))]
pub(crate) fn send_of(topology: &Topology, words: Words<'_>) -> Result<Command, ScriptCause>
    ensures { result ≡ send_of topology.now words.entry }
{
    let mut words = words;
    let (Some(port), Some(dlid), Some(p_key), Some(qp), Some(payload), None) = (
        words.next(),
        words.next(),
        words.next(),
        words.next(),
        words.next(),
        words.next(),
    ) else {
        return Err(ScriptCause::Malformed);
    };
    send_encoded(topology, port, dlid, p_key, qp, payload)
}

#[tactic(auto, unfolding(crate::specs::Send::send_encoded))]
fn send_encoded(
    topology: &Topology,
    port: &[u8],
    dlid: &[u8],
    p_key: &[u8],
    qp: &[u8],
    payload: &[u8],
) -> Result<Command, ScriptCause>
    ensures { result ≡ send_encoded topology.now port.now dlid.now p_key.now qp.now payload.now }
{
    let port_guid = sender_of(topology, port)?;
    let written = fitting(written_in(payload))?;
    let dlid = u16_field(dlid)?;
    let p_key = u16_field(p_key)?;
    let destination_qp = queue_pair_field(qp)?;
    let payload = payload_of(written)?;
    Ok(Command::Send(SendCommand {
        port_guid,
        dlid,
        p_key,
        destination_qp,
        payload,
    }))
}

/// A field of 16 bits.
fn u16_field(word: &[u8]) -> Result<u16, ScriptCause>
    ensures { result ≡ u16_field word.now }
{
    u16_in(word).ok_or(ScriptCause::BadField)
}

/// A field of 24 bits.
fn queue_pair_field(word: &[u8]) -> Result<QueuePair, ScriptCause>
    ensures { result ≡ field_of (2 ^ 24) word.now }
{
    match number_in(word) {
        Some(number) if number < 1 << 24 => QueuePair::new(number as u32).ok_or(
            ScriptCause::BadField,
        ),
        _ => Err(ScriptCause::BadField),
    }
}

/// A payload, unless it is more than a packet carries.
fn fitting(shown: Option<Written<'_>>) -> Result<Option<Written<'_>>, ScriptCause>
    ensures value { seen_by (option_map written) result ≡ fitting (option_map written shown.entry) }
    ensures fits { IfOk result (λ it. ForSome it (λ w. w.size ≤ PAYLOAD_BYTES)) }
{
    match shown {
        Some(shown) if shown.size > PAYLOAD_BYTES as u128 => Err(ScriptCause::PayloadTooLong),
        _ => Ok(shown),
    }
}

fn payload_of(shown: Option<Written<'_>>) -> Result<Payload, ScriptCause>
    requires { ForSome shown (λ w. w.size ≤ PAYLOAD_BYTES) }
    ensures { result ≡ payload_of (option_map written shown.entry) }
{
    match shown {
        Some(shown) => payload_encoded(shown.size as usize, shown.digits),
        None => Err(ScriptCause::BadField),
    }
}

fn payload_encoded(size: usize, digits: &[u8]) -> Result<Payload, ScriptCause>
    requires { size ≤ PAYLOAD_BYTES }
    ensures { result ≡ encoded size digits.now }
{
    let bytes = encoded::<PAYLOAD_BYTES>(size, digits)?;
    Ok(Payload::new(&bytes[..size]))
}
