//! The fields of an answer, each on a line of its own.

ghost use Rattle.std.specs.Prelude.{◌≡◌, ◌≤◌, ◌<◌, ◌==◌, not, length, position, IfSome};
ghost use Rattle.std.specs.List.{position_or_len};
ghost use Rattle.text_words.specs.Cut.{both};
ghost use Rattle.step_results.specs.Gives.{seen_by};
ghost use Rattle.pkeys_file.specs.Fields.{bit_in, field_in, new_bit, new_capacity, new_guid, no_fields, value_in, with_node_field, with_port_field, with_switch_field};

use crate::fault::KeysCause;
use crate::parts::{cut, guid_of, u16_of};

/// What the lines of an answer say so far.
#[derive(Clone, Copy, Debug)]
pub(crate) struct Fields {
    pub(crate) guid: Option<u64>,
    pub(crate) port_guid: Option<u64>,
    pub(crate) capacity: Option<u16>,
    pub(crate) inbound: Option<bool>,
    pub(crate) outbound: Option<bool>,
}

impl Fields {
    ghost use Rattle.std.specs.Prelude.{◌≡◌};
    ghost use Rattle.pkeys_file.specs.Fields.{no_fields};

    pub(crate) fn none() -> Fields
        ensures { result ≡ no_fields }
    {
        Fields {
            guid: None,
            port_guid: None,
            capacity: None,
            inbound: None,
            outbound: None,
        }
    }
}

/// A value without the dots before it.
fn value_in(text: &[u8]) -> &[u8]
    ensures { result.now ≡ value_in text.now }
{
    &text[dots(text)..]
}

/// How many dots a text begins with.
fn dots(text: &[u8]) -> usize
    ensures value { result ≡ position_or_len (λ byte. not (byte == 46)) text.now }
    ensures within { result ≤ length text.now }
{
    match other_than_dot(text) {
        Some(place) => place,
        None => text.len(),
    }
}

fn other_than_dot(text: &[u8]) -> Option<usize>
    ensures value { result ≡ position (λ byte. not (byte == 46)) text.now }
    ensures within { IfSome result (λ place. place < length text.now) }
{
    text.iter().position(|byte| *byte != b'.')
}

fn bit_in(word: &[u8]) -> Result<bool, KeysCause>
    ensures { result ≡ bit_in word.now }
{
    if word == b"0".as_slice() {
        return Ok(false);
    }
    if word == b"1".as_slice() {
        return Ok(true);
    }
    Err(KeysCause::Malformed)
}

fn new_guid(old: Option<u64>, value: &[u8]) -> Result<Option<u64>, KeysCause>
    ensures { result ≡ new_guid old value.now }
{
    match old {
        Some(_) => Err(KeysCause::Malformed),
        None => Ok(Some(guid_of(value)?)),
    }
}

pub(crate) fn new_capacity(old: Option<u16>, value: &[u8]) -> Result<Option<u16>, KeysCause>
    ensures { result ≡ new_capacity old value.now }
{
    match old {
        Some(_) => Err(KeysCause::Malformed),
        None => Ok(Some(u16_of(value)?)),
    }
}

fn new_bit(old: Option<bool>, value: &[u8]) -> Result<Option<bool>, KeysCause>
    ensures { result ≡ new_bit old value.now }
{
    match old {
        Some(_) => Err(KeysCause::Malformed),
        None => Ok(Some(bit_in(value)?)),
    }
}

/// The name and the value of a line `NAME:....VALUE`.
#[tactic(auto, unfolding(crate::specs::Fields::field_in))]
pub(crate) fn field_in(text: &[u8]) -> Result<(&[u8], &[u8]), KeysCause>
    ensures { seen_by both result ≡ field_in text.now }
{
    let (name, rest) = cut(b':', text)?;
    Ok((name, value_in(rest)))
}

/// What an answer to `nodeinfo` says with one more field.
pub(crate) fn with_node_field(
    fields: Fields,
    name: &[u8],
    value: &[u8],
) -> Result<Fields, KeysCause>
    ensures { result ≡ with_node_field fields name.now value.now }
{
    let mut fields = fields;
    if name == b"Guid".as_slice() {
        fields.guid = new_guid(fields.guid, value)?;
        return Ok(fields);
    }
    if name == b"PortGuid".as_slice() {
        fields.port_guid = new_guid(fields.port_guid, value)?;
        return Ok(fields);
    }
    if name == b"PartCap".as_slice() {
        fields.capacity = new_capacity(fields.capacity, value)?;
    }
    Ok(fields)
}

/// What an answer to `switchinfo` says with one more field.
pub(crate) fn with_switch_field(
    fields: Fields,
    name: &[u8],
    value: &[u8],
) -> Result<Fields, KeysCause>
    ensures { result ≡ with_switch_field fields name.now value.now }
{
    let mut fields = fields;
    if name == b"PartEnforceCap".as_slice() {
        fields.capacity = new_capacity(fields.capacity, value)?;
    }
    Ok(fields)
}

/// What an answer to `portinfo` says with one more field.
pub(crate) fn with_port_field(
    fields: Fields,
    name: &[u8],
    value: &[u8],
) -> Result<Fields, KeysCause>
    ensures { result ≡ with_port_field fields name.now value.now }
{
    let mut fields = fields;
    if name == b"PartEnforceInb".as_slice() {
        fields.inbound = new_bit(fields.inbound, value)?;
        return Ok(fields);
    }
    if name == b"PartEnforceOutb".as_slice() {
        fields.outbound = new_bit(fields.outbound, value)?;
    }
    Ok(fields)
}
