//! Lines that assign a value to a word.

ghost use Rattle.std.specs.Prelude.{◌≡◌};
ghost use Rattle.std.specs.List.{list_all};
ghost use Rattle.std.specs.Option.{option_map};
ghost use Rattle.text_words.specs.Cut.{both};
ghost use Rattle.netdiscover_file.specs.Assignment.{assignment_in, is_key, is_key_byte, prefixed_guid_in, switch_guids_in, switch_guids_encoded};

use crate::cut::enclosed;
use crate::fault::DiscoveryCause;
use crate::spelling::guid_in;
use text_words::{Words, cut_at};

/// The GUIDs of a switch that a line before its header reports.
#[derive(Clone, Copy, Debug)]
pub(crate) struct SwitchGuids {
    /// The node's.
    pub(crate) node: u64,
    /// That of its port 0.
    pub(crate) port: u64,
}

fn prefixed_guid_in(word: &[u8]) -> Result<u64, DiscoveryCause>
    ensures { result ≡ prefixed_guid_in word.now }
{
    let (zero, digits) = cut_at(b'x', word).ok_or(DiscoveryCause::Malformed)?;
    if zero != b"0".as_slice() {
        return Err(DiscoveryCause::Malformed);
    }
    guid_in(digits)
}

#[tactic(auto, unfolding(crate::specs::Assignment::switch_guids_encoded))]
fn switch_guids_encoded(word: &[u8]) -> Result<SwitchGuids, DiscoveryCause>
    ensures { result ≡ switch_guids_encoded word.now }
{
    let parts = enclosed(b'(', b')', word)?;
    let node = prefixed_guid_in(parts.before)?;
    let port = guid_in(parts.inside)?;
    if !parts.behind.is_empty() {
        return Err(DiscoveryCause::Malformed);
    }
    Ok(SwitchGuids { node, port })
}

/// The GUIDs of a switch, by what stands behind the `=` of their line.
#[tactic(auto, unfolding(crate::specs::Assignment::switch_guids_in, crate::specs::Assignment::first_switch_guids))]
pub(crate) fn switch_guids_in(value: &[u8]) -> Result<SwitchGuids, DiscoveryCause>
    ensures { result ≡ switch_guids_in value.now }
{
    let mut words = Words::of(value).ok_or(DiscoveryCause::Malformed)?;
    let Some(word) = words.next() else {
        return Err(DiscoveryCause::Malformed);
    };
    switch_guids_encoded(word)
}

/// Whether a word names what follows behind its `=`: lower-case letters, digits and `_`.
fn is_key(word: &[u8]) -> bool
    ensures { result ≡ is_key word.now }
{
    !word.is_empty() && all_in_keys(word)
}

fn all_in_keys(word: &[u8]) -> bool
    ensures { result ≡ list_all is_key_byte word.now }
{
    word.iter().all(|byte| is_key_byte(*byte))
}

fn is_key_byte(byte: u8) -> bool
    ensures { result ≡ is_key_byte byte }
{
    byte.is_ascii_lowercase() || (byte.is_ascii_digit() || byte == b'_')
}

/// The word before and the value behind the first `=` of a line that assigns one.
pub(crate) fn assignment_in(line: &[u8]) -> Option<(&[u8], &[u8])>
    ensures { option_map both result ≡ assignment_in line.now }
{
    match cut_at(b'=', line) {
        Some((key, value)) if is_key(key) => Some((key, value)),
        _ => None,
    }
}
