//! Parts of lines, and the numbers in them.

ghost use Rattle.std.specs.Prelude.{◌≡◌};
ghost use Rattle.step_results.specs.Gives.{seen_by};
ghost use Rattle.text_words.specs.Cut.{both};
ghost use Rattle.pkeys_file.specs.Parts.{behind, cut, guid_of, port_of, u16_of};

use crate::fault::KeysCause;
use text_words::{cut_at, number_in, u16_in};

/// What stands behind this beginning of a text.
pub(crate) fn behind<'a>(first: &[u8], text: &'a [u8]) -> Result<&'a [u8], KeysCause>
    ensures { seen_by (λ rest. rest.now) result ≡ behind first.now text.now }
{
    text.strip_prefix(first).ok_or(KeysCause::Malformed)
}

/// What stands before and behind the first such byte.
pub(crate) fn cut(wanted: u8, text: &[u8]) -> Result<(&[u8], &[u8]), KeysCause>
    ensures { seen_by both result ≡ cut wanted text.now }
{
    cut_at(wanted, text).ok_or(KeysCause::Malformed)
}

/// A number of 16 bits.
pub(crate) fn u16_of(word: &[u8]) -> Result<u16, KeysCause>
    ensures { result ≡ u16_of word.now }
{
    u16_in(word).ok_or(KeysCause::Malformed)
}

pub(crate) fn port_of(word: &[u8]) -> Result<u8, KeysCause>
    ensures { result ≡ port_of word.now }
{
    match number_in(word) {
        Some(number) if number < 1 << 8 => Ok(number as u8),
        _ => Err(KeysCause::Malformed),
    }
}

pub(crate) fn guid_of(word: &[u8]) -> Result<u64, KeysCause>
    ensures { result ≡ guid_of word.now }
{
    match number_in(word) {
        Some(number) if number < 1 << 64 => Ok(number as u64),
        _ => Err(KeysCause::Malformed),
    }
}
