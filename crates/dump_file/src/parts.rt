//! Parts of lines, and the numbers in them.

ghost use Rattle.std.specs.Prelude.{◌≡◌, Ok};
ghost use Rattle.step_results.specs.Gives.{seen_by};
ghost use Rattle.text_words.specs.Cut.{both};
ghost use Rattle.dump_file.specs.Parts.{before, behind, between, count_in, cut, guid_in, lid_in, port_in};

use crate::fault::DumpCause;
use text_words::{cut_at, number_in, u16_in};

/// What stands behind this beginning of a text.
pub(crate) fn behind<'a>(first: &[u8], text: &'a [u8]) -> Result<&'a [u8], DumpCause>
    ensures { seen_by (λ rest. rest.now) result ≡ behind first.now text.now }
{
    text.strip_prefix(first).ok_or(DumpCause::Malformed)
}

/// What stands before this end of a text.
pub(crate) fn before<'a>(last: &[u8], text: &'a [u8]) -> Result<&'a [u8], DumpCause>
    ensures { seen_by (λ rest. rest.now) result ≡ before last.now text.now }
{
    text.strip_suffix(last).ok_or(DumpCause::Malformed)
}

/// What stands between both.
pub(crate) fn between<'a>(first: &[u8], last: &[u8], text: &'a [u8]) -> Result<&'a [u8], DumpCause>
    ensures { seen_by (λ rest. rest.now) result ≡ between first.now last.now text.now }
{
    let rest = behind(first, text)?;
    before(last, rest)
}

/// What stands before and behind the first such byte.
pub(crate) fn cut(wanted: u8, text: &[u8]) -> Result<(&[u8], &[u8]), DumpCause>
    ensures { seen_by both result ≡ cut wanted text.now }
{
    cut_at(wanted, text).ok_or(DumpCause::Malformed)
}

pub(crate) fn count_in(word: &[u8]) -> Result<u128, DumpCause>
    ensures { result ≡ count_in word.now }
{
    number_in(word).ok_or(DumpCause::Malformed)
}

pub(crate) fn lid_in(word: &[u8]) -> Result<u16, DumpCause>
    ensures { result ≡ lid_in word.now }
{
    u16_in(word).ok_or(DumpCause::Malformed)
}

pub(crate) fn port_in(word: &[u8]) -> Result<u8, DumpCause>
    ensures { result ≡ port_in word.now }
{
    match number_in(word) {
        Some(number) if number < 1 << 8 => Ok(number as u8),
        _ => Err(DumpCause::Malformed),
    }
}

pub(crate) fn guid_in(word: &[u8]) -> Result<u64, DumpCause>
    ensures { result ≡ guid_in word.now }
{
    match number_in(word) {
        Some(number) if number < 1 << 64 => Ok(number as u64),
        _ => Err(DumpCause::Malformed),
    }
}
