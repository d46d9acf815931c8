//! Parts of lines, and the numbers in them.

ghost use Rattle.std.specs.Prelude.{◌≡◌, Ok};
ghost use Rattle.step_results.specs.Gives.{seen_by};
ghost use Rattle.text_words.specs.Cut.{both};
ghost use Rattle.mft_file.specs.Parts.{behind, count_in, cut, guid_in, mlid_in};

use crate::fault::MftCause;
use text_words::{cut_at, number_in, u16_in};

/// What stands behind this beginning of a text.
pub(crate) fn behind<'a>(first: &[u8], text: &'a [u8]) -> Result<&'a [u8], MftCause>
    ensures { seen_by (λ rest. rest.now) result ≡ behind first.now text.now }
{
    text.strip_prefix(first).ok_or(MftCause::Malformed)
}

/// What stands before and behind the first such byte.
pub(crate) fn cut(wanted: u8, text: &[u8]) -> Result<(&[u8], &[u8]), MftCause>
    ensures { seen_by both result ≡ cut wanted text.now }
{
    cut_at(wanted, text).ok_or(MftCause::Malformed)
}

pub(crate) fn count_in(word: &[u8]) -> Result<u128, MftCause>
    ensures { result ≡ count_in word.now }
{
    number_in(word).ok_or(MftCause::Malformed)
}

pub(crate) fn mlid_in(word: &[u8]) -> Result<u16, MftCause>
    ensures { result ≡ mlid_in word.now }
{
    u16_in(word).ok_or(MftCause::Malformed)
}

pub(crate) fn guid_in(word: &[u8]) -> Result<u64, MftCause>
    ensures { result ≡ guid_in word.now }
{
    match number_in(word) {
        Some(number) if number < 1 << 64 => Ok(number as u64),
        _ => Err(MftCause::Malformed),
    }
}
