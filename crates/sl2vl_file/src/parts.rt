//! Parts of lines, and the numbers in them.

ghost use Rattle.std.specs.Prelude.{◌≡◌, ◌≤◌, Ok, IfOk};
ghost use Rattle.step_results.specs.Gives.{seen_by};
ghost use Rattle.text_words.specs.Cut.{both};
ghost use Rattle.sl2vl_file.specs.Parts.{behind, cut, lid_in, port_in, sl_in, unpadded};

use crate::fault::LanesCause;
use text_words::{cut_at, digits_in};

/// What stands behind this beginning of a text.
pub(crate) fn behind<'a>(first: &[u8], text: &'a [u8]) -> Result<&'a [u8], LanesCause>
    ensures { seen_by (λ rest. rest.now) result ≡ behind first.now text.now }
{
    text.strip_prefix(first).ok_or(LanesCause::Malformed)
}

/// What stands before and behind the first such byte.
pub(crate) fn cut(wanted: u8, text: &[u8]) -> Result<(&[u8], &[u8]), LanesCause>
    ensures { seen_by both result ≡ cut wanted text.now }
{
    cut_at(wanted, text).ok_or(LanesCause::Malformed)
}

pub(crate) fn lid_in(word: &[u8]) -> Result<u16, LanesCause>
    ensures { result ≡ lid_in word.now }
{
    match digits_in(10, word) {
        Some(number) if number < 1 << 16 => Ok(number as u16),
        _ => Err(LanesCause::Malformed),
    }
}

/// A word without the blank that may precede it.
fn unpadded(word: &[u8]) -> &[u8]
    ensures { result.now ≡ unpadded word.now }
{
    match word.strip_prefix(b" ") {
        Some(rest) => rest,
        None => word,
    }
}

pub(crate) fn port_in(word: &[u8]) -> Result<u8, LanesCause>
    ensures { result ≡ port_in word.now }
{
    match digits_in(10, unpadded(word)) {
        Some(number) if number < 1 << 8 => Ok(number as u8),
        _ => Err(LanesCause::Malformed),
    }
}

pub(crate) fn sl_in(word: &[u8]) -> Result<u8, LanesCause>
    ensures value { result ≡ sl_in word.now }
    ensures low { IfOk result (λ sl. sl ≤ 15) }
{
    let digits = behind(b"0x", word)?;
    match digits_in(16, digits) {
        Some(number) if number < 16 => Ok(number as u8),
        _ => Err(LanesCause::Malformed),
    }
}
