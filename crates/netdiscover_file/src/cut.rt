//! Texts in parts.

ghost use Rattle.std.specs.Prelude.{◌≡◌, ◌==◌, length};
ghost use Rattle.std.specs.Option.{option_map};
ghost use Rattle.step_results.specs.Gives.{seen_by};
ghost use Rattle.text_words.specs.Cut.{both};
ghost use Rattle.netdiscover_file.specs.Cut.{cut_at_last, enclosed, has_no_words, parts_of};

use crate::fault::DiscoveryCause;
use memchr::memrchr;
use text_words::{Words, cut_at};

/// What stands before, between and behind two bytes.
#[derive(Clone, Copy)]
pub(crate) struct Between<'a> {
    pub(crate) before: &'a [u8],
    pub(crate) inside: &'a [u8],
    pub(crate) behind: &'a [u8],
}

/// A text cut at the first byte that opens, and at the first behind it that closes.
#[tactic(auto, unfolding(crate::specs::Cut::enclosed))]
pub(crate) fn enclosed(
    open_byte: u8,
    close_byte: u8,
    text: &[u8],
) -> Result<Between<'_>, DiscoveryCause>
    ensures { seen_by parts_of result ≡ enclosed open_byte close_byte text.now }
{
    let (before, rest) = cut_at(open_byte, text).ok_or(DiscoveryCause::Malformed)?;
    let (inside, behind) = cut_at(close_byte, rest).ok_or(DiscoveryCause::Malformed)?;
    Ok(Between {
        before,
        inside,
        behind,
    })
}

/// What stands before and behind the last such byte, if there is one.
pub(crate) fn cut_at_last(wanted: u8, text: &[u8]) -> Option<(&[u8], &[u8])>
    ensures { option_map both result ≡ cut_at_last (λ byte. byte == wanted) text.now }
{
    match memrchr(wanted, text) {
        Some(place) => Some((&text[..place], &text[place + 1..])),
        None => None,
    }
}

/// Whether a text has blanks and tabs alone, except a comment.
pub(crate) fn has_no_words(text: &[u8]) -> bool
    ensures { result ≡ has_no_words text.now }
{
    match Words::of(text) {
        Some(words) => is_over(words),
        None => false,
    }
}

fn is_over(words: Words<'_>) -> bool
    ensures { result ≡ (length words.entry == 0) }
{
    let mut words = words;
    words.next().is_none()
}
