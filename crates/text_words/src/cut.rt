//! A line without its end, and a text cut at a byte.

ghost use Rattle.std.specs.Prelude.{◌≡◌, ◌≤◌, ◌==◌, length};
ghost use Rattle.std.specs.List.{position_or_len};
ghost use Rattle.std.specs.Option.{option_map};
ghost use Rattle.text_words.specs.Cut.{both, cut_at, trimmed};

use memchr::memchr;

/// A line without what ends it, and without the blanks before that.
pub fn trimmed(line: &[u8]) -> &[u8]
    ensures { result.now ≡ trimmed line.now }
{
    line.trim_ascii_end()
}

/// What stands before and behind the first such byte, if there is one.
#[tactic(auto, using(step_results::proofs::PlaceLemmas::list_any_place))]
pub fn cut_at(wanted: u8, text: &[u8]) -> Option<(&[u8], &[u8])>
    ensures { option_map both result ≡ cut_at (λ byte. byte == wanted) text.now }
{
    let place = place_or_end(wanted, text);
    if place == text.len() {
        return None;
    }
    Some((&text[..place], &text[place + 1..]))
}

/// Where this byte stands first, or the length.
pub(crate) fn place_or_end(wanted: u8, text: &[u8]) -> usize
    ensures value { result ≡ position_or_len (λ byte. byte == wanted) text.now }
    ensures within { result ≤ length text.now }
{
    match memchr(wanted, text) {
        Some(place) => place,
        None => text.len(),
    }
}
