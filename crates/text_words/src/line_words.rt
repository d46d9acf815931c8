//! The words of a line.

ghost use Rattle.std.specs.Prelude.{◌≡◌, ◌≤◌, ◌<◌, [], ◌∷◌, not, length, position, IfSome, MatchOption};
ghost use Rattle.std.specs.List.{position_or_len};
ghost use Rattle.text_words.specs.Lines.{is_blank, words_between, words_of};

use crate::content::plain_content;
use memchr::memchr2;
use std::marker::Model;

/// The words that are left of a line, which stand between blanks and tabs: contracts see their list.
#[derive(Debug, Drop)]
pub struct Words<'a> {
    rest: &'a [u8],
}

impl<'a> Model for Words<'a> {
    ghost use Rattle.std.specs.Prelude.{ℕ, List};
    ghost use Rattle.text_words.specs.Lines.{is_blank, words_between};

    ghost Value = { List (List ℕ) };

    ghost view = { λ left. words_between is_blank left.rest.now };
}

impl<'a> Words<'a> {
    /// The words of a line, with its LF if it has one and with its comment. `None` if a byte
    /// stands in the line that may not: an LF before its end, or outside its comment any byte but
    /// printable ASCII, a tab, and a CR before the comment or the LF.
    pub fn of(line: &'a [u8]) -> Option<Words<'a>>
        ensures { result ≡ words_of line.now }
    {
        match plain_content(line) {
            Some(rest) => Some(Words { rest }),
            None => None,
        }
    }
}

impl<'a> Iterator for Words<'a> {
    ghost use Rattle.std.specs.Iterator.{YieldsFirstBy, item_count};

    type Item = &'a [u8];

    ghost next_gives = { YieldsFirstBy (λ word. word.now) (λ left. left) };

    ghost remaining = { item_count (λ left. left) };

    fn next(&mut self) -> Option<&'a [u8]> {
        let (word, rest) = first_word(self.rest)?;
        self.rest = rest;
        Some(word)
    }
}

/// The first word of a text, and what stands behind it.
fn first_word(text: &[u8]) -> Option<(&[u8], &[u8])>
    ensures { MatchOption result (words_between is_blank text.now ≡ [])
        (λ parts. words_between is_blank text.now ≡ parts.0.now ∷ words_between is_blank parts.1.now) }
{
    let start = word_start(text)?;
    let text = &text[start..];
    Some(text.split_at(blank_or_end(text)))
}

fn word_start(text: &[u8]) -> Option<usize>
    ensures value { result ≡ position (λ byte. not (is_blank byte)) text.now }
    ensures within { IfSome result (λ place. place < length text.now) }
{
    text.iter().position(|byte| !is_blank(*byte))
}

/// Where a blank stands first, or the length.
fn blank_or_end(text: &[u8]) -> usize
    ensures value { result ≡ position_or_len is_blank text.now }
    ensures within { result ≤ length text.now }
{
    match memchr2(b' ', b'\t', text) {
        Some(place) => place,
        None => text.len(),
    }
}

fn is_blank(byte: u8) -> bool
    ensures { result ≡ is_blank byte }
{
    byte == b' ' || byte == b'\t'
}
