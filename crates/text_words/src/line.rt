//! The lines of a text.

ghost use Rattle.std.specs.Prelude.{◌≡◌, ◌≤◌, [], ◌∷◌, length, take, drop, MatchOption};
ghost use Rattle.text_words.specs.Lines.{lines};

use crate::cut::place_or_end;
use std::marker::Model;

/// What ends a line.
pub(crate) const LF: u8 = b'\n';

/// The lines that are left of a text: contracts see their list.
#[derive(Debug, Drop)]
pub struct Lines<'a> {
    rest: &'a [u8],
}

impl<'a> Model for Lines<'a> {
    ghost use Rattle.std.specs.Prelude.{ℕ, List};
    ghost use Rattle.text_words.specs.Lines.{lines};

    ghost Value = { List (List ℕ) };

    ghost view = { λ left. lines left.rest.now };
}

impl<'a> Lines<'a> {
    /// The lines of a text, each with the LF that ends it, which the last may lack.
    pub fn new(text: &'a [u8]) -> Lines<'a>
        ensures value { result ≡ lines text.now }
        ensures count { length result ≤ length text.now }
    {
        Lines { rest: text }
    }
}

impl<'a> Iterator for Lines<'a> {
    ghost use Rattle.std.specs.Iterator.{YieldsFirstBy, item_count};

    type Item = &'a [u8];

    ghost next_gives = { YieldsFirstBy (λ line. line.now) (λ left. left) };

    ghost remaining = { item_count (λ left. left) };

    fn next(&mut self) -> Option<&'a [u8]> {
        let end = line_length(self.rest)?;
        let (line, rest) = self.rest.split_at(end);
        self.rest = rest;
        Some(line)
    }
}

/// How many bytes the first line has, with its LF.
fn line_length(text: &[u8]) -> Option<usize>
    ensures { MatchOption result (text.now ≡ [])
        (λ n. (n ≤ length text.now) × (lines text.now ≡ take n text.now ∷ lines (drop n text.now))) }
{
    if text.is_empty() {
        return None;
    }
    let end = place_or_end(LF, text);
    if end < text.len() {
        Some(end + 1)
    } else {
        Some(text.len())
    }
}
