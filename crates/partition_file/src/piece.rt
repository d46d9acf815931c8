//! The pieces between delimiters.

ghost use Rattle.std.specs.Prelude.{◌≡◌, ◌≤◌, ◌++◌, ◌∷◌, false, length, map, flat_map, IfOk, OnOk};
ghost use Rattle.text_words.specs.Lines.{words_between, is_line_end};
ghost use Rattle.partition_file.specs.Pieces.{blanked, delimiter_of, folded, is_allowed, is_colon, is_commented, is_delimiter, is_equals, is_semicolon, is_white, spaced, without_comments};

use std::alloc::{AllocError, Global};

const LF: u8 = b'\n';

const CR: u8 = b'\r';

const TAB: u8 = b'\t';

const BLANK: u8 = b' ';

const COMMENT: u8 = b'#';

/// What ends a piece.
#[derive(Clone, Copy)]
pub(crate) enum Delimiter {
    Equals,
    Comma,
    Colon,
    Semicolon,
}

impl Delimiter {
    pub(crate) fn is_equals(self) -> bool
        ensures { result ≡ is_equals self }
    {
        self == Delimiter::Equals
    }

    pub(crate) fn is_colon(self) -> bool
        ensures { result ≡ is_colon self }
    {
        self == Delimiter::Colon
    }

    pub(crate) fn is_semicolon(self) -> bool
        ensures { result ≡ is_semicolon self }
    {
        self == Delimiter::Semicolon
    }
}

pub(crate) fn delimiter_of(byte: u8) -> Option<Delimiter>
    ensures { result ≡ delimiter_of byte }
{
    match byte {
        b'=' => Some(Delimiter::Equals),
        b',' => Some(Delimiter::Comma),
        b':' => Some(Delimiter::Colon),
        b';' => Some(Delimiter::Semicolon),
        _ => None,
    }
}

pub(crate) fn is_delimiter(byte: u8) -> bool
    ensures { result ≡ is_delimiter byte }
{
    delimiter_of(byte).is_some()
}

pub(crate) fn is_line_end(byte: u8) -> bool
    ensures { result ≡ is_line_end byte }
{
    byte == LF
}

fn is_white(byte: u8) -> bool
    ensures { result ≡ is_white byte }
{
    byte == BLANK || byte == TAB || byte == LF || byte == CR
}

/// Whether the byte may stand outside comments: printable ASCII and white space.
pub(crate) fn is_allowed(byte: u8) -> bool
    ensures { result ≡ is_allowed byte }
{
    (byte >= b' ' && byte <= b'~') || is_white(byte)
}

/// Whether the byte is part of a comment, by whether the byte before it is.
fn is_commented(inside: bool, byte: u8) -> bool
    ensures { result ≡ is_commented inside byte }
{
    !is_line_end(byte) && (inside || byte == COMMENT)
}

fn blanked(hidden: bool, byte: u8) -> u8
    ensures { result ≡ blanked hidden byte }
{
    if hidden { BLANK } else { byte }
}

/// The text with each byte of a comment blanked. Line ends stay, so that no byte changes its line.
#[tactic(auto, unfolding(crate::specs::Pieces::without_comments))]
pub(crate) fn without_comments(alloc: Global, text: &[u8]) -> Result<Vec<u8>, AllocError>
    ensures { IfOk result (λ shown. shown.items ≡ without_comments false text.now) }
{
    let mut shown = Vec::new(alloc);
    let mut inside = false;
    for byte in text {
        inside = is_commented(inside, *byte);
        shown.push(blanked(inside, *byte))?;
    }
    Ok(shown)
}

/// A piece as it counts: without white space at its ends, and with one blank for each run inside.
pub(crate) fn folded(alloc: Global, raw: &[u8]) -> Result<Vec<u8>, AllocError>
    ensures { IfOk result (λ piece. piece.items ≡ folded raw.now) }
{
    let words = words(alloc, raw)?;
    spaced(alloc, &words)
}

fn words(alloc: Global, raw: &[u8]) -> Result<Vec<&[u8]>, AllocError>
    ensures { IfOk result (λ v. map (λ word. word.now) v.items ≡ words_between is_white raw.now) }
{
    raw.split(|byte| is_white(*byte))
        .filter(|word| !word.is_empty())
        .collect(alloc)
}

fn spaced(alloc: Global, words: &[&[u8]]) -> Result<Vec<u8>, AllocError>
    ensures { IfOk result (λ piece. piece.items ≡ spaced (map (λ word. word.now) words.now)) }
{
    match words {
        [] => Ok(Vec::new(alloc)),
        [first, rest @ ..] => {
            let mut piece = Vec::from_slice(alloc, *first)?;
            push_words(&mut piece, rest)?;
            Ok(piece)
        }
    }
}

/// Adds words, each after a blank.
fn push_words(piece: &mut Vec<u8>, words: &[&[u8]]) -> Result<(), AllocError>
    ensures { OnOk result (piece.new.items ≡ piece.old.items ++ flat_map (λ word. 32 ∷ word) (map (λ word. word.now) words.now)) }
{
    for word in words {
        piece.push(BLANK)?;
        piece.extend_from_slice(*word)?;
    }
    Ok(())
}
