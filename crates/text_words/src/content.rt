//! Which bytes may stand in a line.

ghost use Rattle.std.specs.Prelude.{◌≡◌, not, length, take};
ghost use Rattle.std.specs.Option.{option_copied};
ghost use Rattle.std.specs.List.{list_any};
ghost use Rattle.text_words.specs.Lines.{body, content, has_bad_character, is_line_end, is_plain, plain_content};

use crate::cut::place_or_end;
use crate::line::LF;

const CR: u8 = b'\r';

const TAB: u8 = b'\t';

const COMMENT: u8 = b'#';

/// What a line says: the line without its LF, its comment and the CR before them. `None` if a byte
/// stands in the line that may not: an LF before its end, or outside its comment any byte but printable
/// ASCII, a tab, and a CR before the comment or the LF.
pub(crate) fn plain_content(line: &[u8]) -> Option<&[u8]>
    ensures { option_copied result ≡ plain_content line.now }
{
    let reported = content(line);
    if has_bad_character(line, reported) {
        return None;
    }
    Some(reported)
}

/// Whether a byte stands in a line that may not. An LF in what the line says is found as one that is not
/// plain.
fn has_bad_character(line: &[u8], reported: &[u8]) -> bool
    requires reported { reported.now ≡ content line.now }
    requires begins { reported.now ≡ take (length reported.now) (body line.now) }
    ensures { result ≡ has_bad_character line.now }
{
    has_line_end(&body(line)[reported.len()..]) || has_other_than_plain(reported)
}

/// The line without the LF that ends it.
fn body(line: &[u8]) -> &[u8]
    ensures { result.now ≡ body line.now }
{
    match line {
        [front @ .., LF] => front,
        _ => line,
    }
}

/// What counts of a line.
fn content(line: &[u8]) -> &[u8]
    ensures value { result.now ≡ content line.now }
    ensures begins { result.now ≡ take (length result.now) (body line.now) }
{
    let body = body(line);
    let reported = &body[..place_or_end(COMMENT, body)];
    match reported {
        [front @ .., CR] if reported.len() < line.len() => front,
        _ => reported,
    }
}

fn has_line_end(text: &[u8]) -> bool
    ensures { result ≡ list_any is_line_end text.now }
{
    text.iter().any(|byte| *byte == LF)
}

// Every byte is asked, with no way out in between, so that the compiler asks sixteen at once.
fn has_other_than_plain(text: &[u8]) -> bool
    ensures { result ≡ list_any (λ byte. not (is_plain byte)) text.now }
{
    let mut found = false;
    for byte in text {
        found |= !is_plain(*byte);
    }
    found
}

fn is_plain(byte: u8) -> bool
    ensures { result ≡ is_plain byte }
{
    (byte >= b' ' && byte <= b'~') || byte == TAB
}
