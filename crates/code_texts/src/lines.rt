//! The output of `fabric explain`.

ghost use Rattle.std.specs.Prelude.{◌≡◌, ◌≤◌, ◌<◌, ◌==◌, ◌++◌, length, position, IfOk, IfSome, OnOk};
ghost use Rattle.std.specs.List.{flat_map, position_or_len};
ghost use Rattle.code_texts.specs.Texts.{explained, first_line, line_of, listing};

use crate::code::{ALL, Code};
use std::alloc::{AllocError, Global};

/// The text of a code, or without one a line for each. It fails only if an allocation fails.
pub fn explained(alloc: Global, code: Option<Code>) -> Result<Vec<u8>, AllocError>
    ensures { IfOk result (λ text. text.items ≡ explained code) }
{
    let Some(code) = code else {
        return listing(alloc);
    };
    let mut text = Vec::new(alloc);
    text.extend_from_slice(code.text().as_bytes())?;
    Ok(text)
}

/// A line for each code, in order: the first of its text. It fails only if an allocation fails.
fn listing(alloc: Global) -> Result<Vec<u8>, AllocError>
    ensures { IfOk result (λ text. text.items ≡ listing) }
{
    let mut text = Vec::new(alloc);
    push_lines(&mut text, &ALL)?;
    Ok(text)
}

fn push_lines(text: &mut Vec<u8>, codes: &[Code]) -> Result<(), AllocError>
    ensures { OnOk result (text.new.items ≡ text.old.items ++ flat_map line_of codes.now) }
{
    for code in codes {
        push_line(text, *code)?;
    }
    Ok(())
}

fn push_line(text: &mut Vec<u8>, code: Code) -> Result<(), AllocError>
    ensures { OnOk result (text.new.items ≡ text.old.items ++ line_of code) }
{
    text.extend_from_slice(first_line(code.text().as_bytes()))?;
    text.push(b'\n')?;
    Ok(())
}

/// The part before the first LF.
fn first_line(text: &[u8]) -> &[u8]
    ensures { result.now ≡ first_line text.now }
{
    &text[..line_end(text)]
}

/// The index of the first LF, or the length.
fn line_end(text: &[u8]) -> usize
    ensures value { result ≡ position_or_len (λ byte. byte == 10) text.now }
    ensures within { result ≤ length text.now }
{
    match line_feed(text) {
        Some(place) => place,
        None => text.len(),
    }
}

fn line_feed(text: &[u8]) -> Option<usize>
    ensures value { result ≡ position (λ byte. byte == 10) text.now }
    ensures within { IfSome result (λ place. place < length text.now) }
{
    text.iter().position(|byte| *byte == b'\n')
}
