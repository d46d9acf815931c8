//! Texts written whole.

ghost use Rattle.std.specs.Prelude.{ℕ, ◌≡◌, true, false, Bool, List, Option, IsOk, IsTrue};
ghost use Rattle.std.specs.Io.{WritesAtMost};
ghost use Rattle.std.specs.Io.KnownBytes.{Appends, Keeps, WriteAppends};
ghost use Rattle.text_streams.specs.Writing.{AppendsPart, TakesSome};

use std::io;
use std::io::Write;

/// Where texts go.
///
/// Its ghost members are what a contract may know of it: `contents` is the bytes that it holds, if
/// they are known, and `is_sure` whether it refuses nothing.
pub trait Output {
    ghost contents: { Self → Option (List ℕ) };

    ghost is_sure: { Self → Bool };

    /// Takes the first of these bytes, and answers how many.
    fn put(&mut self, bytes: &[u8]) -> io::Result<usize>
        ensures bound { WritesAtMost result bytes.now }
        ensures bytes { WriteAppends (contents self.old) (contents self.new) result bytes.now }
        ensures sure { is_sure self.old ≡ true → TakesSome result bytes.now }
        ensures stays { is_sure self.old ≡ true → is_sure self.new ≡ true };

    /// Passes on what it has taken.
    fn pass_on(&mut self) -> io::Result<()>
        ensures bytes { Keeps (contents self.old) (contents self.new) }
        ensures sure { is_sure self.old ≡ true → IsOk result }
        ensures stays { is_sure self.old ≡ true → is_sure self.new ≡ true };
}

/// A writer may refuse anything.
impl<W: Write> Output for W {
    ghost contents = { λ writer. W.contents writer };

    ghost is_sure = { λ _. false };

    fn put(&mut self, bytes: &[u8]) -> io::Result<usize> {
        self.write(bytes)
    }

    fn pass_on(&mut self) -> io::Result<()> {
        self.flush()
    }
}

/// Writes a text, and answers whether all of it was taken. A write that takes nothing, is interrupted or
/// fails ends it.
pub fn write_text<O: Output>(output: &mut O, text: &[u8]) -> bool
    ensures whole { IsTrue result → Appends (O.contents output.old) (O.contents output.new) text.now }
    ensures part { AppendsPart (O.contents output.old) (O.contents output.new) text.now }
    ensures sure { O.is_sure output.old ≡ true → result ≡ true }
    ensures stays { O.is_sure output.old ≡ true → O.is_sure output.new ≡ true }
{
    let mut done = 0;
    while done < text.len() {
        match output.put(&text[done..]) {
            Ok(0) | Err(_) => return false,
            Ok(count) => done += count,
        }
    }
    true
}

/// Writes a text and flushes it, and answers whether all of it went out, as [`write_text`] does.
pub fn write_whole<O: Output>(output: &mut O, text: &[u8]) -> bool
    ensures whole { IsTrue result → Appends (O.contents output.old) (O.contents output.new) text.now }
    ensures part { AppendsPart (O.contents output.old) (O.contents output.new) text.now }
    ensures sure { O.is_sure output.old ≡ true → result ≡ true }
    ensures stays { O.is_sure output.old ≡ true → O.is_sure output.new ≡ true }
{
    write_text(output, text) && output.pass_on().is_ok()
}
