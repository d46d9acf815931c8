//! Big texts whose lines are taken while they are read: no more than a line and a piece of them is kept.

ghost use Rattle.std.specs.Prelude.{ℕ, ◌≡◌, ◌==◌, ◌<◌, ◌≤◌, ◌+◌, ◌++◌, List, length, slice_index, true, IfOk, IfErr, IfSome, Ok, None};
ghost use Rattle.step_results.specs.AtLine.{after_lines};
ghost use Rattle.step_results.specs.Gives.{Fails};
ghost use Rattle.step_results.specs.TextGives.{text_fault_in};
ghost use Rattle.text_words.specs.Lines.{lines};
ghost use Rattle.text_streams.specs.Reading.{IsEndless};
ghost use Rattle.text_streams.specs.ReadingByLines.{IsMadeOf};

use crate::reading::{BIG_PIECE, READS, Reader};
use crate::reading_lines::drop_front;
use memchr::memrchr;
use std::alloc::Global;
use std::io;
use std::io::ErrorKind;
use step_results::TextFault;
use text_words::{LineReader, Lines};

/// What the lines of all that a reader has left make, one after the other and counted from 1, or the first that is refused; no
/// more is read then. `None` if a read fails, or no end comes within [`READS`] reads of [`BIG_PIECE`] bytes. An interrupted read
/// counts, and is tried again.
pub fn read_lines_of<R: Reader, L: LineReader + Drop>(
    alloc: Global,
    reader: &mut R,
    nothing: L,
) -> Result<Option<L>, TextFault<L::Cause>>
    ensures exact { IsMadeOf (λ all. all) result (R.remaining reader.old) (λ text. after_lines L.after_line 1 nothing (lines text)) }
    ensures sure { R.is_sure reader.old ≡ true → result ≡ Ok None → IsEndless (R.remaining reader.old) }
{
    let mut so_far = nothing;
    let mut number = 0;
    let mut waiting = Vec::new(alloc);
    let mut piece = [0u8; BIG_PIECE];
    let nobody = io::sink();
    for _turn in 0..READS {
        match reader.next_piece(&mut piece, &nobody) {
            Ok(0) => {
                take_lines(alloc, &mut so_far, number, waiting.as_slice())?;
                return Ok(Some(so_far));
            }
            Ok(count) => {
                let before = waiting.len();
                waiting.extend_from_slice(&piece[..count])?;
                number = take_ended(alloc, &mut so_far, number, &mut waiting, before)?;
            }
            Err(error) if error.kind() == ErrorKind::Interrupted => {}
            Err(_) => return Ok(None),
        }
    }
    Ok(None)
}

/// Takes the lines that have ended of the bytes that wait, and returns how many lines there are then. The first `before` bytes have
/// no LF, and are not looked at again.
fn take_ended<L: LineReader + Drop>(
    alloc: Global,
    so_far: &mut L,
    number: usize,
    waiting: &mut Vec<u8>,
    before: usize,
) -> Result<usize, TextFault<L::Cause>>
    requires count { number + length waiting.old.items ≤ 0xffffffffffffffff }
    requires front { before ≤ length waiting.old.items }
    ensures count { IfOk result (λ now. now + length waiting.new.items ≤ number + length waiting.old.items) }
    ensures taken { IfOk result (λ now. (rest : List ℕ) → after_lines L.after_line (number + 1) so_far.old (lines (waiting.old.items ++ rest))
        ≡ after_lines L.after_line (now + 1) so_far.new (lines (waiting.new.items ++ rest))) }
    ensures refused { IfErr result (λ fault. (rest : List ℕ) → Fails (text_fault_in fault)
        (after_lines L.after_line (number + 1) so_far.old (lines (waiting.old.items ++ rest)))) }
{
    let Some(last) = last_end(waiting.as_slice(), before) else {
        return Ok(number);
    };
    let now = take_lines(alloc, so_far, number, &waiting[..last + 1])?;
    drop_front(waiting, last + 1);
    Ok(now)
}

/// Where the last LF is, if there is one from this place on.
fn last_end(text: &[u8], first: usize) -> Option<usize>
    requires { first ≤ length text.now }
    ensures within { IfSome result (λ last. last < length text.now) }
    ensures lf { IfSome result (λ last. (slice_index text.now last == 10) ≡ true) }
{
    let behind = memrchr(b'\n', &text[first..])?;
    Some(first + behind)
}

/// Takes the lines of a text after so many others, and returns how many there are then.
fn take_lines<L: LineReader + Drop>(
    alloc: Global,
    so_far: &mut L,
    number: usize,
    text: &[u8],
) -> Result<usize, TextFault<L::Cause>>
    requires { number + length text.now ≤ 0xffffffffffffffff }
    ensures count { IfOk result (λ now. now ≤ number + length text.now) }
    ensures taken { IfOk result (λ now. (rest : List (List ℕ)) → after_lines L.after_line (number + 1) so_far.old (lines text.now ++ rest)
        ≡ after_lines L.after_line (now + 1) so_far.new rest) }
    ensures refused { IfErr result (λ fault. (rest : List (List ℕ)) → Fails (text_fault_in fault)
        (after_lines L.after_line (number + 1) so_far.old (lines text.now ++ rest))) }
{
    let mut now = number;
    for line in Lines::new(text) {
        now += 1;
        if let Err(error) = so_far.take_line(alloc, now, line) {
            return Err(error.on_line(now));
        }
    }
    Ok(now)
}
