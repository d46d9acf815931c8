//! Lines read one by one.

ghost use Rattle.std.specs.Prelude.{◌≡◌, ◌==◌, ◌≤◌, ◌++◌, [], true, false, length, drop, IfOk, IsErrOf, OnOk};
ghost use Rattle.std.specs.Io.BufRead.{drop_through, take_through};
ghost use Rattle.std.specs.List.{list_any};
ghost use Rattle.std.specs.Io.KnownBytes.{Consumes, IsAtEnd, prepend_known};
ghost use Rattle.text_streams.specs.Reading.{IsEndless};
ghost use Rattle.text_streams.specs.declared.reading_lines.LineStop.TheVariants.{NoMemory as IsNoMemory};

use crate::reading::{PIECE, Reader};
use crate::writing::Output;
use std::alloc::{AllocError, AllocFailed};
use std::io::{BufRead, ErrorKind};

/// Why no line was read.
#[derive(Clone, Copy, Debug, PartialEq, Eq)]
pub enum LineStop {
    /// Out of memory.
    NoMemory,
    /// A read failed, or the line has no end.
    Read,
}

impl From<AllocError> for LineStop {
    ghost from_gives = { λ _ stop. stop ≡ IsNoMemory };

    fn from(_error: AllocError) -> LineStop {
        LineStop::NoMemory
    }
}

impl<T: Drop> From<AllocFailed<T>> for LineStop {
    ghost from_gives = { λ _ stop. stop ≡ IsNoMemory };

    fn from(_error: AllocFailed<T>) -> LineStop {
        LineStop::NoMemory
    }
}

/// Reads the next line, and returns whether an LF ends it: the last line may lack it, and at the end the line is empty. What
/// was read beyond the line waits for the next call.
pub fn read_line<R: Reader, O: Output>(
    reader: &mut R,
    waiting: &mut Vec<u8>,
    line: &mut Vec<u8>,
    output: &O,
) -> Result<bool, LineStop>
    requires { line.old.items ≡ [] }
    ensures bytes { OnOk result (Consumes (prepend_known waiting.old.items (R.remaining reader.old))
        (prepend_known waiting.new.items (R.remaining reader.new)) line.new.items) }
    ensures line { OnOk result (line.new.items ≡ take_through 10 line.new.items) }
    ensures ended { IfOk result (λ ended. ended ≡ list_any (λ byte. byte == 10) line.new.items) }
    ensures end { IfOk result (λ ended. ended ≡ false → IsAtEnd (prepend_known waiting.new.items (R.remaining reader.new))) }
    ensures endless { R.is_sure reader.old ≡ true → IsErrOf result LineStop.Read
        → IsEndless (prepend_known waiting.old.items (R.remaining reader.old)) }
    ensures stays { R.is_sure reader.old ≡ true → R.is_sure reader.new ≡ true }
{
    for _turn in 0..u64::MAX {
        if take_line(waiting, line)? {
            return Ok(true);
        }
        let mut piece = [0u8; PIECE];
        match reader.next_piece(&mut piece, output) {
            Ok(0) => return Ok(false),
            Ok(count) => waiting.extend_from_slice(&piece[..count])?,
            Err(error) if error.kind() == ErrorKind::Interrupted => {}
            Err(_) => return Err(LineStop::Read),
        }
    }
    Err(LineStop::Read)
}

/// Takes the bytes that wait up to the first LF, or all, and returns whether there is one.
fn take_line(waiting: &mut Vec<u8>, line: &mut Vec<u8>) -> Result<bool, AllocError>
    ensures line { OnOk result (line.new.items ≡ line.old.items ++ take_through 10 waiting.old.items) }
    ensures rest { OnOk result (waiting.new.items ≡ drop_through 10 waiting.old.items) }
    ensures ended { IfOk result (λ ended. ended ≡ list_any (λ byte. byte == 10) waiting.old.items) }
{
    let is_ended = waiting.iter().any(|byte| *byte == b'\n');
    let mut rest = waiting.as_slice();
    match rest.read_until(b'\n', line) {
        Ok(count) => drop_front(waiting, count),
        Err(_) => return Err(AllocError),
    }
    Ok(is_ended)
}

/// Drops so many bytes at the front.
pub(crate) fn drop_front(bytes: &mut Vec<u8>, count: usize)
    requires { count ≤ length bytes.old.items }
    ensures { bytes.new.items ≡ drop count bytes.old.items }
{
    let rest = bytes.len() - count;
    bytes.rotate_left(count);
    bytes.truncate(rest);
}
