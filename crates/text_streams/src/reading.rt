//! Texts read to their end, in pieces.

ghost use Rattle.std.specs.Prelude.{◌≡◌, ◌<◌, ◌∷◌, [], length, true, false, Bool, IfOk, IfSome, IsOk, List, None, Option, is_none, ℕ};
ghost use Rattle.std.specs.Io.{ReadsAtMost};
ghost use Rattle.std.specs.Io.KnownBytes.{ReadConsumes};
ghost use Rattle.text_streams.specs.Reading.{IsEndless, Moment, Notes};

use crate::writing::Output;
use std::alloc::{AllocError, Global};
use std::io;
use std::io::{ErrorKind, Read};

/// How often a text is read before it counts as endless.
pub const READS: u32 = 1_048_576;

/// How many bytes one read takes at most.
pub const PIECE: usize = 256;

/// How many bytes one read of a big text takes at most, so that it may have 4 GiB.
pub const BIG_PIECE: usize = 4_096;

/// What a text is read by.
///
/// Its ghost members are what a contract may know of it: `remaining` is the bytes that are left, if they are known; `is_sure`
/// is whether no read of it fails; `waits` is whether a read may have to wait until a partner writes; and `moments`, if they
/// are known, is what was left and what an output held before each read so far.
pub trait Reader {
    ghost remaining: { Self → Option (List ℕ) };

    ghost is_sure: { Self → Bool };

    ghost waits: { Self → Bool };

    ghost moments: { Self → Option (List Moment) };

    /// Whether a read may have to wait until a partner writes, as at a terminal or a pipe, and never for a file on a disk.
    fn may_wait(&self) -> bool
        ensures { result ≡ waits self.now };

    /// Reads the next bytes, and returns how many; 0 at the end alone. The output is where the reader's partner reads.
    fn next_piece<O: Output>(&mut self, piece: &mut [u8], output: &O) -> io::Result<usize>
        ensures bound { ReadsAtMost result piece.new }
        ensures bytes { ReadConsumes (remaining self.old) (remaining self.new) result piece.new }
        ensures sure { is_sure self.old ≡ true → IsOk result }
        ensures stays { is_sure self.old ≡ true → is_sure self.new ≡ true }
        ensures waits { waits self.new ≡ waits self.old }
        ensures noted { Notes (moments self.old) (moments self.new)
            (record { left = remaining self.old; written = O.contents output.now } ∷ []) };
}

/// Any read may fail, and any may have to wait.
impl<R: Read> Reader for R {
    ghost remaining = { λ reader. R.remaining reader };

    ghost is_sure = { λ _. false };

    ghost waits = { λ _. true };

    ghost moments = { λ _. None };

    fn may_wait(&self) -> bool {
        true
    }

    fn next_piece<O: Output>(&mut self, piece: &mut [u8], _output: &O) -> io::Result<usize> {
        self.read(piece)
    }
}

/// How big a text may be.
#[derive(Clone, Copy, Debug, PartialEq, Eq)]
pub enum TextSize {
    /// As big as [`READS`] reads of [`PIECE`] bytes: 256 MiB.
    Plain,
    /// As big as [`READS`] reads of [`BIG_PIECE`] bytes: 4 GiB.
    Big,
}

/// All the bytes that a reader has left, or `None` if a read fails, or no end comes within
/// [`READS`] reads. An interrupted read counts, and is tried again.
pub fn read_to_end<R: Reader>(
    alloc: Global,
    reader: &mut R,
    size: TextSize,
) -> Result<Option<Vec<u8>>, AllocError>
    ensures whole { IfOk result (λ whole. IfSome whole (λ bytes. IfSome (R.remaining reader.old)
        (λ left. left ≡ bytes.items))) }
    ensures sure { R.is_sure reader.old ≡ true → IfOk result (λ whole. is_none whole ≡ true → IsEndless (R.remaining reader.old)) }
{
    match size {
        TextSize::Plain => read_to_end_by(alloc, reader, &mut [0u8; PIECE]),
        TextSize::Big => read_to_end_by(alloc, reader, &mut [0u8; BIG_PIECE]),
    }
}

/// The same by reads into this piece.
fn read_to_end_by<R: Reader>(
    alloc: Global,
    reader: &mut R,
    piece: &mut [u8],
) -> Result<Option<Vec<u8>>, AllocError>
    requires { 0 < length piece.old }
    ensures whole { IfOk result (λ whole. IfSome whole (λ bytes. IfSome (R.remaining reader.old)
        (λ left. left ≡ bytes.items))) }
    ensures sure { R.is_sure reader.old ≡ true → IfOk result (λ whole. is_none whole ≡ true → IsEndless (R.remaining reader.old)) }
{
    let mut bytes = Vec::new(alloc);
    let nobody = io::sink();
    for _turn in 0..READS {
        match reader.next_piece(piece, &nobody) {
            Ok(0) => return Ok(Some(bytes)),
            Ok(count) => bytes.extend_from_slice(&piece[..count])?,
            Err(error) if error.kind() == ErrorKind::Interrupted => {}
            Err(_) => return Ok(None),
        }
    }
    Ok(None)
}
