//! Bytes that a word writes, as `N:HEX`.

ghost use Rattle.std.specs.Prelude.{◌≡◌, ◌≤◌};
ghost use Rattle.std.specs.Option.{option_map};
ghost use Rattle.std.specs.Result.{result_ok};
ghost use Rattle.script_lines.specs.Seen.{written};
ghost use Rattle.script_lines.specs.EncodedBytes.{in_room, mad_in, encoded, written_in};

use crate::script_cause::ScriptCause;
use hex::decode_to_slice;
use mad_layout::Mad;
use text_words::{cut_at, number_in};

/// Bytes as a word writes them.
#[derive(Clone, Copy)]
pub(crate) struct Written<'a> {
    /// How many there are.
    pub(crate) size: u128,
    /// The digits of the first of them.
    pub(crate) digits: &'a [u8],
}

pub(crate) fn written_in(word: &[u8]) -> Option<Written<'_>>
    ensures { option_map written result ≡ written_in word.now }
{
    let (size, digits) = cut_at(b':', word)?;
    let size = number_in(size)?;
    Some(Written { size, digits })
}

/// So many bytes, those that the digits encode and zero bytes behind them, in a room of zero bytes.
pub(crate) fn encoded<const ROOM: usize>(
    size: usize,
    digits: &[u8],
) -> Result<[u8; ROOM], ScriptCause>
    requires { size ≤ ROOM }
    ensures { result ≡ in_room ROOM (encoded size digits.now) }
{
    let count = digits.len() / 2;
    if count > size {
        return Err(ScriptCause::BadField);
    }
    let mut bytes = [0; ROOM];
    match decode_to_slice(digits, &mut bytes[..count]) {
        Ok(()) => Ok(bytes),
        Err(_) => Err(ScriptCause::BadField),
    }
}

/// The MAD that a word writes as `256:HEX`: its first bytes, and zero bytes behind them.
pub fn mad_in(word: &[u8]) -> Option<Mad>
    ensures { result ≡ mad_in word.now }
{
    match written_in(word) {
        Some(written) if written.size == 256 => mad_encoded(written.digits),
        _ => None,
    }
}

fn mad_encoded(digits: &[u8]) -> Option<Mad>
    ensures { result ≡ result_ok (encoded 256 digits.now) }
{
    encoded::<256>(256, digits).ok()
}
