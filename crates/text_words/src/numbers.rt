//! Numbers, as texts show them.

ghost use Rattle.std.specs.Prelude.{◌≡◌, ◌≤◌, ◌*◌, ◌++◌, length, OnOk, decimal};
ghost use Rattle.hex.specs.Hex.{encode_lower};
ghost use Rattle.text_words.specs.Parts.{guid_text, hex_text};

use hex::encode_to_slice;
use itoa::Buffer;
use std::alloc::AllocError;

/// Adds a number in decimal digits.
pub fn push_decimal(text: &mut Vec<u8>, number: usize) -> Result<(), AllocError>
    ensures { OnOk result (text.new.items ≡ text.old.items ++ decimal number) }
{
    let mut buffer = Buffer::new();
    text.extend_from_slice(buffer.format(number).as_bytes())
}

/// Adds `0x` and two digits a byte, of at most 16 bytes.
pub fn push_hex(text: &mut Vec<u8>, bytes: &[u8]) -> Result<(), AllocError>
    requires { length bytes.now ≤ 16 }
    ensures { OnOk result (text.new.items ≡ text.old.items ++ hex_text bytes.now) }
{
    let mut digits = [0; 32];
    text.extend_from_slice(b"0x")?;
    text.extend_from_slice(digits_of(bytes, &mut digits))
}

/// Adds `0x` and all 16 digits of a GUID.
pub fn push_guid(text: &mut Vec<u8>, guid: u64) -> Result<(), AllocError>
    ensures { OnOk result (text.new.items ≡ text.old.items ++ guid_text guid) }
{
    push_hex(text, &guid.to_be_bytes())
}

/// Two digits a byte, written at the beginning of a room that is long enough.
pub fn digits_of<'a>(bytes: &[u8], room: &'a mut [u8]) -> &'a [u8]
    requires { 2 * length bytes.now ≤ length room.old }
    ensures { result.now ≡ encode_lower bytes.now }
{
    let digits = &mut room[..2 * bytes.len()];
    let _ = encode_to_slice(bytes, digits);
    digits
}
