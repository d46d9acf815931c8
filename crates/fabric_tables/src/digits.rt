//! Numbers, as `dump_fts` prints them.

ghost use Rattle.std.specs.Prelude.{◌≡◌, ◌<◌, ◌++◌, OnOk};
ghost use Rattle.fabric_tables.specs.Digits.{digit_worth, hex_digit, short_hex_text, three_digits};

use std::alloc::AllocError;

/// Adds a number in three digits.
pub(crate) fn push_three_digits(text: &mut Vec<u8>, number: u8) -> Result<(), AllocError>
    ensures { OnOk result (text.new.items ≡ text.old.items ++ three_digits number) }
{
    text.extend_from_slice(&[
        b'0' + number / 100,
        b'0' + number / 10 % 10,
        b'0' + number % 10,
    ])
}

/// Adds `0x` and the hexadecimal digits of a number without zeros before it.
#[tactic(auto, unfolding(crate::specs::Digits::short_hex_text))]
pub(crate) fn push_short_hex(text: &mut Vec<u8>, number: u16) -> Result<(), AllocError>
    ensures { OnOk result (text.new.items ≡ text.old.items ++ short_hex_text number) }
{
    text.extend_from_slice(b"0x")?;
    push_digit_worth(text, 4096, number)?;
    push_digit_worth(text, 256, number)?;
    push_digit_worth(text, 16, number)?;
    text.push(hex_digit((number % 16) as u8))?;
    Ok(())
}

/// Adds the digit that is worth so much, if the number is not less.
fn push_digit_worth(text: &mut Vec<u8>, worth: u16, number: u16) -> Result<(), AllocError>
    requires { 0 < worth }
    ensures { OnOk result (text.new.items ≡ text.old.items ++ digit_worth worth number) }
{
    if number < worth {
        return Ok(());
    }
    text.push(hex_digit((number / worth % 16) as u8))?;
    Ok(())
}

fn hex_digit(value: u8) -> u8
    requires { value < 16 }
    ensures { result ≡ hex_digit value }
{
    if value < 10 {
        b'0' + value
    } else {
        b'a' - 10 + value
    }
}
