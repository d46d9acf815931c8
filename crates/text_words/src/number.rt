//! Numbers, as texts encode them.

ghost use Rattle.std.specs.Prelude.{◌≡◌, ◌≤◌, ◌<◌, length, Some, IfSome};
ghost use Rattle.text_words.specs.Number.{digits_in, digit_step, number_in, u16_in};

/// The number that a word encodes, in decimal digits or as `0x` and hexadecimal digits of either
/// case; none if it is encoded otherwise or past 128 bits.
pub fn number_in(word: &[u8]) -> Option<u128>
    ensures { result ≡ number_in word.now }
{
    match word.strip_prefix(b"0x") {
        Some(digits) => digits_in(16, digits),
        None => digits_in(10, word),
    }
}

/// The number of 16 bits that a word encodes.
pub fn u16_in(word: &[u8]) -> Option<u16>
    ensures { result ≡ u16_in word.now }
{
    match number_in(word) {
        Some(number) if number < 1 << 16 => Some(number as u16),
        _ => None,
    }
}

/// The number that digits of this radix encode; none if there are none, or one is no such digit, or the number is past
/// 128 bits.
pub fn digits_in(radix: u32, digits: &[u8]) -> Option<u128>
    requires low { 2 ≤ radix }
    requires high { radix ≤ 36 }
    ensures { result ≡ digits_in radix digits.now }
{
    if digits.is_empty() {
        return None;
    }
    // Most numbers have 64 bits, and these are read by steps of 64 bits.
    match narrow_digits_in(radix, digits) {
        Some(number) => Some(u128::from(number)),
        None => wide_digits_in(radix, digits),
    }
}

/// The number that digits encode, by steps of 64 bits; none if these do not find it.
fn narrow_digits_in(radix: u32, digits: &[u8]) -> Option<u64>
    requires low { 2 ≤ radix }
    requires high { radix ≤ 36 }
    requires some { 0 < length digits.now }
    ensures { IfSome result (λ number. digits_in radix digits.now ≡ Some number) }
{
    let mut value = 0;
    for byte in digits {
        value = with_narrow_digit(radix, value, *byte)?;
    }
    Some(value)
}

/// The number that one more digit makes, if it is a digit and 64 bits hold the number.
fn with_narrow_digit(radix: u32, value: u64, byte: u8) -> Option<u64>
    requires low { 2 ≤ radix }
    requires high { radix ≤ 36 }
    ensures { IfSome result (λ number. digit_step radix value byte ≡ Some number) }
{
    let digit = char::from(byte).to_digit(radix)?;
    value
        .checked_mul(u64::from(radix))?
        .checked_add(u64::from(digit))
}

/// The number that digits encode, by steps of 128 bits.
fn wide_digits_in(radix: u32, digits: &[u8]) -> Option<u128>
    requires low { 2 ≤ radix }
    requires high { radix ≤ 36 }
    requires some { 0 < length digits.now }
    ensures { result ≡ digits_in radix digits.now }
{
    let mut value = 0;
    for byte in digits {
        value = with_digit(radix, value, *byte)?;
    }
    Some(value)
}

/// The number that one more digit makes, if it is a digit and 128 bits hold the number.
fn with_digit(radix: u32, value: u128, byte: u8) -> Option<u128>
    requires low { 2 ≤ radix }
    requires high { radix ≤ 36 }
    ensures { result ≡ digit_step radix value byte }
{
    let digit = char::from(byte).to_digit(radix)?;
    value
        .checked_mul(u128::from(radix))?
        .checked_add(u128::from(digit))
}
