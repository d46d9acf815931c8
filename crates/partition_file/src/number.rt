//! The numbers of a partition file.

ghost use Rattle.std.specs.Prelude.{◌≡◌, ◌≤◌, IfSome};
ghost use Rattle.std.specs.List.{list_all};
ghost use Rattle.std.specs.Char.{is_digit};
ghost use Rattle.partition_file.specs.Numbers.{are_digits, has_leading_zero, is_number, number_up_to};

use text_words::number_in;

/// Whether a word encodes a number, of whatever size: decimal digits, of which several do not begin
/// with 0, or `0x` and hexadecimal digits of either case.
pub(crate) fn is_number(word: &[u8]) -> bool
    ensures { result ≡ is_number word.now }
{
    match word.strip_prefix(b"0x") {
        Some(digits) => are_digits(16, digits),
        None => are_digits(10, word) && !has_leading_zero(word),
    }
}

fn are_digits(radix: u32, digits: &[u8]) -> bool
    requires low { 2 ≤ radix }
    requires high { radix ≤ 36 }
    ensures { result ≡ are_digits radix digits.now }
{
    !digits.is_empty() && all_digits(radix, digits)
}

fn all_digits(radix: u32, digits: &[u8]) -> bool
    requires low { 2 ≤ radix }
    requires high { radix ≤ 36 }
    ensures { result ≡ list_all (λ byte. is_digit byte radix) digits.now }
{
    digits.iter().all(|byte| is_digit(radix, *byte))
}

fn is_digit(radix: u32, byte: u8) -> bool
    requires low { 2 ≤ radix }
    requires high { radix ≤ 36 }
    ensures { result ≡ is_digit byte radix }
{
    char::from(byte).is_digit(radix)
}

fn has_leading_zero(digits: &[u8]) -> bool
    ensures { result ≡ has_leading_zero digits.now }
{
    digits.len() > 1 && digits.starts_with(b"0")
}

/// The number that a word encodes, if it is at most `top`.
pub(crate) fn number_up_to(top: u64, word: &[u8]) -> Option<u64>
    ensures value { result ≡ number_up_to top word.now }
    ensures within { IfSome result (λ number. number ≤ top) }
{
    if !is_number(word) {
        return None;
    }
    match number_in(word) {
        Some(number) if number <= u128::from(top) => Some(number as u64),
        _ => None,
    }
}
