//! Fields of bits, counted as the standard counts them.

ghost use Rattle.std.specs.Prelude.{◌≡◌, ◌≤◌, ◌<◌, ◌+◌, ◌*◌, ◌^◌, length};
ghost use Rattle.std.specs.Int.Digits.{AllBelowBase};
ghost use Rattle.mad_layout.specs.Bits.{number, field, replaced, put_field};

/// The field of `LEN` bits that begins at bit `OFF`.
pub fn get_bits<const OFF: usize, const LEN: usize>(bytes: &[u8]) -> u64
    requires some { 1 ≤ LEN }
    requires narrow { LEN ≤ 64 }
    requires within { OFF + LEN ≤ 8 * length bytes.now }
    ensures value { result ≡ field bytes.now OFF LEN }
    ensures fits { result < 2 ^ LEN }
{
    let first = OFF / 8;
    let bits = OFF % 8 + LEN;
    let count = (bits + 7) / 8;
    let window = window(&bytes[first..first + count]);
    let low = 8 * count - bits;
    ((window >> low) % (1 << LEN)) as u64
}

/// Sets the field of `LEN` bits that begins at bit `OFF`; every other bit stays.
pub fn put_bits<const OFF: usize, const LEN: usize>(bytes: &mut [u8], value: u64)
    requires some { 1 ≤ LEN }
    requires narrow { LEN ≤ 64 }
    requires within { OFF + LEN ≤ 8 * length bytes.old }
    requires fits { value < 2 ^ LEN }
    ensures { bytes.new ≡ put_field bytes.old OFF LEN value }
{
    known_bytes(bytes);
    let first = OFF / 8;
    let bits = OFF % 8 + LEN;
    let count = (bits + 7) / 8;
    let low = 8 * count - bits;
    let place = &mut bytes[first..first + count];
    let new = with_digits(window(place), low, LEN, value);
    place.copy_from_slice(&new.to_be_bytes()[16 - count..]);
}

/// The number with its `len` binary digits above the lowest `low` replaced.
fn with_digits(number: u128, low: usize, len: usize, value: u64) -> u128
    requires number { number < 2 ^ 72 }
    requires within { low + len ≤ 72 }
    requires fits { value < 2 ^ len }
    ensures { result ≡ replaced number low len value }
{
    let high = number >> (low + len);
    (((high << len) + u128::from(value)) << low) + number % (1 << low)
}

/// The number that at most nine bytes encode.
fn window(bytes: &[u8]) -> u128
    requires { length bytes.now ≤ 9 }
    ensures value { result ≡ number bytes.now }
    ensures fits { result < 2 ^ (8 * length bytes.now) }
{
    let mut window: u128 = 0;
    for byte in bytes {
        window = window * 256 + u128::from(*byte);
    }
    window
}

/// Says that each element is below 256, which a contract on bytes before they are written does not see.
/// It does nothing.
pub fn known_bytes(bytes: &[u8])
    ensures { AllBelowBase 256 bytes.now }
{}
