//! Fields of 2, 4 and 8 whole bytes.

ghost use Rattle.std.specs.Prelude.{◌≡◌, ◌≤◌, ◌<◌, ◌+◌, ◌*◌, ◌/◌, ◌%◌, ◌^◌, length, take, drop};
ghost use Rattle.mad_layout.specs.Bits.{number, bit_of, field, put_field};

use crate::bits::{get_bits, known_bytes, put_bits};
use byteorder::{BigEndian, ByteOrder};

/// The field of 16 bits that begins at bit `OFF`, the first of a byte.
pub fn u16_at<const OFF: usize>(bytes: &[u8]) -> u16
    requires aligned { OFF % 8 ≡ 0 }
    requires within { OFF + 16 ≤ 8 * length bytes.now }
    ensures { result ≡ field bytes.now OFF 16 }
{
    BigEndian::read_u16(&bytes[OFF / 8..])
}

/// The field of 32 bits that begins at bit `OFF`, the first of a byte.
pub fn u32_at<const OFF: usize>(bytes: &[u8]) -> u32
    requires aligned { OFF % 8 ≡ 0 }
    requires within { OFF + 32 ≤ 8 * length bytes.now }
    ensures { result ≡ field bytes.now OFF 32 }
{
    BigEndian::read_u32(&bytes[OFF / 8..])
}

/// The field of 64 bits that begins at bit `OFF`, the first of a byte.
pub fn u64_at<const OFF: usize>(bytes: &[u8]) -> u64
    requires aligned { OFF % 8 ≡ 0 }
    requires within { OFF + 64 ≤ 8 * length bytes.now }
    ensures { result ≡ field bytes.now OFF 64 }
{
    BigEndian::read_u64(&bytes[OFF / 8..])
}

/// The field of 128 bits, such as a GID, that begins at bit `OFF`, the first of a byte.
pub fn u128_at<const OFF: usize>(bytes: &[u8]) -> u128
    requires aligned { OFF % 8 ≡ 0 }
    requires within { OFF + 128 ≤ 8 * length bytes.now }
    ensures { result ≡ field bytes.now OFF 128 }
{
    BigEndian::read_u128(&bytes[OFF / 8..])
}

/// The field of `LEN` bits that begins at bit `OFF`, the first of a byte, as the `SIZE` bytes that it is.
pub fn bytes_at<const OFF: usize, const LEN: usize, const SIZE: usize>(bytes: &[u8]) -> [u8; SIZE]
    requires aligned { OFF % 8 ≡ 0 }
    requires sized { LEN ≡ 8 * SIZE }
    requires within { OFF + LEN ≤ 8 * length bytes.now }
    ensures bytes { result ≡ take SIZE (drop (OFF / 8) bytes.now) }
    ensures value { number result ≡ field bytes.now OFF LEN }
{
    let mut part = [0; SIZE];
    part.copy_from_slice(&bytes[OFF / 8..OFF / 8 + SIZE]);
    part
}

/// The field of one bit at bit `OFF`: whether it is 1.
pub fn flag_at<const OFF: usize>(bytes: &[u8]) -> bool
    requires within { OFF + 1 ≤ 8 * length bytes.now }
    ensures { bit_of result ≡ field bytes.now OFF 1 }
{
    get_bits::<OFF, 1>(bytes) == 1
}

/// Sets the field of 16 bits that begins at bit `OFF`, the first of a byte; every other bit stays.
pub fn put_u16_at<const OFF: usize>(bytes: &mut [u8], value: u16)
    requires aligned { OFF % 8 ≡ 0 }
    requires within { OFF + 16 ≤ 8 * length bytes.old }
    ensures bytes { bytes.new ≡ put_field bytes.old OFF 16 value }
    ensures fits { value < 2 ^ 16 }
{
    known_bytes(bytes);
    BigEndian::write_u16(&mut bytes[OFF / 8..], value);
}

/// Sets the field of 32 bits that begins at bit `OFF`, the first of a byte; every other bit stays.
pub fn put_u32_at<const OFF: usize>(bytes: &mut [u8], value: u32)
    requires aligned { OFF % 8 ≡ 0 }
    requires within { OFF + 32 ≤ 8 * length bytes.old }
    ensures bytes { bytes.new ≡ put_field bytes.old OFF 32 value }
    ensures fits { value < 2 ^ 32 }
{
    known_bytes(bytes);
    BigEndian::write_u32(&mut bytes[OFF / 8..], value);
}

/// Sets the field of 64 bits that begins at bit `OFF`, the first of a byte; every other bit stays.
pub fn put_u64_at<const OFF: usize>(bytes: &mut [u8], value: u64)
    requires aligned { OFF % 8 ≡ 0 }
    requires within { OFF + 64 ≤ 8 * length bytes.old }
    ensures bytes { bytes.new ≡ put_field bytes.old OFF 64 value }
    ensures fits { value < 2 ^ 64 }
{
    known_bytes(bytes);
    BigEndian::write_u64(&mut bytes[OFF / 8..], value);
}

/// Sets the field of 128 bits that begins at bit `OFF`, the first of a byte; every other bit stays.
pub fn put_u128_at<const OFF: usize>(bytes: &mut [u8], value: u128)
    requires aligned { OFF % 8 ≡ 0 }
    requires within { OFF + 128 ≤ 8 * length bytes.old }
    ensures bytes { bytes.new ≡ put_field bytes.old OFF 128 value }
    ensures fits { value < 2 ^ 128 }
{
    known_bytes(bytes);
    BigEndian::write_u128(&mut bytes[OFF / 8..], value);
}

/// Sets the field of `LEN` bits that begins at bit `OFF`, the first of a byte, to the `SIZE` bytes that
/// it is; every other bit stays.
pub fn put_bytes_at<const OFF: usize, const LEN: usize, const SIZE: usize>(
    bytes: &mut [u8],
    value: &[u8; SIZE],
)
    requires aligned { OFF % 8 ≡ 0 }
    requires sized { LEN ≡ 8 * SIZE }
    requires within { OFF + LEN ≤ 8 * length bytes.old }
    ensures bytes { bytes.new ≡ put_field bytes.old OFF LEN (number value.now) }
    ensures fits { number value.now < 2 ^ LEN }
{
    known_bytes(bytes);
    known_bytes(value);
    bytes[OFF / 8..OFF / 8 + SIZE].copy_from_slice(value);
}

/// Sets the field of one bit at bit `OFF`; every other bit stays.
pub fn put_flag_at<const OFF: usize>(bytes: &mut [u8], value: bool)
    requires within { OFF + 1 ≤ 8 * length bytes.old }
    ensures bytes { bytes.new ≡ put_field bytes.old OFF 1 (bit_of value) }
    ensures fits { bit_of value < 2 }
{
    put_bits::<OFF, 1>(bytes, value as u64);
}
