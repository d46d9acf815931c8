//! Numbers, as `ibnetdiscover` prints them.

ghost use Rattle.std.specs.Prelude.{◌≡◌, ◌≤◌, ◌<◌, IfOk};
ghost use Rattle.netdiscover_file.specs.Spelling.{decimal_in, full_guid_in, guid_in, lid_in, lmc_in, number_below, port_count_in, port_number_in};

use crate::fault::DiscoveryCause;
use text_words::digits_in;

/// The number below the top that digits of this radix encode.
fn number_below(top: u128, radix: u32, digits: &[u8]) -> Result<u128, DiscoveryCause>
    requires low { 2 ≤ radix }
    requires high { radix ≤ 36 }
    ensures value { result ≡ number_below top radix digits.now }
    ensures within { IfOk result (λ number. number < top) }
{
    match digits_in(radix, digits) {
        Some(number) if number < top => Ok(number),
        _ => Err(DiscoveryCause::Malformed),
    }
}

pub(crate) fn decimal_in(digits: &[u8]) -> Result<u128, DiscoveryCause>
    ensures { result ≡ decimal_in digits.now }
{
    digits_in(10, digits).ok_or(DiscoveryCause::Malformed)
}

pub(crate) fn guid_in(digits: &[u8]) -> Result<u64, DiscoveryCause>
    ensures { result ≡ guid_in digits.now }
{
    match number_below(1 << 64, 16, digits) {
        Ok(guid) => Ok(guid as u64),
        Err(cause) => Err(cause),
    }
}

/// A GUID that is encoded with all its digits.
pub(crate) fn full_guid_in(digits: &[u8]) -> Result<u64, DiscoveryCause>
    ensures { result ≡ full_guid_in digits.now }
{
    if digits.len() != 16 {
        return Err(DiscoveryCause::Malformed);
    }
    guid_in(digits)
}

pub(crate) fn lid_in(digits: &[u8]) -> Result<u16, DiscoveryCause>
    ensures { result ≡ lid_in digits.now }
{
    match number_below(1 << 16, 10, digits) {
        Ok(lid) => Ok(lid as u16),
        Err(cause) => Err(cause),
    }
}

/// The mask control of a LID.
pub(crate) fn lmc_in(digits: &[u8]) -> Result<u8, DiscoveryCause>
    ensures { result ≡ lmc_in digits.now }
{
    match number_below(1 << 3, 10, digits) {
        Ok(lmc) => Ok(lmc as u8),
        Err(cause) => Err(cause),
    }
}

pub(crate) fn port_number_in(digits: &[u8]) -> Result<u8, DiscoveryCause>
    ensures { result ≡ port_number_in digits.now }
{
    match number_below(1 << 8, 10, digits) {
        Ok(number) => Ok(number as u8),
        Err(cause) => Err(cause),
    }
}

/// How many ports a node has.
pub(crate) fn port_count_in(digits: &[u8]) -> Result<u8, DiscoveryCause>
    ensures { result ≡ port_count_in digits.now }
{
    let count = port_number_in(digits)?;
    if count < 1 {
        return Err(DiscoveryCause::Malformed);
    }
    Ok(count)
}
