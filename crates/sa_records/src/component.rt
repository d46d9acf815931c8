//! Components: what a request asks by.

ghost use Rattle.std.specs.Prelude.{◌≡◌, ◌≤◌, ◌+◌};
ghost use Rattle.pkey_rules.specs.KeyTable.{same_base};
ghost use Rattle.sa_records.specs.Component.{passes, same_part, satisfies};
ghost use Rattle.sa_records.specs.Speed.{speed, speed_of, rate_satisfies};

use attr_tables::Rate;

/// Whether a record passes by one component: the mask does not ask for it, or it agrees.
pub(crate) fn agrees(mask: u64, bits: u64, holds: bool) -> bool
    ensures { result ≡ passes mask (record { bits = bits; holds = holds }) }
{
    mask & bits != bits || holds
}

/// Whether two keys name one partition, whatever their membership.
pub(crate) fn same_base(shown: u16, asked: u16) -> bool
    ensures { result ≡ same_base shown asked }
{
    shown % 0x8000 == asked % 0x8000
}

/// Whether so many bytes from this one on are the same.
pub(crate) fn same_part(shown: &[u8; 64], asked: &[u8; 64], first: usize, size: usize) -> bool
    requires { first + size ≤ 64 }
    ensures { result ≡ same_part first size shown.now asked.now }
{
    shown[first..first + size] == asked[first..first + size]
}

/// Whether a number that is shown is greater than, less than or equal to the one that is asked, as the selector says.
/// The last selector asks for the greatest that there is, and so for any.
pub(crate) fn satisfies(selector: u8, shown: u16, asked: u16) -> bool
    ensures { result ≡ satisfies selector shown asked }
{
    match selector {
        0 => shown > asked,
        1 => shown < asked,
        2 => shown == asked,
        _ => true,
    }
}

/// Whether a code that is shown satisfies a selector and the code that is asked, for codes that rise with what they
/// stand for, as those of MTUs and life times do.
pub fn code_satisfies(selector: u8, shown: u8, asked: u8) -> bool
    ensures { result ≡ satisfies selector shown asked }
{
    satisfies(selector, shown.into(), asked.into())
}

/// The same for rates, by their speed: their codes don't rise with it. A code of no rate satisfies only the selector
/// that asks for any.
pub fn rate_satisfies(selector: u8, shown: u8, asked: u8) -> bool
    ensures { result ≡ rate_satisfies selector shown asked }
{
    if selector >= 3 {
        return true;
    }
    match (speed_of(shown), speed_of(asked)) {
        (Some(shown), Some(asked)) => satisfies(selector, shown, asked),
        _ => false,
    }
}

/// The speed of the rate of that code, if there is one.
fn speed_of(code: u8) -> Option<u16>
    ensures { result ≡ speed_of code }
{
    match Rate::from_code(code) {
        Some(rate) => Some(speed(rate)),
        None => None,
    }
}

/// How fast a rate is, in tenths of a Gb/s.
fn speed(rate: Rate) -> u16
    ensures { result ≡ speed rate }
{
    match rate {
        Rate::Gbps2_5 => 25,
        Rate::Gbps5 => 50,
        Rate::Gbps10 => 100,
        Rate::Gbps20 => 200,
        Rate::Gbps30 => 300,
        Rate::Gbps40 => 400,
        Rate::Gbps60 => 600,
        Rate::Gbps80 => 800,
        Rate::Gbps120 => 1200,
    }
}
