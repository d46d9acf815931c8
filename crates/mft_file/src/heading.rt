//! The titles of a table.

ghost use Rattle.std.specs.Prelude.{◌≡◌};
ghost use Rattle.std.specs.List.{enumerate_from, list_all};
ghost use Rattle.dump_file.specs.Heading.{is_way};
ghost use Rattle.mft_file.specs.Heading.{are_digits, columns_in, guid_behind_way, heading_in, is_digit_of, is_tens};

use crate::fault::MftCause;
use crate::parts::{behind, cut, guid_in, mlid_in};

/// What the titles of a table report.
#[derive(Clone, Copy, Debug)]
pub(crate) struct Heading {
    pub(crate) line: usize,
    pub(crate) guid: u64,
    pub(crate) top: u16,
    /// How many ports the rows show, from port 0 on; 0 before the title that says it.
    pub(crate) columns: u8,
}

fn is_way(text: &[u8]) -> bool
    ensures { result ≡ is_way text.now }
{
    text.starts_with(b"DR path slid ") || text.starts_with(b"Lid ")
}

#[tactic(auto, unfolding(crate::specs::Heading::guid_behind_way))]
fn guid_behind_way(text: &[u8]) -> Result<u64, MftCause>
    ensures { result ≡ guid_behind_way text.now }
{
    let (way, rest) = cut(b'g', text)?;
    let rest = behind(b"uid ", rest)?;
    let (word, rest) = cut(b' ', rest)?;
    let guid = guid_in(word)?;
    if !(is_way(way) && rest.is_empty()) {
        return Err(MftCause::Malformed);
    }
    Ok(guid)
}

/// The heading that a line reports.
#[tactic(auto, unfolding(crate::specs::Heading::heading_in))]
pub(crate) fn heading_in(line: usize, text: &[u8]) -> Result<Heading, MftCause>
    ensures { result ≡ heading_in line text.now }
{
    let range = behind(b"Multicast mlids [0xc000-", text)?;
    let (top, rest) = cut(b']', range)?;
    let top = mlid_in(top)?;
    let switch = behind(b" of switch ", rest)?;
    let (way, name) = cut(b'(', switch)?;
    let guid = guid_behind_way(way)?;
    if !name.ends_with(b"):") {
        return Err(MftCause::Malformed);
    }
    Ok(Heading {
        line,
        guid,
        top,
        columns: 0,
    })
}

/// Whether a line has the tens of port numbers.
pub(crate) fn is_tens(text: &[u8]) -> bool
    ensures { result ≡ is_tens text.now }
{
    text.starts_with(b"            0")
}

/// Whether the byte is the last digit of the port of this column, or the blank behind it.
fn is_digit_of(column: usize, byte: u8) -> bool
    ensures { result ≡ is_digit_of column byte }
{
    if column % 2 == 0 {
        usize::from(byte) == 48 + column / 2 % 10
    } else {
        byte == b' '
    }
}

fn are_digits(text: &[u8]) -> bool
    ensures { result ≡ are_digits text.now }
{
    text.iter()
        .enumerate()
        .all(|(column, byte)| is_digit_of(column, *byte))
}

/// How many ports a title shows, from port 0 on.
#[tactic(auto, unfolding(crate::specs::Heading::columns_in))]
pub(crate) fn columns_in(text: &[u8]) -> Result<u8, MftCause>
    ensures { result ≡ columns_in text.now }
{
    let digits = behind(b"     Ports: ", text)?;
    if !are_digits(digits) || digits.len() > 510 {
        return Err(MftCause::Malformed);
    }
    let columns = digits.len().div_ceil(2);
    Ok(columns as u8)
}
