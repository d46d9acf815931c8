//! The first line of a table.

ghost use Rattle.std.specs.Prelude.{◌≡◌};
ghost use Rattle.dump_file.specs.Heading.{guid_behind_way, heading_in, is_by_lid, is_way};

use crate::fault::DumpCause;
use crate::parts::{behind, between, cut, guid_in, lid_in};

/// What the first line of a table reports.
#[derive(Clone, Copy, Debug)]
pub(crate) struct Heading {
    pub(crate) line: usize,
    pub(crate) guid: u64,
    pub(crate) top: u16,
    /// Whether the switch was reached by its LID.
    pub(crate) by_lid: bool,
}

fn is_by_lid(text: &[u8]) -> bool
    ensures { result ≡ is_by_lid text.now }
{
    text.starts_with(b"Lid ")
}

fn is_way(text: &[u8]) -> bool
    ensures { result ≡ is_way text.now }
{
    text.starts_with(b"DR path slid ") || is_by_lid(text)
}

#[tactic(auto, unfolding(crate::specs::Heading::guid_behind_way))]
fn guid_behind_way(text: &[u8]) -> Result<u64, DumpCause>
    ensures { result ≡ guid_behind_way text.now }
{
    let (way, rest) = cut(b'g', text)?;
    let word = between(b"uid ", b" ", rest)?;
    let guid = guid_in(word)?;
    if !is_way(way) {
        return Err(DumpCause::Malformed);
    }
    Ok(guid)
}

/// The heading that a line reports.
#[tactic(auto, unfolding(crate::specs::Heading::heading_in))]
pub(crate) fn heading_in(line: usize, text: &[u8]) -> Result<Heading, DumpCause>
    ensures { result ≡ heading_in line text.now }
{
    let range = behind(b"Unicast lids [0x0-", text)?;
    let (top, rest) = cut(b']', range)?;
    let top = lid_in(top)?;
    let switch = behind(b" of switch ", rest)?;
    let (way, name) = cut(b'(', switch)?;
    let guid = guid_behind_way(way)?;
    if !name.ends_with(b"):") {
        return Err(DumpCause::Malformed);
    }
    Ok(Heading {
        line,
        guid,
        top,
        by_lid: is_by_lid(way),
    })
}
