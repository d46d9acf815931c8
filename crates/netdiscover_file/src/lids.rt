//! The LIDs that lines report.

ghost use Rattle.std.specs.Prelude.{◌≡◌, true, IfOk};
ghost use Rattle.netdiscover_file.specs.Lids.{before_name, first_lid, is_port_0, lid_encoded, node_lid, only_lid, own_lid, own_lid_in, owns, port_0_lid};

use crate::cut::has_no_words;
use crate::fault::DiscoveryCause;
use crate::kind::NodeKind;
use crate::spelling::{lid_in, lmc_in};
use text_words::{Words, cut_at};

#[tactic(auto, unfolding(crate::specs::Lids::lid_encoded))]
fn lid_encoded(
    lid_word: &[u8],
    lid: &[u8],
    lmc_word: &[u8],
    lmc: &[u8],
) -> Result<u16, DiscoveryCause>
    ensures { result ≡ lid_encoded lid_word.now lid.now lmc_word.now lmc.now }
{
    let number = lid_in(lid)?;
    lmc_in(lmc)?;
    if lid_word != b"lid".as_slice() || lmc_word != b"lmc".as_slice() {
        return Err(DiscoveryCause::Malformed);
    }
    Ok(number)
}

/// The LID that the first words report.
#[tactic(auto, unfolding(crate::specs::Lids::first_lid))]
fn first_lid(words: Words<'_>) -> Result<u16, DiscoveryCause>
    ensures { result ≡ first_lid words.entry }
{
    let mut words = words;
    let (Some(lid_word), Some(lid), Some(lmc_word), Some(lmc)) = (
        words.next(),
        words.next(),
        words.next(),
        words.next(),
    ) else {
        return Err(DiscoveryCause::Malformed);
    };
    lid_encoded(lid_word, lid, lmc_word, lmc)
}

/// The LID that all words report.
#[tactic(auto, unfolding(crate::specs::Lids::only_lid))]
fn only_lid(words: Words<'_>) -> Result<u16, DiscoveryCause>
    ensures { result ≡ only_lid words.entry }
{
    let mut words = words;
    let (Some(lid_word), Some(lid), Some(lmc_word), Some(lmc), None) = (
        words.next(),
        words.next(),
        words.next(),
        words.next(),
        words.next(),
    ) else {
        return Err(DiscoveryCause::Malformed);
    };
    lid_encoded(lid_word, lid, lmc_word, lmc)
}

/// The own LID of an adapter's port, by the comment of its line.
#[tactic(auto, unfolding(crate::specs::Lids::own_lid_in))]
fn own_lid_in(comment: &[u8]) -> Result<u16, DiscoveryCause>
    ensures { result ≡ own_lid_in comment.now }
{
    let words = Words::of(before_name(comment)).ok_or(DiscoveryCause::Malformed)?;
    first_lid(words)
}

fn before_name(comment: &[u8]) -> &[u8]
    ensures { result.now ≡ before_name comment.now }
{
    match cut_at(b'"', comment) {
        Some((before, _)) => before,
        None => comment,
    }
}

/// The own LID of a port with this GUID, by whether it is a switch's.
#[tactic(auto, unfolding(crate::specs::Lids::own_lid))]
pub(crate) fn own_lid(
    at_switch: bool,
    guid: Option<u64>,
    comment: &[u8],
) -> Result<Option<u16>, DiscoveryCause>
    ensures value { result ≡ own_lid at_switch guid comment.now }
    ensures own { IfOk result (λ lid. owns at_switch guid lid ≡ true) }
{
    if at_switch {
        if guid.is_some() {
            return Err(DiscoveryCause::Malformed);
        }
        return Ok(None);
    }
    if guid.is_none() {
        return Err(DiscoveryCause::Malformed);
    }
    let lid = own_lid_in(comment)?;
    Ok(Some(lid))
}

fn is_port_0(sort: &[u8], word: &[u8], number: &[u8]) -> bool
    ensures { result ≡ is_port_0 sort.now word.now number.now }
{
    (sort == b"base".as_slice() || sort == b"enhanced".as_slice())
        && (word == b"port".as_slice() && number == b"0".as_slice())
}

#[tactic(auto, unfolding(crate::specs::Lids::port_0_lid))]
fn port_0_lid(words: Words<'_>) -> Result<u16, DiscoveryCause>
    ensures { result ≡ port_0_lid words.entry }
{
    let mut words = words;
    let (Some(sort), Some(word), Some(number)) = (words.next(), words.next(), words.next()) else {
        return Err(DiscoveryCause::Malformed);
    };
    if !is_port_0(sort, word, number) {
        return Err(DiscoveryCause::Malformed);
    }
    only_lid(words)
}

/// The LID of such a node, by what stands behind its name: that of a switch's port 0.
#[tactic(auto, unfolding(crate::specs::Lids::node_lid))]
pub(crate) fn node_lid(kind: NodeKind, behind: &[u8]) -> Result<Option<u16>, DiscoveryCause>
    ensures { result ≡ node_lid kind behind.now }
{
    if !kind.is_switch() {
        if !has_no_words(behind) {
            return Err(DiscoveryCause::Malformed);
        }
        return Ok(None);
    }
    let words = Words::of(behind).ok_or(DiscoveryCause::Malformed)?;
    let lid = port_0_lid(words)?;
    Ok(Some(lid))
}
