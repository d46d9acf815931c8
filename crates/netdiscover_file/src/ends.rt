//! The two ends of a cable, as the line of a port reports them.

ghost use Rattle.std.specs.Prelude.{◌≡◌};
ghost use Rattle.step_results.specs.Gives.{seen_by};
ghost use Rattle.netdiscover_file.specs.Ends.{behind_external, behind_number, behind_own, far_end_alone, far_end_apart, far_end_behind, far_end_in, far_end_numbered};
ghost use Rattle.netdiscover_file.specs.Ends.{far_end_of, has_external, if_last, node_id_in, own_end_in, port_guid_if_any, port_guid_in, without_external};

use crate::cut::enclosed;
use crate::fault::DiscoveryCause;
use crate::kind::{NodeKind, kind_named};
use crate::spelling::{decimal_in, full_guid_in, guid_in, port_number_in};
use text_words::{Words, cut_at};

/// A node, as texts name it.
#[derive(Clone, Copy, Debug, PartialEq, Eq)]
pub struct NodeId {
    /// What it is.
    pub kind: NodeKind,
    /// Its GUID.
    pub guid: u64,
}

impl NodeId {
    ghost use Rattle.netdiscover_file.specs.Ends.{is_same_node};

    /// Whether both name one node.
    pub(crate) fn is_same(self, other: NodeId) -> bool
        ensures { result ≡ is_same_node self other }
    {
        self.kind.is_same(other.kind) && self.guid == other.guid
    }
}

/// The port that a line is of, before it is known whether there is such a port.
#[derive(Clone, Copy)]
pub(crate) struct OwnEnd {
    pub(crate) number: u128,
    pub(crate) guid: Option<u64>,
}

/// The port at the other end of a cable.
#[derive(Clone, Copy, Debug, PartialEq, Eq)]
pub struct FarEnd {
    /// Its node.
    pub node: NodeId,
    /// The number of the port.
    pub port: u8,
    /// The GUID of the port; none at a switch.
    pub guid: Option<u64>,
}

/// The node that a word names.
#[tactic(auto, unfolding(crate::specs::Ends::node_id_in))]
pub(crate) fn node_id_in(word: &[u8]) -> Result<NodeId, DiscoveryCause>
    ensures { result ≡ node_id_in word.now }
{
    let quoted = enclosed(b'"', b'"', word)?;
    let (letter, digits) = cut_at(b'-', quoted.inside).ok_or(DiscoveryCause::Malformed)?;
    let kind = kind_named(letter)?;
    let guid = full_guid_in(digits)?;
    if !quoted.before.is_empty() || !quoted.behind.is_empty() {
        return Err(DiscoveryCause::Malformed);
    }
    Ok(NodeId { kind, guid })
}

/// The GUID of a port in its parentheses.
#[tactic(auto, unfolding(crate::specs::Ends::port_guid_in))]
fn port_guid_in(word: &[u8]) -> Result<u64, DiscoveryCause>
    ensures { result ≡ port_guid_in word.now }
{
    let parts = enclosed(b'(', b')', word)?;
    let guid = guid_in(parts.inside)?;
    if !parts.before.is_empty() || !parts.behind.is_empty() {
        return Err(DiscoveryCause::Malformed);
    }
    Ok(guid)
}

fn port_guid_if_any(word: &[u8]) -> Result<Option<u64>, DiscoveryCause>
    ensures { result ≡ port_guid_if_any word.now }
{
    if word.is_empty() {
        return Ok(None);
    }
    let guid = port_guid_in(word)?;
    Ok(Some(guid))
}

#[tactic(auto, unfolding(crate::specs::Ends::own_end_in))]
pub(crate) fn own_end_in(word: &[u8]) -> Result<OwnEnd, DiscoveryCause>
    ensures { result ≡ own_end_in word.now }
{
    let parts = enclosed(b'[', b']', word)?;
    let number = decimal_in(parts.inside)?;
    let guid = port_guid_if_any(parts.behind)?;
    if !parts.before.is_empty() {
        return Err(DiscoveryCause::Malformed);
    }
    Ok(OwnEnd { number, guid })
}

#[tactic(auto, unfolding(crate::specs::Ends::far_end_in))]
fn far_end_in(word: &[u8]) -> Result<FarEnd, DiscoveryCause>
    ensures { result ≡ far_end_in word.now }
{
    let parts = enclosed(b'[', b']', word)?;
    let node = node_id_in(parts.before)?;
    let port = port_number_in(parts.inside)?;
    let guid = port_guid_if_any(parts.behind)?;
    Ok(FarEnd { node, port, guid })
}

/// The same with the GUID in a word of its own.
#[tactic(auto, unfolding(crate::specs::Ends::far_end_apart))]
fn far_end_apart(word: &[u8], guid_word: &[u8]) -> Result<FarEnd, DiscoveryCause>
    ensures { result ≡ far_end_apart word.now guid_word.now }
{
    let far = far_end_in(word)?;
    let guid = port_guid_in(guid_word)?;
    if far.guid.is_some() {
        return Err(DiscoveryCause::Malformed);
    }
    Ok(FarEnd {
        node: far.node,
        port: far.port,
        guid: Some(guid),
    })
}

/// The far end, by its word, and the word of its GUID.
#[tactic(auto, unfolding(crate::specs::Ends::far_end_alone))]
fn far_end_alone(word: &[u8], words: Words<'_>) -> Result<FarEnd, DiscoveryCause>
    ensures { result ≡ far_end_alone word.now words.entry }
{
    let mut words = words;
    let Some(guid_word) = words.next() else {
        return far_end_in(word);
    };
    if words.next().is_some() {
        return Err(DiscoveryCause::Malformed);
    }
    far_end_apart(word, guid_word)
}

/// Whether the number on the chassis begins at the end of the word.
fn has_external(word: &[u8]) -> bool
    ensures { result ≡ has_external word.now }
{
    word.ends_with(b"[ext")
}

/// The word without that.
pub(crate) fn without_external(word: &[u8]) -> &[u8]
    ensures { result.now ≡ without_external word.now }
{
    match word.strip_suffix(b"[ext") {
        Some(bare) => bare,
        None => word,
    }
}

/// What stands behind the number on the chassis.
#[tactic(auto, unfolding(crate::specs::Ends::behind_external))]
fn behind_external(word: &[u8]) -> Result<&[u8], DiscoveryCause>
    ensures { seen_by (λ behind. behind.now) result ≡ behind_external word.now }
{
    let (number, behind) = cut_at(b']', word).ok_or(DiscoveryCause::Malformed)?;
    decimal_in(number)?;
    Ok(behind)
}

#[tactic(auto, unfolding(crate::specs::Ends::behind_number))]
fn behind_number(words: Words<'_>) -> Result<Words<'_>, DiscoveryCause>
    ensures { result ≡ behind_number words.entry }
{
    let mut words = words;
    let Some(number) = words.next() else {
        return Err(DiscoveryCause::Malformed);
    };
    let behind = behind_external(number)?;
    if !behind.is_empty() {
        return Err(DiscoveryCause::Malformed);
    }
    Ok(words)
}

/// The words behind those of the port that a line is of, by the first of them.
pub(crate) fn behind_own<'a>(first: &[u8], words: Words<'a>) -> Result<Words<'a>, DiscoveryCause>
    ensures { result ≡ behind_own first.now words.entry }
{
    if has_external(first) {
        behind_number(words)
    } else {
        Ok(words)
    }
}

fn if_last(word: &[u8], guid_word: &[u8], words: Words<'_>) -> Result<FarEnd, DiscoveryCause>
    ensures { result ≡ if_last word.now guid_word.now words.entry }
{
    let mut words = words;
    if words.next().is_some() {
        return Err(DiscoveryCause::Malformed);
    }
    far_end_apart(word, guid_word)
}

fn far_end_behind(word: &[u8], behind: &[u8], words: Words<'_>) -> Result<FarEnd, DiscoveryCause>
    ensures { result ≡ far_end_behind word.now behind.now words.entry }
{
    if behind.is_empty() {
        far_end_alone(word, words)
    } else {
        if_last(word, behind, words)
    }
}

#[tactic(auto, unfolding(crate::specs::Ends::far_end_numbered))]
fn far_end_numbered(word: &[u8], words: Words<'_>) -> Result<FarEnd, DiscoveryCause>
    ensures { result ≡ far_end_numbered word.now words.entry }
{
    let mut words = words;
    let Some(number) = words.next() else {
        return Err(DiscoveryCause::Malformed);
    };
    let behind = behind_external(number)?;
    far_end_behind(word, behind, words)
}

/// The far end that a port line names, by the words after its own port.
#[tactic(auto, unfolding(crate::specs::Ends::far_end_of))]
pub(crate) fn far_end_of(words: Words<'_>) -> Result<FarEnd, DiscoveryCause>
    ensures { result ≡ far_end_of words.entry }
{
    let mut words = words;
    let Some(word) = words.next() else {
        return Err(DiscoveryCause::Malformed);
    };
    if has_external(word) {
        far_end_numbered(without_external(word), words)
    } else {
        far_end_alone(word, words)
    }
}
