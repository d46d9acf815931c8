//! What stands behind the `#` of a line.

ghost use Rattle.std.specs.Prelude.{◌≡◌};
ghost use Rattle.step_results.specs.Gives.{seen_by};
ghost use Rattle.text_words.specs.Cut.{both};
ghost use Rattle.netdiscover_file.specs.Comment.{comment_of, initiating_port, initiator_in, initiator_of, is_initiated, quoted_name};

use crate::cut::{cut_at_last, has_no_words};
use crate::fault::DiscoveryCause;
use crate::spelling::full_guid_in;
use text_words::{Words, cut_at};

/// What stands behind the first `#`.
pub(crate) fn comment_of(line: &[u8]) -> &[u8]
    ensures { result.now ≡ comment_of line.now }
{
    match cut_at(b'#', line) {
        Some((_, comment)) => comment,
        None => &[],
    }
}

/// The name that stands in the comment of a header, and what stands behind it.
#[tactic(auto, unfolding(crate::specs::Comment::quoted_name))]
pub(crate) fn quoted_name(comment: &[u8]) -> Result<(&[u8], &[u8]), DiscoveryCause>
    ensures { seen_by both result ≡ quoted_name comment.now }
{
    let (before, rest) = cut_at(b'"', comment).ok_or(DiscoveryCause::Malformed)?;
    let (name, behind) = cut_at_last(b'"', rest).ok_or(DiscoveryCause::Malformed)?;
    if !has_no_words(before) {
        return Err(DiscoveryCause::Malformed);
    }
    Ok((name, behind))
}

#[tactic(auto, unfolding(crate::specs::Comment::initiating_port))]
fn initiating_port(words: Words<'_>) -> Result<u64, DiscoveryCause>
    ensures { result ≡ initiating_port words.entry }
{
    let mut words = words;
    let (Some(word), Some(guid), None) = (words.next(), words.next(), words.next()) else {
        return Err(DiscoveryCause::Malformed);
    };
    if word != b"port".as_slice() {
        return Err(DiscoveryCause::Malformed);
    }
    full_guid_in(guid)
}

fn is_initiated(first: &[u8], second: &[u8], third: &[u8]) -> bool
    ensures { result ≡ is_initiated first.now second.now third.now }
{
    first == b"Initiated".as_slice()
        && (second == b"from".as_slice() && third == b"node".as_slice())
}

#[tactic(auto, unfolding(crate::specs::Comment::initiator_of))]
fn initiator_of(words: Words<'_>) -> Result<u64, DiscoveryCause>
    ensures { result ≡ initiator_of words.entry }
{
    let mut words = words;
    let (Some(first), Some(second), Some(third), Some(node)) = (
        words.next(),
        words.next(),
        words.next(),
        words.next(),
    ) else {
        return Err(DiscoveryCause::Malformed);
    };
    full_guid_in(node)?;
    if !is_initiated(first, second, third) {
        return Err(DiscoveryCause::Malformed);
    }
    initiating_port(words)
}

/// The GUID of the port at which a text was printed, if a comment reports it.
#[tactic(auto, unfolding(crate::specs::Comment::initiator_in))]
pub(crate) fn initiator_in(comment: &[u8]) -> Result<u64, DiscoveryCause>
    ensures { result ≡ initiator_in comment.now }
{
    let words = Words::of(comment).ok_or(DiscoveryCause::Malformed)?;
    initiator_of(words)
}
