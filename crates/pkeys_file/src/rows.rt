//! The rows of a P_Key table, and its last line.

ghost use Rattle.std.specs.Prelude.{◌≡◌, Ok};
ghost use Rattle.step_results.specs.Gives.{LineGives};
ghost use Rattle.pkeys_file.specs.Rows.{capacity_after, judged_capacity, judged_place, keys_after, place_in, row_after, row_by, rounded, whole_row};

use crate::fault::KeysCause;
use crate::fields::{Fields, new_capacity};
use crate::parts::{cut, u16_of};
use step_results::LineError;
use text_words::Words;

// How many keys a row has.
const ROW: usize = 8;

fn judged_place(keys: &[u16], place: u16) -> Result<u16, KeysCause>
    ensures { result ≡ judged_place keys.now place }
{
    if keys.len() == usize::from(place) {
        Ok(place)
    } else {
        Err(KeysCause::WrongPlace)
    }
}

#[tactic(auto, unfolding(crate::specs::Rows::place_in))]
fn place_in(keys: &[u16], word: &[u8]) -> Result<u16, KeysCause>
    ensures { result ≡ place_in keys.now word.now }
{
    let (place, rest) = cut(b':', word)?;
    let place = u16_of(place)?;
    if !rest.is_empty() {
        return Err(KeysCause::Malformed);
    }
    judged_place(keys, place)
}

/// Adds the keys of these words.
#[tactic(auto, unfolding(crate::specs::Rows::keys_after))]
fn push_keys(keys: &mut Vec<u16>, words: Words<'_>) -> Result<(), LineError<KeysCause>>
    ensures { LineGives (λ _. keys.new.items) result (keys_after keys.old.items words.entry) }
{
    for word in words {
        let key = u16_of(word)?;
        keys.push(key)?;
    }
    Ok(())
}

#[tactic(auto, unfolding(crate::specs::Rows::row_by))]
fn push_row_of(keys: &mut Vec<u16>, words: Words<'_>) -> Result<(), LineError<KeysCause>>
    ensures { LineGives (λ _. keys.new.items) result (row_by keys.old.items words.entry) }
{
    let mut words = words;
    let Some(first) = words.next() else {
        return Err(LineError::Fault(KeysCause::Malformed));
    };
    place_in(keys.as_slice(), first)?;
    let before = keys.len();
    push_keys(keys, words)?;
    if before + ROW != keys.len() {
        return Err(LineError::Fault(KeysCause::Malformed));
    }
    Ok(())
}

/// Adds the keys of a row.
pub(crate) fn push_row(keys: &mut Vec<u16>, text: &[u8]) -> Result<(), LineError<KeysCause>>
    ensures { LineGives (λ _. keys.new.items) result (row_after keys.old.items text.now) }
{
    match Words::of(text) {
        Some(words) => push_row_of(keys, words),
        None => Err(LineError::Fault(KeysCause::Malformed)),
    }
}

/// A capacity, rounded up to whole rows.
fn rounded(capacity: u16) -> usize
    ensures { result ≡ rounded capacity }
{
    (usize::from(capacity) + 7) / ROW * ROW
}

fn judged_capacity(keys: &[u16], capacity: Option<u16>, fields: Fields) -> Result<Fields, KeysCause>
    ensures { result ≡ judged_capacity keys.now capacity fields }
{
    let mut fields = fields;
    match capacity {
        Some(places) => {
            if rounded(places) != keys.len() {
                return Err(KeysCause::WrongPlace);
            }
            fields.capacity = Some(places);
            Ok(fields)
        }
        None => Err(KeysCause::Malformed),
    }
}

/// What the last line of a table says, if the rows go to its capacity.
#[tactic(auto, unfolding(crate::specs::Rows::capacity_after))]
pub(crate) fn capacity_after(keys: &[u16], fields: Fields, text: &[u8]) -> Result<Fields, KeysCause>
    ensures { result ≡ capacity_after keys.now fields text.now }
{
    let (number, words) = cut(b' ', text)?;
    let capacity = new_capacity(fields.capacity, number)?;
    if words != b"pkeys capacity for this port".as_slice() {
        return Err(KeysCause::Malformed);
    }
    judged_capacity(keys, capacity, fields)
}
