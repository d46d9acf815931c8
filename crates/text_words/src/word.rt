//! Names and ports, as texts write them.

ghost use Rattle.std.specs.Prelude.{◌≡◌, ◌≤◌, true, length};
ghost use Rattle.std.specs.List.{list_all};
ghost use Rattle.std.specs.Option.{option_map};
ghost use Rattle.text_words.specs.Words.{is_name, is_name_byte, port_in, seen};

use crate::cut::place_or_end;
use crate::number::number_in;
use fabric_parts::NAME_BYTES;

/// A port as a text writes it, before it is known whether there is such a node or port.
#[derive(Clone, Copy, Debug)]
pub struct PortWord<'a> {
    /// The name of the node.
    pub name: &'a [u8],
    /// The number of the port.
    pub number: u128,
}

/// Whether a word is a name: 1 to 32 letters, digits, `_`, `-` and `.`.
pub fn is_name(word: &[u8]) -> bool
    ensures value { result ≡ is_name word.now }
    ensures short { result ≡ true → length word.now ≤ NAME_BYTES }
{
    !word.is_empty() && word.len() <= NAME_BYTES && all_in_names(word)
}

fn all_in_names(word: &[u8]) -> bool
    ensures { result ≡ list_all is_name_byte word.now }
{
    word.iter().all(|byte| is_name_byte(*byte))
}

fn is_name_byte(byte: u8) -> bool
    ensures { result ≡ is_name_byte byte }
{
    byte.is_ascii_alphanumeric() || byte == b'_' || byte == b'-' || byte == b'.'
}

/// The name and the number of a port that a word writes as `NAME/NUMBER`.
#[tactic(auto, using(step_results::proofs::PlaceLemmas::list_any_place))]
pub fn port_in(word: &[u8]) -> Option<PortWord<'_>>
    ensures { option_map seen result ≡ port_in word.now }
{
    let slash = place_or_end(b'/', word);
    if slash == word.len() {
        return None;
    }
    let name = &word[..slash];
    if !is_name(name) {
        return None;
    }
    let number = number_in(&word[slash + 1..])?;
    Some(PortWord { name, number })
}
