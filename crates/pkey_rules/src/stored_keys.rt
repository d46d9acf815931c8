//! P_Key tables as SMPs write them: words, whatever they hold.

ghost use Rattle.std.specs.Prelude.{◌≡◌, ◌==◌, find};
ghost use Rattle.pkey_rules.specs.KeyTable.{accepts, has_base, holds};
ghost use Rattle.pkey_rules.specs.PKey.{base_of};
ghost use Rattle.pkey_rules.specs.StoredKeys.{stored_keys};

use crate::p_key::{PKey, base_of};

/// Whether a port with this stored P_Key table accepts a packet under this key: the key of that base in the
/// table matches it. A word of base 0 is an empty place, and of two keys of one base the first counts.
///
/// Source: IBA volume 1, 14.2.5.7 (P_KeyTable).
pub fn stored_accepts(words: &[u16], key: PKey) -> bool
    ensures { result ≡ accepts key (stored_keys words.now) }
{
    match first_of_base(words, key.base()) {
        Some(word) => match PKey::new(word) {
            Ok(held) => held.matches(key),
            Err(_) => false,
        },
        None => false,
    }
}

/// Whether this very key is in this stored P_Key table.
///
/// Source: IBA volume 1, 14.2.5.7 (P_KeyTable).
pub fn stored_holds(words: &[u16], key: PKey) -> bool
    ensures { result ≡ holds key (stored_keys words.now) }
{
    match first_of_base(words, key.base()) {
        Some(word) => word == key.bits(),
        None => false,
    }
}

/// The first word of that base, if there is one. Most words are of another: so many at once are looked at for
/// whether some is of that base, and one after another only if it is.
fn first_of_base(words: &[u16], base: u16) -> Option<u16>
    ensures { result ≡ find (λ word. base_of word == base) words.now }
{
    for some in words.chunks(AT_ONCE) {
        if has_base(some, base) {
            return first_in(some, base);
        }
    }
    None
}

// How many words are looked at without a branch.
const AT_ONCE: usize = 16;

fn first_in(words: &[u16], base: u16) -> Option<u16>
    ensures { result ≡ find (λ word. base_of word == base) words.now }
{
    words.iter().copied().find(|word| base_of(*word) == base)
}

/// Whether some word is of that base; all are looked at, which a processor does several at a time.
fn has_base(words: &[u16], base: u16) -> bool
    ensures { result ≡ has_base base words.now }
{
    let mut found = false;
    for word in words {
        found |= base_of(*word) == base;
    }
    found
}
