//! Lists of keys, compared.

ghost use Rattle.std.specs.Prelude.{◌≡◌, [], fold, IfOk, OnOk};
ghost use Rattle.std.specs.List.{list_all};
ghost use Rattle.pkey_rules.specs.KeyTable.{has_base, holds};
ghost use Rattle.audit_ports.specs.Held.{all_bases_held, all_held, have_same_bases, have_same_keys, held, is_key, of_other_bases, of_other_membership, with_key};

use crate::port::HeldKeys;
use pkey_rules::base_of;
use pkeys_file::KeyList;
use std::alloc::{AllocError, Global};

fn is_key(word: u16) -> bool
    ensures { result ≡ is_key word }
{
    base_of(word) != 0
}

fn are_keys(words: &[u16]) -> bool
    ensures { result ≡ list_all is_key words.now }
{
    words.iter().all(|word| is_key(*word))
}

fn push_new(keys: &mut Vec<u16>, word: u16) -> Result<(), AllocError>
    ensures { OnOk result (keys.new.items ≡ with_key keys.old.items word) }
{
    if is_key(word) && !holds(word, keys.as_slice()) {
        keys.push(word)?;
    }
    Ok(())
}

fn keys_of(alloc: Global, words: &[u16]) -> Result<Vec<u16>, AllocError>
    ensures { IfOk result (λ keys. keys.items ≡ fold with_key [] words.now) }
{
    let mut keys = Vec::new(alloc);
    for word in words {
        push_new(&mut keys, *word)?;
    }
    Ok(keys)
}

/// The keys in a table of these words.
pub(crate) fn held(alloc: Global, words: &[u16]) -> Result<HeldKeys, AllocError>
    ensures { IfOk result (λ table. table ≡ held words.now) }
{
    let keys = keys_of(alloc, words)?;
    Ok(HeldKeys {
        keys: KeyList::of(keys),
        is_full: are_keys(words),
    })
}

/// Whether the key is one of these.
pub fn holds(key: u16, keys: &[u16]) -> bool
    ensures { result ≡ holds key keys.now }
{
    keys.iter().any(|held| *held == key)
}

/// Whether one of these keys has the base.
pub fn has_base(base: u16, keys: &[u16]) -> bool
    ensures { result ≡ has_base base keys.now }
{
    keys.iter().any(|held| base_of(*held) == base)
}

/// The keys of the first list of whose bases the second has none.
pub fn of_other_bases(alloc: Global, keys: &[u16], others: &[u16]) -> Result<Vec<u16>, AllocError>
    ensures { IfOk result (λ found. found.items ≡ of_other_bases keys.now others.now) }
{
    keys.iter()
        .copied()
        .filter(|key| !has_base(base_of(*key), others))
        .collect(alloc)
}

/// The keys of the first list that the second has with the other membership alone.
pub fn of_other_membership(
    alloc: Global,
    keys: &[u16],
    others: &[u16],
) -> Result<Vec<u16>, AllocError>
    ensures { IfOk result (λ found. found.items ≡ of_other_membership keys.now others.now) }
{
    keys.iter()
        .copied()
        .filter(|key| has_base(base_of(*key), others) && !holds(*key, others))
        .collect(alloc)
}

fn all_held(keys: &[u16], others: &[u16]) -> bool
    ensures { result ≡ all_held keys.now others.now }
{
    keys.iter().all(|key| holds(*key, others))
}

fn all_bases_held(keys: &[u16], others: &[u16]) -> bool
    ensures { result ≡ all_bases_held keys.now others.now }
{
    keys.iter().all(|key| has_base(base_of(*key), others))
}

/// Whether both lists have the same keys, in any order.
pub fn have_same_keys(keys: &[u16], others: &[u16]) -> bool
    ensures { result ≡ have_same_keys keys.now others.now }
{
    all_held(keys, others) && all_held(others, keys)
}

/// Whether both lists have keys of the same bases.
pub fn have_same_bases(keys: &[u16], others: &[u16]) -> bool
    ensures { result ≡ have_same_bases keys.now others.now }
{
    all_bases_held(keys, others) && all_bases_held(others, keys)
}
