//! The keys of a port, by the bases of their partitions.

ghost use Rattle.std.specs.Prelude.{◌≡◌, ◌≤◌, length, nat_le, not, IfOk, OnOk};
ghost use Rattle.std.specs.List.{prefix_len};
ghost use Rattle.pkey_rules.specs.PKey.{base_of};
ghost use Rattle.sa_model.specs.KeyOrder.{by_base, with_key};

use pkey_rules::{KeyTable, PARTITIONS, PKey};
use std::alloc::{AllocError, Global};

/// The keys of a table in the order of their bases.
pub(crate) fn by_base(alloc: Global, table: &KeyTable<PARTITIONS>) -> Result<Vec<PKey>, AllocError>
    ensures { IfOk result (λ keys. keys.items ≡ by_base table.now) }
{
    let held = table.as_slice();
    let mut keys = Vec::new(alloc);
    for place in (0..held.len()).rev() {
        insert_key(&mut keys, held[place])?;
    }
    Ok(keys)
}

/// Puts a key before the first whose base is not lower.
fn insert_key(keys: &mut Vec<PKey>, key: PKey) -> Result<(), AllocError>
    ensures { OnOk result (keys.new.items ≡ with_key key keys.old.items) }
{
    let place = place_for(keys, key);
    keys.insert(place, key)?;
    Ok(())
}

/// How many keys have a lower base.
fn place_for(keys: &[PKey], key: PKey) -> usize
    ensures value { result ≡ prefix_len (λ held. not (nat_le (base_of key) (base_of held))) keys.now }
    ensures within { result ≤ length keys.now }
{
    keys.iter()
        .take_while(|held| !(key.base() <= held.base()))
        .count()
}
