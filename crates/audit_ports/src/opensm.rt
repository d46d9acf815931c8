//! The keys that OpenSM gives by a partition file.

ghost use Rattle.std.specs.Prelude.{◌≡◌, ◌++◌, IfOk, OnOk, fold};
ghost use Rattle.std.specs.Option.{option_to_list};
ghost use Rattle.partition_file.specs.Members.{are_named};
ghost use Rattle.audit_ports.specs.OpenSm.{is_all, is_built_in, items_in_turn, keys_by_opensm, last_word, opensms_key, word_after, words_of_default};

use partition_file::{Item, Partition, Partitions, Ports};
use pkey_rules::{EndPort, base_of, key_of};
use pkeys_file::KeyList;
use std::alloc::{AllocError, Global};

pub(crate) fn are_named(port: &EndPort, ports: Ports) -> bool
    ensures { result ≡ are_named port.now ports }
{
    match ports {
        Ports::All => true,
        Ports::ChannelAdapters => !port.is_switch,
        Ports::Switches => port.is_switch,
        Ports::Routers => false,
        Ports::Manager => port.is_sm,
        Ports::Guid(guid) => port.guid == guid,
    }
}

fn is_all(ports: Ports) -> bool
    ensures { result ≡ is_all ports }
{
    matches!(ports, Ports::All)
}

fn is_built_in(items: &[Item]) -> bool
    ensures { result ≡ is_built_in items.now }
{
    match items {
        [_, second] => is_all(second.ports),
        _ => false,
    }
}

fn words_of_default(items: &[Item]) -> &[Item]
    ensures { result.now ≡ words_of_default items.now }
{
    if is_built_in(items) {
        return &[];
    }
    &items[..items.len().saturating_sub(1)]
}

/// The last word of these, behind what was said before.
fn last_word(port: &EndPort, said: Option<bool>, items: &[Item]) -> Option<bool>
    ensures { result ≡ fold (word_after port.now) said items.now }
{
    let mut said = said;
    for item in items {
        if are_named(port, item.ports) {
            said = Some(item.full);
        }
    }
    said
}

fn word_in(port: &EndPort, partition: &Partition) -> Option<bool>
    ensures { result ≡ last_word port.now (items_in_turn partition.now) }
{
    let items = partition.items.as_slice();
    if partition.base == 0x7fff {
        last_word(port, Some(port.is_sm), words_of_default(items))
    } else {
        last_word(port, None, items)
    }
}

fn opensms_key(port: &EndPort, partition: &Partition) -> Option<u16>
    ensures { result ≡ opensms_key port.now partition.now }
{
    word_in(port, partition).map(|full| key_of(base_of(partition.base), full))
}

fn push_key(keys: &mut Vec<u16>, port: &EndPort, partition: &Partition) -> Result<(), AllocError>
    ensures { OnOk result (keys.new.items ≡ keys.old.items ++ option_to_list (opensms_key port.now partition.now)) }
{
    match opensms_key(port, partition) {
        Some(key) => {
            keys.push(key)?;
            Ok(())
        }
        None => Ok(()),
    }
}

fn all_keys(alloc: Global, partitions: &[Partition], port: &EndPort) -> Result<Vec<u16>, AllocError>
    ensures { IfOk result (λ keys. keys.items ≡ keys_by_opensm partitions.now port.now) }
{
    let mut keys = Vec::new(alloc);
    for partition in partitions {
        push_key(&mut keys, port, partition)?;
    }
    Ok(keys)
}

/// The keys that OpenSM gives an end port by these partitions.
pub(crate) fn keys_by_opensm(
    alloc: Global,
    partitions: &Partitions,
    port: &EndPort,
) -> Result<KeyList, AllocError>
    ensures { IfOk result (λ keys. keys ≡ keys_by_opensm partitions.now port.now) }
{
    let keys = all_keys(alloc, partitions.as_slice(), port)?;
    Ok(KeyList::of(keys))
}
