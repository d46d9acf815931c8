//! Who is a member of which partition, and how.

ghost use Rattle.std.specs.Prelude.{◌≡◌, ◌≤◌, ◌<◌, ◌++◌, true, false, Some, IfOk, length, map, option_to_list};
ghost use Rattle.pkey_rules.specs.declared.key_table.TheConstants.{PARTITIONS};
ghost use Rattle.pkey_rules.specs.KeyTable.{has_base};
ghost use Rattle.pkey_rules.specs.PKey.{is_base};
ghost use Rattle.partition_file.specs.Members.{heading_of, is_full_member, is_member, key_in, keys_in, lists, members_of};
ghost use Rattle.partition_file.specs.Sound.{IsSound};

use crate::heading::Heading;
use crate::item::{Item, Ports};
use crate::member_keys::Members;
use crate::partition::{Partition, Partitions};
use pkey_rules::{EndPort, KeyTable, PARTITIONS, PKey};
use std::alloc::{AllocError, Global};

fn lists(port: &EndPort, item: &Item) -> bool
    ensures { result ≡ lists port.now item.now }
{
    match item.ports {
        Ports::All => true,
        Ports::ChannelAdapters => !port.is_switch,
        Ports::Switches => port.is_switch,
        Ports::Routers => false,
        Ports::Manager => port.is_sm,
        Ports::Guid(guid) => port.guid == guid,
    }
}

fn is_member(port: &EndPort, partition: &Partition) -> bool
    ensures { result ≡ is_member port.now partition.now }
{
    partition
        .items
        .as_slice()
        .iter()
        .any(|item| lists(port, item))
}

fn is_full_member(port: &EndPort, partition: &Partition) -> bool
    ensures { result ≡ is_full_member port.now partition.now }
{
    partition
        .items
        .as_slice()
        .iter()
        .any(|item| item.full && lists(port, item))
}

/// The key that an end port holds in a partition, if it is a member.
fn key_in(port: &EndPort, partition: &Partition) -> Option<PKey>
    requires { is_base partition.now.base ≡ true }
    ensures { result ≡ key_in port.now partition.now }
{
    if !is_member(port, partition) {
        return None;
    }
    PKey::of_base(partition.base, is_full_member(port, partition)).ok()
}

/// Adds the key that an end port holds in a partition, if it is a member.
fn add_key(keys: &mut KeyTable<PARTITIONS>, port: &EndPort, partition: &Partition)
    requires base { is_base partition.now.base ≡ true }
    requires free { has_base partition.now.base keys.old ≡ false }
    requires room { length keys.old < PARTITIONS }
    ensures { keys.new ≡ keys.old ++ option_to_list (key_in port.now partition.now) }
{
    if let Some(key) = key_in(port, partition) {
        keys.push_distinct(key);
    }
}

/// The keys of an end port, in order of the partitions' numbers.
fn keys_in(partitions: &[Partition], port: &EndPort) -> KeyTable<PARTITIONS>
    requires { IsSound partitions.now }
    ensures { result ≡ keys_in partitions.now port.now }
{
    let mut keys = KeyTable::new();
    for partition in partitions {
        add_key(&mut keys, port, partition);
    }
    keys
}

fn all_keys(
    alloc: Global,
    partitions: &[Partition],
    ports: &[EndPort],
) -> Result<Vec<KeyTable<PARTITIONS>>, AllocError>
    requires { IsSound partitions.now }
    ensures { IfOk result (λ keys. keys.items ≡ map (keys_in partitions.now) ports.now) }
{
    let mut keys = Vec::new(alloc);
    for port in ports {
        keys.push(keys_in(partitions, port))?;
    }
    Ok(keys)
}

fn all_headings(alloc: Global, partitions: &[Partition]) -> Result<Vec<Heading>, AllocError>
    ensures { IfOk result (λ headings. headings.items ≡ map heading_of partitions.now) }
{
    let mut headings = Vec::new(alloc);
    for partition in partitions {
        let heading = Heading::of(alloc, partition)?;
        headings.push(heading)?;
    }
    Ok(headings)
}

/// The partitions, and the keys that each of these end ports holds.
///
/// A port is a member if some item lists it, and a full one if some item lists it as full. Any
/// list of ports is answered, also one without a subnet manager, with several, or with equal GUIDs.
/// For each port the items of all partitions are gone through, at most twice: time is linear in the
/// ports times the items.
pub fn members(
    alloc: Global,
    partitions: &Partitions,
    ports: &[EndPort],
) -> Result<Members, AllocError>
    ensures { IfOk result (λ all. all ≡ members_of partitions.now ports.now) }
{
    let partitions = partitions.as_slice();
    let headings = all_headings(alloc, partitions)?;
    let keys = all_keys(alloc, partitions, ports)?;
    Ok(Members { headings, keys })
}
