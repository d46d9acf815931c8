//! Whether ports and their keys are those of a subnet as every subnet is configured.

ghost use Rattle.std.specs.Prelude.{◌≡◌, true, ◌==◌, not, length};
ghost use Rattle.std.specs.List.{list_all, list_any};
ghost use Rattle.subnet_model.specs.Configured.{IsConfigured, is_known_key};
ghost use Rattle.sa_model.specs.Sound.{pairwise};
ghost use Rattle.sa_store.specs.NodePorts.{configured};
ghost use Rattle.sa_store.specs.Premises.{are_known_keys, are_sound, have_lids_from, other_base, other_guid};

use crate::node_port::NodePort;
use fabric_parts::{ADAPTER_PORTS, SWITCHES};
use partition_file::{Heading, Members};
use pkey_rules::{KeyTable, PARTITIONS, PKey};

/// Whether these are the ports and the keys of a subnet of ours: keys for each port, no two ports have one GUID, their LIDs
/// count from 1 in their order, they are no more than a fabric has, and each holds at most one key of each partition, and no
/// other key. So [`crate::Store::new`] requires it.
pub fn are_configured(ports: &[NodePort], members: &Members) -> bool
    ensures value { result ≡ are_sound ports.now members.now.headings members.now.keys }
    ensures each { result ≡ true → length members.now.keys ≡ length ports.now }
    ensures configured { result ≡ true → IsConfigured (configured ports.now members.now) }
{
    are_sound(ports, members.headings(), members.keys())
}

fn are_sound(ports: &[NodePort], headings: &[Heading], keys: &[KeyTable<PARTITIONS>]) -> bool
    ensures { result ≡ are_sound ports.now headings.now keys.now }
{
    keys.len() == ports.len()
        && have_own_guids(ports)
        && have_lids_in_order(ports)
        && ports.len() <= SWITCHES + ADAPTER_PORTS
        && all_hold_known_keys(headings, keys)
}

fn have_own_guids(ports: &[NodePort]) -> bool
    ensures { result ≡ pairwise other_guid ports.now }
{
    for (place, port) in ports.iter().enumerate() {
        if !is_other_in(port.guid, &ports[place + 1..]) {
            return false;
        }
    }
    true
}

/// Whether each of these ports has another GUID.
fn is_other_in(guid: u64, ports: &[NodePort]) -> bool
    ensures { result ≡ list_all (λ port. not (guid == port.guid)) ports.now }
{
    ports.iter().all(|port| guid != port.guid)
}

fn have_lids_in_order(ports: &[NodePort]) -> bool
    ensures { result ≡ have_lids_from 1 ports.now }
{
    for (place, port) in ports.iter().enumerate() {
        if usize::from(port.lid) != place + 1 {
            return false;
        }
    }
    true
}

fn all_hold_known_keys(headings: &[Heading], keys: &[KeyTable<PARTITIONS>]) -> bool
    ensures { result ≡ list_all (are_known_keys headings.now) keys.now }
{
    keys.iter().all(|table| are_known_keys(headings, table))
}

/// Whether a table has at most one key of each of these partitions, and no other.
fn are_known_keys(headings: &[Heading], table: &KeyTable<PARTITIONS>) -> bool
    ensures { result ≡ are_known_keys headings.now table.now }
{
    let keys = table.as_slice();
    have_own_bases(keys) && are_all_known(headings, keys) && keys.len() <= PARTITIONS
}

fn have_own_bases(keys: &[PKey]) -> bool
    ensures { result ≡ pairwise other_base keys.now }
{
    for (place, key) in keys.iter().enumerate() {
        if !is_other_base_in(*key, &keys[place + 1..]) {
            return false;
        }
    }
    true
}

/// Whether each of these keys is of another partition.
fn is_other_base_in(key: PKey, keys: &[PKey]) -> bool
    ensures { result ≡ list_all (other_base key) keys.now }
{
    keys.iter().all(|other| key.base() != other.base())
}

fn are_all_known(headings: &[Heading], keys: &[PKey]) -> bool
    ensures { result ≡ list_all (is_known_key headings.now) keys.now }
{
    keys.iter().all(|key| is_known(headings, *key))
}

/// Whether the key is of one of these partitions.
fn is_known(headings: &[Heading], key: PKey) -> bool
    ensures { result ≡ is_known_key headings.now key }
{
    is_base_in(headings, key.base())
}

fn is_base_in(headings: &[Heading], base: u16) -> bool
    ensures { result ≡ list_any (λ heading. heading.base == base) headings.now }
{
    headings.iter().any(|heading| heading.base == base)
}
