//! The partitions that definitions make, and the one that there is without a file.

ghost use Rattle.std.specs.Prelude.{◌≡◌, ◌++◌, IfOk, OnOk, option_map, find};
ghost use Rattle.partition_file.specs.Partitions.{bases_of, built_in, group_of, is_of, is_ruled, listed, name_of, partition_of, partitions_by, partitions_in};
ghost use Rattle.partition_file.specs.Members.{no_file};
ghost use Rattle.partition_file.specs.Sound.{AreSound};

use crate::broadcast_group::BroadcastGroup;
use crate::definition::{Definition, PartitionName, add_base};
use crate::item::{Item, ItemList, Ports};
use crate::partition::{Partition, Partitions};
use crate::rules::{Rule, rules_of};
use pkey_rules::DEFAULT_BASE;
use std::alloc::{AllocError, Global};

const ALL_FULL: Item = Item {
    ports: Ports::All,
    full: true,
};

const ALL_LIMITED: Item = Item {
    ports: Ports::All,
    full: false,
};

const MANAGER_FULL: Item = Item {
    ports: Ports::Manager,
    full: true,
};

/// The default base, then each other as it first appears.
fn bases_of(alloc: Global, rules: &[Rule]) -> Result<Vec<u16>, AllocError>
    ensures { IfOk result (λ bases. bases.items ≡ bases_of rules.now) }
{
    let mut bases = Vec::new(alloc);
    bases.push(DEFAULT_BASE)?;
    for rule in rules {
        add_base(&mut bases, rule.base())?;
    }
    Ok(bases)
}

fn is_ruled(rules: &[Rule], base: u16) -> bool
    ensures { result ≡ is_ruled base rules.now }
{
    rules.iter().any(|rule| rule.is_of(base))
}

fn name_of(alloc: Global, rules: &[Rule], base: u16) -> Result<PartitionName, AllocError>
    ensures { IfOk result (λ name. name ≡ name_of rules.now base) }
{
    match first_name(rules, base) {
        Some(name) => PartitionName::from_slice(alloc, name),
        None => PartitionName::from_slice(alloc, b"Default"),
    }
}

fn first_name<'a>(rules: &'a [Rule<'_>], base: u16) -> Option<&'a [u8]>
    ensures { option_map (λ name. name.now) result ≡ option_map (λ rule. rule.definition.name) (find (is_of base) rules.now) }
{
    rules
        .iter()
        .find(|rule| rule.is_of(base))
        .map(|rule| rule.name())
}

fn group_of(rules: &[Rule], base: u16) -> Option<BroadcastGroup>
    ensures { result ≡ group_of rules.now base }
{
    rules
        .iter()
        .find(|rule| rule.makes_group(base))
        .map(|rule| rule.group())
}

fn listed(alloc: Global, rules: &[Rule], base: u16) -> Result<ItemList, AllocError>
    ensures { IfOk result (λ items. items ≡ listed rules.now base) }
{
    let mut items = ItemList::new(alloc);
    for rule in rules {
        items.extend(rule.listed_by(base))?;
    }
    Ok(items)
}

/// Adds what belongs to the default partition without being listed.
fn add_built_in(items: &mut ItemList, rules: &[Rule], base: u16) -> Result<(), AllocError>
    ensures { OnOk result (items.new ≡ items.old ++ built_in rules.now base) }
{
    if base != DEFAULT_BASE {
        return Ok(());
    }
    if is_ruled(rules, base) {
        return items.push(MANAGER_FULL);
    }
    items.push(MANAGER_FULL)?;
    items.push(ALL_LIMITED)
}

fn partition_of(alloc: Global, rules: &[Rule], base: u16) -> Result<Partition, AllocError>
    ensures { IfOk result (λ partition. partition ≡ partition_of rules.now base) }
{
    let name = name_of(alloc, rules, base)?;
    let group = group_of(rules, base);
    let mut items = listed(alloc, rules, base)?;
    add_built_in(&mut items, rules, base)?;
    Ok(Partition {
        base,
        name,
        group,
        items,
    })
}

fn partitions_by(alloc: Global, rules: &[Rule]) -> Result<Vec<Partition>, AllocError>
    ensures { IfOk result (λ partitions. partitions.items ≡ partitions_by rules.now) }
{
    let bases = bases_of(alloc, rules)?;
    let mut partitions = Vec::new(alloc);
    for base in &bases {
        let partition = partition_of(alloc, rules, *base)?;
        partitions.push(partition)?;
    }
    Ok(partitions)
}

/// The partitions that definitions make.
pub(crate) fn partitions_in(
    alloc: Global,
    definitions: &[Definition],
) -> Result<Partitions, AllocError>
    requires { AreSound definitions.now }
    ensures { IfOk result (λ all. all ≡ partitions_in definitions.now) }
{
    let rules = rules_of(alloc, definitions)?;
    let partitions = partitions_by(alloc, &rules)?;
    Ok(Partitions { partitions })
}

/// The partitions of a subnet without a file: the default one, of which every end port is a full
/// member.
pub fn no_file(alloc: Global) -> Result<Partitions, AllocError>
    ensures { IfOk result (λ partitions. partitions ≡ no_file) }
{
    let name = PartitionName::from_slice(alloc, b"Default")?;
    let mut items = ItemList::new(alloc);
    items.push(ALL_FULL)?;
    items.push(MANAGER_FULL)?;
    let mut partitions = Vec::new(alloc);
    partitions.push(Partition {
        base: DEFAULT_BASE,
        name,
        group: None,
        items,
    })?;
    Ok(Partitions { partitions })
}
