//! The base of each definition's partition.

ghost use Rattle.std.specs.Prelude.{◌≡◌, IfOk, OnOk, filter_map};
ghost use Rattle.partition_file.specs.Counting.{has_base};
ghost use Rattle.partition_file.specs.Partitions.{base_for, first_free, group_by, is_of, least_free, listed_by, makes_group, rules_of, taken_after};

use crate::broadcast_group::BroadcastGroup;
use crate::definition::{Definition, has_base};
use crate::item::Item;
use pkey_rules::BASES;
use std::alloc::{AllocError, Global};
use std::marker::Model;

/// A definition with the base of its partition.
#[derive(Drop)]
pub(crate) struct Rule<'a> {
    base: u16,
    definition: &'a Definition,
}

impl<'a> Model for Rule<'a> {
    ghost use Rattle.partition_file.specs.Partitions.{RuleState};

    ghost Value = { RuleState };

    ghost view = { λ rule. record { base = rule.base; definition = rule.definition.now } };
}

impl Rule<'_> {
    pub(crate) fn base(&self) -> u16
        ensures { result ≡ self.now.base }
    {
        self.base
    }

    pub(crate) fn is_of(&self, base: u16) -> bool
        ensures { result ≡ is_of base self.now }
    {
        self.base == base
    }

    pub(crate) fn makes_group(&self, base: u16) -> bool
        ensures { result ≡ makes_group base self.now }
    {
        self.base == base && self.definition.flags.ipoib
    }

    pub(crate) fn group(&self) -> BroadcastGroup
        ensures { result ≡ group_by self.now.definition.flags }
    {
        BroadcastGroup::new(self.definition.flags)
    }

    pub(crate) fn name(&self) -> &[u8]
        ensures { result.now ≡ self.now.definition.name }
    {
        self.definition.name.as_bytes()
    }

    /// What it lists for the partition of this base.
    pub(crate) fn listed_by(&self, base: u16) -> &[Item]
        ensures { result.now ≡ listed_by base self.now }
    {
        if self.base == base {
            return self.definition.items.as_slice();
        }
        &[]
    }
}

/// The least base from 1 that is not taken.
fn least_free(taken: &[u16]) -> u16
    ensures { result ≡ least_free taken.now }
{
    // There is one: no more bases are taken than there may be partitions.
    first_free(taken).unwrap_or(1)
}

#[tactic(auto, unfolding(crate::specs::Partitions::first_free))]
fn first_free(taken: &[u16]) -> Option<u16>
    ensures { result ≡ first_free taken.now }
{
    (1..BASES).find(|base| !has_base(*base, taken))
}

/// The base of a definition, which is taken from then on.
fn take_base(taken: &mut Vec<u16>, named: Option<u16>) -> Result<u16, AllocError>
    ensures base { IfOk result (λ base. base ≡ base_for taken.old.items named) }
    ensures taken { OnOk result (taken.new.items ≡ taken_after taken.old.items named) }
{
    match named {
        Some(base) => Ok(base),
        None => {
            let base = least_free(taken);
            taken.push(base)?;
            Ok(base)
        }
    }
}

/// The bases that definitions name.
fn named(alloc: Global, definitions: &[Definition]) -> Result<Vec<u16>, AllocError>
    ensures { IfOk result (λ bases. bases.items ≡ filter_map (λ definition. definition.base) definitions.now) }
{
    definitions
        .iter()
        .filter_map(|definition| definition.base)
        .collect(alloc)
}

/// Each definition with its base. One that names none has the least that no other has.
pub(crate) fn rules_of(
    alloc: Global,
    definitions: &[Definition],
) -> Result<Vec<Rule<'_>>, AllocError>
    ensures { IfOk result (λ rules. rules.items ≡ rules_of definitions.now) }
{
    let mut taken = named(alloc, definitions)?;
    let mut rules = Vec::new(alloc);
    for definition in definitions {
        let base = take_base(&mut taken, definition.base)?;
        rules.push(Rule { base, definition })?;
    }
    Ok(rules)
}
