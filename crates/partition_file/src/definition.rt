//! A definition as it is read, and the list of all.

ghost use Rattle.std.specs.Prelude.{◌≡◌, ◌≤◌, ◌++◌, ◌∷◌, [], true, OnOk, OnErr, IfOk};
ghost use Rattle.pkey_rules.specs.declared.key_table.TheConstants.{PARTITIONS};
ghost use Rattle.partition_file.specs.Counting.{further, has_base, bases_given, one_if_none, partition_count, with_base, with_given};
ghost use Rattle.partition_file.specs.ScanState.{blank};
ghost use Rattle.partition_file.specs.Sound.{AreSound, are_within, is_sound_base};

use crate::flag::Flags;
use crate::item::ItemList;
use pkey_rules::DEFAULT_BASE;
use std::alloc::{AllocError, Global};
use std::marker::Model;

/// The name of a partition, which may be empty.
#[derive(Debug, Drop)]
pub struct PartitionName {
    bytes: Vec<u8>,
}

impl Model for PartitionName {
    ghost use Rattle.std.specs.Prelude.{ℕ, List};

    ghost Value = { List ℕ };

    ghost view = { λ name. name.bytes.items };
}

impl Clone for PartitionName {
    ghost use Rattle.std.specs.Prelude.{◌≡◌};

    ghost is_clone = { λ name copy. copy ≡ name };

    ghost is_infallible = { λ _. ⊥ };

    fn clone(&self) -> Result<Self, AllocError> {
        let bytes = self.bytes.clone()?;
        Ok(PartitionName { bytes })
    }
}

impl PartitionName {
    pub(crate) fn empty(alloc: Global) -> PartitionName
        ensures { result ≡ [] }
    {
        PartitionName {
            bytes: Vec::new(alloc),
        }
    }

    pub(crate) fn from_vec(bytes: Vec<u8>) -> PartitionName
        ensures { result ≡ bytes.items }
    {
        PartitionName { bytes }
    }

    pub(crate) fn from_slice(alloc: Global, bytes: &[u8]) -> Result<PartitionName, AllocError>
        ensures { IfOk result (λ name. name ≡ bytes.now) }
    {
        let bytes = Vec::from_slice(alloc, bytes)?;
        Ok(PartitionName { bytes })
    }

    /// The name as it is written, with one blank for each run of white space.
    pub fn as_bytes(&self) -> &[u8]
        ensures { result.now ≡ self.now }
    {
        self.bytes.as_slice()
    }
}

/// What a definition says.
#[derive(Drop)]
pub(crate) struct Definition {
    pub(crate) name: PartitionName,
    /// The base that it names.
    pub(crate) base: Option<u16>,
    pub(crate) flags: Flags,
    pub(crate) items: ItemList,
}

impl Definition {
    pub(crate) fn blank(alloc: Global) -> Definition
        ensures { result ≡ blank }
    {
        Definition {
            name: PartitionName::empty(alloc),
            base: None,
            flags: Flags::new(),
            items: ItemList::new(alloc),
        }
    }
}

/// Definitions in the order of the text, with what their limit is asked of kept beside them.
#[derive(Drop)]
pub(crate) struct DefinitionList {
    definitions: Vec<Definition>,
    // The default base and those that the definitions name, each once.
    bases: Vec<u16>,
    // How many of them name none.
    unnamed: usize,
}

impl Model for DefinitionList {
    ghost use Rattle.std.specs.Prelude.{List};
    ghost use Rattle.partition_file.specs.declared.definition.Definition.{Definition};
    ghost use Rattle.partition_file.specs.Sound.{AreCounted};

    ghost Value = { List Definition };

    ghost view = { λ list. list.definitions.items };

    ghost invariant = { λ list. AreCounted list.definitions.items list.bases.items list.unnamed };
}

impl DefinitionList {
    pub(crate) fn new(alloc: Global) -> Result<DefinitionList, AllocError>
        ensures { IfOk result (λ list. list ≡ []) }
    {
        let mut bases = Vec::new(alloc);
        bases.push(DEFAULT_BASE)?;
        Ok(DefinitionList {
            definitions: Vec::new(alloc),
            bases,
            unnamed: 0,
        })
    }

    pub(crate) fn as_slice(&self) -> &[Definition]
        ensures value { result.now ≡ self.now }
        ensures sound { AreSound result.now }
    {
        self.definitions.as_slice()
    }

    /// How many partitions there are with one more definition, which names this base.
    pub(crate) fn count_with(&self, base: Option<u16>) -> usize
        ensures { result ≡ partition_count (bases_given self.now ++ base ∷ []) }
    {
        self.bases.len() + self.unnamed + further(&self.bases, base)
    }

    /// Adds a definition at the end. It can only run out of memory, and then the list stays as it was.
    pub(crate) fn push(&mut self, definition: Definition) -> Result<(), AllocError>
        requires valid { is_sound_base definition.base ≡ true }
        requires flags { are_within definition.flags ≡ true }
        requires room { partition_count (bases_given self.old ++ definition.base ∷ []) ≤ PARTITIONS }
        ensures ok { OnOk result (self.new ≡ self.old ++ definition ∷ []) }
        ensures err { OnErr result (self.new ≡ self.old) }
    {
        self.definitions.reserve(1)?;
        note_base(&mut self.bases, definition.base)?;
        self.unnamed += one_if_none(definition.base);
        self.definitions.push(definition)?;
        Ok(())
    }
}

/// How many partitions one more definition makes beside those of these bases, if it names this one.
fn further(seen: &[u16], base: Option<u16>) -> usize
    ensures value { result ≡ further seen.now base }
    ensures within { result ≤ 1 }
{
    match base {
        Some(base) if has_base(base, seen) => 0,
        _ => 1,
    }
}

fn one_if_none(base: Option<u16>) -> usize
    ensures value { result ≡ one_if_none base }
    ensures within { result ≤ 1 }
{
    match base {
        Some(_) => 0,
        None => 1,
    }
}

fn note_base(seen: &mut Vec<u16>, base: Option<u16>) -> Result<(), AllocError>
    ensures ok { OnOk result (seen.new.items ≡ with_given seen.old.items base) }
    ensures err { OnErr result (seen.new.items ≡ seen.old.items) }
{
    match base {
        Some(base) => add_base(seen, base),
        None => Ok(()),
    }
}

/// Adds a base that is not there yet.
pub(crate) fn add_base(seen: &mut Vec<u16>, base: u16) -> Result<(), AllocError>
    ensures ok { OnOk result (seen.new.items ≡ with_base seen.old.items base) }
    ensures err { OnErr result (seen.new.items ≡ seen.old.items) }
{
    if has_base(base, seen) {
        return Ok(());
    }
    seen.push(base)?;
    Ok(())
}

pub(crate) fn has_base(base: u16, seen: &[u16]) -> bool
    ensures { result ≡ has_base base seen.now }
{
    seen.iter().any(|other| *other == base)
}
