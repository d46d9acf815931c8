//! The MLID range of a partition, and its multicast groups.

ghost use Rattle.std.specs.Prelude.{◌≡◌, ◌<◌, ◌+◌, ◌∷◌, true, None, length, replicate, IfOk};
ghost use Rattle.partition_file.specs.Sound.{has_fit_group};
ghost use Rattle.pkey_rules.specs.PKey.{is_base};
ghost use Rattle.sa_model.specs.Groups.{file_groups, first_mlid};
ghost use Rattle.sa_model.specs.Sound.{is_in_range};
ghost use Rattle.sa_store.specs.MlidRange.{file_group, partition_in};

use crate::group::Group;
use fabric_parts::FIRST_MULTICAST_LID;
use partition_file::Heading;
use pkey_rules::PARTITIONS;
use std::alloc::{AllocError, Global};
use std::marker::Model;

/// How many MLIDs a partition has of its own, and so how many slots.
pub(crate) const SLOTS: usize = 32;

/// The groups of the partition of this number and base. The one of its MLID `j`, counted from 0, stands in slot `j`, with
/// its memberships beneath it; and bit `j` of a set says whether that slot is free.
#[derive(Drop)]
pub struct MlidRange {
    number: u16,
    base: u16,
    pub(crate) slots: Vec<Option<Group>>,
    pub(crate) free: u32,
}

impl Model for MlidRange {
    ghost use Rattle.sa_model.specs.Groups.{PartitionGroups};
    ghost use Rattle.sa_store.specs.MlidRange.{AreSlots, partition_in};

    ghost Value = { PartitionGroups };

    ghost view = { λ partition. partition_in partition.number partition.base partition.slots.items };

    ghost invariant = { λ partition. AreSlots partition.number partition.base partition.slots.items partition.free };
}

impl MlidRange {
    /// The slots of a partition before anybody joins: the partition file's group has the first, if there is one.
    pub(crate) fn of_file(
        alloc: Global,
        number: u16,
        heading: &Heading,
    ) -> Result<MlidRange, AllocError>
        requires number { number < PARTITIONS }
        requires base { is_base heading.now.base ≡ true }
        requires group { has_fit_group heading.now.group ≡ true }
        ensures { IfOk result (λ partition. partition
            ≡ record { number = number; base = heading.now.base; groups = file_groups number heading.now.base heading.now.group }) }
    {
        let first = file_group(alloc, heading);
        let free = if first.is_some() {
            u32::MAX - 1
        } else {
            u32::MAX
        };
        Ok(MlidRange {
            number,
            base: heading.base,
            slots: slots_from(alloc, first)?,
            free,
        })
    }

    /// The number of the partition.
    pub fn number(&self) -> u16
        ensures { result ≡ self.now.number }
    {
        self.number
    }

    /// The base of the partition.
    pub fn base(&self) -> u16
        ensures value { result ≡ self.now.base }
        ensures within { result < 0x8000 }
    {
        self.base
    }

    /// The slots.
    pub fn as_slice(&self) -> &[Option<Group>]
        ensures value { self.now ≡ partition_in self.now.number self.now.base result.now }
        ensures all { length result.now ≡ 32 }
    {
        self.slots.as_slice()
    }

    /// The MLID of the group in a slot.
    pub fn mlid_of(&self, place: usize) -> u16
        requires { place < 32 }
        ensures { result ≡ first_mlid self.now.number + place }
    {
        self.first_mlid() + place as u16
    }

    /// Whether an MLID is one of those of the partition.
    pub fn has_mlid(&self, mlid: u16) -> bool
        ensures { result ≡ is_in_range self.now.number mlid }
    {
        let first = self.first_mlid();
        first <= mlid && mlid < first + SLOTS as u16
    }

    fn first_mlid(&self) -> u16
        ensures value { result ≡ first_mlid self.now.number }
        ensures within { result + 32 < 65536 }
    {
        FIRST_MULTICAST_LID + SLOTS as u16 * self.number
    }
}

/// The group that the partition file makes in a partition.
fn file_group(alloc: Global, heading: &Heading) -> Option<Group>
    requires { has_fit_group heading.now.group ≡ true }
    ensures { result ≡ file_group heading.now.base heading.now.group }
{
    match (heading.mgid(), &heading.group) {
        (Some(mgid), Some(group)) => Some(Group::of_file(alloc, u128::from_be_bytes(mgid), group)),
        _ => None,
    }
}

/// A slot with that, and the others free.
fn slots_from(alloc: Global, first: Option<Group>) -> Result<Vec<Option<Group>>, AllocError>
    ensures { IfOk result (λ slots. slots.items ≡ first ∷ replicate 31 None) }
{
    let mut slots = Vec::new(alloc);
    slots.push(first)?;
    for _slot in 0..SLOTS - 1 {
        slots.push(None)?;
    }
    Ok(slots)
}
