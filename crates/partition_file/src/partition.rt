//! A partition: all that definitions say of one base.

ghost use Rattle.std.specs.Prelude.{◌≡◌, ◌≤◌, length};
ghost use Rattle.pkey_rules.specs.declared.key_table.TheConstants.{PARTITIONS};
ghost use Rattle.partition_file.specs.Sound.{IsSound};

use crate::broadcast_group::BroadcastGroup;
use crate::definition::PartitionName;
use crate::item::ItemList;
use std::marker::Model;

/// A partition of the subnet.
#[derive(Debug, Drop)]
pub struct Partition {
    /// The low 15 bits of its keys, from 1 to 0x7fff.
    pub base: u16,
    /// The name of its first definition.
    pub name: PartitionName,
    /// The group that a definition with `ipoib` makes.
    pub group: Option<BroadcastGroup>,
    /// What all its definitions list, in order; in the default partition also what belongs there
    /// without being listed.
    pub items: ItemList,
}

/// The partitions of a subnet. The place in the list is a partition's number, and number 0 is the
/// default partition, of base 0x7fff.
#[derive(Debug, Drop)]
pub struct Partitions {
    pub(crate) partitions: Vec<Partition>,
}

impl Model for Partitions {
    ghost use Rattle.std.specs.Prelude.{List};
    ghost use Rattle.partition_file.specs.declared.partition.Partition.{Partition};
    ghost use Rattle.partition_file.specs.Sound.{IsSound};

    ghost Value = { List Partition };

    ghost view = { λ all. all.partitions.items };

    ghost invariant = { λ all. IsSound all.partitions.items };
}

impl Partitions {
    /// The partitions, in order of their numbers: at least the default one, at most
    /// [`PARTITIONS`](pkey_rules::PARTITIONS), and no two of one base.
    #[tactic(auto, using(crate::proofs::SoundLemmas::few_partitions))]
    pub fn as_slice(&self) -> &[Partition]
        ensures value { result.now ≡ self.now }
        ensures sound { IsSound result.now }
        ensures count { length result.now ≤ PARTITIONS }
    {
        self.partitions.as_slice()
    }
}
