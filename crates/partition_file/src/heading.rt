//! A partition without its members.

ghost use Rattle.std.specs.Prelude.{◌≡◌, IfOk, option_map};
ghost use Rattle.partition_file.specs.Members.{heading_of};
ghost use Rattle.partition_file.specs.Partitions.{mgid_of};

use crate::broadcast_group::{BroadcastGroup, mgid_of};
use crate::definition::PartitionName;
use crate::partition::Partition;
use std::alloc::{AllocError, Global};

/// What a partition is, beside its members.
#[derive(Debug, Drop)]
pub struct Heading {
    /// The low 15 bits of its keys, from 1 to 0x7fff.
    pub base: u16,
    /// The name of its first definition.
    pub name: PartitionName,
    /// The group that a definition with `ipoib` makes.
    pub group: Option<BroadcastGroup>,
}

impl Clone for Heading {
    ghost use Rattle.std.specs.Prelude.{◌≡◌};

    ghost is_clone = { λ heading copy. copy ≡ heading };

    ghost is_infallible = { λ _. ⊥ };

    fn clone(&self) -> Result<Self, AllocError> {
        let name = self.name.clone()?;
        Ok(Heading {
            base: self.base,
            name,
            group: self.group,
        })
    }
}

impl Heading {
    pub(crate) fn of(alloc: Global, partition: &Partition) -> Result<Heading, AllocError>
        ensures { IfOk result (λ heading. heading ≡ heading_of partition.now) }
    {
        let name = PartitionName::from_slice(alloc, partition.name.as_bytes())?;
        Ok(Heading {
            base: partition.base,
            name,
            group: partition.group,
        })
    }

    /// The MGID of its group: the broadcast group of IP over InfiniBand (RFC 4391).
    pub fn mgid(&self) -> Option<[u8; 16]>
        ensures { result ≡ option_map (λ group. mgid_of group.scope self.now.base) self.now.group }
    {
        let group = self.group?;
        Some(mgid_of(group.scope, self.base))
    }
}
