//! What joins and leaves change in the store.

ghost use Rattle.std.specs.Prelude.{◌≡◌, ◌<◌, ◌&&◌, true, if◌then◌else◌, [], ◌∷◌, get_or, length};
ghost use Rattle.std.specs.Prelude.{IfOk, IsSome, OnOk, OnErr};
ghost use Rattle.subnet_model.specs.declared.subnet_port.SubnetPort.{SubnetPort};
ghost use Rattle.sa_model.specs.Groups.{PartitionGroups};
ghost use Rattle.sa_model.specs.Joining.{joined, may_create};
ghost use Rattle.sa_model.specs.Leaving.{left};
ghost use Rattle.sa_model.specs.Members.{is_in};
ghost use Rattle.sa_replies.specs.Joins.{takes_some};
ghost use Rattle.sa_store.specs.Members.{CanJoin, receives_anew, place_with_base};
ghost use Rattle.sa_store.specs.Receiving.{is_adapter};
ghost use Rattle.sa_store.specs.Registry.{IsListed, changed_between, with_partitions};

use crate::by_guid::{is_adapter, is_full_member};
use crate::joining::Join;
use crate::leaving::{Leave, leave_partitions};
use crate::mlid_range::MlidRange;
use crate::store::Store;
use arrayvec::ArrayVec;
use bitflags::Flags;
use mad_layout::JoinState;
use pkey_rules::PARTITIONS;
use std::alloc::AllocError;

impl Store {
    /// The place of the partition of a base: there is one if a port of the subnet is in it.
    pub fn partition_of(&self, base: u16) -> Option<usize>
        requires { base < 0x8000 }
        ensures value { result ≡ place_with_base self.now.administration.remembered.partitions base }
        ensures there { (own : SubnetPort) → IsListed self.now.configuration.ports own → is_in own base ≡ true → IsSome result }
    {
        place_with_base(&self.partitions, base)
    }

    /// Whether a port may make the group that it joins.
    pub fn may_make(&self, join: &Join) -> bool
        ensures { result ≡ may_create self.now.configuration.ports join.now }
    {
        is_full_member(&self.kept, &self.places, join.base, join.port)
            && join.join_state.contains(JoinState::FULL_MEMBER)
    }

    /// A port joins its group in the partition of that place, or makes it; the number of the partition, if its
    /// receivers changed.
    pub fn join(
        &mut self,
        place: usize,
        join: &Join,
    ) -> Result<ArrayVec<u16, PARTITIONS>, AllocError>
        requires { CanJoin self.old.configuration.ports join.now self.old.administration.remembered.partitions place }
        ensures next { OnOk result (self.new ≡ with_partitions
            (joined self.old.configuration.ports join.now self.old.administration.remembered.partitions) self.old) }
        ensures numbers { IfOk result (λ numbers. numbers.items ≡ changed_between self.old self.new) }
        ensures err { OnErr result (self.new ≡ self.old) }
    {
        let is_new = self.receives_anew(place, join);
        let partition = &mut self.partitions[place];
        partition.enter(self.alloc, join)?;
        Ok(only_if(is_new, partition.number()))
    }

    /// Whether a port of an adapter receives by a join in the partition of that place, and did not receive before.
    fn receives_anew(&self, place: usize, join: &Join) -> bool
        requires { place < length self.now.administration.remembered.partitions }
        ensures { (d : PartitionGroups) → result ≡ (receives_anew join.now (get_or self.now.administration.remembered.partitions place d)
            && is_adapter self.now.configuration.ports join.now.port) }
    {
        self.partitions[place].receives_anew(join)
            && is_adapter(&self.kept, &self.places, join.port)
    }

    /// Whether a leave takes some bit of a membership.
    pub fn takes_some(&self, leave: &Leave) -> bool
        ensures { result ≡ takes_some leave.now self.now.administration.remembered.partitions }
    {
        self.partitions
            .iter()
            .any(|partition| partition.takes_some(leave))
    }

    /// A port leaves its group in each partition that it names; the numbers of those whose receivers changed.
    pub fn leave(&mut self, leave: &Leave) -> ArrayVec<u16, PARTITIONS>
        ensures next { self.new ≡ with_partitions
            (left self.old.configuration.ports leave.now self.old.administration.remembered.partitions) self.old }
        ensures numbers { result.items ≡ changed_between self.old self.new }
    {
        leave_partitions(&mut self.partitions, &self.kept, &self.places, leave)
    }
}

/// The place of the partition of a base, if there is one.
fn place_with_base(partitions: &[MlidRange], base: u16) -> Option<usize>
    ensures { result ≡ place_with_base partitions.now base }
{
    partitions
        .iter()
        .position(|partition| partition.base() == base)
}

/// This number alone, or none.
fn only_if(is_so: bool, number: u16) -> ArrayVec<u16, PARTITIONS>
    ensures { result.items ≡ (if is_so then number ∷ [] else []) }
{
    let mut numbers = ArrayVec::new();
    if is_so {
        numbers.push(number);
    }
    numbers
}
