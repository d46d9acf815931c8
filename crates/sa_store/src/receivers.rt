//! Who receives what is sent to multicast groups.

ghost use Rattle.std.specs.Prelude.{ℕ, ◌≡◌, ◌++◌, true, List, IfOk, OnOk, IsErr};
ghost use Rattle.std.specs.List.{list_all, list_any};
ghost use Rattle.subnet_model.specs.declared.subnet_port.SubnetPort.{SubnetPort as Port};
ghost use Rattle.sa_model.specs.Delivery.{receives};
ghost use Rattle.sa_model.specs.Groups.{lower_port};
ghost use Rattle.sa_model.specs.JoinState.{is_receiver};
ghost use Rattle.sa_model.specs.Receivers.{group_receivers, receivers_in, receivers_of, receives_group};
ghost use Rattle.sa_model.specs.Sound.{pairwise};
ghost use Rattle.sa_replies.specs.Joins.{join_state_of};
ghost use Rattle.sa_store.specs.Kept.{ports_of};
ghost use Rattle.sa_store.specs.Receiving.{ReportsAdapters, is_receiving};
ghost use Rattle.sa_store.specs.MlidRange.{with_mlid};

use crate::group::{Group, Membership};
use crate::kept_port::KeptPort;
use crate::mlid_range::MlidRange;
use crate::store::Store;
use mad_layout::JoinState;
use std::alloc::AllocError;
use subnet_model::{GroupReceiver, SubnetPort};

/// The bits of a JoinState by which a port receives (IBA volume 1, 15.2.5).
const RECEIVERS: u8 = JoinState::FULL_MEMBER.0 | JoinState::NON_MEMBER.0;

impl Store {
    /// Who receives what is sent to the multicast groups of the partition of this number: pairs of an MLID and the LID of a
    /// channel adapter's port, by MLID and then by LID. None for a number that no partition has.
    ///
    /// It can only run out of memory, and the registry stays as it is; one in which an allocation failed before refuses this too.
    ///
    /// Source: IBA volume 1, 15.2.5 (JoinState): ports that joined as SendOnlyNonMember receive nothing.
    pub fn receivers(&self, partition: u16) -> Result<Vec<GroupReceiver>, AllocError>
        ensures value { IfOk result (λ receivers. receivers.items
            ≡ receivers_of self.now.configuration.ports partition self.now.administration.remembered.partitions) }
        ensures broken { self.now.is_broken ≡ true → IsErr result }
    {
        if self.is_broken {
            return Err(AllocError);
        }
        let kept = self.kept();
        let partitions = self.partitions();
        let mut receivers = Vec::new(self.alloc);
        for slots in partitions {
            if slots.number() == partition {
                push_receivers(&mut receivers, kept, slots)?;
            }
        }
        Ok(receivers)
    }
}

/// Adds the receivers of the groups of a partition, whose memberships stand by port.
fn push_receivers(
    receivers: &mut Vec<GroupReceiver>,
    kept: &[KeptPort],
    partition: &MlidRange,
) -> Result<(), AllocError>
    requires { list_all (λ group. pairwise lower_port group.memberships) partition.now.groups ≡ true }
    ensures { OnOk result (receivers.new.items ≡ receivers.old.items ++ receivers_in (ports_of kept.now) partition.now) }
{
    let slots = partition.as_slice();
    for (place, slot) in slots.iter().enumerate() {
        if let Some(group) = slot {
            push_receivers_of_group(receivers, kept, partition.mlid_of(place), group)?;
        }
    }
    Ok(())
}

/// Adds those of the group that has an MLID, whose memberships stand by port.
fn push_receivers_of_group(
    receivers: &mut Vec<GroupReceiver>,
    kept: &[KeptPort],
    mlid: u16,
    group: &Group,
) -> Result<(), AllocError>
    requires { pairwise lower_port group.now.memberships ≡ true }
    ensures { OnOk result (receivers.new.items
        ≡ receivers.old.items ++ group_receivers (ports_of kept.now) (with_mlid mlid group.now)) }
{
    for one in kept {
        let port = one.port();
        if receives_group(port, group) {
            receivers.push(GroupReceiver {
                mlid,
                lid: port.lid,
            })?;
        }
    }
    Ok(())
}

/// Whether a port is one of a channel adapter, and takes part in a group as one that receives.
fn receives_group(port: &SubnetPort, group: &Group) -> bool
    requires { pairwise lower_port group.now.memberships ≡ true }
    ensures { (mlid : ℕ) → result ≡ receives_group (with_mlid mlid group.now) port.now }
{
    !port.node_type.is_switch() && some_receives(&group.memberships, port.guid)
}

/// Whether the port of a GUID receives by one of these memberships, which stand by port.
fn some_receives(memberships: &[Membership], guid: u64) -> bool
    requires { pairwise lower_port memberships.now ≡ true }
    ensures { result ≡ list_any (receives guid) memberships.now }
{
    let place = memberships.partition_point(|membership| membership.port < guid);
    match memberships.get(place) {
        Some(membership) => membership.receives(guid),
        None => false,
    }
}

/// Whether a port of a channel adapter receives by one of these memberships, by a test that reports such ports.
pub(crate) fn some_receiving<A: Fn(u64) -> bool>(memberships: &[Membership], is_adapter: &A) -> bool
    requires { A.IsAlwaysCallable is_adapter.now }
    ensures { (ports : List Port) → ReportsAdapters (A.post is_adapter.now) ports
        → result ≡ list_any (is_receiving ports) memberships.now }
{
    for membership in memberships {
        if membership.is_receiving(is_adapter) {
            return true;
        }
    }
    false
}

impl Membership {
    /// Whether by it the port of a GUID receives.
    pub(crate) fn receives(&self, guid: u64) -> bool
        ensures { result ≡ receives guid self.now }
    {
        self.port == guid && is_receiver(self.join_state)
    }

    /// Whether by it a port of a channel adapter receives, by a test that reports such ports.
    fn is_receiving<A: Fn(u64) -> bool>(&self, is_adapter: &A) -> bool
        requires { A.IsAlwaysCallable is_adapter.now }
        ensures { (ports : List Port) → ReportsAdapters (A.post is_adapter.now) ports → result ≡ is_receiving ports self.now }
    {
        is_receiver(self.join_state) && is_adapter(self.port)
    }
}

/// Whether a port that takes part so receives.
pub(crate) fn is_receiver(join_state: JoinState) -> bool
    ensures { result ≡ is_receiver (join_state_of join_state.0) }
{
    join_state.0 & RECEIVERS != 0
}
