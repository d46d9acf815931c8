//! What a leave does to the groups of a partition.

ghost use Rattle.std.specs.Prelude.{ℕ, ◌≡◌, ◌≤◌, true, not, ◌&&◌, List, length, nat_eq};
ghost use Rattle.std.specs.List.{IsDistinct, list_all, list_any};
ghost use Rattle.indexmap.specs.IndexMap.{get};
ghost use Rattle.subnet_model.specs.Configured.{HaveLidsInOrder, same_guid};
ghost use Rattle.subnet_model.specs.declared.subnet_port.SubnetPort.{SubnetPort};
ghost use Rattle.sa_model.specs.Anchor.{anchors, is_kept as keeps};
ghost use Rattle.sa_model.specs.JoinState.{is_joined, is_receiver, without_bits};
ghost use Rattle.sa_model.specs.Leaving.{left, left_in, names_base};
ghost use Rattle.sa_model.specs.Sound.{is_sound, is_sound_partition, other_mgid, pairwise};
ghost use Rattle.sa_replies.specs.Joins.{join_state_of};
ghost use Rattle.sa_store.specs.Kept.{ports_of};
ghost use Rattle.sa_store.specs.Registry.{Finds};
ghost use Rattle.sa_store.specs.Left.{ReportsFull, are_settled, is_kept, is_settled, left_by, left_slot};
ghost use Rattle.sa_store.specs.Receiving.{ReportsAdapters, has_changed, loses, numbers_changed, slot_changes};

use crate::by_guid::{is_adapter, is_full_member};
use crate::group::{Creator, Group, Membership};
use crate::joining::{is_at, place_for, place_of};
use crate::kept_port::KeptPort;
use crate::mlid_range::MlidRange;
use crate::receivers::{is_receiver, some_receiving};
use arrayvec::ArrayVec;
use bitflags::Flags;
use indexmap::IndexMap;
use mad_layout::JoinState;
use pkey_rules::PARTITIONS;
use std::marker::Model;

/// The bits of a JoinState, each a way to take part.
pub(crate) const JOIN_STATES: u8 = JoinState::FULL_MEMBER.0
    | JoinState::NON_MEMBER.0
    | JoinState::SEND_ONLY_NON_MEMBER.0;

/// The port of this GUID leaves the group of an MGID in the partition of a base, or in each partition if no base is asked.
#[derive(Drop)]
pub struct Leave {
    pub(crate) port: u64,
    pub(crate) base: Option<u16>,
    pub(crate) mgid: u128,
    pub(crate) join_state: JoinState,
}

impl Model for Leave {
    ghost use Rattle.sa_model.specs.Leaving.{Leave};
    ghost use Rattle.sa_replies.specs.Joins.{join_state_of};

    ghost Value = { Leave };

    ghost view = { λ leave. record {
      port = leave.port;
      base = leave.base;
      mgid = leave.mgid;
      join_state = join_state_of leave.join_state.0;
    } };
}

impl Leave {
    /// The port of this GUID gives up these bits in the group of an MGID, in the partition of a base or, if none is asked, in each.
    pub fn new(port: u64, base: Option<u16>, mgid: u128, join_state: JoinState) -> Leave
        ensures { result ≡ record {
          port = port;
          base = base;
          mgid = mgid;
          join_state = join_state_of join_state.0;
        } }
    {
        Leave {
            port,
            base,
            mgid,
            join_state,
        }
    }

    pub(crate) fn names_base(&self, base: u16) -> bool
        ensures { result ≡ names_base self.now.base base }
    {
        match self.base {
            Some(asked) => base == asked,
            None => true,
        }
    }
}

impl MlidRange {
    /// A port leaves its group in this partition; whether others receive what is sent to its groups then. The group goes if
    /// nothing keeps it. One test reports the full members of the partition, the other the ports of channel adapters.
    pub(crate) fn leave<F: Fn(u64) -> bool, A: Fn(u64) -> bool>(
        &mut self,
        leave: &Leave,
        is_full_member: &F,
        is_adapter: &A,
    ) -> bool
        requires own { pairwise other_mgid self.old.groups ≡ true }
        requires settled { list_all (λ group. are_settled group.memberships) self.old.groups ≡ true }
        requires callable { F.IsAlwaysCallable is_full_member.now }
        requires callable_too { A.IsAlwaysCallable is_adapter.now }
        ensures next { (ports : List SubnetPort) → ReportsFull (F.post is_full_member.now) ports self.old.base
            → list_all (keeps ports self.old.base) self.old.groups ≡ true → self.new ≡ left_in ports leave.now self.old }
        ensures changed { (ports : List SubnetPort) → ReportsFull (F.post is_full_member.now) ports self.old.base
            → ReportsAdapters (A.post is_adapter.now) ports → HaveLidsInOrder ports → IsDistinct same_guid ports
            → result ≡ has_changed ports self.old self.new }
    {
        if !leave.names_base(self.base()) {
            return false;
        }
        let Some(place) = place_of(&self.slots, leave.mgid) else {
            return false;
        };
        let changes = leave_slot(&mut self.slots[place], leave, is_full_member, is_adapter);
        if self.slots[place].is_none() {
            self.free |= 1 << place;
        }
        changes
    }
}

/// A port leaves its group in each of these partitions, by the ports that are kept and their places; the numbers of those where
/// others receive then.
pub(crate) fn leave_partitions(
    partitions: &mut [MlidRange],
    kept: &[KeptPort],
    places: &IndexMap<u64, usize>,
    leave: &Leave,
) -> ArrayVec<u16, PARTITIONS>
    requires own { IsDistinct same_guid (ports_of kept.now) }
    requires finds { Finds (ports_of kept.now) (get nat_eq places.now) }
    requires lids { HaveLidsInOrder (ports_of kept.now) }
    requires sound { is_sound (ports_of kept.now) partitions.old ≡ true }
    requires room { length partitions.old ≤ PARTITIONS }
    ensures next { partitions.new ≡ left (ports_of kept.now) leave.now partitions.old }
    ensures numbers { result.items ≡ numbers_changed (ports_of kept.now) partitions.old partitions.new }
{
    let mut changed = ArrayVec::new();
    for partition in partitions.iter_mut() {
        if leave_partition(partition, kept, places, leave) {
            changed.push(partition.number());
        }
    }
    changed
}

/// A port leaves its group in a partition; whether others receive what is sent to its groups then.
fn leave_partition(
    partition: &mut MlidRange,
    kept: &[KeptPort],
    places: &IndexMap<u64, usize>,
    leave: &Leave,
) -> bool
    requires own { IsDistinct same_guid (ports_of kept.now) }
    requires finds { Finds (ports_of kept.now) (get nat_eq places.now) }
    requires lids { HaveLidsInOrder (ports_of kept.now) }
    requires sound { is_sound_partition (ports_of kept.now) partition.old ≡ true }
    ensures next { partition.new ≡ left_in (ports_of kept.now) leave.now partition.old }
    ensures changed { result ≡ has_changed (ports_of kept.now) partition.old partition.new }
{
    let base = partition.base();
    partition.leave(
        leave,
        &|guid| is_full_member(kept, places, base, guid),
        &|guid| is_adapter(kept, places, guid),
    )
}

impl Group {
    /// A port leaves the group; whether it received by its membership, and does so no more.
    fn leave(&mut self, leave: &Leave) -> bool
        requires { are_settled self.old.memberships ≡ true }
        ensures next { self.new ≡ left_by leave.now self.old }
        ensures loses { result ≡ loses leave.now self.old }
    {
        let place = place_for(&self.memberships, leave.port);
        if !is_at(&self.memberships, place, leave.port) {
            return false;
        }
        let loses = self.memberships[place].receives_no_more(leave.join_state);
        let rest = self.memberships[place].without(leave.join_state);
        if is_joined(rest) {
            self.memberships[place].set(rest);
        } else {
            self.memberships.remove(place);
        }
        loses
    }

    /// Whether the partition file or some membership keeps the group, by a test that reports the full members of its partition.
    fn is_kept<F: Fn(u64) -> bool>(&self, is_full_member: &F) -> bool
        requires { F.IsAlwaysCallable is_full_member.now }
        ensures { (ports : List SubnetPort) (base : ℕ) → ReportsFull (F.post is_full_member.now) ports base
            → result ≡ is_kept ports base self.now }
    {
        match self.creator {
            Creator::PartitionFile => true,
            Creator::Port(_) => some_anchors(&self.memberships, is_full_member),
        }
    }
}

impl Membership {
    /// Its bits without these.
    fn without(&self, less: JoinState) -> JoinState
        ensures { join_state_of result.0 ≡ without_bits (join_state_of less.0) self.now.join_state }
    {
        JoinState(self.join_state.0 & !less.0)
    }

    /// Whether a port receives by it, and does so no more without these bits.
    fn receives_no_more(&self, less: JoinState) -> bool
        ensures { result ≡ (is_receiver self.now.join_state
            && not (is_receiver (without_bits (join_state_of less.0) self.now.join_state))) }
    {
        is_receiver(self.join_state) && !is_receiver(self.without(less))
    }

    /// Gives it these bits in place of its own.
    fn set(&mut self, join_state: JoinState)
        ensures { self.new ≡ record self.old { join_state = join_state_of join_state.0 } }
    {
        self.join_state = join_state;
    }

    /// Whether the membership keeps its group.
    fn anchors<F: Fn(u64) -> bool>(&self, is_full_member: &F) -> bool
        requires { F.IsAlwaysCallable is_full_member.now }
        ensures { (ports : List SubnetPort) (base : ℕ) → ReportsFull (F.post is_full_member.now) ports base
            → result ≡ anchors ports base self.now }
    {
        self.join_state.contains(JoinState::FULL_MEMBER) && is_full_member(self.port)
    }
}

/// Whether some bit of a JoinState is set.
pub(crate) fn is_joined(join_state: JoinState) -> bool
    ensures { result ≡ is_joined (join_state_of join_state.0) }
{
    join_state.0 & JOIN_STATES != 0
}

/// A port leaves the group in a slot, which goes if nothing keeps it; whether others receive what is sent to it then.
fn leave_slot<F: Fn(u64) -> bool, A: Fn(u64) -> bool>(
    slot: &mut Option<Group>,
    leave: &Leave,
    is_full_member: &F,
    is_adapter: &A,
) -> bool
    requires settled { is_settled slot.old ≡ true }
    requires callable { F.IsAlwaysCallable is_full_member.now }
    requires callable_too { A.IsAlwaysCallable is_adapter.now }
    ensures next { (ports : List SubnetPort) (base : ℕ) → ReportsFull (F.post is_full_member.now) ports base
        → slot.new ≡ left_slot ports base leave.now slot.old }
    ensures changed { (ports : List SubnetPort) (base : ℕ) → ReportsFull (F.post is_full_member.now) ports base
        → ReportsAdapters (A.post is_adapter.now) ports → result ≡ slot_changes ports base leave.now slot.old }
{
    let Some(group) = slot else {
        return false;
    };
    let lost = group.leave(leave) && is_adapter(leave.port);
    if group.is_kept(is_full_member) {
        return lost;
    }
    let some_receiving = some_receiving(&group.memberships, is_adapter);
    *slot = None;
    lost || some_receiving
}

/// Whether some membership keeps its group.
fn some_anchors<F: Fn(u64) -> bool>(memberships: &[Membership], is_full_member: &F) -> bool
    requires { F.IsAlwaysCallable is_full_member.now }
    ensures { (ports : List SubnetPort) (base : ℕ) → ReportsFull (F.post is_full_member.now) ports base
        → result ≡ list_any (anchors ports base) memberships.now }
{
    for membership in memberships {
        if membership.anchors(is_full_member) {
            return true;
        }
    }
    false
}
