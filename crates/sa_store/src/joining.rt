//! What a join does to the groups of a partition.

ghost use Rattle.std.specs.Prelude.{◌≡◌, ◌<◌, ◌≤◌, true, false, not, is_none, is_some, length, map};
ghost use Rattle.std.specs.Prelude.{nat_lt, position, slice_get, IfOk, OnOk, OnErr};
ghost use Rattle.std.specs.List.{list_all, prefix_len};
ghost use Rattle.std.specs.Option.{option_map_or};
ghost use Rattle.sa_model.specs.Anchor.{free_mlid};
ghost use Rattle.sa_model.specs.Groups.{lower_port};
ghost use Rattle.sa_model.specs.JoinState.{with_bits};
ghost use Rattle.sa_model.specs.Joining.{is_of, joined_group, with_created, with_member};
ghost use Rattle.sa_model.specs.Sound.{other_mgid, pairwise};
ghost use Rattle.sa_replies.specs.Joins.{join_state_of};
ghost use Rattle.sa_replies.specs.State.{is_fit_group};
ghost use Rattle.sa_store.specs.MlidRange.{parameters_of};
ghost use Rattle.sa_store.specs.Joined.{entered, founded, holds_mgid, is_in_order, joined_slot};

use crate::group::{Creator, Group, GroupParameters, Membership};
use crate::mlid_range::MlidRange;
use mad_layout::JoinState;
use std::alloc::{AllocError, Global};
use std::marker::Model;

/// The port of this GUID joins the group of an MGID in the partition of a base; if there is none, it is made with these
/// parameters.
#[derive(Drop)]
pub struct Join {
    pub(crate) port: u64,
    pub(crate) base: u16,
    pub(crate) mgid: u128,
    pub(crate) join_state: JoinState,
    pub(crate) parameters: GroupParameters,
}

impl Model for Join {
    ghost use Rattle.std.specs.Prelude.{◌≡◌, ◌<◌, true};
    ghost use Rattle.sa_model.specs.Joining.{Join};
    ghost use Rattle.sa_replies.specs.Joins.{join_state_of};
    ghost use Rattle.sa_replies.specs.State.{is_fit_group};
    ghost use Rattle.sa_store.specs.MlidRange.{parameters_of};

    ghost Value = { Join };

    ghost view = { λ join. record {
      port = join.port;
      base = join.base;
      mgid = join.mgid;
      join_state = join_state_of join.join_state.0;
      parameters = parameters_of join.parameters;
    } };

    ghost invariant = { λ join. (join.base < 32768) × (is_fit_group (parameters_of join.parameters) ≡ true) };
}

impl Join {
    /// The port of this GUID joins the group of an MGID in the partition of a base, by these bits; if there is none, it makes it
    /// with these parameters.
    pub fn new(
        port: u64,
        base: u16,
        mgid: u128,
        join_state: JoinState,
        parameters: GroupParameters,
    ) -> Join
        requires base { base < 32768 }
        requires fit { is_fit_group (parameters_of parameters) ≡ true }
        ensures { result ≡ record {
          port = port;
          base = base;
          mgid = mgid;
          join_state = join_state_of join_state.0;
          parameters = parameters_of parameters;
        } }
    {
        Join {
            port,
            base,
            mgid,
            join_state,
            parameters,
        }
    }
}

impl MlidRange {
    /// Whether some slot is free.
    pub fn has_free(&self) -> bool
        ensures { result ≡ not (is_none (free_mlid self.now)) }
    {
        self.free != 0
    }

    /// A port joins its group in this partition, or makes it in the first free slot.
    pub(crate) fn enter(&mut self, alloc: Global, join: &Join) -> Result<(), AllocError>
        requires own { pairwise other_mgid self.old.groups ≡ true }
        requires order { list_all (λ group. pairwise lower_port group.memberships) self.old.groups ≡ true }
        ensures next { OnOk result (self.new ≡ entered join.now self.old) }
        ensures err { OnErr result (self.new ≡ self.old) }
    {
        if self.named(join.mgid).is_some() {
            self.join(join)
        } else {
            self.found(alloc, join)
        }
    }

    /// A port joins its group, if there is one.
    fn join(&mut self, join: &Join) -> Result<(), AllocError>
        requires own { pairwise other_mgid self.old.groups ≡ true }
        requires order { list_all (λ group. pairwise lower_port group.memberships) self.old.groups ≡ true }
        ensures next { OnOk result (self.new ≡ record self.old { groups = map (joined_group join.now) self.old.groups }) }
        ensures err { OnErr result (self.new ≡ self.old) }
    {
        match place_of(&self.slots, join.mgid) {
            Some(place) => enter_slot(&mut self.slots[place], join),
            None => Ok(()),
        }
    }

    /// A port makes its group in the first free slot, if there is one, and joins it.
    fn found(&mut self, alloc: Global, join: &Join) -> Result<(), AllocError>
        ensures next { OnOk result (self.new ≡ record self.old { groups = with_created join.now (free_mlid self.old) self.old.groups }) }
        ensures err { OnErr result (self.new ≡ self.old) }
    {
        if self.free == 0 {
            return Ok(());
        }
        let group = Group::founded(alloc, join)?;
        let place = self.free.trailing_zeros() as usize;
        self.slots[place] = Some(group);
        self.free &= !(1 << place);
        Ok(())
    }
}

impl Group {
    /// The group that a port makes, with itself in it.
    fn founded(alloc: Global, join: &Join) -> Result<Group, AllocError>
        ensures { IfOk result (λ group. group ≡ founded join.now) }
    {
        let mut memberships = Vec::new(alloc);
        memberships.push(Membership {
            port: join.port,
            join_state: join.join_state,
        })?;
        Ok(Group {
            mgid: join.mgid,
            parameters: join.parameters,
            creator: Creator::Port(join.port),
            memberships,
        })
    }

    /// A port joins the group: its membership gets the bits besides its own.
    fn enter(&mut self, join: &Join) -> Result<(), AllocError>
        requires { pairwise lower_port self.old.memberships ≡ true }
        ensures next { OnOk result (self.new ≡ record self.old { memberships = with_member join.now self.old.memberships }) }
        ensures err { OnErr result (self.new ≡ self.old) }
    {
        let place = place_for(&self.memberships, join.port);
        if is_at(&self.memberships, place, join.port) {
            self.memberships[place].add(join.join_state);
            return Ok(());
        }
        let new = Membership {
            port: join.port,
            join_state: join.join_state,
        };
        self.memberships.insert(place, new)?;
        Ok(())
    }
}

impl Membership {
    /// Gives it these bits besides its own.
    fn add(&mut self, more: JoinState)
        ensures { self.new ≡ record self.old { join_state = with_bits (join_state_of more.0) self.old.join_state } }
    {
        self.join_state = JoinState(self.join_state.0 | more.0);
    }
}

/// How many memberships have a lower GUID.
pub(crate) fn place_for(memberships: &[Membership], port: u64) -> usize
    ensures value { result ≡ prefix_len (λ membership. nat_lt membership.port port) memberships.now }
    ensures within { result ≤ length memberships.now }
{
    memberships
        .iter()
        .take_while(|membership| membership.port < port)
        .count()
}

/// Whether the membership at a place is that of a port.
pub(crate) fn is_at(memberships: &[Membership], place: usize, port: u64) -> bool
    ensures { result ≡ option_map_or (is_of port) (slice_get memberships.now place) false }
{
    match memberships.get(place) {
        Some(membership) => membership.port == port,
        None => false,
    }
}

/// The place of the slot whose group has this MGID.
pub(crate) fn place_of(slots: &[Option<Group>], mgid: u128) -> Option<usize>
    ensures { result ≡ position (holds_mgid mgid) slots.now }
{
    slots.iter().position(|slot| holds(slot, mgid))
}

/// Whether the group in a slot has this MGID.
fn holds(slot: &Option<Group>, mgid: u128) -> bool
    ensures { result ≡ holds_mgid mgid slot.now }
{
    match slot {
        Some(group) => group.mgid == mgid,
        None => false,
    }
}

/// A port joins the group in a slot, if there is one.
fn enter_slot(slot: &mut Option<Group>, join: &Join) -> Result<(), AllocError>
    requires { is_in_order slot.old ≡ true }
    ensures next { OnOk result (slot.new ≡ joined_slot join.now slot.old) }
    ensures err { OnErr result (slot.new ≡ slot.old) }
    ensures full { is_some slot.new ≡ is_some slot.old }
{
    match slot {
        Some(group) => group.enter(join),
        None => Ok(()),
    }
}
