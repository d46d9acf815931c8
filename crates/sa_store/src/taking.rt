//! Whether a leave takes anything.

ghost use Rattle.std.specs.Prelude.{◌≡◌};
ghost use Rattle.std.specs.List.{list_any};
ghost use Rattle.sa_replies.specs.Joins.{is_taken_from};
ghost use Rattle.sa_store.specs.Left.{loses_some, takes_from};

use crate::group::{Group, Membership};
use crate::leaving::{Leave, is_joined};
use crate::mlid_range::MlidRange;
use mad_layout::JoinState;

impl MlidRange {
    /// Whether a leave takes some bit of a membership in this partition.
    pub(crate) fn takes_some(&self, leave: &Leave) -> bool
        ensures { result ≡ list_any (λ group. list_any (is_taken_from leave.now self.now.base group) group.memberships) self.now.groups }
    {
        leave.names_base(self.base()) && some_takes(&self.slots, leave)
    }
}

impl Membership {
    /// Whether a leave of the group takes some bit of the membership.
    fn loses_some(&self, leave: &Leave) -> bool
        ensures { result ≡ loses_some leave.now self.now }
    {
        self.port == leave.port && is_joined(JoinState(self.join_state.0 & leave.join_state.0))
    }
}

/// Whether a leave takes some bit of a membership in one of these slots.
fn some_takes(slots: &[Option<Group>], leave: &Leave) -> bool
    ensures { result ≡ list_any (takes_from leave.now) slots.now }
{
    slots.iter().any(|slot| takes_from(slot, leave))
}

/// Whether a leave takes some bit of a membership of the group in a slot.
fn takes_from(slot: &Option<Group>, leave: &Leave) -> bool
    ensures { result ≡ takes_from leave.now slot.now }
{
    match slot {
        Some(group) => group.mgid == leave.mgid && some_loses(&group.memberships, leave),
        None => false,
    }
}

/// Whether a leave of their group takes some bit of these memberships.
fn some_loses(memberships: &[Membership], leave: &Leave) -> bool
    ensures { result ≡ list_any (loses_some leave.now) memberships.now }
{
    memberships
        .iter()
        .any(|membership| membership.loses_some(leave))
}
