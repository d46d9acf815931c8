//! The group of an MGID, and who takes part in it.

ghost use Rattle.std.specs.Prelude.{◌≡◌, find, option_map};
ghost use Rattle.std.specs.List.{list_any};
ghost use Rattle.sa_model.specs.Delivery.{receives};
ghost use Rattle.sa_model.specs.Joining.{has_mgid, is_of};
ghost use Rattle.sa_replies.specs.Joins.{bits_of_member};
ghost use Rattle.sa_store.specs.Members.{receives_anew, receives_by};
ghost use Rattle.sa_store.specs.MlidRange.{with_mlid};

use crate::group::{Group, Membership};
use crate::joining::{Join, place_of};
use crate::leaving::JOIN_STATES;
use crate::mlid_range::MlidRange;
use crate::receivers::is_receiver;

impl MlidRange {
    /// The group of an MGID, and its MLID.
    pub fn named(&self, mgid: u128) -> Option<(u16, &Group)>
        ensures { option_map (λ named. with_mlid named.0 named.1.now) result ≡ find (has_mgid mgid) self.now.groups }
    {
        let place = place_of(&self.slots, mgid)?;
        let group = self.slots[place].as_ref()?;
        Some((self.mlid_of(place), group))
    }

    /// Whether a port receives by a join what it did not receive before.
    pub(crate) fn receives_anew(&self, join: &Join) -> bool
        ensures { result ≡ receives_anew join.now self.now }
    {
        is_receiver(join.join_state) && !self.receives(join.port, join.mgid)
    }

    /// Whether the port of a GUID receives what is sent to the group of an MGID, if there is one.
    fn receives(&self, port: u64, mgid: u128) -> bool
        ensures { result ≡ receives_by port (find (has_mgid mgid) self.now.groups) }
    {
        match self.named(mgid) {
            Some((_, group)) => group.receives(port),
            None => false,
        }
    }
}

impl Group {
    /// Whether the port of a GUID receives what is sent to the group.
    fn receives(&self, port: u64) -> bool
        ensures { result ≡ list_any (receives port) self.now.memberships }
    {
        self.memberships
            .iter()
            .any(|membership| membership.receives(port))
    }

    /// The bits by which the port of a GUID takes part in the group: none unless it is a member.
    pub fn bits_of(&self, port: u64) -> u8
        ensures { result ≡ bits_of_member (find (is_of port) self.now.memberships) }
    {
        match self.membership_of(port) {
            Some(membership) => membership.join_state.0 & JOIN_STATES,
            None => 0,
        }
    }

    /// The membership of the port of a GUID, if it takes part.
    fn membership_of(&self, port: u64) -> Option<&Membership>
        ensures { option_map (λ membership. membership.now) result ≡ find (is_of port) self.now.memberships }
    {
        self.memberships
            .iter()
            .find(|membership| membership.port == port)
    }
}
