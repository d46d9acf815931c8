//! What an end port is in a partition.

ghost use Rattle.std.specs.Prelude.{◌≡◌};
ghost use Rattle.partition_reports.specs.Membership.{has_full, membership_of};
ghost use Rattle.pkey_rules.specs.KeyTable.{has_base};

use pkey_rules::base_of;

/// What an end port is in a partition.
#[derive(Clone, Copy, Debug, PartialEq, Eq)]
pub enum Membership {
    /// It holds no key of the partition.
    Outside,
    /// It holds limited keys alone.
    Limited,
    /// It holds a full key.
    Full,
}

impl Membership {
    ghost use Rattle.std.specs.Prelude.{◌≡◌};
    ghost use Rattle.partition_reports.specs.Counts.{are_alike};
    ghost use Rattle.partition_reports.specs.Membership.{is_full_member, is_member, may_talk};

    /// Whether it is a member.
    pub fn is_member(self) -> bool
        ensures { result ≡ is_member self }
    {
        match self {
            Membership::Outside => false,
            Membership::Limited | Membership::Full => true,
        }
    }

    /// Whether it is a full member.
    pub fn is_full(self) -> bool
        ensures { result ≡ is_full_member self }
    {
        match self {
            Membership::Outside | Membership::Limited => false,
            Membership::Full => true,
        }
    }

    /// Whether it is the same as the other.
    pub(crate) fn is_like(self, other: Membership) -> bool
        ensures { result ≡ are_alike self other }
    {
        matches!(
            (self, other),
            (Membership::Outside, Membership::Outside)
                | (Membership::Limited, Membership::Limited)
                | (Membership::Full, Membership::Full)
        )
    }

    /// Whether ports of these two memberships may talk.
    pub fn may_talk(self, other: Membership) -> bool
        ensures { result ≡ may_talk self other }
    {
        self.is_member() && other.is_member() && (self.is_full() || other.is_full())
    }
}

fn has_full(base: u16, keys: &[u16]) -> bool
    ensures { result ≡ has_full base keys.now }
{
    keys.iter()
        .any(|key| base_of(*key) == base && *key >= 0x8000)
}

fn has_base(base: u16, keys: &[u16]) -> bool
    ensures { result ≡ has_base base keys.now }
{
    keys.iter().any(|key| base_of(*key) == base)
}

/// What a port with these keys is in the partition of this base. A full key counts over a limited one.
pub fn membership_of(base: u16, keys: &[u16]) -> Membership
    ensures { result ≡ membership_of base keys.now }
{
    if has_full(base, keys) {
        Membership::Full
    } else if has_base(base, keys) {
        Membership::Limited
    } else {
        Membership::Outside
    }
}
