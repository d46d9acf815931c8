//! P_Keys: a base and a bit of membership.

ghost use Rattle.std.specs.Prelude.{◌≡◌, ◌≢◌, ◌↔◌, ◌<◌, true, IfOk, IsOk};
ghost use Rattle.pkey_rules.specs.PKey.{base_of, is_base, is_full, key_of, matches};

use std::marker::Model;
use thiserror::Error;

/// The low 15 bits of a P_Key: the partition that it names.
const BASE_BITS: u16 = 0x7fff;

/// The top bit of a P_Key: its holder is a full member.
const FULL_MEMBER: u16 = 0x8000;

/// How many partitions the low 15 bits of a P_Key can distinguish, 0 counted, which is none.
pub const BASES: u16 = 0x8000;

/// The base of the default partition, in which every port starts.
pub const DEFAULT_BASE: u16 = 0x7fff;

/// The base of the partition that a key of these bits names; 0 names none.
pub fn base_of(bits: u16) -> u16
    ensures value { result ≡ base_of bits }
    ensures within { result < 0x8000 }
{
    bits & BASE_BITS
}

/// The bits of the key that a full or a limited member holds in the partition of this base.
pub fn key_of(base: u16, full: bool) -> u16
    requires { base < 0x8000 }
    ensures { result ≡ key_of base full }
{
    if full { base + FULL_MEMBER } else { base }
}

/// A valid P_Key: 15 bits that name a partition, not all 0, below one bit of membership.
///
/// Source: IBA volume 1, 14.2.5.7 (P_KeyTable).
#[derive(Clone, Copy, Debug, PartialEq, Eq)]
pub struct PKey {
    bits: u16,
}

impl Model for PKey {
    ghost use Rattle.std.specs.Prelude.{ℕ, ◌≡◌, ◌≢◌};
    ghost use Rattle.pkey_rules.specs.PKey.{base_of};

    ghost Value = { ℕ };

    ghost view = { λ key. key.bits };

    ghost invariant = { λ key. base_of key.bits ≢ 0 };

    ghost inverse = { λ n. record { bits = n } };
}

/// The low 15 bits of a P_Key name a partition, and are not all 0.
#[derive(Clone, Copy, Debug, PartialEq, Eq, Error)]
#[error("a partition key has a base other than 0")]
pub struct InvalidBase;

impl PKey {
    /// The key that these 16 bits encode; an error if the base is 0.
    pub fn new(bits: u16) -> Result<PKey, InvalidBase>
        ensures valid { IsOk result ↔ (base_of bits ≢ 0) }
        ensures value { IfOk result (λ key. key ≡ bits) }
    {
        if base_of(bits) == 0 {
            return Err(InvalidBase);
        }
        Ok(PKey { bits })
    }

    /// The key that a full or a limited member holds in the partition of this base; an error if
    /// the base is 0 or has more than 15 bits.
    #[tactic(auto, using(crate::proofs::PKeyLemmas::key_has_base, crate::proofs::PKeyLemmas::key_reports_membership))]
    pub fn of_base(base: u16, full: bool) -> Result<PKey, InvalidBase>
        ensures valid { IsOk result ↔ (is_base base ≡ true) }
        ensures value { IfOk result (λ key. key ≡ key_of base full) }
        ensures base { IfOk result (λ key. base_of key ≡ base) }
        ensures membership { IfOk result (λ key. is_full key ≡ full) }
    {
        if base == 0 || base >= BASES {
            return Err(InvalidBase);
        }
        Ok(PKey {
            bits: key_of(base, full),
        })
    }

    /// The key as 16 bits.
    pub fn bits(self) -> u16
        ensures { result ≡ self }
    {
        self.bits
    }

    /// The partition that the key names, from 1 to 0x7fff.
    pub fn base(self) -> u16
        ensures value { result ≡ base_of self }
        ensures valid { result ≢ 0 }
    {
        base_of(self.bits)
    }

    /// Whether the key is that of a full member; else it is that of a limited one.
    pub fn is_full(self) -> bool
        ensures { result ≡ is_full self }
    {
        self.bits & FULL_MEMBER != 0
    }

    /// Whether holders of these two keys may talk: one partition, and at least one is a full member.
    pub fn matches(self, other: PKey) -> bool
        ensures { result ≡ matches self other }
    {
        self.base() == other.base() && (self.is_full() || other.is_full())
    }
}

impl Default for PKey {
    ghost is_default = { λ key. key ≡ 0xffff };

    /// The key of a full member of the default partition.
    fn default() -> PKey {
        PKey { bits: 0xffff }
    }
}
