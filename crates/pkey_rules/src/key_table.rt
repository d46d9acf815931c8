//! The keys of a port, no two of one base.

ghost use Rattle.std.specs.Prelude.{◌≡◌, ◌≤◌, ◌<◌, ◌↔◌, false, true, [], ◌∷◌, ◌++◌, length, ◌==◌, find, is_some, IfSome, IsErrOf, OnOk, OnErr};
ghost use Rattle.pkey_rules.specs.PKey.{base_of};
ghost use Rattle.pkey_rules.specs.KeyTable.{accepts, holds, find_base, has_base, shares, SomeSharedBase};

use crate::p_key::PKey;
use arrayvec::ArrayVec;
use std::alloc::AllocError;
use std::marker::Model;
use thiserror::Error;

/// How many partitions a subnet has at most, the default partition counted, and so how many keys a
/// port holds at most.
pub const PARTITIONS: usize = 128;

/// The keys that a port holds, at most `CAP` and no two of one base.
///
/// Source: IBA volume 1, 14.2.5.7 (P_KeyTable).
#[derive(Debug, Drop)]
pub struct KeyTable<const CAP: usize> {
    keys: ArrayVec<PKey, CAP>,
}

impl<const CAP: usize> Model for KeyTable<CAP> {
    ghost use Rattle.std.specs.Prelude.{ℕ, List};
    ghost use Rattle.std.specs.List.{IsDistinct};
    ghost use Rattle.pkey_rules.specs.KeyTable.{same_base};

    ghost Value = { List ℕ };

    ghost view = { λ table. table.keys.items };

    ghost invariant = { λ table. IsDistinct same_base table.keys.items };
}

impl<const CAP: usize> Clone for KeyTable<CAP> {
    ghost use Rattle.std.specs.Prelude.{◌≡◌};

    ghost is_clone = { λ table copy. copy ≡ table };

    ghost is_infallible = { λ _. Unit {0} };

    fn clone(&self) -> Result<Self, AllocError> {
        let mut keys = ArrayVec::new();
        let _ = keys.try_extend_from_slice(self.keys.as_slice());
        Ok(KeyTable { keys })
    }
}

/// Why a P_Key table takes no further key.
#[derive(Clone, Copy, Debug, PartialEq, Eq, Error)]
pub enum PushRefusal {
    /// The table holds a key of that base already.
    #[error("the table holds a key of this partition already")]
    DuplicateBase,
    /// The table is full.
    #[error("the table has no free place")]
    Full,
}

impl<const CAP: usize> KeyTable<CAP> {
    /// A table without keys.
    pub fn new() -> Self
        ensures { result ≡ [] }
    {
        KeyTable {
            keys: ArrayVec::new(),
        }
    }

    /// Adds a key at the end. A base that is there already is refused as such, also by a full table;
    /// a refusal changes nothing.
    pub fn push(&mut self, key: PKey) -> Result<(), PushRefusal>
        ensures duplicate { IsErrOf result PushRefusal.DuplicateBase ↔ (has_base (base_of key) self.old ≡ true) }
        ensures full { IsErrOf result PushRefusal.Full
            ↔ ((has_base (base_of key) self.old ≡ false) × (length self.old ≡ CAP)) }
        ensures ok { OnOk result (self.new ≡ self.old ++ key ∷ []) }
        ensures err { OnErr result (self.new ≡ self.old) }
    {
        if self.has_base(key.base()) {
            return Err(PushRefusal::DuplicateBase);
        }
        if self.is_full() {
            return Err(PushRefusal::Full);
        }
        self.keys.push(key);
        Ok(())
    }

    /// Adds the key of a partition of which the table has none, if there is room: it looks at no
    /// key that is there, so a table of keys that are known to differ is made in linear time.
    #[tactic(auto, using(crate::proofs::KeyTableLemmas::distinct_push))]
    pub fn push_distinct(&mut self, key: PKey)
        requires free { has_base (base_of key) self.old ≡ false }
        requires room { length self.old < CAP }
        ensures { self.new ≡ self.old ++ key ∷ [] }
    {
        self.keys.push(key);
    }

    /// The keys, in the order in which they came.
    pub fn as_slice(&self) -> &[PKey]
        ensures value { result.now ≡ self.now }
        ensures fits { length result.now ≤ CAP }
    {
        self.keys.as_slice()
    }

    /// Whether the table takes no further key.
    pub fn is_full(&self) -> bool
        ensures full { result ≡ true ↔ (length self.now ≡ CAP) }
        ensures fits { length self.now ≤ CAP }
    {
        self.keys.is_full()
    }

    /// Whether a packet under this key may come in: some key of the table matches it.
    pub fn accepts(&self, key: PKey) -> bool
        ensures { result ≡ accepts key self.now }
    {
        self.keys.iter().any(|held| held.matches(key))
    }

    /// Whether this very key is in the table.
    pub fn holds(&self, key: PKey) -> bool
        ensures { result ≡ holds key self.now }
    {
        self.keys.iter().any(|held| *held == key)
    }

    /// The key of exactly these bits, if the table has it.
    pub fn find(&self, bits: u16) -> Option<PKey>
        ensures found { is_some result ≡ holds bits self.now }
        ensures key { IfSome result (λ key. key ≡ bits) }
    {
        self.find_bits(bits)
    }

    fn find_bits(&self, bits: u16) -> Option<PKey>
        ensures { result ≡ find (λ held. held == bits) self.now }
    {
        self.keys.iter().copied().find(|held| held.bits() == bits)
    }

    /// The key of that base, if the table has one.
    pub fn find_base(&self, base: u16) -> Option<PKey>
        ensures { result ≡ find_base base self.now }
    {
        self.keys.iter().copied().find(|held| held.base() == base)
    }

    /// Whether the table has a key of that base.
    pub fn has_base(&self, base: u16) -> bool
        ensures { result ≡ has_base base self.now }
    {
        self.keys.iter().any(|held| held.base() == base)
    }

    /// Whether holders of these two tables share a partition: some key of one matches some key of
    /// the other.
    #[tactic(auto, using(crate::proofs::KeyTableLemmas::shared_base, crate::proofs::KeyTableLemmas::shares_from_base))]
    pub fn shares<const OTHER: usize>(&self, other: &KeyTable<OTHER>) -> bool
        ensures value { result ≡ shares self.now other.now }
        ensures base { result ≡ true ↔ SomeSharedBase self.now other.now }
    {
        self.matches_some(other)
    }

    fn matches_some<const OTHER: usize>(&self, other: &KeyTable<OTHER>) -> bool
        ensures { result ≡ shares self.now other.now }
    {
        self.keys.iter().any(
            |held| -> bool
                ensures { result ≡ accepts held.now other.entry.now }
            { other.accepts(*held) },
        )
    }
}
