//! The keys that partitions give to end ports.

ghost use Rattle.std.specs.Prelude.{◌≡◌, ◌≤◌, length};
ghost use Rattle.pkey_rules.specs.declared.key_table.TheConstants.{PARTITIONS};
ghost use Rattle.partition_file.specs.Members.{AreSoundHeadings};

use crate::heading::Heading;
use pkey_rules::{KeyTable, PARTITIONS};
use std::marker::Model;

/// The partitions of a subnet in order of their numbers, and the keys that each end port holds, in
/// that order too.
#[derive(Debug, Drop)]
pub struct Members {
    pub(crate) headings: Vec<Heading>,
    pub(crate) keys: Vec<KeyTable<PARTITIONS>>,
}

impl Model for Members {
    ghost use Rattle.partition_file.specs.Members.{AreSoundHeadings, Membership};

    ghost Value = { Membership };

    ghost view = { λ all. record { headings = all.headings.items; keys = all.keys.items } };

    ghost invariant = { λ all. AreSoundHeadings all.headings.items };
}

impl Members {
    /// The partitions, in order of their numbers: at least the default one, at most
    /// [`PARTITIONS`], and no two of one base.
    #[tactic(auto, using(crate::proofs::MemberLemmas::few_headings))]
    pub fn headings(&self) -> &[Heading]
        ensures value { result.now ≡ self.now.headings }
        ensures sound { AreSoundHeadings result.now }
        ensures count { length result.now ≤ PARTITIONS }
    {
        self.headings.as_slice()
    }

    /// The keys of each end port, in the order of the ports that were given.
    pub fn keys(&self) -> &[KeyTable<PARTITIONS>]
        ensures { result.now ≡ self.now.keys }
    {
        self.keys.as_slice()
    }

    /// The partitions and the keys, each to keep.
    #[tactic(auto, using(crate::proofs::MemberLemmas::few_headings))]
    pub fn into_parts(self) -> (Vec<Heading>, Vec<KeyTable<PARTITIONS>>)
        ensures headings { result.0.items ≡ self.headings }
        ensures keys { result.1.items ≡ self.keys }
        ensures sound { AreSoundHeadings result.0.items }
        ensures count { length result.0.items ≤ PARTITIONS }
    {
        let Members { headings, keys } = self;
        (headings, keys)
    }
}
