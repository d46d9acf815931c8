//! What was dumped.

ghost use Rattle.std.specs.Prelude.{◌≡◌, true};
ghost use Rattle.std.specs.List.{list_all, IsDistinct};
ghost use Rattle.mft_file.specs.Sound.{IsSound, is_rising, shares_switch};
ghost use Rattle.mft_file.specs.Table.{place_of};

use crate::table::{MaskTable, MaskTableList};
use std::marker::Model;

/// The MFTs (multicast forwarding tables) of a fabric.
#[derive(Debug, Drop)]
pub struct Mfts {
    pub(crate) tables: MaskTableList,
}

impl Model for Mfts {
    ghost use Rattle.mft_file.specs.Mfts.{MftState};
    ghost use Rattle.mft_file.specs.Sound.{IsSound};

    ghost Value = { MftState };

    ghost view = { λ mfts. record { tables = mfts.tables } };

    ghost invariant = { λ mfts. IsSound (record { tables = mfts.tables }) };
}

impl Mfts {
    /// Says all at once what is so of all tables that were read. It does nothing.
    pub fn known_sound(&self)
        ensures { IsSound self.now }
    {
        // What a value meets is known once a field is named.
        let _ = &self.tables;
    }

    /// The tables, in the order of the text.
    pub fn tables(&self) -> &[MaskTable]
        ensures value { result.now ≡ self.now.tables }
        ensures own_switches { IsDistinct shares_switch result.now }
        ensures rising { list_all is_rising result.now ≡ true }
    {
        self.tables.as_slice()
    }

    /// Where the table of the switch of this GUID stands among the tables, looked up in constant time.
    pub fn place_of(&self, guid: u64) -> Option<usize>
        ensures { result ≡ place_of guid self.now.tables }
    {
        self.tables.place_of(guid)
    }
}
