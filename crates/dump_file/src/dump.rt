//! What was dumped.

ghost use Rattle.std.specs.Prelude.{◌≡◌, true, IfOk};
ghost use Rattle.std.specs.List.{list_all, IsDistinct};
ghost use Rattle.dump_file.specs.Row.{end_of};
ghost use Rattle.dump_file.specs.Sound.{have_one_end, is_rising, shares_switch, IsSound};
ghost use Rattle.dump_file.specs.Table.{latest, place_of, rows_of};

use crate::ends::EndList;
use crate::table::{Table, TableList};
use std::alloc::{AllocError, Global};
use std::marker::Model;

/// The linear forwarding tables of a fabric, and whose its LIDs are.
#[derive(Debug, Drop)]
pub struct Dump {
    pub(crate) tables: TableList,
    // The end port of each LID of which a row says one.
    pub(crate) ends: EndList,
}

impl Model for Dump {
    ghost use Rattle.dump_file.specs.Dump.{DumpState};
    ghost use Rattle.dump_file.specs.Index.{KnowsEnds};
    ghost use Rattle.dump_file.specs.Sound.{IsSound};
    ghost use Rattle.dump_file.specs.Table.{rows_of};

    ghost Value = { DumpState };

    ghost view = { λ dump. record { tables = dump.tables } };

    ghost invariant = { λ dump. IsSound (record { tables = dump.tables }) × KnowsEnds dump.ends (rows_of dump.tables) };
}

impl Dump {
    /// The dump of these tables, which agree with one another. It can only run out of memory.
    pub fn of(alloc: Global, tables: Vec<Table>) -> Result<Dump, AllocError>
        requires { IsSound (record { tables = tables.items }) }
        ensures { IfOk result (λ dump. dump ≡ record { tables = tables.items }) }
    {
        let ends = EndList::of(alloc, &tables)?;
        let tables = TableList::of(alloc, tables)?;
        Ok(Dump { tables, ends })
    }

    /// The dump of these tables: of two of a switch the later one counts. It can only run out of memory.
    pub(crate) fn latest(alloc: Global, tables: Vec<Table>) -> Result<Dump, AllocError>
        requires rising { list_all is_rising tables.items ≡ true }
        requires one_end { have_one_end (rows_of tables.items) ≡ true }
        ensures { IfOk result (λ dump. dump ≡ record { tables = latest tables.items }) }
    {
        let tables = TableList::latest(alloc, tables)?;
        let ends = EndList::of(alloc, tables.as_slice())?;
        Ok(Dump { tables, ends })
    }

    /// Says all at once what is so of every dump that was read. It does nothing.
    pub fn known_sound(&self)
        ensures { IsSound self.now }
    {
        // What a value meets is known once a field is named.
        let _ = &self.tables;
    }

    /// The tables, in the order of the text.
    pub fn tables(&self) -> &[Table]
        ensures value { result.now ≡ self.now.tables }
        ensures own_switches { IsDistinct shares_switch result.now }
        ensures rising { list_all is_rising result.now ≡ true }
        ensures one_end { have_one_end (rows_of result.now) ≡ true }
    {
        self.tables.as_slice()
    }

    /// Where the table of the switch of this GUID stands among the tables, looked up in constant time.
    pub fn place_of(&self, guid: u64) -> Option<usize>
        ensures { result ≡ place_of guid self.now.tables }
    {
        self.tables.place_of(guid)
    }

    /// The GUID of the end port that has the LID, if a row says one, looked up in constant time.
    pub fn end_of(&self, lid: u16) -> Option<u64>
        ensures { result ≡ end_of lid (rows_of self.now.tables) }
    {
        self.ends.end_of(lid)
    }
}
