//! Tables.

ghost use Rattle.std.specs.Prelude.{◌≡◌, [], ◌∷◌, ◌++◌, None, map, OnErr, OnOk};
ghost use Rattle.mft_file.specs.Table.{place_of, table_of};

use crate::heading::Heading;
use crate::row::{MaskRow, MaskRowList};
use indexmap::IndexSet;
use std::alloc::{AllocError, Global};
use std::marker::Model;
use std::mem;

/// The MFT (multicast forwarding table) of a switch.
///
/// Source: IBA volume 1, chapter 14.
#[derive(Debug, Drop)]
pub struct MaskTable {
    /// The line of its heading.
    pub line: usize,
    /// The GUID of the switch, of which there is no other table.
    pub guid: u64,
    /// Its rows, whose MLIDs rise. A mask without ports may have a row or none.
    pub rows: MaskRowList,
}

/// Tables of different switches, in the order in which they were added, and found by GUID in constant time.
#[derive(Debug, Drop)]
pub(crate) struct MaskTableList {
    // The GUIDs again, each at the place of its table.
    guids: IndexSet<u64>,
    tables: Vec<MaskTable>,
}

impl Model for MaskTableList {
    ghost use Rattle.std.specs.Prelude.{◌≡◌, List, map};
    ghost use Rattle.mft_file.specs.declared.table.MaskTable.{MaskTable};

    ghost Value = { List MaskTable };

    ghost view = { λ list. list.tables.items };

    ghost invariant = { λ list. list.guids.keys ≡ map (λ table. table.guid) list.tables.items };
}

impl MaskTableList {
    pub(crate) fn new(alloc: Global) -> MaskTableList
        ensures { result ≡ [] }
    {
        MaskTableList {
            guids: IndexSet::new(alloc),
            tables: Vec::new(alloc),
        }
    }

    pub(crate) fn as_slice(&self) -> &[MaskTable]
        ensures { result.now ≡ self.now }
    {
        self.tables.as_slice()
    }

    /// Where the table of the switch of this GUID stands, looked up in constant time.
    pub(crate) fn place_of(&self, guid: u64) -> Option<usize>
        ensures { result ≡ place_of guid self.now }
    {
        self.guids.get_index_of(&guid)
    }

    /// Adds a table at the end, and takes its rows. It can only run out of memory, and then both stay as they were.
    pub(crate) fn push(
        &mut self,
        alloc: Global,
        heading: Heading,
        rows: &mut Vec<MaskRow>,
    ) -> Result<(), AllocError>
        requires new { place_of heading.guid self.old ≡ None }
        ensures ok { OnOk result (self.new ≡ self.old ++ table_of heading rows.old.items ∷ []) }
        ensures taken { OnOk result (rows.new.items ≡ []) }
        ensures err { OnErr result (self.new ≡ self.old) }
        ensures kept { OnErr result (rows.new.items ≡ rows.old.items) }
    {
        self.tables.reserve(1)?;
        self.guids.insert(heading.guid)?;
        self.tables.push(MaskTable {
            line: heading.line,
            guid: heading.guid,
            rows: MaskRowList::of(mem::replace(rows, Vec::new(alloc))),
        })?;
        Ok(())
    }
}
