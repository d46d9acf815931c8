//! Tables.

ghost use Rattle.std.specs.Prelude.{◌≡◌, [], Some, None, map, IfOk, OnOk};
ghost use Rattle.std.specs.List.{IsDistinct};
ghost use Rattle.dump_file.specs.Sound.{shares_switch};
ghost use Rattle.dump_file.specs.Table.{latest, place_of, put, table_of};

use crate::heading::Heading;
use crate::row::RowList;
use indexmap::IndexSet;
use std::alloc::{AllocError, Global};
use std::marker::Model;

/// The linear forwarding table of a switch.
///
/// Source: IBA volume 1, chapter 14.
#[derive(Debug, Drop)]
pub struct Table {
    /// The line of its heading.
    pub line: usize,
    /// The GUID of the switch, of which there is no other table.
    pub guid: u64,
    /// LinearFDBTop: above this LID the switch has no entries.
    pub top: u16,
    /// Its rows, whose LIDs rise. An entry of 255 may have a row or none. The row of the top is lacking if it is
    /// a multiple of 64, whatever its entry is.
    pub rows: RowList,
}

/// Tables of different switches, in the order of the text, and found by GUID in constant time.
#[derive(Debug, Drop)]
pub(crate) struct TableList {
    // The GUIDs again, each at the place of its table.
    guids: IndexSet<u64>,
    tables: Vec<Table>,
}

impl Model for TableList {
    ghost use Rattle.std.specs.Prelude.{◌≡◌, List, map};
    ghost use Rattle.dump_file.specs.declared.table.Table.{Table};

    ghost Value = { List Table };

    ghost view = { λ list. list.tables.items };

    ghost invariant = { λ list. list.guids.keys ≡ map (λ table. table.guid) list.tables.items };
}

impl TableList {
    pub(crate) fn new(alloc: Global) -> TableList
        ensures { result ≡ [] }
    {
        TableList {
            guids: IndexSet::new(alloc),
            tables: Vec::new(alloc),
        }
    }

    /// These tables. It can only run out of memory.
    pub(crate) fn of(alloc: Global, tables: Vec<Table>) -> Result<TableList, AllocError>
        requires { IsDistinct shares_switch tables.items }
        ensures { IfOk result (λ list. list ≡ tables.items) }
    {
        let guids = guids_of(alloc, &tables)?;
        Ok(TableList { guids, tables })
    }

    pub(crate) fn as_slice(&self) -> &[Table]
        ensures { result.now ≡ self.now }
    {
        self.tables.as_slice()
    }

    /// Where the table of the switch of this GUID stands, looked up in constant time.
    pub(crate) fn place_of(&self, guid: u64) -> Option<usize>
        ensures { result ≡ place_of guid self.now }
    {
        self.guids.get_index_of(&guid)
    }

    /// Of two tables of a switch the later one. It can only run out of memory.
    pub(crate) fn latest(alloc: Global, tables: Vec<Table>) -> Result<TableList, AllocError>
        ensures { IfOk result (λ list. list ≡ latest tables.items) }
    {
        let mut list = TableList::new(alloc);
        for table in tables {
            list.put(table)?;
        }
        Ok(list)
    }

    /// Adds a table at the end, or puts it in the place of another one of its switch.
    fn put(&mut self, table: Table) -> Result<(), AllocError>
        ensures { OnOk result (self.new ≡ put table self.old) }
    {
        match self.place_of(table.guid) {
            Some(place) => {
                self.replace(place, table);
                Ok(())
            }
            None => self.push(table),
        }
    }

    fn replace(&mut self, place: usize, table: Table)
        requires there { place_of table.guid self.old ≡ Some place }
        ensures { self.new ≡ put table self.old }
    {
        self.tables[place] = table;
    }

    fn push(&mut self, table: Table) -> Result<(), AllocError>
        requires new { place_of table.guid self.old ≡ None }
        ensures { OnOk result (self.new ≡ put table self.old) }
    {
        self.tables.reserve(1)?;
        self.guids.insert(table.guid)?;
        self.tables.push(table)?;
        Ok(())
    }
}

impl Table {
    /// The table of a heading, with these rows.
    pub(crate) fn of(heading: Heading, rows: RowList) -> Table
        ensures { result ≡ table_of heading rows }
    {
        Table {
            line: heading.line,
            guid: heading.guid,
            top: heading.top,
            rows,
        }
    }
}

/// The GUIDs of these tables, each at the place of its table.
fn guids_of(alloc: Global, tables: &[Table]) -> Result<IndexSet<u64>, AllocError>
    requires { IsDistinct shares_switch tables.now }
    ensures { IfOk result (λ guids. guids.keys ≡ map (λ table. table.guid) tables.now) }
{
    let mut guids = IndexSet::new(alloc);
    for table in tables {
        guids.insert(table.guid)?;
    }
    Ok(guids)
}
