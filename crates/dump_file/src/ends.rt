//! Whose each LID is.

ghost use Rattle.std.specs.Prelude.{◌≡◌, ◌<◌, ◌==◌, [], Some, ℕ, if◌then◌else◌, length, IfOk, OnErr, OnOk};
ghost use Rattle.std.specs.Option.{option_or};
ghost use Rattle.dump_file.specs.Index.{KnowsEnds, end_known};
ghost use Rattle.dump_file.specs.Row.{end_of, said_of};
ghost use Rattle.dump_file.specs.Table.{rows_of};

use crate::row::Row;
use crate::table::Table;
use std::alloc::{AllocError, Global};
use std::marker::Model;

/// The end port of each LID of which one is known, at the place of the LID.
#[derive(Debug, Drop)]
pub(crate) struct EndList {
    ends: Vec<Option<u64>>,
}

impl Model for EndList {
    ghost use Rattle.std.specs.Prelude.{ℕ, List, Option};

    ghost Value = { List (Option ℕ) };

    ghost view = { λ list. list.ends.items };
}

impl EndList {
    pub(crate) fn new(alloc: Global) -> EndList
        ensures { result ≡ [] }
    {
        EndList {
            ends: Vec::new(alloc),
        }
    }

    /// The end port of each LID of which a row of these tables says one: of several the first counts. It can only run out of
    /// memory.
    pub(crate) fn of(alloc: Global, tables: &[Table]) -> Result<EndList, AllocError>
        ensures { IfOk result (λ ends. KnowsEnds ends (rows_of tables.now)) }
    {
        let mut ends = EndList::new(alloc);
        for table in tables {
            ends.add_rows(table.rows.as_slice())?;
        }
        Ok(ends)
    }

    /// Notes whose LIDs are that have no end port yet, by these rows.
    pub(crate) fn add_rows(&mut self, rows: &[Row]) -> Result<(), AllocError>
        ensures { OnOk result ((lid : ℕ) → end_known self.new lid ≡ option_or (end_known self.old lid) (end_of lid rows.now)) }
    {
        for row in rows {
            self.add_row(*row)?;
        }
        Ok(())
    }

    /// The same by one row.
    fn add_row(&mut self, row: Row) -> Result<(), AllocError>
        ensures { OnOk result ((lid : ℕ) → end_known self.new lid ≡ option_or (end_known self.old lid) (said_of lid row)) }
    {
        let Some(guid) = row.destination.guid() else {
            return Ok(());
        };
        if self.end_of(row.lid).is_some() {
            return Ok(());
        }
        self.insert(row.lid, guid)
    }

    pub(crate) fn end_of(&self, lid: u16) -> Option<u64>
        ensures { result ≡ end_known self.now lid }
    {
        end_known(&self.ends, lid)
    }

    /// Notes the end port of a LID. It can only run out of memory, and then all is as before.
    fn insert(&mut self, lid: u16, guid: u64) -> Result<(), AllocError>
        ensures ok { OnOk result ((other : ℕ) → end_known self.new other ≡ (if lid == other then Some guid else end_known self.old other)) }
        ensures err { OnErr result ((other : ℕ) → end_known self.new other ≡ end_known self.old other) }
    {
        make_room(&mut self.ends, lid)?;
        put_end(&mut self.ends, lid, guid);
        Ok(())
    }
}

fn end_known(ends: &[Option<u64>], lid: u16) -> Option<u64>
    ensures { result ≡ end_known ends.now lid }
{
    match ends.get(usize::from(lid)) {
        Some(end) => *end,
        None => None,
    }
}

/// Adds places up to that of the LID.
fn make_room(ends: &mut Vec<Option<u64>>, lid: u16) -> Result<(), AllocError>
    ensures ok { OnOk result ((other : ℕ) → end_known ends.new.items other ≡ end_known ends.old.items other) }
    ensures err { OnErr result ((other : ℕ) → end_known ends.new.items other ≡ end_known ends.old.items other) }
    ensures room { OnOk result (lid < length ends.new.items) }
{
    for _ in ends.len()..usize::from(lid) + 1 {
        ends.push(None)?;
    }
    Ok(())
}

fn put_end(ends: &mut [Option<u64>], lid: u16, guid: u64)
    requires { lid < length ends.old }
    ensures { (other : ℕ) → end_known ends.new other ≡ (if lid == other then Some guid else end_known ends.old other) }
{
    ends[usize::from(lid)] = Some(guid);
}
