//! A dump of which lines are still to come.

ghost use Rattle.std.specs.Prelude.{◌≡◌, ◌++◌, Some, is_some, false, true, IfOk, OnErr, OnOk, [], ◌∷◌};
ghost use Rattle.dump_file.specs.Dump.{broken_off, closed, count_reported, has_one, heading_of, heading_reported, new_heading, new_row, noted_by_lid, nothing};
ghost use Rattle.dump_file.specs.Dump.{row_reported, rows_counted, rows_so_far, with_rows};
ghost use Rattle.dump_file.specs.Row.{is_above, is_said_otherwise, may_follow};
ghost use Rattle.dump_file.specs.Sound.{may_take};
ghost use Rattle.dump_file.specs.Table.{place_of};

use crate::ends::EndList;
use crate::fault::DumpCause;
use crate::heading::{Heading, heading_in};
use crate::parts::{count_in, cut};
use crate::row::{Row, RowList, are_two, may_follow, row_in, valid_count};
use crate::stage::Stage;
use crate::table::Table;
use indexmap::IndexSet;
use std::alloc::{AllocError, Global};
use std::marker::Model;
use std::mem;

/// What the lines so far report.
#[derive(Drop)]
pub(crate) struct Draft {
    pub(crate) tables: Vec<Table>,
    // The GUIDs of switches that have a table, and of those that have one by their LID.
    known: IndexSet<u64>,
    by_lid: IndexSet<u64>,
    pub(crate) stage: Stage,
    // Of the table that is open.
    pub(crate) rows: Vec<Row>,
    // The end port of each LID of which a row of these tables says one. Those of the table that is open are noted when it ends.
    pub(crate) ends: EndList,
}

impl Model for Draft {
    ghost use Rattle.dump_file.specs.Dump.{DraftState};
    ghost use Rattle.dump_file.specs.Sound.{IsSoundSoFar};
    ghost use Rattle.dump_file.specs.Table.{rows_of};
    ghost use Rattle.dump_file.specs.Index.{KnowsEnds, KnowsSwitches};

    ghost Value = { DraftState };

    ghost view = { λ draft. record {
      tables = draft.tables.items;
      by_lid = draft.by_lid.keys;
      stage = draft.stage;
      rows = draft.rows.items;
    } };

    ghost invariant = { λ draft.
        IsSoundSoFar (record { tables = draft.tables.items; by_lid = draft.by_lid.keys; stage = draft.stage; rows = draft.rows.items })
        × (KnowsSwitches draft.known.keys draft.tables.items
        × KnowsEnds draft.ends (rows_of draft.tables.items)) };
}

impl Draft {
    pub(crate) fn new(alloc: Global) -> Draft
        ensures { result ≡ nothing }
    {
        Draft {
            tables: Vec::new(alloc),
            known: IndexSet::new(alloc),
            by_lid: IndexSet::new(alloc),
            stage: Stage::Between,
            rows: Vec::new(alloc),
            ends: EndList::new(alloc),
        }
    }

    fn has_table(&self, guid: u64) -> bool
        ensures { result ≡ is_some (place_of guid self.now.tables) }
    {
        self.known.contains(&guid)
    }

    /// Whether the switch has a table beside which this one cannot stand.
    fn has_one(&self, heading: Heading) -> bool
        ensures { result ≡ has_one self.now heading }
    {
        if heading.by_lid {
            self.by_lid.contains(&heading.guid)
        } else {
            self.has_table(heading.guid)
        }
    }

    /// Judges a heading against the tables before it.
    fn new_heading(&self, heading: Heading) -> Result<Heading, DumpCause>
        ensures { result ≡ new_heading self.now heading }
    {
        if self.has_one(heading) {
            return Err(DumpCause::DuplicateTable);
        }
        Ok(heading)
    }

    /// The heading that a line reports, of a switch that has no table yet, or none by its LID.
    #[tactic(auto, unfolding(crate::specs::Dump::heading_reported))]
    pub(crate) fn heading_reported(&self, number: usize, text: &[u8]) -> Result<Heading, DumpCause>
        ensures { result ≡ heading_reported number self.now text.now }
    {
        let heading = heading_in(number, text)?;
        self.new_heading(heading)
    }

    /// Whether a row before says that another end port has this row's LID. Of the rows of the table that is open none has it.
    fn is_said_otherwise(&self, row: Row) -> bool
        requires above { is_above self.now.rows row.lid ≡ true }
        ensures { result ≡ is_said_otherwise (rows_so_far self.now) row }
    {
        are_two(self.ends.end_of(row.lid), row.destination.guid())
    }

    /// Judges a row of the table that is open against those before it.
    fn new_row(&self, heading: Heading, row: Row) -> Result<Row, DumpCause>
        ensures value { result ≡ new_row self.now heading row }
        ensures rising { IfOk result (λ reported. may_follow heading.top self.now.rows reported.lid ≡ true) }
        ensures one_end { IfOk result (λ reported. is_said_otherwise (rows_so_far self.now) reported ≡ false) }
    {
        if !may_follow(heading.top, self.rows.as_slice(), row.lid) {
            return Err(DumpCause::WrongLid);
        }
        if self.is_said_otherwise(row) {
            return Err(DumpCause::TwoEndPorts);
        }
        Ok(row)
    }

    /// The row that a line reports, of the table that is open.
    #[tactic(auto, unfolding(crate::specs::Dump::row_reported))]
    pub(crate) fn row_reported(&self, heading: Heading, text: &[u8]) -> Result<Row, DumpCause>
        ensures value { result ≡ row_reported self.now heading text.now }
        ensures rising { IfOk result (λ reported. may_follow heading.top self.now.rows reported.lid ≡ true) }
        ensures one_end { IfOk result (λ reported. is_said_otherwise (rows_so_far self.now) reported ≡ false) }
    {
        let row = row_in(text)?;
        self.new_row(heading, row)
    }

    /// Closes the table that is open. It can only run out of memory, and then what was reported may be lost.
    pub(crate) fn close(&mut self, alloc: Global, heading: Heading) -> Result<(), AllocError>
        requires open { heading_of self.old.stage ≡ Some heading }
        ensures ok { OnOk result (self.new ≡ closed self.old heading) }
    {
        self.tables.reserve(1)?;
        note_by_lid(&mut self.by_lid, heading)?;
        self.known.insert(heading.guid)?;
        if let Err(error) = self.ends.add_rows(self.rows.as_slice()) {
            *self = Draft::new(alloc);
            return Err(error);
        }
        let rows = RowList::of(mem::replace(&mut self.rows, Vec::new(alloc)));
        self.tables.push(Table::of(heading, rows))?;
        self.stage = Stage::Between;
        Ok(())
    }

    /// Adds a row to the table that is open. It can only run out of memory, and then all stays as it was.
    pub(crate) fn push(&mut self, row: Row) -> Result<(), AllocError>
        requires open { may_take (heading_of self.old.stage) self.old.rows row ≡ true }
        requires one_end { is_said_otherwise (rows_so_far self.old) row ≡ false }
        ensures ok { OnOk result (self.new ≡ with_rows self.old (self.old.rows ++ row ∷ [])) }
        ensures err { OnErr result (self.new ≡ self.old) }
    {
        self.rows.push(row)?;
        Ok(())
    }

    /// Breaks off the table that is open, if one is.
    pub(crate) fn break_off(&mut self, alloc: Global)
        ensures { self.new ≡ broken_off self.old }
    {
        self.rows = Vec::new(alloc);
        self.stage = Stage::Between;
    }
}

/// Notes that the switch has a table by its LID, if it has.
fn note_by_lid(by_lid: &mut IndexSet<u64>, heading: Heading) -> Result<(), AllocError>
    ensures { OnOk result (by_lid.new.keys ≡ noted_by_lid by_lid.old.keys heading) }
{
    if heading.by_lid {
        by_lid.insert(heading.guid)?;
    }
    Ok(())
}

/// How many rows the last line of a table counts by these words.
fn rows_counted(rows: &[Row], words: &[u8]) -> Result<usize, DumpCause>
    ensures { result ≡ rows_counted rows.now words.now }
{
    if words == b"valid lids dumped".as_slice() {
        return Ok(valid_count(rows));
    }
    if words == b"lids dumped".as_slice() {
        return Ok(rows.len());
    }
    Err(DumpCause::Malformed)
}

/// What the last line of a table counts, if there are as many rows.
#[tactic(auto, unfolding(crate::specs::Dump::count_reported))]
pub(crate) fn count_reported(rows: &[Row], text: &[u8]) -> Result<u128, DumpCause>
    ensures { result ≡ count_reported rows.now text.now }
{
    let (number, words) = cut(b' ', text)?;
    let number = count_in(number)?;
    let count = rows_counted(rows, words)?;
    if number != count as u128 {
        return Err(DumpCause::WrongCount);
    }
    Ok(number)
}
