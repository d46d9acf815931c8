//! A fabric and a dump, as they were read.

ghost use Rattle.std.specs.Prelude.{◌≡◌, true, false, nat_lt, IfOk, IfSome, Some, slice_get};
ghost use Rattle.std.specs.List.Sorted.{IsNonDecreasingBy, IsPartitionPoint};
ghost use Rattle.std.specs.Option.{option_and_then, option_copied};
ghost use Rattle.dump_file.specs.Sound.{is_rising, rise};
ghost use Rattle.dump_file.specs.Table.{place_of};
ghost use Rattle.audit_net.specs.Lookup.{all_entries, column, column_at, table_places};
ghost use Rattle.audit_net.specs.Net.{entry, entry_in, is_left_out, is_wide, may_lack, row_of, table_at};

use crate::entry::{Entry, EntryList};
use audit_plan::{Links, Plan, PlanNode, ports_at};
use dump_file::{Dump, Row, Table};
use fabric_parts::NO_PORT;
use std::alloc::{AllocError, Global};
use std::marker::Model;

/// A fabric and a dump, with the tables of nodes looked up in constant time.
#[derive(Drop)]
pub(crate) struct Inputs<'a> {
    links: Links<'a>,
    dump: &'a Dump,
    // Of each node the place of its table in the dump, if it has one.
    tables_of: Vec<Option<usize>>,
}

impl<'a> Model for Inputs<'a> {
    ghost use Rattle.std.specs.Prelude.{◌≡◌};
    ghost use Rattle.audit_net.specs.Lookup.{table_places};
    ghost use Rattle.audit_net.specs.Net.{NetState};

    ghost Value = { NetState };

    ghost view = { λ inputs. record { plan = inputs.links; dump = inputs.dump.now } };

    ghost invariant = { λ inputs. inputs.tables_of.items ≡ table_places inputs.dump.now.tables inputs.links.nodes };
}

impl<'a> Inputs<'a> {
    pub(crate) fn new(
        alloc: Global,
        plan: &'a Plan,
        dump: &'a Dump,
    ) -> Result<Inputs<'a>, AllocError>
        ensures { IfOk result (λ inputs. inputs ≡ record { plan = plan.now; dump = dump.now }) }
    {
        let links = Links::of(alloc, plan)?;
        let tables_of = table_places(alloc, plan.nodes(), dump)?;
        Ok(Inputs {
            links,
            dump,
            tables_of,
        })
    }

    pub(crate) fn dump(&self) -> &Dump
        ensures { result.now ≡ self.now.dump }
    {
        self.dump
    }

    pub(crate) fn links(&self) -> &Links<'a>
        ensures { result.now ≡ self.now.plan }
    {
        &self.links
    }

    pub(crate) fn plan(&self) -> &Plan
        ensures { result.now ≡ self.now.plan }
    {
        self.links.plan()
    }

    /// Where the table of the node there stands, if it has one.
    fn table_place(&self, place: usize) -> Option<usize>
        ensures { result ≡ option_and_then (λ node. place_of node.guid self.now.dump.tables) (slice_get self.now.plan.nodes place) }
    {
        *self.tables_of.get(place)?
    }

    /// The table of the node there, if there is one.
    pub(crate) fn table_at(&self, place: usize) -> Option<&Table>
        ensures value { option_copied result ≡ table_at self.now place }
        ensures rising { IfSome result (λ table. is_rising table.now ≡ true) }
    {
        let table = self.table_place(place)?;
        self.dump.tables().get(table)
    }

    /// The entry of a LID in the table of the switch there.
    pub(crate) fn entry(&self, lid: u16, place: usize) -> Entry
        ensures { result ≡ entry self.now lid place }
    {
        match self.table_at(place) {
            Some(table) => entry_in(ports_at(self.plan().nodes(), place), lid, table),
            None => Entry::Unreported,
        }
    }

    /// The entries of the node there by LID, below the top of its table.
    fn column_at(&self, alloc: Global, place: usize) -> Result<Vec<Entry>, AllocError>
        ensures { IfOk result (λ entries. entries.items ≡ column_at self.now place) }
    {
        match self.table_at(place) {
            Some(table) => column(alloc, ports_at(self.plan().nodes(), place), table),
            None => Ok(Vec::new(alloc)),
        }
    }

    /// The same of all nodes.
    pub(crate) fn all_entries(&self, alloc: Global) -> Result<Vec<EntryList>, AllocError>
        ensures { IfOk result (λ all. all.items ≡ all_entries self.now) }
    {
        let mut all = Vec::new(alloc);
        for place in 0..self.plan().nodes().len() {
            let entries = self.column_at(alloc, place)?;
            all.push(EntryList::of(entries))?;
        }
        Ok(all)
    }
}

pub fn is_left_out(table: &Table, lid: u16) -> bool
    ensures { result ≡ is_left_out table.now lid }
{
    lid == table.top && lid % 64 == 0
}

/// How many rows are of lesser LIDs.
fn count_below(rows: &[Row], lid: u16) -> usize
    requires { IsNonDecreasingBy (λ row. row.lid) rows.now }
    ensures { IsPartitionPoint (λ row. nat_lt row.lid lid ≡ true) (λ row. nat_lt row.lid lid ≡ false) rows.now result }
{
    rows.partition_point(|row| row.lid < lid)
}

/// The row of a LID, if each LID from the first one on up to it has a row.
fn dense_row(rows: &[Row], lid: u16, top: u16) -> Option<&Row>
    requires { rise 0 top rows.now ≡ true }
    ensures { IfSome result (λ row. row_of lid rows.now ≡ Some row.now) }
{
    let first = rows.first()?;
    let place = lid.checked_sub(first.lid)?;
    let row = rows.get(usize::from(place))?;
    if row.lid != lid {
        return None;
    }
    Some(row)
}

/// The row of a LID, by halving.
fn halved_row(rows: &[Row], lid: u16, top: u16) -> Option<&Row>
    requires { rise 0 top rows.now ≡ true }
    ensures { option_copied result ≡ row_of lid rows.now }
{
    let place = count_below(rows, lid);
    let row = rows.get(place)?;
    if row.lid != lid {
        return None;
    }
    Some(row)
}

/// The row of a LID.
pub fn row_of(rows: &[Row], lid: u16, top: u16) -> Option<&Row>
    requires { rise 0 top rows.now ≡ true }
    ensures { option_copied result ≡ row_of lid rows.now }
{
    match dense_row(rows, lid, top) {
        Some(row) => Some(row),
        None => halved_row(rows, lid, top),
    }
}

/// Whether the tools leave out rows of a switch of so many ports, those of ports from 128 on.
pub fn is_wide(ports: u8) -> bool
    ensures { result ≡ is_wide ports }
{
    ports >= 128
}

fn may_lack(ports: u8, table: &Table, lid: u16) -> bool
    ensures { result ≡ may_lack ports table.now lid }
{
    is_wide(ports) || is_left_out(table, lid)
}

/// The entry of a LID in the table of a switch of so many ports.
fn entry_in(ports: u8, lid: u16, table: &Table) -> Entry
    requires { is_rising table.now ≡ true }
    ensures { result ≡ entry_in ports lid table.now }
{
    match row_of(table.rows.as_slice(), lid, table.top) {
        Some(row) if row.port == NO_PORT => Entry::Missing,
        Some(row) => Entry::Out(row.port),
        None if may_lack(ports, table, lid) => Entry::Unreported,
        None => Entry::Missing,
    }
}

/// The entries of a table by LID, below its top.
fn column(alloc: Global, ports: u8, table: &Table) -> Result<Vec<Entry>, AllocError>
    requires { is_rising table.now ≡ true }
    ensures { IfOk result (λ entries. entries.items ≡ column ports table.now) }
{
    let mut entries = Vec::new(alloc);
    for lid in 0..table.top {
        entries.push(entry_in(ports, lid, table))?;
    }
    Ok(entries)
}

fn table_places(
    alloc: Global,
    nodes: &[PlanNode],
    dump: &Dump,
) -> Result<Vec<Option<usize>>, AllocError>
    ensures { IfOk result (λ places. places.items ≡ table_places dump.now.tables nodes.now) }
{
    nodes
        .iter()
        .map(|node| dump.place_of(node.guid()))
        .collect(alloc)
}
