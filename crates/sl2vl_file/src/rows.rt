//! Rows.

ghost use Rattle.std.specs.Prelude.{◌≡◌, [], ◌∷◌, ◌++◌, None, OnErr, OnOk};
ghost use Rattle.sl2vl_file.specs.Rows.{place_of};

use crate::row::LaneRow;
use indexmap::IndexSet;
use std::alloc::{AllocError, Global};
use std::marker::Model;

/// Whose a row is, and of which two ports.
#[derive(Clone, Copy, Debug, PartialEq, Eq, Hash)]
pub(crate) struct RowKey {
    lid: u16,
    input: u8,
    output: u8,
}

/// Rows of different LIDs or ports, in the order in which they were added, and found in constant time.
#[derive(Debug, Drop)]
pub(crate) struct LaneRowList {
    // The keys again, each at the place of its row.
    keys: IndexSet<RowKey>,
    rows: Vec<LaneRow>,
}

impl Model for LaneRowList {
    ghost use Rattle.std.specs.Prelude.{◌≡◌, List, map};
    ghost use Rattle.sl2vl_file.specs.declared.row.LaneRow.{LaneRow};

    ghost Value = { List LaneRow };

    ghost view = { λ list. list.rows.items };

    ghost invariant = { λ list. list.keys.keys ≡ map (λ row. record { lid = row.lid; input = row.input; output = row.output }) list.rows.items };
}

impl LaneRowList {
    pub(crate) fn new(alloc: Global) -> LaneRowList
        ensures { result ≡ [] }
    {
        LaneRowList {
            keys: IndexSet::new(alloc),
            rows: Vec::new(alloc),
        }
    }

    pub(crate) fn as_slice(&self) -> &[LaneRow]
        ensures { result.now ≡ self.now }
    {
        self.rows.as_slice()
    }

    /// Where the row of this LID and these two ports stands, looked up in constant time.
    pub(crate) fn place_of(&self, lid: u16, input: u8, output: u8) -> Option<usize>
        ensures { result ≡ place_of lid input output self.now }
    {
        self.keys.get_index_of(&RowKey { lid, input, output })
    }

    /// Adds a row at the end. It can only run out of memory, and then the list stays as it was.
    pub(crate) fn push(&mut self, row: LaneRow) -> Result<(), AllocError>
        requires new { place_of row.lid row.input row.output self.old ≡ None }
        ensures ok { OnOk result (self.new ≡ self.old ++ row ∷ []) }
        ensures err { OnErr result (self.new ≡ self.old) }
    {
        self.rows.reserve(1)?;
        self.keys.insert(RowKey {
            lid: row.lid,
            input: row.input,
            output: row.output,
        })?;
        self.rows.push(row)?;
        Ok(())
    }
}
