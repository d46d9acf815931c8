//! The rows of a table.

ghost use Rattle.std.specs.Prelude.{◌≡◌, ◌==◌};
ghost use Rattle.step_results.specs.Gives.{seen_by};
ghost use Rattle.text_words.specs.Cut.{both, cut_at};
ghost use Rattle.dump_file.specs.Row.{are_two, cut_behind_port, is_above, is_valid, may_follow, row_in, valid_count};

use crate::destination::{Destination, destination_in};
use crate::fault::DumpCause;
use crate::parts::{cut, lid_in, port_in};
use fabric_parts::NO_PORT;
use std::marker::Model;
use text_words::cut_at;

/// The entry of a LID, as its row reports it.
#[derive(Clone, Copy, Debug, PartialEq, Eq)]
pub struct Row {
    /// The LID.
    pub lid: u16,
    /// The port by which the switch forwards to it, 0 if it takes what is sent to it itself; 255 if it
    /// leads nowhere, on purpose.
    pub port: u8,
    /// Whose the LID is.
    pub destination: Destination,
}

/// The rows of a table, in their order.
#[derive(Debug, Drop)]
pub struct RowList {
    rows: Vec<Row>,
}

impl Model for RowList {
    ghost use Rattle.std.specs.Prelude.{List};
    ghost use Rattle.dump_file.specs.declared.row.Row.{Row};

    ghost Value = { List Row };

    ghost view = { λ list. list.rows.items };
}

impl RowList {
    /// These rows.
    pub fn of(rows: Vec<Row>) -> RowList
        ensures { result ≡ rows.items }
    {
        RowList { rows }
    }

    /// The rows.
    pub fn as_slice(&self) -> &[Row]
        ensures { result.now ≡ self.now }
    {
        self.rows.as_slice()
    }
}

fn cut_behind_port(text: &[u8]) -> Result<(&[u8], &[u8]), DumpCause>
    ensures { seen_by both result ≡ cut_behind_port text.now (cut_at (λ byte. byte == 32) text.now) }
{
    match cut_at(b' ', text) {
        Some(parts) => Ok(parts),
        None => {
            port_in(text)?;
            Err(DumpCause::EndNotReported)
        }
    }
}

/// The row that a line reports.
#[tactic(auto, unfolding(crate::specs::Row::row_in))]
pub(crate) fn row_in(text: &[u8]) -> Result<Row, DumpCause>
    ensures { result ≡ row_in text.now }
{
    let (lid, rest) = cut(b' ', text)?;
    let lid = lid_in(lid)?;
    let (port, reported) = cut_behind_port(rest)?;
    let port = port_in(port)?;
    let destination = destination_in(reported)?;
    Ok(Row {
        lid,
        port,
        destination,
    })
}

/// How many rows lead somewhere.
pub(crate) fn valid_count(rows: &[Row]) -> usize
    ensures { result ≡ valid_count rows.now }
{
    rows.iter().filter(|row| row.port != NO_PORT).count()
}

/// Whether the LID is above that of the last row.
fn is_above(rows: &[Row], lid: u16) -> bool
    ensures { result ≡ is_above rows.now lid }
{
    match rows.last() {
        Some(row) => row.lid < lid,
        None => true,
    }
}

/// Whether a row of this LID may follow these.
pub(crate) fn may_follow(top: u16, rows: &[Row], lid: u16) -> bool
    ensures { result ≡ may_follow top rows.now lid }
{
    is_above(rows, lid) && lid <= top
}

/// Whether both are GUIDs, and differ.
pub(crate) fn are_two(a: Option<u64>, b: Option<u64>) -> bool
    ensures { result ≡ are_two a b }
{
    match (a, b) {
        (Some(a), Some(b)) => a != b,
        _ => false,
    }
}
