//! The rows of a table.

ghost use Rattle.std.specs.Prelude.{◌≡◌, filter, IfOk};
ghost use Rattle.std.specs.List.{enumerate_from, list_all, range_with_len};
ghost use Rattle.step_results.specs.Gives.{LineGives, seen_by};
ghost use Rattle.mft_file.specs.Row.{are_cells, is_above, is_cell, is_set, is_within, may_follow, mlid_of, ports_of, row_in, word_of};

use crate::fault::MftCause;
use crate::heading::Heading;
use crate::parts::mlid_in;
use std::alloc::{AllocError, Global};
use std::marker::Model;
use step_results::LineError;
use text_words::cut_at;

/// A port mask, as the numbers of its ports.
#[derive(Debug, Drop)]
pub struct Ports {
    numbers: Vec<u8>,
}

impl Model for Ports {
    ghost use Rattle.std.specs.Prelude.{ℕ, List};

    ghost Value = { List ℕ };

    ghost view = { λ ports. ports.numbers.items };
}

impl Ports {
    /// These ports.
    pub fn of(numbers: Vec<u8>) -> Ports
        ensures { result ≡ numbers.items }
    {
        Ports { numbers }
    }

    /// Their numbers.
    pub fn as_slice(&self) -> &[u8]
        ensures { result.now ≡ self.now }
    {
        self.numbers.as_slice()
    }
}

/// The MFT entry of an MLID, as its row reports it.
#[derive(Debug, Drop)]
pub struct MaskRow {
    /// The MLID.
    pub mlid: u16,
    /// The ports of its mask, as their numbers rise.
    pub ports: Ports,
}

/// The rows of a table, in their order.
#[derive(Debug, Drop)]
pub struct MaskRowList {
    rows: Vec<MaskRow>,
}

impl Model for MaskRowList {
    ghost use Rattle.std.specs.Prelude.{List};
    ghost use Rattle.mft_file.specs.declared.row.MaskRow.{MaskRow};

    ghost Value = { List MaskRow };

    ghost view = { λ list. list.rows.items };
}

impl MaskRowList {
    /// These rows.
    pub fn of(rows: Vec<MaskRow>) -> MaskRowList
        ensures { result ≡ rows.items }
    {
        MaskRowList { rows }
    }

    /// The rows.
    pub fn as_slice(&self) -> &[MaskRow]
        ensures { result.now ≡ self.now }
    {
        self.rows.as_slice()
    }
}

/// Whether the byte may stand at this place of a row with so many ports, behind its MLID.
fn is_cell(columns: u8, place: usize, byte: u8) -> bool
    ensures { result ≡ is_cell columns place byte }
{
    byte == b' '
        || place < 6
        || byte == b'x' && place >= 12 && place % 2 == 0 && (place - 12) / 2 < usize::from(columns)
}

fn are_cells(columns: u8, text: &[u8]) -> bool
    ensures { result ≡ are_cells columns text.now }
{
    text.iter()
        .enumerate()
        .all(|(place, byte)| is_cell(columns, place, *byte))
}

/// Whether the row has this port.
fn is_set(text: &[u8], number: u8) -> bool
    ensures { result ≡ is_set text.now number }
{
    match text.get(12 + 2 * usize::from(number)) {
        Some(byte) => *byte == b'x',
        None => false,
    }
}

fn ports_of(alloc: Global, columns: u8, text: &[u8]) -> Result<Vec<u8>, AllocError>
    ensures { IfOk result (λ ports. ports.items ≡ ports_of columns text.now) }
{
    (0..columns)
        .filter(|number| is_set(text, *number))
        .collect(alloc)
}

/// What stands before the first blank.
fn word_of(text: &[u8]) -> &[u8]
    ensures { result.now ≡ word_of text.now }
{
    match cut_at(b' ', text) {
        Some((word, _)) => word,
        None => text,
    }
}

/// The MLID of a row, if cells can stand where they do.
#[tactic(auto, unfolding(crate::specs::Row::mlid_of))]
fn mlid_of(columns: u8, text: &[u8]) -> Result<u16, MftCause>
    ensures { result ≡ mlid_of columns text.now }
{
    let word = word_of(text);
    let mlid = mlid_in(word)?;
    if word.len() != 6 || !are_cells(columns, text) {
        return Err(MftCause::Malformed);
    }
    Ok(mlid)
}

/// The row that a line reports.
#[tactic(auto, unfolding(crate::specs::Row::row_in))]
pub(crate) fn row_in(
    alloc: Global,
    columns: u8,
    text: &[u8],
) -> Result<MaskRow, LineError<MftCause>>
    ensures { LineGives (λ row. row) result (row_in columns text.now) }
{
    let mlid = mlid_of(columns, text)?;
    let ports = ports_of(alloc, columns, text)?;
    Ok(MaskRow {
        mlid,
        ports: Ports::of(ports),
    })
}

/// Whether the MLID is above that of the last row.
fn is_above(rows: &[MaskRow], mlid: u16) -> bool
    ensures { result ≡ is_above rows.now mlid }
{
    match rows.last() {
        Some(row) => row.mlid < mlid,
        None => true,
    }
}

/// Whether it is an MLID of a table with this top.
fn is_within(top: u16, mlid: u16) -> bool
    ensures { result ≡ is_within top mlid }
{
    0xc000 <= mlid && mlid <= 0xfffe && mlid <= top
}

/// Whether a row of this MLID may follow these.
pub(crate) fn may_follow(heading: Heading, rows: &[MaskRow], mlid: u16) -> bool
    ensures { result ≡ may_follow heading.top rows.now mlid }
{
    is_above(rows, mlid) && is_within(heading.top, mlid)
}
