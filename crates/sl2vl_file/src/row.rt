//! The rows of an SL-to-VL mapping table.

ghost use Rattle.std.specs.Prelude.{◌≡◌, ◌==◌, length, slice_get, true, IfOk};
ghost use Rattle.std.specs.List.{enumerate_from, list_all, range_with_len};
ghost use Rattle.step_results.specs.Gives.{LineGives, seen_by};
ghost use Rattle.sl2vl_file.specs.Row.{are_cells, are_vls, is_cell, is_digit, ports_in, row_in, tens_at, vl_at, vls_at, vls_in};
ghost use Rattle.sl2vl_file.specs.Sound.{has_16_vls};

use crate::fault::LanesCause;
use crate::parts::{behind, cut, port_in};
use std::alloc::{AllocError, Global};
use std::marker::Model;
use step_results::LineError;

/// The VL (virtual lane) of each SL (service level), from SL 0 on.
#[derive(Debug, Drop)]
pub struct Vls {
    numbers: Vec<u8>,
}

impl Model for Vls {
    ghost use Rattle.std.specs.Prelude.{ℕ, List};

    ghost Value = { List ℕ };

    ghost view = { λ vls. vls.numbers.items };
}

impl Vls {
    /// These VLs.
    pub fn of(numbers: Vec<u8>) -> Vls
        ensures { result ≡ numbers.items }
    {
        Vls { numbers }
    }

    /// The VLs.
    pub fn as_slice(&self) -> &[u8]
        ensures { result.now ≡ self.now }
    {
        self.numbers.as_slice()
    }

    /// The VL of this SL, if there is one.
    pub fn of_sl(&self, sl: u8) -> Option<u8>
        ensures { result ≡ slice_get self.now sl }
    {
        self.numbers.get(usize::from(sl)).copied()
    }
}

/// A row of an SL-to-VL mapping table: the VLs of packets that come into a switch at one port and leave it by another.
///
/// Source: IBA volume 1, chapter 14.
#[derive(Debug, Drop)]
pub struct LaneRow {
    /// Its line.
    pub line: usize,
    /// The LID by which the switch was asked.
    pub lid: u16,
    /// The port at which packets come in.
    pub input: u8,
    /// The port by which they leave.
    pub output: u8,
    /// The VL of each SL: 16 of them, none above 15.
    pub lanes: Vls,
}

fn is_digit(byte: u8) -> bool
    ensures { result ≡ is_digit byte }
{
    b'0' <= byte && byte <= b'9'
}

/// Whether the byte may stand at this place of the cells.
fn is_cell(place: usize, byte: u8) -> bool
    ensures { result ≡ is_cell place byte }
{
    if place % 3 == 0 {
        byte == b' ' || byte == b'1'
    } else if place % 3 == 1 {
        is_digit(byte)
    } else {
        byte == b'|'
    }
}

fn are_cells(text: &[u8]) -> bool
    ensures { result ≡ are_cells text.now }
{
    text.iter()
        .enumerate()
        .all(|(place, byte)| is_cell(place, *byte))
}

fn tens_at(text: &[u8], sl: u8) -> u8
    ensures { result ≡ tens_at text.now sl }
{
    match text.get(3 * usize::from(sl)) {
        Some(b'1') => 10,
        _ => 0,
    }
}

/// The VL of this SL.
fn vl_at(text: &[u8], sl: u8) -> u8
    ensures { result ≡ vl_at text.now sl }
{
    let ones = match text.get(3 * usize::from(sl) + 1) {
        Some(byte) => byte.saturating_sub(b'0'),
        None => 0,
    };
    tens_at(text, sl) + ones
}

fn vls_at(alloc: Global, text: &[u8]) -> Result<Vec<u8>, AllocError>
    ensures { IfOk result (λ vls. vls.items ≡ vls_at text.now) }
{
    (0..16u8).map(|sl| vl_at(text, sl)).collect(alloc)
}

fn are_vls(vls: &[u8]) -> bool
    ensures { result ≡ are_vls vls.now }
{
    vls.iter().all(|vl| *vl <= 15)
}

/// The VLs that the cells of a row report.
fn vls_in(alloc: Global, text: &[u8]) -> Result<Vls, LineError<LanesCause>>
    ensures value { LineGives (λ vls. vls) result (vls_in text.now) }
    ensures sound { IfOk result (λ vls. has_16_vls vls ≡ true) }
{
    let vls = vls_at(alloc, text)?;
    if text.len() != 48 || !are_cells(text) || !are_vls(vls.as_slice()) {
        return Err(LineError::Fault(LanesCause::Malformed));
    }
    Ok(Vls::of(vls))
}

/// The two ports of a row, and what stands behind them.
#[tactic(auto, unfolding(crate::specs::Row::ports_in))]
fn ports_in(text: &[u8]) -> Result<(u8, u8, &[u8]), LanesCause>
    ensures { seen_by (λ ports. (ports.0, (ports.1, ports.2.now))) result ≡ ports_in text.now }
{
    let ports = behind(b"ports: in ", text)?;
    let (input, rest) = cut(b',', ports)?;
    let input = port_in(input)?;
    let rest = behind(b" out ", rest)?;
    let (output, rest) = cut(b':', rest)?;
    let output = port_in(output)?;
    Ok((input, output, rest))
}

/// The row that a line reports, of the table of this LID.
#[tactic(auto, unfolding(crate::specs::Row::row_in))]
pub(crate) fn row_in(
    alloc: Global,
    line: usize,
    lid: u16,
    text: &[u8],
) -> Result<LaneRow, LineError<LanesCause>>
    ensures value { LineGives (λ row. row) result (row_in line lid text.now) }
    ensures sound { IfOk result (λ row. has_16_vls row.lanes ≡ true) }
{
    let (input, output, rest) = ports_in(text)?;
    let cells = behind(b" |", rest)?;
    let lanes = vls_in(alloc, cells)?;
    Ok(LaneRow {
        line,
        lid,
        input,
        output,
        lanes,
    })
}
