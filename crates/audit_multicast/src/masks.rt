//! The port masks of an MLID.

ghost use Rattle.std.specs.Prelude.{◌≡◌, ◌≤◌, ◌||◌, ◌==◌, false, [], filter, find, length, ℕ, IfOk};
ghost use Rattle.std.specs.List.{list_any, range_with_len};
ghost use Rattle.std.specs.Option.{option_copied};
ghost use Rattle.topo_file.specs.Rounds.{is_marked};
ghost use Rattle.audit_multicast.specs.Masks.{has_row, is_used, mask_in, mask_of, masks_of, mlids_of, table_of};

use audit_net::{Net, blank};
use audit_plan::PlanNode;
use mft_file::{MaskRow, MaskTable, Mfts, Ports};
use std::alloc::{AllocError, Global};
use topo_file::is_marked;

/// The MFT of the switch of this GUID.
pub(crate) fn table_of(mfts: &Mfts, guid: u64) -> Option<&MaskTable>
    ensures { option_copied result ≡ table_of mfts.now.tables guid }
{
    let place = mfts.place_of(guid)?;
    mfts.tables().get(place)
}

fn row_of(rows: &[MaskRow], mlid: u16) -> Option<&MaskRow>
    ensures { option_copied result ≡ find (λ row. row.mlid == mlid) rows.now }
{
    rows.iter().find(|row| row.mlid == mlid)
}

fn no_ports(alloc: Global) -> Ports
    ensures { result ≡ [] }
{
    Ports::of(Vec::new(alloc))
}

fn mask_in(alloc: Global, mlid: u16, table: &MaskTable) -> Result<Ports, AllocError>
    ensures { IfOk result (λ ports. ports ≡ mask_in mlid table.now) }
{
    match row_of(table.rows.as_slice(), mlid) {
        Some(row) => {
            let numbers = Vec::from_slice(alloc, row.ports.as_slice())?;
            Ok(Ports::of(numbers))
        }
        None => Ok(no_ports(alloc)),
    }
}

fn mask_of(alloc: Global, mfts: &Mfts, mlid: u16, node: &PlanNode) -> Result<Ports, AllocError>
    ensures { IfOk result (λ ports. ports ≡ mask_of mfts.now.tables mlid node.now) }
{
    if !node.is_switch() {
        return Ok(no_ports(alloc));
    }
    match table_of(mfts, node.guid()) {
        Some(table) => mask_in(alloc, mlid, table),
        None => Ok(no_ports(alloc)),
    }
}

/// Of each node the mask of an MLID.
pub(crate) fn masks_of(
    alloc: Global,
    net: &Net<'_>,
    mfts: &Mfts,
    mlid: u16,
) -> Result<Vec<Ports>, AllocError>
    ensures { IfOk result (λ masks. masks.items ≡ masks_of net.now mfts.now.tables mlid) }
{
    let mut masks = Vec::new(alloc);
    for node in net.plan().nodes() {
        masks.push(mask_of(alloc, mfts, mlid, node)?)?;
    }
    Ok(masks)
}

fn mark(marks: &mut [bool], mlid: u16)
    requires { 65536 ≤ length marks.old }
    ensures long { length marks.new ≡ length marks.old }
    ensures marked { (other : ℕ) → is_marked marks.new other ≡ (is_marked marks.old other || (mlid == other)) }
{
    marks[usize::from(mlid)] = true;
}

/// Marks the MLIDs of a table.
fn mark_rows(marks: &mut [bool], table: &MaskTable)
    requires { 65536 ≤ length marks.old }
    ensures long { length marks.new ≡ length marks.old }
    ensures marked { (mlid : ℕ) → is_marked marks.new mlid ≡ (is_marked marks.old mlid || has_row mlid table.now) }
{
    for row in table.rows.as_slice() {
        mark(marks, row.mlid);
    }
}

/// A mark for each MLID that a row names.
fn marks_of(alloc: Global, tables: &[MaskTable]) -> Result<Vec<bool>, AllocError>
    ensures { IfOk result (λ marks. (mlid : ℕ) → is_marked marks.items mlid ≡ is_used tables.now mlid) }
{
    let mut marks = blank(alloc, 65536)?;
    for table in tables {
        mark_rows(&mut marks, table);
    }
    Ok(marks)
}

fn marked_mlids(alloc: Global, marks: &[bool]) -> Result<Vec<u16>, AllocError>
    ensures { IfOk result (λ mlids. mlids.items ≡ filter (is_marked marks.now) (range_with_len 49152 16383)) }
{
    (0xc000u16..0xffff)
        .filter(|mlid| is_marked(marks, usize::from(*mlid)))
        .collect(alloc)
}

/// The MLIDs that a row names, as they rise.
pub(crate) fn mlids_of(alloc: Global, tables: &[MaskTable]) -> Result<Vec<u16>, AllocError>
    ensures { IfOk result (λ mlids. mlids.items ≡ mlids_of tables.now) }
{
    let marks = marks_of(alloc, tables)?;
    let mlids = marked_mlids(alloc, &marks)?;
    Ok(mlids)
}
