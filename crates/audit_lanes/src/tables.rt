//! LIDs, and the rows of SL-to-VL mapping tables, looked up in constant time.

ghost use Rattle.std.specs.Prelude.{◌≡◌, IfOk, OnOk, find};
ghost use Rattle.indexmap.specs.IndexMap.{get};
ghost use Rattle.audit_lanes.specs.declared.hop.Crossing.{Crossing};
ghost use Rattle.std.specs.Option.{option_copied};
ghost use Rattle.audit_lanes.specs.Keys.{KnowsAims, KnowsRows, noted};
ghost use Rattle.audit_lanes.specs.Tables.{is_same_crossing, crossing_by, crossing_of, end_of, if_others, is_row_of, others_end, unplaced_lids, vl_of};

use crate::hop::Crossing;
use audit_net::{Aim, Net};
use fabric_parts::PortRef;
use indexmap::IndexMap;
use sl2vl_file::LaneRow;
use std::alloc::{AllocError, Global};
use std::marker::Model;

/// What is known of LIDs, and the rows of SL-to-VL mapping tables.
#[derive(Drop)]
pub(crate) struct Tables<'a> {
    aims: &'a [Aim],
    rows: &'a [LaneRow],
    // What is known of each LID.
    by_lid: IndexMap<u16, Aim>,
    // The place of the first row of each two ports of a switch.
    by_crossing: IndexMap<Crossing, usize>,
}

impl<'a> Model for Tables<'a> {
    ghost use Rattle.audit_lanes.specs.Keys.{KnowsAims, KnowsRows};
    ghost use Rattle.audit_lanes.specs.Tables.{TablesState};

    ghost Value = { TablesState };

    ghost view = { λ tables. record { aims = tables.aims.now; rows = tables.rows.now } };

    ghost invariant = { λ tables. KnowsAims tables.by_lid tables.aims.now
        × KnowsRows tables.by_crossing tables.aims.now tables.rows.now tables.rows.now };
}

/// What is known of each LID. Later ones come first, so that of two the first counts.
fn by_lid(alloc: Global, aims: &[Aim]) -> Result<IndexMap<u16, Aim>, AllocError>
    ensures { IfOk result (λ known. KnowsAims known aims.now) }
{
    let mut known = IndexMap::new(alloc);
    for index in (0..aims.len()).rev() {
        let aim = aims[index];
        known.insert(aim.lid, aim)?;
    }
    Ok(known)
}

fn end_of(by_lid: &IndexMap<u16, Aim>, aims: &[Aim], lid: u16) -> Option<PortRef>
    requires { KnowsAims by_lid.now aims.now }
    ensures { result ≡ end_of aims.now lid }
{
    let aim = *by_lid.get(&lid)?;
    aim.end
}

fn crossing_by(row: &LaneRow, end: PortRef) -> Option<Crossing>
    ensures { result ≡ crossing_by row.now end }
{
    if end.port != 0 {
        return None;
    }
    Some(Crossing {
        place: end.node,
        input: row.input,
        output: row.output,
    })
}

/// The switch whose LID a row has, and the ports of the row.
fn crossing_of(by_lid: &IndexMap<u16, Aim>, aims: &[Aim], row: &LaneRow) -> Option<Crossing>
    requires { KnowsAims by_lid.now aims.now }
    ensures { result ≡ crossing_of aims.now row.now }
{
    let end = end_of(by_lid, aims, row.lid)?;
    crossing_by(row, end)
}

fn note_row(
    known: &mut IndexMap<Crossing, usize>,
    crossing: Option<Crossing>,
    place: usize,
) -> Result<(), AllocError>
    ensures { OnOk result ((here : Crossing) → get is_same_crossing known.new here ≡ noted crossing place here (get is_same_crossing known.old here)) }
{
    if let Some(crossing) = crossing {
        known.insert(crossing, place)?;
    }
    Ok(())
}

/// The place of the first row of each two ports of a switch. Later ones come first.
fn by_crossing(
    alloc: Global,
    by_lid: &IndexMap<u16, Aim>,
    aims: &[Aim],
    rows: &[LaneRow],
) -> Result<IndexMap<Crossing, usize>, AllocError>
    requires { KnowsAims by_lid.now aims.now }
    ensures { IfOk result (λ known. KnowsRows known aims.now rows.now rows.now) }
{
    let mut known = IndexMap::new(alloc);
    for index in (0..rows.len()).rev() {
        let crossing = crossing_of(by_lid, aims, &rows[index]);
        note_row(&mut known, crossing, index)?;
    }
    Ok(known)
}

impl<'a> Tables<'a> {
    /// What is known of LIDs, and rows.
    pub(crate) fn new(
        alloc: Global,
        aims: &'a [Aim],
        rows: &'a [LaneRow],
    ) -> Result<Tables<'a>, AllocError>
        ensures { IfOk result (λ tables. tables ≡ record { aims = aims.now; rows = rows.now }) }
    {
        let by_lid = by_lid(alloc, aims)?;
        let by_crossing = by_crossing(alloc, &by_lid, aims, rows)?;
        Ok(Tables {
            aims,
            rows,
            by_lid,
            by_crossing,
        })
    }

    /// What is known of LIDs.
    pub(crate) fn aims(&self) -> &[Aim]
        ensures { result.now ≡ self.now.aims }
    {
        self.aims
    }

    fn end_of(&self, lid: u16) -> Option<PortRef>
        ensures { result ≡ end_of self.now.aims lid }
    {
        end_of(&self.by_lid, self.aims, lid)
    }

    /// The end port that has the LID, if the fabric has it and it is not a switch's.
    pub(crate) fn others_end(&self, net: &Net<'_>, lid: u16) -> Option<PortRef>
        ensures { result ≡ others_end net.now self.now.aims lid }
    {
        let end = self.end_of(lid)?;
        if_others(net, end)
    }

    fn row_of(&self, crossing: Crossing) -> Option<&LaneRow>
        ensures { option_copied result ≡ find (is_row_of self.now.aims crossing) self.now.rows }
    {
        let place = *self.by_crossing.get(&crossing)?;
        self.rows.get(place)
    }

    /// The VL of packets of this SL that cross a switch so.
    pub(crate) fn vl_of(&self, crossing: Crossing, sl: u8) -> Option<u8>
        ensures { result ≡ vl_of self.now crossing sl }
    {
        let row = self.row_of(crossing)?;
        row.lanes.of_sl(sl)
    }
}

fn if_others(net: &Net<'_>, end: PortRef) -> Option<PortRef>
    ensures { result ≡ if_others net.now end }
{
    if net.plan().is_switch_at(end.node) {
        None
    } else {
        Some(end)
    }
}

/// The LIDs whose end port the fabric lacks, or that are nobody's.
pub(crate) fn unplaced_lids(alloc: Global, aims: &[Aim]) -> Result<Vec<u16>, AllocError>
    ensures { IfOk result (λ lids. lids.items ≡ unplaced_lids aims.now) }
{
    aims.iter()
        .copied()
        .filter(|aim| aim.end.is_none())
        .map(|aim| aim.lid)
        .collect(alloc)
}
