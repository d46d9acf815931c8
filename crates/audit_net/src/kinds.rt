//! Of what kind the ports are that have LIDs, by the rows of all switches.

ghost use Rattle.std.specs.Prelude.{◌≡◌, ◌≤◌, ◌||◌, not, length, IfOk, ℕ};
ghost use Rattle.std.specs.List.{list_any};
ghost use Rattle.topo_file.specs.Rounds.{is_marked};
ghost use Rattle.audit_net.specs.Kinds.{KnowsOthers, says_other};
ghost use Rattle.audit_net.specs.Lids.{is_of_kind, says_kind};

use crate::lids::mark;
use crate::marks::blank;
use crate::net::Net;
use dump_file::{Destination, Row};
use std::alloc::{AllocError, Global};

/// Whether an end port, a switch's or not, is of the kind that is said.
fn is_of_kind(of_switch: bool, destination: Destination) -> bool
    ensures { result ≡ is_of_kind of_switch destination }
{
    match destination {
        Destination::ChannelAdapter { .. } | Destination::Router { .. } => !of_switch,
        Destination::Switch { .. } => of_switch,
        Destination::FurtherLid { .. } | Destination::Nobody | Destination::NotReported => true,
    }
}

fn mark_other(marks: &mut [bool], of_switch: bool, row: Row)
    requires { 65536 ≤ length marks.old }
    ensures long { length marks.new ≡ length marks.old }
    ensures marked { (lid : ℕ) → is_marked marks.new lid ≡ (is_marked marks.old lid || says_other of_switch lid row) }
{
    if !is_of_kind(of_switch, row.destination) {
        mark(marks, row.lid);
    }
}

/// Marks the LIDs of which these rows say another kind.
fn mark_others(marks: &mut [bool], of_switch: bool, rows: &[Row])
    requires { 65536 ≤ length marks.old }
    ensures long { length marks.new ≡ length marks.old }
    ensures marked { (lid : ℕ) → is_marked marks.new lid ≡ (is_marked marks.old lid || list_any (says_other of_switch lid) rows.now) }
{
    for row in rows {
        mark_other(marks, of_switch, *row);
    }
}

fn mark_others_at(net: &Net<'_>, marks: &mut [bool], of_switch: bool, place: usize)
    requires { 65536 ≤ length marks.old }
    ensures long { length marks.new ≡ length marks.old }
    ensures marked { (lid : ℕ) → is_marked marks.new lid ≡ (is_marked marks.old lid || not (says_kind net.now lid of_switch place)) }
{
    if let Some(table) = net.table_at(place) {
        mark_others(marks, of_switch, table.rows.as_slice());
    }
}

/// A mark for each LID of which the row of some switch says another kind than a switch's, or than another end port's.
pub(crate) fn other_kinds(
    net: &Net<'_>,
    alloc: Global,
    of_switch: bool,
) -> Result<Vec<bool>, AllocError>
    ensures { IfOk result (λ marks. KnowsOthers net.now of_switch marks.items) }
{
    let mut marks = blank(alloc, 65536)?;
    for place in net.switches() {
        mark_others_at(net, &mut marks, of_switch, *place);
    }
    Ok(marks)
}
