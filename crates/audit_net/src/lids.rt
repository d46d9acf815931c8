//! The LIDs that a dump names or a discovery reports, and the end ports of the fabric that have them.

ghost use Rattle.std.specs.Prelude.{◌≡◌, ◌≤◌, ◌||◌, ◌==◌, false, length, IfOk, ℕ};
ghost use Rattle.std.specs.List.{list_any};
ghost use Rattle.dump_file.specs.Table.{rows_of};
ghost use Rattle.audit_net.specs.Lids.{aims, has_lid, have_lids, is_lacking, is_named, is_of, is_of_fabric, says_of_fabric};
ghost use Rattle.topo_file.specs.Connectivity.{switches};
ghost use Rattle.topo_file.specs.Rounds.{is_marked};

use crate::lid_index::LidIndex;
use crate::marks::blank;
use crate::net::Net;
use dump_file::{Destination, Row, Table};
use fabric_parts::{Cable, PortRef};
use std::alloc::{AllocError, Global};

/// What is known of a LID.
#[derive(Clone, Copy)]
pub struct Aim {
    /// The LID.
    pub lid: u16,
    /// The GUID of the end port that has it, if a row says one, or the discovery.
    pub guid: Option<u64>,
    /// The end port of this GUID, if the fabric has it, of the kind that rows say.
    pub end: Option<PortRef>,
}

/// Whether it is a channel adapter's or a switch's.
fn is_of_fabric(destination: Destination) -> bool
    ensures { result ≡ is_of_fabric destination }
{
    matches!(
        destination,
        Destination::ChannelAdapter { .. } | Destination::Switch { .. }
    )
}

fn is_of(port: PortRef, aim: &Aim) -> bool
    ensures { result ≡ is_of port aim.now }
{
    match aim.end {
        Some(end) => end == port,
        None => false,
    }
}

fn some_is_of(port: PortRef, aims: &[Aim]) -> bool
    ensures { result ≡ list_any (is_of port) aims.now }
{
    aims.iter().any(|aim| is_of(port, aim))
}

pub(crate) fn mark(marks: &mut [bool], lid: u16)
    requires { 65536 ≤ length marks.old }
    ensures long { length marks.new ≡ length marks.old }
    ensures marked { (other : ℕ) → is_marked marks.new other ≡ (is_marked marks.old other || (lid == other)) }
{
    marks[usize::from(lid)] = true;
}

/// Marks the LIDs of these rows.
fn mark_lids(marks: &mut [bool], rows: &[Row])
    requires { 65536 ≤ length marks.old }
    ensures long { length marks.new ≡ length marks.old }
    ensures marked { (lid : ℕ) → is_marked marks.new lid ≡ (is_marked marks.old lid || is_named rows.now lid) }
{
    for row in rows {
        mark(marks, row.lid);
    }
}

/// A mark for each LID that a row of these tables names.
pub(crate) fn marks_of(
    alloc: Global,
    tables: &[Table],
    count: usize,
) -> Result<Vec<bool>, AllocError>
    requires { 65536 ≤ count }
    ensures { IfOk result (λ marks. (lid : ℕ) → is_marked marks.items lid ≡ is_named (rows_of tables.now) lid) }
{
    let mut marks = blank(alloc, count)?;
    for table in tables {
        mark_lids(&mut marks, table.rows.as_slice());
    }
    Ok(marks)
}

fn says_of_fabric(net: &Net<'_>, lid: u16, place: usize) -> bool
    ensures { result ≡ says_of_fabric net.now lid place }
{
    match net.row_at(lid, place) {
        Some(row) => is_of_fabric(row.destination),
        None => false,
    }
}

fn some_say_of_fabric(net: &Net<'_>, lid: u16) -> bool
    ensures { result ≡ list_any (says_of_fabric net.now lid) (switches net.now.plan.nodes) }
{
    net.switches()
        .iter()
        .any(|place| says_of_fabric(net, lid, *place))
}

/// Whether a row says that it is a channel adapter's or a switch's, and the fabric has no such port.
pub fn is_lacking(net: &Net<'_>, aim: &Aim) -> bool
    ensures { result ≡ is_lacking net.now aim.now }
{
    let aim = *aim;
    aim.end.is_none() && some_say_of_fabric(net, aim.lid)
}

/// Whether the port is a switch's, or has one of these LIDs.
pub fn has_lid(net: &Net<'_>, aims: &[Aim], port: PortRef) -> bool
    ensures { result ≡ has_lid net.now aims.now port }
{
    net.plan().is_switch_at(port.node) || some_is_of(port, aims)
}

/// Whether that is so of both ends of a cable.
pub fn have_lids(net: &Net<'_>, aims: &[Aim], cable: Cable) -> bool
    ensures { result ≡ have_lids net.now aims.now cable }
{
    has_lid(net, aims, cable.first) && has_lid(net, aims, cable.second)
}

/// What is known of each LID that a row names or the discovery reports, as LIDs rise.
pub fn aims(net: &Net<'_>, alloc: Global) -> Result<Vec<Aim>, AllocError>
    ensures { IfOk result (λ all. all.items ≡ aims net.now) }
{
    let index = LidIndex::of(alloc, net)?;
    let aims = index.aims_below(alloc, 65536)?;
    Ok(aims)
}
