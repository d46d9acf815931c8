//! Whose the LIDs are, looked up by number.

ghost use Rattle.std.specs.Prelude.{◌≡◌, ◌≤◌, ◌<◌, ◌||◌, ◌==◌, ◌&&◌, ◌++◌, cond, nat_eq, not, true, IfOk, OnOk, Some, ℕ};
ghost use Rattle.std.specs.List.{list_all};
ghost use Rattle.dump_file.specs.Table.{rows_of};
ghost use Rattle.indexmap.specs.IndexMap.{get};
ghost use Rattle.indexmap.specs.IndexSet.{contains};
ghost use Rattle.audit_net.specs.LidIndex.{KnowsRows, KnowsReported};
ghost use Rattle.audit_net.specs.Lids.{aim_if, aim_of, aims_below, end_by, gives_lid, if_of_kind, is_known_lid, owner_of, reported_by, reported_end, says_kind};
ghost use Rattle.topo_file.specs.Connectivity.{switches};

use crate::kinds::other_kinds;
use crate::lids::{Aim, marks_of};
use crate::net::Net;
use audit_plan::LidGuid;
use dump_file::Dump;
use fabric_parts::PortRef;
use indexmap::{IndexMap, IndexSet};
use std::alloc::{AllocError, Global};
use std::marker::Model;
use topo_file::is_marked;

/// A fabric with the tables that stand in it, and what rows and the discovery say of each LID.
#[derive(Drop)]
pub(crate) struct LidIndex<'n, 'a> {
    net: &'n Net<'a>,
    // Whether a row names the LID.
    named: Vec<bool>,
    // The GUID of the end port that reports the LID, if no row gives that one a LID.
    reported: IndexMap<u16, u64>,
    // Whether some row says that the LID is no switch's, and whether some says that it is a switch's.
    no_switches: Vec<bool>,
    no_others: Vec<bool>,
}

impl<'n, 'a> Model for LidIndex<'n, 'a> {
    ghost use Rattle.std.specs.Prelude.{true, false};
    ghost use Rattle.dump_file.specs.Table.{rows_of};
    ghost use Rattle.audit_net.specs.Kinds.{KnowsOthers};
    ghost use Rattle.audit_net.specs.LidIndex.{KnowsNames, KnowsReported};
    ghost use Rattle.audit_net.specs.Net.{NetState};

    ghost Value = { NetState };

    ghost view = { λ index. index.net.now };

    ghost invariant = { λ index. KnowsNames index.named.items (rows_of index.net.now.dump.tables)
        × (KnowsReported index.reported (rows_of index.net.now.dump.tables) index.net.now.plan.lids
        × (KnowsOthers index.net.now true index.no_switches.items × KnowsOthers index.net.now false index.no_others.items)) };
}

/// Adds the end port to which a row gives the LID, if one does.
fn note_row(with_row: &mut IndexSet<u64>, dump: &Dump, lid: usize) -> Result<(), AllocError>
    requires { lid < 65536 }
    ensures { OnOk result ((guid : ℕ) → contains nat_eq with_row.new guid
        ≡ (contains nat_eq with_row.old guid || gives_lid (rows_of dump.now.tables) guid lid)) }
{
    if let Some(guid) = dump.end_of(lid as u16) {
        with_row.insert(guid)?;
    }
    Ok(())
}

/// The end ports to which rows give LIDs, by their GUIDs.

fn with_row(alloc: Global, dump: &Dump) -> Result<IndexSet<u64>, AllocError>
    ensures { IfOk result (λ some. KnowsRows some (rows_of dump.now.tables)) }
{
    let mut some = IndexSet::new(alloc);
    for lid in 0..65536 {
        note_row(&mut some, dump, lid)?;
    }
    Ok(some)
}

fn note_reported(
    reported: &mut IndexMap<u16, u64>,
    with_row: &IndexSet<u64>,
    one: LidGuid,
) -> Result<(), AllocError>
    ensures { OnOk result ((lid : ℕ) → get nat_eq reported.new lid
        ≡ cond ((one.lid == lid) && not (contains nat_eq with_row.now one.guid)) (Some one.guid) (get nat_eq reported.old lid)) }
{
    if !with_row.contains(&one.guid) {
        reported.insert(one.lid, one.guid)?;
    }
    Ok(())
}

/// The end port of each LID that one reports to which no row gives a LID. Later ones come first, so that of two with one LID the
/// first counts.
fn reported_by(
    alloc: Global,
    with_row: &IndexSet<u64>,
    dump: &Dump,
    lids: &[LidGuid],
) -> Result<IndexMap<u16, u64>, AllocError>
    requires { KnowsRows with_row.now (rows_of dump.now.tables) }
    ensures { IfOk result (λ reported. KnowsReported reported (rows_of dump.now.tables) lids.now) }
{
    let mut reported = IndexMap::new(alloc);
    for index in (0..lids.len()).rev() {
        note_reported(&mut reported, with_row, lids[index])?;
    }
    Ok(reported)
}

fn reported_lids(
    alloc: Global,
    dump: &Dump,
    lids: &[LidGuid],
) -> Result<IndexMap<u16, u64>, AllocError>
    ensures { IfOk result (λ reported. KnowsReported reported (rows_of dump.now.tables) lids.now) }
{
    let with_row = with_row(alloc, dump)?;
    let reported = reported_by(alloc, &with_row, dump, lids)?;
    Ok(reported)
}

impl<'n, 'a> LidIndex<'n, 'a> {
    pub(crate) fn of(alloc: Global, net: &'n Net<'a>) -> Result<LidIndex<'n, 'a>, AllocError>
        ensures { IfOk result (λ index. index ≡ net.now) }
    {
        let named = marks_of(alloc, net.dump().tables(), 65536)?;
        let reported = reported_lids(alloc, net.dump(), net.plan().lids())?;
        let no_switches = other_kinds(net, alloc, true)?;
        let no_others = other_kinds(net, alloc, false)?;
        Ok(LidIndex {
            net,
            named,
            reported,
            no_switches,
            no_others,
        })
    }

    fn reported_end(&self, lid: u16) -> Option<u64>
        ensures { result ≡ reported_end self.now lid }
    {
        self.reported.get(&lid).copied()
    }

    fn is_known_lid(&self, lid: u16) -> bool
        ensures { result ≡ is_known_lid self.now lid }
    {
        is_marked(self.named.as_slice(), usize::from(lid)) || self.reported_end(lid).is_some()
    }

    fn owner_of(&self, lid: u16) -> Option<u64>
        ensures { result ≡ owner_of self.now lid }
    {
        match self.net.dump().end_of(lid) {
            Some(guid) => Some(guid),
            None => self.reported_end(lid),
        }
    }

    /// Whether each switch's row says this kind.
    fn all_say_kind(&self, lid: u16, of_switch: bool) -> bool
        ensures { result ≡ list_all (says_kind self.now lid of_switch) (switches self.now.plan.nodes) }
    {
        if of_switch {
            !is_marked(self.no_switches.as_slice(), usize::from(lid))
        } else {
            !is_marked(self.no_others.as_slice(), usize::from(lid))
        }
    }

    /// The port, if it is of the kind that each switch's row says.
    fn if_of_kind(&self, lid: u16, end: PortRef) -> Option<PortRef>
        ensures { result ≡ if_of_kind self.now lid end }
    {
        if self.all_say_kind(lid, self.net.plan().is_switch_at(end.node)) {
            Some(end)
        } else {
            None
        }
    }

    fn end_by(&self, lid: u16, guid: Option<u64>) -> Option<PortRef>
        ensures { result ≡ end_by self.now lid guid }
    {
        let end = self.net.plan().port_of(guid?)?;
        self.if_of_kind(lid, end)
    }

    fn aim_of(&self, lid: u16) -> Aim
        ensures { result ≡ aim_of self.now lid }
    {
        let guid = self.owner_of(lid);
        Aim {
            lid,
            guid,
            end: self.end_by(lid, guid),
        }
    }

    fn push_aim(&self, aims: &mut Vec<Aim>, lid: usize) -> Result<(), AllocError>
        requires { lid < 65536 }
        ensures { OnOk result (aims.new.items ≡ aims.old.items ++ aim_if self.now (is_known_lid self.now) lid) }
    {
        let lid = lid as u16;
        if self.is_known_lid(lid) {
            aims.push(self.aim_of(lid))?;
        }
        Ok(())
    }

    /// What is known of each LID below this number that a row names or the discovery reports, as LIDs rise.
    pub(crate) fn aims_below(&self, alloc: Global, count: usize) -> Result<Vec<Aim>, AllocError>
        requires { count ≤ 65536 }
        ensures { IfOk result (λ all. all.items ≡ aims_below self.now (is_known_lid self.now) count) }
    {
        let mut aims = Vec::new(alloc);
        for lid in 0..count {
            self.push_aim(&mut aims, lid)?;
        }
        Ok(aims)
    }
}
