//! Hops of which no row says the VL, and those that are dropped.

ghost use Rattle.std.specs.Prelude.{◌≡◌, ◌&&◌, ◌||◌, IfOk, OnOk};
ghost use Rattle.std.specs.List.{list_any};
ghost use Rattle.indexmap.specs.IndexSet.{contains};
ghost use Rattle.audit_lanes.specs.declared.hop.Crossing.{Crossing};
ghost use Rattle.audit_lanes.specs.declared.hop.DroppedAt.{DroppedAt};
ghost use Rattle.audit_lanes.specs.Hops.{is_dropped, is_dropped_at, is_dropped_by, lacks_row, lacks_row_at, some_hop};
ghost use Rattle.audit_lanes.specs.Keys.{KnowsDropped, KnowsDroppedSls, KnowsLacking, drops_at, is_same_dropped};
ghost use Rattle.audit_lanes.specs.Tables.{is_same_crossing};

use crate::hop::{Crossing, DroppedAt, Hop, Trace};
use indexmap::IndexSet;
use std::alloc::{AllocError, Global};
use std::marker::Model;

fn some_lack(hops: &[Hop]) -> bool
    ensures { result ≡ list_any lacks_row hops.now }
{
    hops.iter().any(|hop| hop.lacks_row())
}

/// Whether the VL of some hop is not known.
pub(crate) fn some_lack_rows(traces: &[Trace]) -> bool
    ensures { result ≡ some_hop lacks_row traces.now }
{
    traces.iter().any(|trace| some_lack(trace.as_slice()))
}

fn some_drop(hops: &[Hop]) -> bool
    ensures { result ≡ list_any is_dropped hops.now }
{
    hops.iter().any(|hop| hop.is_dropped())
}

/// Whether some hop is dropped.
pub(crate) fn some_are_dropped(traces: &[Trace]) -> bool
    ensures { result ≡ some_hop is_dropped traces.now }
{
    traces.iter().any(|trace| some_drop(trace.as_slice()))
}

/// The ports of switches of which rows are lacking, and those between which packets are dropped.
#[derive(Drop)]
struct Noted {
    lacking: IndexSet<Crossing>,
    dropped: IndexSet<Crossing>,
    // With the SLs of the packets.
    dropped_sls: IndexSet<DroppedAt>,
}

/// Notes these ports, if so.
fn note_if(known: &mut IndexSet<Crossing>, is: bool, crossing: Crossing) -> Result<(), AllocError>
    ensures { OnOk result ((here : Crossing) → contains is_same_crossing known.new here
        ≡ (contains is_same_crossing known.old here || (is_same_crossing here crossing && is))) }
{
    if is {
        known.insert(crossing)?;
    }
    Ok(())
}

/// Notes the ports of a hop and its SL, if it is dropped.
fn note_dropped(known: &mut IndexSet<DroppedAt>, hop: Hop) -> Result<(), AllocError>
    ensures { OnOk result ((one : DroppedAt) → contains is_same_dropped known.new one
        ≡ (contains is_same_dropped known.old one || drops_at one hop)) }
{
    if hop.is_dropped() {
        known.insert(DroppedAt {
            crossing: hop.crossing,
            sl: hop.sl,
        })?;
    }
    Ok(())
}

fn note_hop(noted: &mut Noted, hop: Hop) -> Result<(), AllocError>
    ensures lacking { OnOk result ((here : Crossing) → contains is_same_crossing noted.new.lacking here
        ≡ (contains is_same_crossing noted.old.lacking here || lacks_row_at here hop)) }
    ensures dropped { OnOk result ((here : Crossing) → contains is_same_crossing noted.new.dropped here
        ≡ (contains is_same_crossing noted.old.dropped here || is_dropped_at here hop)) }
    ensures dropped_sls { OnOk result ((one : DroppedAt) → contains is_same_dropped noted.new.dropped_sls one
        ≡ (contains is_same_dropped noted.old.dropped_sls one || drops_at one hop)) }
{
    note_if(&mut noted.lacking, hop.lacks_row(), hop.crossing)?;
    note_if(&mut noted.dropped, hop.is_dropped(), hop.crossing)?;
    note_dropped(&mut noted.dropped_sls, hop)?;
    Ok(())
}

fn note_hops(noted: &mut Noted, hops: &[Hop]) -> Result<(), AllocError>
    ensures lacking { OnOk result ((here : Crossing) → contains is_same_crossing noted.new.lacking here
        ≡ (contains is_same_crossing noted.old.lacking here || list_any (lacks_row_at here) hops.now)) }
    ensures dropped { OnOk result ((here : Crossing) → contains is_same_crossing noted.new.dropped here
        ≡ (contains is_same_crossing noted.old.dropped here || list_any (is_dropped_at here) hops.now)) }
    ensures dropped_sls { OnOk result ((one : DroppedAt) → contains is_same_dropped noted.new.dropped_sls one
        ≡ (contains is_same_dropped noted.old.dropped_sls one || list_any (drops_at one) hops.now)) }
{
    for hop in hops {
        note_hop(noted, *hop)?;
    }
    Ok(())
}

fn noted_in(alloc: Global, traces: &[Trace]) -> Result<Noted, AllocError>
    ensures lacking { IfOk result (λ noted. KnowsLacking noted.lacking traces.now) }
    ensures dropped { IfOk result (λ noted. KnowsDropped noted.dropped traces.now) }
    ensures dropped_sls { IfOk result (λ noted. KnowsDroppedSls noted.dropped_sls traces.now) }
{
    let mut noted = Noted {
        lacking: IndexSet::new(alloc),
        dropped: IndexSet::new(alloc),
        dropped_sls: IndexSet::new(alloc),
    };
    for trace in traces {
        note_hops(&mut noted, trace.as_slice())?;
    }
    Ok(noted)
}

/// The hops of all records, with those that lack a row or are dropped found by the ports of their switch.
#[derive(Drop)]
pub(crate) struct Troubles<'n> {
    traces: &'n [Trace],
    noted: Noted,
}

impl<'n> Model for Troubles<'n> {
    ghost use Rattle.std.specs.Prelude.{List};
    ghost use Rattle.audit_lanes.specs.declared.hop.Hop.{Hop};
    ghost use Rattle.audit_lanes.specs.Keys.{KnowsDropped, KnowsDroppedSls, KnowsLacking};

    ghost Value = { List (List Hop) };

    ghost view = { λ troubles. troubles.traces.now };

    ghost invariant = { λ troubles. KnowsLacking troubles.noted.lacking troubles.traces.now
        × (KnowsDropped troubles.noted.dropped troubles.traces.now × KnowsDroppedSls troubles.noted.dropped_sls troubles.traces.now) };
}

impl<'n> Troubles<'n> {
    /// Those of these hops.
    pub(crate) fn of(alloc: Global, traces: &'n [Trace]) -> Result<Troubles<'n>, AllocError>
        ensures { IfOk result (λ troubles. troubles ≡ traces.now) }
    {
        let noted = noted_in(alloc, traces)?;
        Ok(Troubles { traces, noted })
    }

    /// Whether no row is of these ports, though packets go so.
    pub(crate) fn lack_row(&self, here: Crossing) -> bool
        ensures { result ≡ some_hop (lacks_row_at here) self.now }
    {
        self.noted.lacking.contains(&here)
    }

    /// Whether packets are dropped between these ports.
    pub(crate) fn drop_some(&self, here: Crossing) -> bool
        ensures { result ≡ some_hop (is_dropped_at here) self.now }
    {
        self.noted.dropped.contains(&here)
    }

    /// Whether packets of this SL are.
    pub(crate) fn drop_sl(&self, one: DroppedAt) -> bool
        ensures { result ≡ some_hop (is_dropped_by one.crossing one.sl) self.now }
    {
        self.noted.dropped_sls.contains(&one)
    }
}
