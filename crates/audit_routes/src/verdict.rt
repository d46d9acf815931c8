//! The verdict of an audit: what safe routes are, and the last line.

ghost use Rattle.std.specs.Prelude.{◌≡◌, ◌&&◌, ◌++◌, not, IfOk, OnOk, option_map};
ghost use Rattle.std.specs.List.{list_all, list_any};
ghost use Rattle.audit_net.specs.Lids.{have_lids, is_lacking};
ghost use Rattle.audit_routes.specs.Pairs.{pairs_by};
ghost use Rattle.audit_net.specs.Net.{has_table};
ghost use Rattle.audit_routes.specs.Verdict.{have_tables, is_known, is_unknown, knows_all, knows_entries, knows_next, name_the_same, outcome, reasons, safe_words, verdict_by, verdict_is_safe, verdict_line, with_reason};
ghost use Rattle.topo_file.specs.Connectivity.{switches};

use crate::lines::has_switch;
use crate::loops::other_lids;
use crate::pairs::{Pair, all_reached, between_hosts, some_lost, some_unknown};
use audit_net::{Aim, Net, Turn, have_lids, is_lacking};
use dump_file::Table;
use fabric_parts::PortRef;
use std::alloc::{AllocError, Global};

/// What the verdict rests on.
#[derive(Clone, Copy)]
pub struct Verdict {
    /// Each port of an adapter that has a cable has a LID.
    has_lids: bool,
    /// From each switch to which an adapter is attached, packets reach the adapter port of each LID.
    is_reached: bool,
    /// Along all LIDs but the switches' own there is no credit loop; one of an aggregation node counts at switches that packets of hosts
    /// come to.
    is_free: bool,
    /// The dump and the fabric name the same switches and ports of adapters.
    is_same: bool,
    /// Along the same LIDs each switch to which another sends has a known entry.
    is_known: bool,
    /// Some of those packets are lost.
    loses: bool,
    /// Some of them come to an entry that is unknown.
    lacks_entries: bool,
}

impl Verdict {
    /// Whether the routes are safe.
    pub fn is_safe(self) -> bool
        ensures { result ≡ verdict_is_safe self }
    {
        self.has_lids && self.is_reached && self.is_free && self.is_same && self.is_known
    }

    /// Whether there is no credit loop along all LIDs but the switches' own.
    pub fn is_free(self) -> bool
        ensures { result ≡ self.is_free }
    {
        self.is_free
    }

    /// The same if credit loops are judged otherwise.
    pub fn with_free(self, is_free: bool) -> Verdict
        ensures { result ≡ record self { is_free = is_free } }
    {
        Verdict { is_free, ..self }
    }

    /// The same if a further dump names these nodes too, and if nothing is unknown by it.
    pub fn and(self, is_same: bool, is_known: bool) -> Verdict
        ensures { result ≡ record self { is_same = self.is_same && is_same; is_known = self.is_known && is_known } }
    {
        Verdict {
            is_same: self.is_same && is_same,
            is_known: self.is_known && is_known,
            ..self
        }
    }
}

pub(crate) fn is_unknown(turn: Turn) -> bool
    ensures { result ≡ is_unknown turn }
{
    matches!(turn, Turn::Unknown)
}

/// Adds a reason behind those before, unless that holds of which it would be the lack.
pub fn add_reason(reasons: &mut Vec<u8>, holds: bool, word: &[u8]) -> Result<(), AllocError>
    ensures { OnOk result (reasons.new.items ≡ with_reason holds word.now reasons.old.items) }
{
    if holds {
        return Ok(());
    }
    if !reasons.is_empty() {
        reasons.extend_from_slice(b", ")?;
    }
    reasons.extend_from_slice(word)
}

/// The reasons of a verdict, one behind the other.
#[tactic(auto, unfolding(crate::specs::Verdict::reasons))]
pub fn reasons(alloc: Global, verdict: Verdict) -> Result<Vec<u8>, AllocError>
    ensures { IfOk result (λ text. text.items ≡ reasons verdict) }
{
    let mut text = Vec::new(alloc);
    add_reason(&mut text, verdict.has_lids, b"no-lid")?;
    add_reason(&mut text, !verdict.loses, b"unreached")?;
    add_reason(&mut text, verdict.is_free, b"deadlock")?;
    add_reason(&mut text, verdict.is_same, b"mismatch")?;
    let is_known = verdict.is_known && !verdict.lacks_entries;
    add_reason(&mut text, is_known, b"unknown")?;
    Ok(text)
}

/// Adds `safe`, or `not safe` with these reasons.
pub fn push_outcome(text: &mut Vec<u8>, is_safe: bool, reasons: &[u8]) -> Result<(), AllocError>
    ensures { OnOk result (text.new.items ≡ text.old.items ++ outcome is_safe reasons.now) }
{
    if is_safe {
        return text.extend_from_slice(b"safe");
    }
    text.extend_from_slice(b"not safe (")?;
    text.extend_from_slice(reasons)?;
    text.extend_from_slice(b")")
}

#[tactic(auto, unfolding(crate::specs::Verdict::safe_words))]
fn push_safe(alloc: Global, text: &mut Vec<u8>, verdict: Verdict) -> Result<(), AllocError>
    ensures { OnOk result (text.new.items ≡ text.old.items ++ safe_words verdict) }
{
    let reasons = reasons(alloc, verdict)?;
    push_outcome(text, verdict.is_safe(), &reasons)
}

/// Adds the last line.
#[tactic(auto, unfolding(crate::specs::Verdict::verdict_line))]
pub(crate) fn push_verdict(
    alloc: Global,
    text: &mut Vec<u8>,
    verdict: Verdict,
) -> Result<(), AllocError>
    ensures { OnOk result (text.new.items ≡ text.old.items ++ verdict_line verdict) }
{
    text.extend_from_slice(b"verdict: ")?;
    push_safe(alloc, text, verdict)?;
    text.extend_from_slice(b", as if all packets used one virtual lane; multicast is not judged\n")
}

fn all_have_lids(net: &Net<'_>, aims: &[Aim]) -> bool
    ensures { result ≡ list_all (have_lids net.now aims.now) net.now.plan.cables }
{
    net.plan()
        .cables()
        .iter()
        .all(|cable| have_lids(net, aims, *cable))
}

fn have_tables(net: &Net<'_>) -> bool
    ensures { result ≡ have_tables net.now }
{
    !net.dump().tables().is_empty() && all_have_tables(net)
}

fn all_have_tables(net: &Net<'_>) -> bool
    ensures { result ≡ list_all (has_table net.now) (switches net.now.plan.nodes) }
{
    net.switches()
        .iter()
        .all(|place| net.table_at(*place).is_some())
}

fn is_known(net: &Net<'_>, table: &Table) -> bool
    ensures { result ≡ is_known net.now table.now }
{
    has_switch(table.guid, net.plan().nodes())
}

fn all_are_known(net: &Net<'_>) -> bool
    ensures { result ≡ list_all (is_known net.now) net.now.dump.tables }
{
    net.dump().tables().iter().all(|table| is_known(net, table))
}

fn some_is_lacking(net: &Net<'_>, aims: &[Aim]) -> bool
    ensures { result ≡ list_any (is_lacking net.now) aims.now }
{
    aims.iter().any(|aim| is_lacking(net, aim))
}

fn name_the_same(net: &Net<'_>, aims: &[Aim]) -> bool
    ensures { result ≡ name_the_same net.now aims.now }
{
    have_tables(net) && all_are_known(net) && !some_is_lacking(net, aims)
}

/// Whether the LID comes to no switch from this one whose entry is unknown.
fn knows_next(net: &Net<'_>, place: usize, lid: u16) -> bool
    ensures { result ≡ knows_next net.now place lid }
{
    match net.turn(lid, place) {
        Turn::Goes(next) => !is_unknown(net.turn(lid, next)),
        _ => true,
    }
}

fn knows_all(net: &Net<'_>, lids: &[u16], place: usize) -> bool
    ensures { result ≡ knows_all net.now lids.now place }
{
    lids.iter().all(|lid| knows_next(net, place, *lid))
}

fn knows_entries(net: &Net<'_>, lids: &[u16]) -> bool
    ensures { result ≡ knows_entries net.now lids.now }
{
    net.switches()
        .iter()
        .all(|place| knows_all(net, lids, *place))
}

/// The verdict, by the credit loop that was found.
pub(crate) fn verdict_by(
    net: &Net<'_>,
    alloc: Global,
    aims: &[Aim],
    pairs: &[Pair],
    ring: &Option<Vec<PortRef>>,
) -> Result<Verdict, AllocError>
    requires { pairs.now ≡ pairs_by net.now aims.now }
    ensures { IfOk result (λ verdict. verdict ≡ verdict_by net.now aims.now (option_map (λ ports. ports.items) ring.now)) }
{
    let deciding = between_hosts(alloc, pairs)?;
    let lids = other_lids(net, alloc, aims)?;
    Ok(Verdict {
        has_lids: all_have_lids(net, aims),
        is_reached: all_reached(&deciding),
        is_free: ring.is_none(),
        is_same: name_the_same(net, aims),
        is_known: knows_entries(net, &lids),
        loses: some_lost(&deciding),
        lacks_entries: some_unknown(&deciding),
    })
}
