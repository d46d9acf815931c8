//! The verdict of an audit that judges virtual lanes too.

ghost use Rattle.std.specs.Prelude.{◌≡◌, ◌++◌, IfOk, OnOk, option_map};
ghost use Rattle.std.specs.List.{list_all};
ghost use Rattle.audit_lanes.specs.Verdict.{all_are_safe, all_reasons, all_verdict_line, all_words, frees, joined, lane_verdict};
ghost use Rattle.audit_lanes.specs.Records.{owned, records};

use crate::hop::Trace;
use crate::lane::Lane;
use crate::troubles::{some_are_dropped, some_lack_rows};
use audit_net::{Aim, Net};
use audit_routes::{Verdict, add_reason, push_outcome, reasons};
use sl2vl_file::PathSl;
use std::alloc::{AllocError, Global};

/// What the verdict on lanes rests on.
#[derive(Clone, Copy)]
pub(crate) struct LaneVerdict {
    /// No lanes wait for one another in a cycle.
    is_free: bool,
    /// Each two end ports have a path record.
    has_paths: bool,
    /// Of each hop some row says the VL.
    has_rows: bool,
    /// Some packets are dropped.
    drops: bool,
}

impl LaneVerdict {
    /// Whether packets of path records wait for no cycle, and it is known of each pair and each hop.
    pub(crate) fn frees(self) -> bool
        ensures { result ≡ frees self }
    {
        self.is_free && self.has_paths && self.has_rows
    }
}

fn all_are(recorded: &[bool]) -> bool
    ensures { result ≡ list_all (λ is. is) recorded.now }
{
    recorded.iter().all(|is| *is)
}

/// The verdict on lanes, by the cycle that was found.
pub(crate) fn lane_verdict(
    net: &Net<'_>,
    aims: &[Aim],
    paths: &[PathSl],
    recorded: &[bool],
    traces: &[Trace],
    ring: &Option<Vec<Lane>>,
) -> LaneVerdict
    requires { recorded.now ≡ records paths.now (owned net.now aims.now) }
    ensures { result ≡ lane_verdict net.now aims.now paths.now traces.now (option_map (λ lanes. lanes.items) ring.now) }
{
    LaneVerdict {
        is_free: ring.is_none(),
        has_paths: all_are(recorded),
        has_rows: !some_lack_rows(traces),
        drops: some_are_dropped(traces),
    }
}

fn joined(routes: Verdict, lanes: LaneVerdict) -> Verdict
    ensures { result ≡ joined routes lanes }
{
    routes
        .and(true, lanes.has_paths && lanes.has_rows)
        .with_free(lanes.is_free)
}

/// Whether the routes are safe by lanes.
pub(crate) fn all_are_safe(routes: Verdict, lanes: LaneVerdict) -> bool
    ensures { result ≡ all_are_safe routes lanes }
{
    joined(routes, lanes).is_safe() && !lanes.drops
}

#[tactic(auto, unfolding(crate::specs::Verdict::all_reasons))]
fn all_reasons(alloc: Global, routes: Verdict, lanes: LaneVerdict) -> Result<Vec<u8>, AllocError>
    ensures { IfOk result (λ text. text.items ≡ all_reasons routes lanes) }
{
    let mut text = reasons(alloc, joined(routes, lanes))?;
    add_reason(&mut text, !lanes.drops, b"dropped")?;
    Ok(text)
}

#[tactic(auto, unfolding(crate::specs::Verdict::all_words))]
fn push_words(
    alloc: Global,
    text: &mut Vec<u8>,
    routes: Verdict,
    lanes: LaneVerdict,
) -> Result<(), AllocError>
    ensures { OnOk result (text.new.items ≡ text.old.items ++ all_words routes lanes) }
{
    let reasons = all_reasons(alloc, routes, lanes)?;
    push_outcome(text, all_are_safe(routes, lanes), &reasons)
}

/// Adds the last line.
#[tactic(auto, unfolding(crate::specs::Verdict::all_verdict_line))]
pub(crate) fn push_verdict(
    alloc: Global,
    text: &mut Vec<u8>,
    routes: Verdict,
    lanes: LaneVerdict,
) -> Result<(), AllocError>
    ensures { OnOk result (text.new.items ≡ text.old.items ++ all_verdict_line routes lanes) }
{
    text.extend_from_slice(b"verdict: ")?;
    push_words(alloc, text, routes, lanes)?;
    text.extend_from_slice(b", by virtual lanes; multicast is not judged\n")?;
    Ok(())
}
