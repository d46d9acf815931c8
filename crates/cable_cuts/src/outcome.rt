//! What the loss of a cable does, in numbers.

ghost use Rattle.std.specs.Prelude.{◌≡◌, ◌==◌, ◌&&◌, filter, length, IfOk};
ghost use Rattle.std.specs.List.{list_any};
ghost use Rattle.cable_cuts.specs.Outcomes.{difference_of, has_changes, is_named, outcome_of};

use crate::changes::{Change, changes};
use crate::fate::{Cut, Stop};
use crate::masks::{MaskChange, mask_changes};
use std::alloc::{AllocError, Global};
use subnet_model::{Configuration, SubnetPort};
use updn_routes::Routes;

/// How much of the tables of a fabric changes.
#[derive(Clone, Copy, Debug, PartialEq, Eq)]
pub struct Difference {
    /// How many entries of linear forwarding tables.
    pub entries: usize,
    /// How many masks of partitions' broadcast groups.
    pub masks: usize,
    /// How many switches have one of either.
    pub switches: usize,
}

/// What the loss of a cable does.
#[derive(Clone, Copy, Debug, PartialEq, Eq)]
pub enum Outcome {
    /// The fabric comes up without it, and so much of its tables differs then.
    Keeps(Difference),
    /// The fabric does not come up without it.
    Stops(Stop),
}

/// In numbers, what becomes of the fabric that these routes brought up. It can only run out of memory.
pub(crate) fn outcome_of(
    alloc: Global,
    configuration: &Configuration,
    routes: &Routes,
    fate: &Cut,
) -> Result<Outcome, AllocError>
    ensures { IfOk result (λ outcome. outcome ≡ outcome_of configuration.now routes.now fate.now) }
{
    match fate {
        Cut::Keeps(others) => {
            let ports = configuration.ports();
            let changes = changes(alloc, ports, routes, others)?;
            let masks = mask_changes(alloc, configuration, routes, others)?;
            Ok(Outcome::Keeps(difference_of(ports, &changes, &masks)))
        }
        Cut::Stops(stop) => Ok(Outcome::Stops(*stop)),
    }
}

/// How many entries change, how many masks, and at how many switches.
fn difference_of(ports: &[SubnetPort], changes: &[Change], masks: &[MaskChange]) -> Difference
    ensures { result ≡ difference_of ports.now changes.now masks.now }
{
    Difference {
        entries: changes.len(),
        masks: masks.len(),
        switches: count_of_switches(ports, changes, masks),
    }
}

/// How many switches have a change.
fn count_of_switches(ports: &[SubnetPort], changes: &[Change], masks: &[MaskChange]) -> usize
    ensures { result ≡ length (filter (has_changes changes.now masks.now) ports.now) }
{
    ports
        .iter()
        .filter(|port| has_changes(changes, masks, port))
        .count()
}

/// Whether the port is a switch's own, and the switch has a change.
fn has_changes(changes: &[Change], masks: &[MaskChange], port: &SubnetPort) -> bool
    ensures { result ≡ has_changes changes.now masks.now port.now }
{
    port.node_type.is_switch() && is_named(changes, masks, port.lid)
}

/// Whether some change is at the switch of that LID.
fn is_named(changes: &[Change], masks: &[MaskChange], lid: u16) -> bool
    ensures { result ≡ is_named changes.now masks.now lid }
{
    has_entry(changes, lid) || has_mask(masks, lid)
}

fn has_entry(changes: &[Change], lid: u16) -> bool
    ensures { result ≡ list_any (λ change. change.switch == lid) changes.now }
{
    changes.iter().any(|change| change.switch == lid)
}

fn has_mask(masks: &[MaskChange], lid: u16) -> bool
    ensures { result ≡ list_any (λ change. change.switch == lid) masks.now }
{
    masks.iter().any(|change| change.switch == lid)
}
