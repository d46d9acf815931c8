//! Channels by the level of their switch.

ghost use Rattle.std.specs.Prelude.{◌≡◌, ◌==◌, ◌<◌, filter, IfOk};
ghost use Rattle.audit_plan.specs.Levels.{level_at, levels_of};
ghost use Rattle.audit_loads.specs.Levels.{goes, leads, level_behind, of_level};

use crate::loaded::Loaded;
use audit_net::Net;
use audit_plan::{LEVELS, level_at};
use std::alloc::{AllocError, Global};

/// Which way a channel leads.
#[derive(Clone, Copy)]
pub enum Way {
    /// To a switch farther from hosts.
    Up,
    /// To a switch as far.
    Across,
    /// To a switch nearer.
    Down,
}

/// Whether a channel of a switch of this level leads this way, by the level of the switch behind it.
fn leads(way: Way, level: usize, behind: usize) -> bool
    ensures { result ≡ leads way level behind }
{
    match way {
        Way::Up => level < behind,
        Way::Across => level == behind,
        Way::Down => behind < level,
    }
}

/// The level of the switch behind a channel.
fn level_behind(net: &Net<'_>, levels: &[usize], one: Loaded) -> usize
    ensures { result ≡ level_behind (level_at levels.now) net.now one }
{
    match net.links().far_end(one.at) {
        Some(there) => level_at(levels, there.node),
        None => LEVELS,
    }
}

fn goes(net: &Net<'_>, levels: &[usize], level: usize, way: Way, one: Loaded) -> bool
    ensures { result ≡ goes (level_at levels.now) net.now level way one }
{
    level_at(levels, one.at.node) == level && leads(way, level, level_behind(net, levels, one))
}

/// The channels that leave switches of a level this way.
pub(crate) fn of_level(
    net: &Net<'_>,
    alloc: Global,
    levels: &[usize],
    all: &[Loaded],
    level: usize,
    way: Way,
) -> Result<Vec<Loaded>, AllocError>
    requires { levels.now ≡ levels_of net.now.plan }
    ensures { IfOk result (λ some. some.items ≡ of_level net.now all.now level way) }
{
    let some = channels_of(net, alloc, levels, all, level, way)?;
    Ok(some)
}

fn channels_of(
    net: &Net<'_>,
    alloc: Global,
    levels: &[usize],
    all: &[Loaded],
    level: usize,
    way: Way,
) -> Result<Vec<Loaded>, AllocError>
    ensures { IfOk result (λ some. some.items ≡ filter (goes (level_at levels.now) net.now level way) all.now) }
{
    all.iter()
        .copied()
        .filter(|one| goes(net, levels, level, way, *one))
        .collect(alloc)
}
