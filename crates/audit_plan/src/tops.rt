//! The switches that are farthest from hosts.

ghost use Rattle.std.specs.Prelude.{◌≡◌, IfOk};
ghost use Rattle.topo_file.specs.Connectivity.{switches};
ghost use Rattle.audit_plan.specs.Levels.{level_at};
ghost use Rattle.audit_plan.specs.Tops.{higher, is_top, top_of, top_switches, tops_by};

use crate::levels::{LEVELS, level_at, levels_of};
use crate::links::Links;
use crate::plan::{Plan, switches};
use std::alloc::{AllocError, Global};

fn higher(levels: &[usize], most: usize, place: usize) -> usize
    ensures { result ≡ higher (level_at levels.now) most place }
{
    let level = level_at(levels, place);
    if most < level && level < LEVELS {
        level
    } else {
        most
    }
}

/// The greatest level of these switches, or 0 if none has one.
fn top_of(levels: &[usize], places: &[usize]) -> usize
    ensures { result ≡ top_of (level_at levels.now) places.now }
{
    places
        .iter()
        .fold(0, |most, place| higher(levels, most, *place))
}

fn is_top(levels: &[usize], top: usize, place: usize) -> bool
    ensures { result ≡ is_top (level_at levels.now) top place }
{
    level_at(levels, place) == top && top != 0
}

fn tops_by(alloc: Global, levels: &[usize], places: &[usize]) -> Result<Vec<usize>, AllocError>
    ensures { IfOk result (λ tops. tops.items ≡ tops_by (level_at levels.now) places.now) }
{
    let top = top_of(levels, places);
    places
        .iter()
        .copied()
        .filter(|place| is_top(levels, top, *place))
        .collect(alloc)
}

fn tops_of(links: &Links<'_>, alloc: Global) -> Result<Vec<usize>, AllocError>
    ensures { IfOk result (λ tops. tops.items ≡ top_switches links.now) }
{
    let levels = levels_of(links, alloc)?;
    let places = switches(alloc, links.plan().nodes())?;
    let tops = tops_by(alloc, &levels, &places)?;
    Ok(tops)
}

/// The places of the switches that are farthest from hosts, in the order of the nodes. If a host is attached to each switch there are
/// none. It can only run out of memory.
pub fn top_switches(alloc: Global, plan: &Plan) -> Result<Vec<usize>, AllocError>
    ensures { IfOk result (λ tops. tops.items ≡ top_switches plan.now) }
{
    let links = Links::of(alloc, plan)?;
    let tops = tops_of(&links, alloc)?;
    Ok(tops)
}
