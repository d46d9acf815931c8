//! The table towards one switch: the port and the hops that are left from each place.

ghost use Rattle.std.specs.Prelude.{ℕ, ◌≡◌, ◌≤◌, ◌<◌, ◌+◌, false, map, length, get_or, [], IfOk, IfSome};
ghost use Rattle.std.specs.List.{range_with_len};
ghost use Rattle.updn_routes.specs.Cabling.{links_of};
ghost use Rattle.updn_routes.specs.Routes.{is_as_short};
ghost use Rattle.updn_routes.specs.Tables.{AllDown, AllUp, AllWithin, AreTables, IsDownFrom, IsTable, IsUpTo, best_of, entry_at, entry_first, or_better, or_up};
ghost use Rattle.fabric_parts.specs.declared.limits.TheConstants.{SWITCHES};

use crate::link::Link;
use crate::row::{Row, links_of};
use std::alloc::{AllocError, Global};
use std::marker::Model;

/// The next hop of a route, and how many are left with it.
#[derive(Clone, Copy, Debug)]
pub(crate) struct NextHop {
    /// The port that it goes out of; 0 at the target itself.
    pub port: u8,
    /// How many hops are left to the target.
    pub hops: u8,
    /// Whether all of them lead down.
    pub falls: bool,
}

impl NextHop {
    /// Whether a link from a place to another, with that hop beyond, is as short as this one and of its kind.
    pub(crate) fn is_as_short(self, from: usize, to: usize, beyond: NextHop) -> bool
        ensures { result ≡ is_as_short self from to beyond }
    {
        let is_kind = if self.falls {
            from < to && beyond.falls
        } else {
            to < from
        };
        is_kind && usize::from(beyond.hops) + 1 == usize::from(self.hops)
    }
}

/// The hops towards one switch, by the place at which they begin.
#[derive(Debug, Drop)]
pub(crate) struct Table {
    entries: Vec<Option<NextHop>>,
}

impl Model for Table {
    ghost use Rattle.std.specs.Prelude.{List, Option};
    ghost use Rattle.updn_routes.specs.declared.table.NextHop.{NextHop};

    ghost Value = { List (Option NextHop) };

    ghost view = { λ table. table.entries.items };
}

impl Table {
    /// The entries.
    pub(crate) fn as_slice(&self) -> &[Option<NextHop>]
        ensures { result.now ≡ self.now }
    {
        &self.entries
    }
}

/// At the target itself.
const HOME: NextHop = NextHop {
    port: 0,
    hops: 0,
    falls: true,
};

/// The table towards each switch, by the switch's place. It can only run out of memory.
pub(crate) fn all_tables(
    alloc: Global,
    downs: &[Row],
    ups: &[Row],
) -> Result<Vec<Table>, AllocError>
    requires few { length downs.now ≤ SWITCHES }
    requires count { length ups.now ≡ length downs.now }
    requires down { AllDown downs.now }
    requires up { AllUp ups.now }
    ensures { IfOk result (λ tables. AreTables downs.now ups.now (length downs.now) tables.items) }
{
    let mut tables = Vec::new(alloc);
    for target in 0..downs.len() {
        tables.push(table_towards(alloc, downs, ups, target)?)?;
    }
    Ok(tables)
}

/// The table towards the target at that place.
fn table_towards(
    alloc: Global,
    downs: &[Row],
    ups: &[Row],
    target: usize,
) -> Result<Table, AllocError>
    requires few { length downs.now ≤ SWITCHES }
    requires count { length ups.now ≡ length downs.now }
    requires there { target < length downs.now }
    requires down { AllDown downs.now }
    requires up { AllUp ups.now }
    ensures { IfOk result (λ table. IsTable downs.now ups.now target table) }
{
    let downwards = downwards(alloc, downs, target)?;
    let entries = upwards(ups, target, downwards);
    Ok(Table { entries })
}

/// The ways down: each place reads the entries of later places alone, and these are written before it.
fn downwards(
    alloc: Global,
    downs: &[Row],
    target: usize,
) -> Result<Vec<Option<NextHop>>, AllocError>
    requires few { length downs.now ≤ SWITCHES }
    requires there { target < length downs.now }
    requires down { AllDown downs.now }
    ensures { IfOk result (λ table. IsDownFrom downs.now target 0 target table.items) }
{
    let mut table = only_home(alloc, downs.len(), target)?;
    for turn in 0..target {
        let place = target - 1 - turn;
        let way = best(true, links_of(downs, place), &table);
        table[place] = way;
    }
    Ok(table)
}

/// The ways up of the places that have none down: each reads the entries of earlier places alone.
fn upwards(ups: &[Row], target: usize, mut table: Vec<Option<NextHop>>) -> Vec<Option<NextHop>>
    requires few { length table.items ≤ SWITCHES }
    requires there { target < length table.items }
    requires up { AllUp ups.now }
    requires small { AllWithin target table.items }
    ensures { IsUpTo ups.now table.items (length table.items) (target + length table.items) result.items }
{
    for place in 0..table.len() {
        let way = down_or_up(ups, place, &table);
        table[place] = way;
    }
    table
}

/// The way of a place: down if there is one, and else the best way up.
fn down_or_up(ups: &[Row], place: usize, table: &[Option<NextHop>]) -> Option<NextHop>
    requires { AllWithin 254 table.now }
    ensures { result ≡ or_up (entry_at table.now place) (best_of false table.now (links_of ups.now place)) }
{
    match entry_at(table, place) {
        Some(way) => Some(way),
        None => best(false, links_of(ups, place), table),
    }
}

/// The target's entry alone.
fn only_home(alloc: Global, count: usize, target: usize) -> Result<Vec<Option<NextHop>>, AllocError>
    ensures { IfOk result (λ table. table.items ≡ map (entry_first target) (range_with_len 0 count)) }
{
    (0..count)
        .map(|place| if place == target { Some(HOME) } else { None })
        .collect(alloc)
}

/// The best of these links, by a table: the first of those that leave the fewest hops. They lead down, or up.
fn best(falls: bool, links: &[Link], table: &[Option<NextHop>]) -> Option<NextHop>
    requires { AllWithin 254 table.now }
    ensures { result ≡ best_of falls table.now links.now }
{
    let mut best = None;
    for link in links {
        best = or_better(falls, best, link.port, entry_at(table, link.to));
    }
    best
}

/// The better of what was found so far and a link out of that port, whose far end has that entry.
fn or_better(
    falls: bool,
    best: Option<NextHop>,
    port: u8,
    beyond: Option<NextHop>,
) -> Option<NextHop>
    requires { IfSome beyond (λ hop. hop.hops ≤ 254) }
    ensures { result ≡ or_better falls best port beyond }
{
    let Some(beyond) = beyond else {
        return best;
    };
    let hops = beyond.hops + 1;
    match best {
        Some(best) if best.hops <= hops => Some(best),
        _ => Some(NextHop { port, hops, falls }),
    }
}

/// The table towards the switch at a place; no entry, if there is no such place.
pub(crate) fn table_at(tables: &[Table], place: usize) -> &[Option<NextHop>]
    ensures { result.now ≡ get_or tables.now place [] }
{
    match tables.get(place) {
        Some(table) => table.as_slice(),
        None => &[],
    }
}

/// The entry of a place.
pub(crate) fn entry_at(table: &[Option<NextHop>], place: usize) -> Option<NextHop>
    ensures { result ≡ entry_at table.now place }
{
    match table.get(place) {
        Some(entry) => *entry,
        None => None,
    }
}
