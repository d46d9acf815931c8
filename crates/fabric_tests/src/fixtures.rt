//! Fabrics with their routes, P_Key tables, and the pushes.

ghost use Rattle.sweep.specs.Joined.{AllJoined};

use fabric_wire::{Fabric, SmpWire};
use lid_assign::assign;
use pkey_rules::{KeyTable, PARTITIONS, PKey};
use std::alloc::Global;
use std::test::Fail;
use subnet_model::GroupReceiver;
use sweep::{Graph, sweep};
use table_push::{PushFault, push_all, push_keys, push_linear, push_multicast, push_ports};
use test_fabrics::two_switch_fabric;
use updn_routes::{Routes, TieRule, are_switches, routes};

/// One of the pushes, none, or the first three one after another.
pub enum Push {
    Nothing,
    Ports,
    Keys,
    Linear,
    /// Of the MLID range of partition 1, with the receivers of one group.
    Multicast,
    All,
}

/// h1 and h2 of the two-switch fabric, of the first multicast LID of partition 1.
pub const TWO: [GroupReceiver; 2] = [
    GroupReceiver {
        mlid: 0xc020,
        lid: 4,
    },
    GroupReceiver {
        mlid: 0xc020,
        lid: 5,
    },
];

impl Push {
    /// What the push answers over a wire.
    pub fn over<W: SmpWire>(
        &self,
        wire: &mut W,
        routes: &Routes,
        keys: &[KeyTable<PARTITIONS>],
    ) -> Result<(), PushFault> {
        match self {
            Push::Nothing => Ok(()),
            Push::Ports => push_ports(wire, routes),
            Push::Keys => push_keys(wire, routes, keys),
            Push::Linear => push_linear(wire, routes),
            Push::Multicast => push_multicast(wire, routes, 1, &TWO),
            Push::All => push_all(wire, routes, keys),
        }
    }
}

/// The two-switch fabric and its routes.
pub fn found(alloc: Global) -> Result<(Fabric, Routes), Fail> {
    let mut fabric = two_switch_fabric(alloc)?;
    let routes = routes_over(alloc, &mut fabric, &[])?;
    Ok((fabric, routes))
}

/// The routes of what a sweep finds, with these switches as roots.
pub fn routes_over<W: SmpWire>(alloc: Global, wire: &mut W, roots: &[u64]) -> Result<Routes, Fail> {
    match sweep(alloc, wire) {
        Ok(graph) => routes_of(alloc, graph, roots),
        Err(_) => Err("a graph")?,
    }
}

fn routes_of(alloc: Global, graph: Graph, roots: &[u64]) -> Result<Routes, Fail>
    requires joined { AllJoined graph.rows }
{
    let lids = assign(alloc, &graph).or(Err("LIDs"))?;
    if !are_switches(&graph, roots) {
        return Err("roots that are switches")?;
    }
    Ok(routes(alloc, graph, lids, roots, TieRule::LeastPort).or(Err("routes"))?)
}

/// A table of one key.
fn one_key() -> Result<KeyTable<PARTITIONS>, Fail> {
    let key = PKey::new(0x7fff).or(Err("a key"))?;
    let mut table = KeyTable::new();
    table.push(key).or(Err("a place"))?;
    Ok(table)
}

/// A key for each of so many LIDs.
pub fn keys_of(alloc: Global, lids: u16) -> Result<Vec<KeyTable<PARTITIONS>>, Fail> {
    let mut tables = Vec::new(alloc);
    for _ in 0..lids {
        tables.push(one_key()?).or(Err("memory"))?;
    }
    Ok(tables)
}
