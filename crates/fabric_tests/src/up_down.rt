//! Routes of the two-switch fabric, or out of memory.

ghost use Rattle.sweep.specs.Joined.{AllJoined};

use fabric_wire::Fabric;
use lid_assign::assign;
use std::alloc::Global;
use std::process::Abort;
use std::test::Fail;
use sweep::{Graph, SweepFault, sweep};
use test_fabrics::TWO_SWITCHES;
use topo_file::read;
use updn_routes::{RouteFault, Routes, TieRule, are_switches, routes};

fn fabric_of(alloc: Global, text: &[u8]) -> Option<Fabric> {
    let topology = read(alloc, text).ok()?;
    Fabric::new(alloc, &topology).ok()
}

/// The routes of what a sweep finds; nothing if an allocation fails, and no other fault.
fn routes_over(rt: &impl Abort, alloc: Global, fabric: &mut Fabric) -> Option<Routes> {
    match sweep(alloc, fabric) {
        Ok(graph) => routes_of(rt, alloc, graph),
        Err(fault) => {
            assert!(rt; fault == SweepFault::NoMemory);
            None
        }
    }
}

fn routes_of(rt: &impl Abort, alloc: Global, graph: Graph) -> Option<Routes>
    requires joined { AllJoined graph.rows }
{
    let lids = assign(alloc, &graph).ok()?;
    if !are_switches(&graph, &[]) {
        return None;
    }
    match routes(alloc, graph, lids, &[], TieRule::LeastPort) {
        Ok(routes) => Some(routes),
        Err(fault) => {
            assert!(rt; fault == RouteFault::NoMemory);
            None
        }
    }
}

/// The ports by which switch A sends what is for LIDs 1 to 6.
const BY_A: [(u16, u8); 6] = [(1, 1), (2, 0), (3, 3), (4, 2), (5, 3), (6, 3)];

fn are_the_routes(rt: &impl Abort, routes: &Routes) {
    for (lid, port) in BY_A {
        assert!(rt; routes.next_hop(0, lid) == Some(port));
    }
}

#[test]
fn routes_are_computed_or_memory_is_refused(rt: HostRuntime) -> Result<(), Fail> {
    let Some(mut fabric) = fabric_of(rt.alloc(), TWO_SWITCHES.as_bytes()) else {
        return Ok(());
    };
    if let Some(routes) = routes_over(&rt, rt.alloc(), &mut fabric) {
        are_the_routes(&rt, &routes);
    }
    Ok(())
}
