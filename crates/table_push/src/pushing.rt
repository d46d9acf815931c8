//! The three pushes, one after another.

ghost use Rattle.std.specs.Prelude.{◌≡◌, ◌≤◌, length, IfOk};
ghost use Rattle.std.specs.Option.{ForSome};
ghost use Rattle.table_push.specs.BroughtUp.{RoutesLeadHome};
ghost use Rattle.table_push.specs.Pushed.{LeavesAll};
ghost use Rattle.smp_wire.specs.Good.{IsGood, ShowsLinks};
ghost use Rattle.sweep.specs.OfFabric.{IsGraphOf};
ghost use Rattle.updn_routes.specs.Routes.{AllReached, order_of};
ghost use Rattle.updn_routes.specs.Subnet.{homes_of, rows_of};

use crate::fault::PushFault;
use crate::keys::push_keys;
use crate::linear::push_linear;
use crate::ports::push_ports_counting;
use pkey_rules::{KeyTable, PARTITIONS};
use smp_wire::SmpWire;
use updn_routes::Routes;

/// Writes what a subnet manager writes when it brings a fabric up: ports, then P_Key tables, then LFTs.
/// The keys of the end ports stand in order of LID. It stops at the first exchange that is at fault. A port that takes all but
/// that it enforces partitions is no fault: [`push_all_counting`] counts these.
///
/// Over a wire that stands for the good fabric of the routes' graph, whose links show, no fault comes, and the fabric is
/// the one before with exactly that written.
pub fn push_all<W: SmpWire>(
    wire: &mut W,
    routes: &Routes,
    keys: &[KeyTable<PARTITIONS>],
) -> Result<(), PushFault>
    ensures { ForSome (W.fabric wire.old) (λ fabric. IsGraphOf routes.now.graph fabric → IsGood fabric → ShowsLinks fabric
        → LeavesAll result (W.fabric wire.new) routes.now keys.now fabric) }
{
    match push_all_counting(wire, routes, keys) {
        Ok(_) => Ok(()),
        Err(fault) => Err(fault),
    }
}

/// Does what [`push_all`] does, and returns how many ports of switches do not enforce partitions, as
/// [`push_ports_counting`] counts them.
pub fn push_all_counting<W: SmpWire>(
    wire: &mut W,
    routes: &Routes,
    keys: &[KeyTable<PARTITIONS>],
) -> Result<usize, PushFault>
    ensures left { ForSome (W.fabric wire.old) (λ fabric. IsGraphOf routes.now.graph fabric → IsGood fabric → ShowsLinks fabric
        → LeavesAll result (W.fabric wire.new) routes.now keys.now fabric) }
    ensures all { ForSome (W.fabric wire.old) (λ fabric. IsGraphOf routes.now.graph fabric → IsGood fabric → ShowsLinks fabric
        → IfOk result (λ count. count ≡ 0)) }
    ensures few { IfOk result (λ count. count ≤ length routes.now.graph.ports) }
{
    let count = match push_ports_counting(wire, routes) {
        Ok(count) => count,
        Err(fault) => return Err(fault),
    };
    match push_keys(wire, routes, keys) {
        Ok(()) => {}
        Err(fault) => return Err(fault),
    }
    match push_linear(wire, routes) {
        Ok(()) => Ok(count),
        Err(fault) => Err(fault),
    }
}

/// Routes by which each port of a channel adapter is reached from each switch that carries one lead to the port of
/// each LID.
pub fn known_to_lead_home(routes: &Routes)
    requires { AllReached (rows_of routes.now.graph) (order_of routes.now.between) (homes_of routes.now.graph routes.now.lids) }
    ensures { RoutesLeadHome routes.now }
{
    routes.graph().known_graph();
    routes.lids().known_distinct();
    routes.known_of_graph();
    routes.between().known_routes();
}
