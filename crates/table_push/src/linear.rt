//! Linear forwarding tables.

ghost use Rattle.std.specs.Prelude.{ℕ, ◌≡◌, ◌≤◌, length, true};
ghost use Rattle.std.specs.Option.{ForSome};
ghost use Rattle.attr_tables.specs.Blocks.{block_of, has_block};
ghost use Rattle.smp_wire.specs.Good.{IsGood};
ghost use Rattle.sweep.specs.OfFabric.{IsGraphOf};
ghost use Rattle.table_push.specs.Linear.{linear_entry, linear_pushed, linear_table, set_linear};
ghost use Rattle.table_push.specs.Nodes.{on_switch, with_switches};
ghost use Rattle.table_push.specs.Pushes.{LeadsToSwitch, Leaves};

use crate::fault::PushFault;
use crate::setting::set;
use agent_rules::LINEAR_TABLE;
use attr_tables::{PORTS_PER_BLOCK, SmpAttribute};
use fabric_parts::NO_PORT;
use mad_layout::known_bytes;
use smp_wire::{Session, SmpWire};
use updn_routes::Routes;

/// Writes the linear forwarding tables of all switches, whole: for each LID the next hop of the routes, and 0xFF
/// if there is none and if nobody has the LID.
///
/// Over a wire that stands for the graph's fabric these tables stand there then, and all else is as it was.
pub fn push_linear<W: SmpWire>(wire: &mut W, routes: &Routes) -> Result<(), PushFault>
    ensures { ForSome (W.fabric wire.old) (λ fabric. IsGraphOf routes.now.graph fabric → IsGood fabric
        → Leaves result (W.fabric wire.new) fabric (linear_pushed routes.now fabric)) }
{
    let mut session = Session::new(wire);
    let graph = routes.graph();
    graph.known_graph();
    let switches = graph.switches();
    for place in 0..switches.len() {
        let table = linear_table(routes, place);
        match set_table(&mut session, switches[place].path.as_slice(), &table) {
            Ok(()) => {}
            Err(fault) => return Err(fault),
        }
    }
    Ok(())
}

/// Sets the linear forwarding table of the switch at the end of a path, block by block.
fn set_table<W: SmpWire>(
    session: &mut Session<'_, W>,
    path: &[u8],
    table: &[u8; LINEAR_TABLE],
) -> Result<(), PushFault>
    requires { length path.now ≤ 63 }
    ensures left { ForSome (W.fabric session.old.wire.now) (λ fabric. (guid : ℕ) → IsGood fabric → LeadsToSwitch fabric path.now guid
        → Leaves result (W.fabric session.new.wire.now) fabric (with_switches (on_switch guid (set_linear table.now)) fabric)) }
    ensures same_wire { session.new.wire.ghost_name ≡ session.old.wire.ghost_name }
{
    for block in 0..LINEAR_TABLE / PORTS_PER_BLOCK {
        let entries = block_at(table, block);
        known_bytes(&entries);
        match set(
            session,
            SmpAttribute::LinearForwardingTable,
            block as u32,
            path,
            &entries,
        ) {
            Ok(()) => {}
            Err(fault) => return Err(fault),
        }
    }
    Ok(())
}

/// The entries of that block.
#[tactic(auto, unfolding(attr_tables::specs::Blocks::block_of))]
fn block_at(table: &[u8; LINEAR_TABLE], block: usize) -> [u8; PORTS_PER_BLOCK]
    requires { has_block 64 block table.now ≡ true }
    ensures { result ≡ block_of 64 block table.now }
{
    let mut entries = [0; PORTS_PER_BLOCK];
    let first = PORTS_PER_BLOCK * block;
    entries.copy_from_slice(&table[first..first + PORTS_PER_BLOCK]);
    entries
}

/// The linear forwarding table of the switch at that place of the graph.
fn linear_table(routes: &Routes, place: usize) -> [u8; LINEAR_TABLE]
    ensures { result ≡ linear_table routes.now place }
{
    let mut ports = [NO_PORT; LINEAR_TABLE];
    for lid in 0..LINEAR_TABLE {
        ports[lid] = linear_entry(routes, place, lid as u16);
    }
    ports
}

/// The port by which the switch at that place sends what is for a LID.
fn linear_entry(routes: &Routes, place: usize, lid: u16) -> u8
    ensures { result ≡ linear_entry routes.now place lid }
{
    match routes.next_hop(place, lid) {
        Some(port) => port,
        None => NO_PORT,
    }
}
