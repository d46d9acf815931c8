//! P_Key tables.

ghost use Rattle.std.specs.Prelude.{ℕ, ◌≡◌, ◌≤◌, ◌<◌, List, length, option_map, Some, Ok, true, unwrap_or};
ghost use Rattle.std.specs.Option.{ForSome};
ghost use Rattle.attr_tables.specs.Blocks.{block_of, has_block, word_bytes};
ghost use Rattle.attr_tables.specs.declared.smp_attribute.SmpAttribute.TheVariants as attribute;
ghost use Rattle.smp_wire.specs.Get.{gives_along};
ghost use Rattle.smp_wire.specs.Good.{IsGood};
ghost use Rattle.sweep.specs.OfFabric.{IsGraphOf};
ghost use Rattle.table_push.specs.Keys.{at_switches, held_as, key_table, keys_of, keys_pushed, keys_where, whether_there};
ghost use Rattle.table_push.specs.Nodes.{on_port, with_keys};
ghost use Rattle.table_push.specs.Pushes.{LeadsToPort, Leaves};
ghost use Rattle.table_push.specs.Steps.{PutsBlock, PutsKeysAtCable, PutsKeysAtCables, SaysWhetherThere};

use crate::fault::{PushFault, fault_of};
use crate::setting::set;
use attr_tables::{SmpAttribute, WORDS_PER_BLOCK, WordBlock};
use pkey_rules::{KeyTable, PARTITIONS, PKey, base_of, key_of};
use smp_wire::{ReplyFault, Session, SmpWire};
use updn_routes::Routes;

/// Writes the P_Key tables: of each end port its own keys, which stand in `keys` in order of LID, and of each port of a
/// switch that a port of a channel adapter is attached to the full form of each of that port's keys, so that the switch lets
/// in and out what that port may send and take. Behind them the table is empty; of the blocks that are to be empty only those
/// are written that hold something. A port that does not have a block that is to be empty is left as it is.
///
/// Over a wire that stands for the graph's fabric these tables stand there then, and all else is as it was.
pub fn push_keys<W: SmpWire>(
    wire: &mut W,
    routes: &Routes,
    keys: &[KeyTable<PARTITIONS>],
) -> Result<(), PushFault>
    ensures { ForSome (W.fabric wire.old) (λ fabric. IsGraphOf routes.now.graph fabric → IsGood fabric
        → Leaves result (W.fabric wire.new) fabric (keys_pushed routes.now keys.now fabric)) }
{
    let mut session = Session::new(wire);
    match to_switches(&mut session, routes, keys) {
        Ok(()) => {}
        Err(fault) => return Err(fault),
    }
    to_cables(&mut session, routes, keys)
}

/// Sets the P_Key table of port 0 of each switch.
fn to_switches<W: SmpWire>(
    session: &mut Session<'_, W>,
    routes: &Routes,
    keys: &[KeyTable<PARTITIONS>],
) -> Result<(), PushFault>
    ensures left { ForSome (W.fabric session.old.wire.now) (λ fabric. IsGraphOf routes.now.graph fabric → IsGood fabric
        → Leaves result (W.fabric session.new.wire.now) fabric
        (with_keys (keys_where (at_switches routes.now.graph.switches) routes.now keys.now) fabric)) }
    ensures same_wire { session.new.wire.ghost_name ≡ session.old.wire.ghost_name }
{
    let graph = routes.graph();
    graph.known_graph();
    let switches = graph.switches();
    for place in 0..switches.len() {
        let switch = &switches[place];
        let table = table_of(routes, keys, switch.guid, false);
        match set_some(session, switch.path.as_slice(), 0, table) {
            Ok(()) => {}
            Err(fault) => return Err(fault),
        }
    }
    Ok(())
}

/// Sets the P_Key tables at both ends of each cable between a switch and a channel adapter.
fn to_cables<W: SmpWire>(
    session: &mut Session<'_, W>,
    routes: &Routes,
    keys: &[KeyTable<PARTITIONS>],
) -> Result<(), PushFault>
    ensures left { PutsKeysAtCables routes.now keys.now (W.fabric session.old.wire.now) (W.fabric session.new.wire.now) result }
    ensures same_wire { session.new.wire.ghost_name ≡ session.old.wire.ghost_name }
{
    let graph = routes.graph();
    graph.known_graph();
    for place in 0..graph.ports().len() {
        match to_cable(session, routes, keys, place) {
            Ok(()) => {}
            Err(fault) => return Err(fault),
        }
    }
    Ok(())
}

/// Sets the P_Key tables of a port of a channel adapter, and of the port of a switch that it is attached to.
fn to_cable<W: SmpWire>(
    session: &mut Session<'_, W>,
    routes: &Routes,
    keys: &[KeyTable<PARTITIONS>],
    place: usize,
) -> Result<(), PushFault>
    requires { place < length routes.now.graph.ports }
    ensures left { PutsKeysAtCable routes.now keys.now (W.fabric session.old.wire.now) (W.fabric session.new.wire.now) place result }
    ensures same_wire { session.new.wire.ghost_name ≡ session.old.wire.ghost_name }
{
    let graph = routes.graph();
    graph.known_graph();
    let port = &graph.ports()[place];
    let switch = &graph.switches()[port.at.node];
    let full = table_of(routes, keys, port.port_guid, true);
    match set_some(session, switch.path.as_slice(), port.at.port, full) {
        Ok(()) => {}
        Err(fault) => return Err(fault),
    }
    let own = table_of(routes, keys, port.port_guid, false);
    let path = switch.path.then(port.at.port);
    set_some(session, path.as_slice(), 0, own)
}

/// Sets the P_Key table of a port, if there is one to set.
fn set_some<W: SmpWire>(
    session: &mut Session<'_, W>,
    path: &[u8],
    asked: u8,
    table: Option<[u16; PARTITIONS]>,
) -> Result<(), PushFault>
    requires { length path.now ≤ 63 }
    ensures left { ForSome (W.fabric session.old.wire.now) (λ fabric. (guid number : ℕ) → IsGood fabric → LeadsToPort fabric path.now asked guid number
        → Leaves result (W.fabric session.new.wire.now) fabric (with_keys (on_port guid number (λ held. unwrap_or table held)) fabric)) }
    ensures same_wire { session.new.wire.ghost_name ≡ session.old.wire.ghost_name }
{
    match table {
        Some(table) => set_table(session, path, asked, &table),
        None => Ok(()),
    }
}

/// The table of the end port with that GUID, or the full form of its keys; none, if there are no keys for its LID.
fn table_of(
    routes: &Routes,
    keys: &[KeyTable<PARTITIONS>],
    guid: u64,
    full: bool,
) -> Option<[u16; PARTITIONS]>
    ensures { result ≡ option_map (key_table full) (keys_of routes.now keys.now guid) }
{
    match routes.lids().lid_of(guid) {
        Some(lid) => match keys.get(lid as usize - 1) {
            Some(keys) => Some(words_of(keys, full)),
            None => None,
        },
        None => None,
    }
}

/// Sets the P_Key table of a port of the node at the end of a path, block by block. A switch is asked for its port of
/// that number; a port of a channel adapter is asked for port 0, itself.
fn set_table<W: SmpWire>(
    session: &mut Session<'_, W>,
    path: &[u8],
    asked: u8,
    table: &[u16; PARTITIONS],
) -> Result<(), PushFault>
    requires { length path.now ≤ 63 }
    ensures left { ForSome (W.fabric session.old.wire.now) (λ fabric. (guid number : ℕ) → IsGood fabric → LeadsToPort fabric path.now asked guid number
        → Leaves result (W.fabric session.new.wire.now) fabric (with_keys (on_port guid number (λ held. table.now)) fabric)) }
    ensures same_wire { session.new.wire.ghost_name ≡ session.old.wire.ghost_name }
{
    for block in 0..PARTITIONS / WORDS_PER_BLOCK {
        match put_block(session, path, asked, block, table) {
            Ok(()) => {}
            Err(fault) => return Err(fault),
        }
    }
    Ok(())
}

/// Puts a block of a P_Key table where it belongs. An empty block, of which most tables have some, is set only if the port
/// holds something there.
fn put_block<W: SmpWire>(
    session: &mut Session<'_, W>,
    path: &[u8],
    asked: u8,
    block: usize,
    table: &[u16; PARTITIONS],
) -> Result<(), PushFault>
    requires path { length path.now ≤ 63 }
    requires block { has_block 32 block table.now ≡ true }
    ensures left { PutsBlock (W.fabric session.old.wire.now) (W.fabric session.new.wire.now) path.now asked block (block_of 32 block table.now) result }
    ensures same_wire { session.new.wire.ghost_name ≡ session.old.wire.ghost_name }
{
    let wanted = block_at(table, block);
    let modifier = asked as u32 * 65536 + block as u32;
    match is_there(session, modifier, path, &wanted) {
        Ok(true) => Ok(()),
        Ok(false) => set(session, SmpAttribute::PKeyTable, modifier, path, &wanted),
        Err(fault) => Err(fault),
    }
}

/// Whether a block of keys that is to be empty is so already. Other blocks aren't asked for: they are set in any case.
fn is_there<W: SmpWire>(
    session: &mut Session<'_, W>,
    modifier: u32,
    path: &[u8],
    wanted: &[u8; 64],
) -> Result<bool, PushFault>
    requires { length path.now ≤ 63 }
    ensures reported { ForSome (W.fabric session.old.wire.now) (λ fabric. (given : List ℕ) → IsGood fabric
        → gives_along fabric path.now attribute.PKeyTable modifier ≡ Some (Ok given) → SaysWhetherThere result given wanted.now) }
    ensures left { ForSome (W.fabric session.old.wire.now) (λ fabric. IsGood fabric → W.fabric session.new.wire.now ≡ Some fabric) }
    ensures same_wire { session.new.wire.ghost_name ≡ session.old.wire.ghost_name }
{
    if *wanted != [0; 64] {
        return Ok(false);
    }
    let reported = session.get(SmpAttribute::PKeyTable, modifier, path);
    whether_there(wanted, reported)
}

/// What the reply to a Get of a block that is to be empty says of it. An agent refuses a block that its table, of PartitionCap
/// keys, does not have: it holds nothing, so there is nothing to set.
fn whether_there(
    wanted: &[u8; 64],
    reported: Result<[u8; 64], ReplyFault>,
) -> Result<bool, PushFault>
    ensures { result ≡ whether_there wanted.now reported }
{
    match reported {
        Ok(given) => Ok(given == *wanted),
        Err(ReplyFault::Refused) => Ok(true),
        Err(fault) => Err(fault_of(fault)),
    }
}

/// The keys of that block, as an attribute.
#[tactic(auto, unfolding(attr_tables::specs::Blocks::block_of))]
fn block_at(table: &[u16; PARTITIONS], block: usize) -> [u8; 64]
    requires { has_block 32 block table.now ≡ true }
    ensures { result ≡ word_bytes (block_of 32 block table.now) }
{
    let mut words = [0; WORDS_PER_BLOCK];
    let first = WORDS_PER_BLOCK * block;
    words.copy_from_slice(&table[first..first + WORDS_PER_BLOCK]);
    let mut bytes = [0; 64];
    WordBlock { words }.write(&mut bytes);
    bytes
}

/// A P_Key table as words: these keys, or their full forms, and empty places behind them.
fn words_of(keys: &KeyTable<PARTITIONS>, full: bool) -> [u16; PARTITIONS]
    ensures { result ≡ key_table full keys.now }
{
    let mut words = [0; PARTITIONS];
    let held = keys.as_slice();
    for place in 0..held.len() {
        words[place] = held_as(full, held[place]);
    }
    words
}

/// A key as it is, or as a full member of its partition holds it.
fn held_as(full: bool, key: PKey) -> u16
    ensures { result ≡ held_as full key }
{
    if full {
        key_of(base_of(key.bits()), true)
    } else {
        key.bits()
    }
}
