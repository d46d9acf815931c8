//! Multicast forwarding tables.

ghost use Rattle.std.specs.Prelude.{ℕ, ◌≡◌, ◌≤◌, ◌<◌, length};
ghost use Rattle.std.specs.Option.{ForSome};
ghost use Rattle.agent_rules.specs.Good.{IsTable};
ghost use Rattle.attr_tables.specs.Blocks.{word_bytes};
ghost use Rattle.smp_wire.specs.Good.{IsGood};
ghost use Rattle.sweep.specs.OfFabric.{IsGraphOf};
ghost use Rattle.table_push.specs.Masks.{LiesInTable, masks_pushed, receives_of, set_range};
ghost use Rattle.table_push.specs.Nodes.{on_switch, with_switches};
ghost use Rattle.table_push.specs.Pushes.{LeadsToSwitch, Leaves};
ghost use Rattle.table_push.specs.Steps.{SetsBlock};
ghost use Rattle.table_push.specs.TreeSteps.{AreMasksOf, IsTree};

use crate::attachments::put_attachments;
use crate::fault::PushFault;
use crate::setting::set;
use crate::trees::{Tree, blocks_of, put_masks, tree_of};
use attr_tables::{SmpAttribute, WORDS_PER_BLOCK, WordBlock};
use fabric_parts::SWITCHES;
use smp_wire::{Session, SmpWire};
use subnet_model::GroupReceiver;
use switch_model::POSITIONS;
use updn_routes::Routes;

/// Writes the MLID range of a partition, 32 multicast LIDs, of the multicast forwarding tables of all switches: for each of these
/// LIDs the ports that lead, along the spanning tree, to its receivers. Receivers of other multicast LIDs are passed over.
///
/// Over a wire that stands for the graph's fabric these masks stand there then, and all else is as it was.
pub fn push_multicast<W: SmpWire>(
    wire: &mut W,
    routes: &Routes,
    partition: u16,
    receivers: &[GroupReceiver],
) -> Result<(), PushFault>
    requires { LiesInTable partition }
    ensures { ForSome (W.fabric wire.old) (λ fabric. IsGraphOf routes.now.graph fabric → IsGood fabric
        → Leaves result (W.fabric wire.new) fabric (masks_pushed routes.now partition (receives_of receivers.now) fabric)) }
{
    let graph = routes.graph();
    graph.known_graph();
    let switches = graph.switches();
    let tree = tree_of(routes);
    let mut masks = [[0; SWITCHES]; WORDS_PER_BLOCK];
    put_range(routes, &tree, partition, receivers, &mut masks);
    let mut session = Session::new(wire);
    for place in 0..switches.len() {
        let blocks = blocks_of(&masks, place);
        match set_range(
            &mut session,
            switches[place].path.as_slice(),
            partition,
            &blocks,
        ) {
            Ok(()) => {}
            Err(fault) => return Err(fault),
        }
    }
    Ok(())
}

/// Puts the masks of the MLID range of a partition, for each switch.
pub(crate) fn put_range(
    routes: &Routes,
    tree: &Tree,
    partition: u16,
    receivers: &[GroupReceiver],
    masks: &mut [[u64; SWITCHES]; WORDS_PER_BLOCK],
)
    requires tree { IsTree routes.now tree.now 64 }
    requires partition { LiesInTable partition }
    ensures { AreMasksOf routes.now partition (receives_of receivers.now) masks.new }
{
    routes.graph().known_graph();
    routes.known_of_graph();
    routes.between().known_routes();
    let mut ports = [[0; SWITCHES]; WORDS_PER_BLOCK];
    let mut switches = [0; WORDS_PER_BLOCK];
    put_attachments(routes, partition, receivers, &mut ports, &mut switches);
    put_masks(tree, &ports, &switches, masks);
}

/// Sets the MLID range of a partition at the switch at the end of a path, position by position.
fn set_range<W: SmpWire>(
    session: &mut Session<'_, W>,
    path: &[u8],
    partition: u16,
    blocks: &[[u16; WORDS_PER_BLOCK]; POSITIONS],
) -> Result<(), PushFault>
    requires path { length path.now ≤ 63 }
    requires partition { LiesInTable partition }
    ensures left { ForSome (W.fabric session.old.wire.now) (λ fabric. (guid : ℕ) → IsGood fabric → LeadsToSwitch fabric path.now guid
        → Leaves result (W.fabric session.new.wire.now) fabric (with_switches (on_switch guid (set_range partition blocks.now)) fabric)) }
    ensures same_wire { session.new.wire.ghost_name ≡ session.old.wire.ghost_name }
{
    for position in 0..POSITIONS {
        match set_block(session, path, partition, position, &blocks[position]) {
            Ok(()) => {}
            Err(fault) => return Err(fault),
        }
    }
    Ok(())
}

/// Sets the block of a partition at one position at the switch at the end of a path.
pub(crate) fn set_block<W: SmpWire>(
    session: &mut Session<'_, W>,
    path: &[u8],
    partition: u16,
    position: usize,
    block: &[u16; WORDS_PER_BLOCK],
) -> Result<(), PushFault>
    requires path { length path.now ≤ 63 }
    requires partition { LiesInTable partition }
    requires position { position < 3 }
    ensures words { IsTable 32 65536 block.now }
    ensures set { ForSome (W.fabric session.old.wire.now)
        (λ fabric. SetsBlock fabric (W.fabric session.new.wire.now) path.now position partition block.now result) }
    ensures same_wire { session.new.wire.ghost_name ≡ session.old.wire.ghost_name }
{
    let masks = block_bytes(block);
    // The position stands in the first 4 bits, the block in the last 9.
    let modifier = position as u32 * 0x1000_0000 + partition as u32;
    set(
        session,
        SmpAttribute::MulticastForwardingTable,
        modifier,
        path,
        &masks,
    )
}

/// The masks of a block, as an attribute.
fn block_bytes(words: &[u16; WORDS_PER_BLOCK]) -> [u8; 64]
    ensures bytes { result ≡ word_bytes words.now }
    ensures words { IsTable 32 65536 words.now }
{
    let mut bytes = [0; 64];
    WordBlock { words: *words }.write(&mut bytes);
    bytes
}
