//! What changes of multicast forwarding tables.

ghost use Rattle.std.specs.Prelude.{ℕ, ◌≡◌, ◌≤◌, length, nat_eq, IfOk};
ghost use Rattle.std.specs.Cmp.Lexicographic.{pointwise};
ghost use Rattle.std.specs.Option.{ForSome};
ghost use Rattle.smp_wire.specs.Good.{IsGood};
ghost use Rattle.table_push.specs.RangeBlocks.{AreRangeBlocks, IsChangeOf};
ghost use Rattle.table_push.specs.Changes.{ChangesRange, CountsChanged, HasBlocks, blocks_changed};
ghost use Rattle.table_push.specs.Masks.{LiesInTable, receives_of, set_range};
ghost use Rattle.table_push.specs.Nodes.{on_switch, with_switches};
ghost use Rattle.table_push.specs.Pushes.{LeadsToSwitch, Leaves};

use crate::fault::PushFault;
use crate::multicast::set_block;
use crate::places::{is_marked, places_that_change};
use crate::range_blocks::{Change, RangeBlocks};
use crate::trees::tree_of;
use attr_tables::WORDS_PER_BLOCK;
use smp_wire::{Session, SmpWire};
use subnet_model::GroupReceiver;
use switch_model::POSITIONS;
use updn_routes::Routes;

/// Writes what [`push_multicast`](crate::push_multicast) would for the receivers `after`, over a wire whose switches have the
/// masks of the receivers `before`: only the blocks that differ are set. Answers how many they are.
///
/// Over a wire that stands for the graph's fabric the masks of the MLID range are those of the receivers `after` then, and all else
/// is as it was.
pub fn push_changed<W: SmpWire>(
    wire: &mut W,
    routes: &Routes,
    partition: u16,
    before: &[GroupReceiver],
    after: &[GroupReceiver],
) -> Result<u32, PushFault>
    requires { LiesInTable partition }
    ensures pushed { ChangesRange routes.now partition (receives_of before.now) (receives_of after.now)
        (W.fabric wire.old) (W.fabric wire.new) result }
    ensures count { CountsChanged routes.now partition (receives_of before.now) (receives_of after.now) result }
{
    let tree = tree_of(routes);
    let places = places_that_change(routes, &tree, partition, before, after);
    let change = Change {
        partition,
        before,
        after,
        tree: &tree,
        places,
    };
    let looks = places.count_ones() as usize;
    let is_walked = (before.len() + after.len()).saturating_mul(looks) <= FEW_LOOKS;
    let blocks_before = RangeBlocks::of(routes, change, before, is_walked);
    let blocks_after = RangeBlocks::of(routes, change, after, is_walked);
    let mut session = Session::new(wire);
    push_blocks(&mut session, routes, change, &blocks_before, &blocks_after)
}

// If receivers times switches are more than this, the port masks of all switches are computed at once.
const FEW_LOOKS: usize = 16_384;

/// Sets the blocks that differ at the marked switches, which are all that may have some, switch by switch.
fn push_blocks<W: SmpWire>(
    session: &mut Session<'_, W>,
    routes: &Routes,
    change: Change<'_>,
    before: &RangeBlocks,
    after: &RangeBlocks,
) -> Result<u32, PushFault>
    requires of { IsChangeOf routes.now change }
    requires before { AreRangeBlocks routes.now change.partition change.before.now before.now }
    requires after { AreRangeBlocks routes.now change.partition change.after.now after.now }
    ensures pushed { ChangesRange routes.now change.entry.partition (receives_of change.entry.before.now) (receives_of change.entry.after.now)
        (W.fabric session.old.wire.now) (W.fabric session.new.wire.now) result }
    ensures count { CountsChanged routes.now change.entry.partition
        (receives_of change.entry.before.now) (receives_of change.entry.after.now) result }
    ensures same_wire { session.new.wire.ghost_name ≡ session.old.wire.ghost_name }
{
    let graph = routes.graph();
    graph.known_graph();
    let switches = graph.switches();
    let mut count = 0;
    for place in 0..switches.len() {
        if is_marked(change.places, place) {
            let path = switches[place].path.as_slice();
            let blocks_before = before.at(routes, change, change.before, place);
            let blocks_after = after.at(routes, change, change.after, place);
            match set_changed(
                session,
                path,
                change.partition,
                &blocks_before,
                &blocks_after,
            ) {
                Ok(more) => count += more,
                Err(fault) => return Err(fault),
            }
        }
    }
    Ok(count)
}

/// Sets the blocks of a partition that differ at the switch at the end of a path, and answers how many.
fn set_changed<W: SmpWire>(
    session: &mut Session<'_, W>,
    path: &[u8],
    partition: u16,
    before: &[[u16; WORDS_PER_BLOCK]; POSITIONS],
    after: &[[u16; WORDS_PER_BLOCK]; POSITIONS],
) -> Result<u32, PushFault>
    requires path { length path.now ≤ 63 }
    requires partition { LiesInTable partition }
    ensures pushed { ForSome (W.fabric session.old.wire.now) (λ fabric. (guid : ℕ) → IsGood fabric → LeadsToSwitch fabric path.now guid
        → HasBlocks guid partition before.now fabric
        → Leaves result (W.fabric session.new.wire.now) fabric (with_switches (on_switch guid (set_range partition after.now)) fabric)) }
    ensures count { IfOk result (λ count. count ≡ blocks_changed before.now after.now) }
    ensures few { IfOk result (λ count. count ≤ 3) }
    ensures same_wire { session.new.wire.ghost_name ≡ session.old.wire.ghost_name }
{
    let mut count = 0;
    for position in 0..POSITIONS {
        if !is_same(&before[position], &after[position]) {
            match set_block(session, path, partition, position, &after[position]) {
                Ok(()) => count += 1,
                Err(fault) => return Err(fault),
            }
        }
    }
    Ok(count)
}

/// Whether two blocks have the same masks.
fn is_same(block: &[u16; WORDS_PER_BLOCK], other: &[u16; WORDS_PER_BLOCK]) -> bool
    ensures { result ≡ pointwise nat_eq block.now other.now }
{
    block == other
}
