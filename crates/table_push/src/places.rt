//! The masks of one switch, and of which switches they may change.

ghost use Rattle.std.specs.Prelude.{ℕ, ◌≡◌, ◌<◌, ◌==◌, ◌||◌, true, false, bit_or, get_or, length, slice_get};
ghost use Rattle.std.specs.Int.{bit_at};
ghost use Rattle.table_push.specs.Changes.{AllChangesMarked};
ghost use Rattle.table_push.specs.Masks.{LiesInTable, receives_of, wanted_range};
ghost use Rattle.table_push.specs.MaskSteps.{AreReceiversBits, is_attached_at, is_attached_to, is_that_port, some_receives};
ghost use Rattle.table_push.specs.PlaceSteps.{IsNext, IsUnturned};
ghost use Rattle.table_push.specs.TreeSteps.{IsTree, leads_up, meets, some_lead_down, where_meets};

use crate::attachments::{home_bit, place_bit, ports_at, switches_of};
use crate::masks::words_at;
use crate::trees::{Tree, where_meets};
use attr_tables::WORDS_PER_BLOCK;
use fabric_parts::SWITCHES;
use subnet_model::GroupReceiver;
use switch_model::POSITIONS;
use updn_routes::Routes;

/// The blocks of the MLID range of a partition at one switch, by positions.
pub(crate) fn blocks_at(
    routes: &Routes,
    tree: &Tree,
    partition: u16,
    receivers: &[GroupReceiver],
    switches: &[u64; WORDS_PER_BLOCK],
    place: usize,
) -> [[u16; WORDS_PER_BLOCK]; POSITIONS]
    requires tree { IsTree routes.now tree.now 64 }
    requires partition { LiesInTable partition }
    requires switches { AreReceiversBits 64 partition receivers.now (is_attached_to routes.now.between.homes) (λ i. get_or switches.now i 0) }
    requires place { place < 64 }
    ensures { result ≡ wanted_range routes.now partition (receives_of receivers.now) place }
{
    routes.known_of_graph();
    routes.between().known_routes();
    let mut bits = ports_at(routes, partition, receivers, place);
    put_ways(tree, switches, place, &mut bits);
    [words_at(&bits, 0), words_at(&bits, 1), words_at(&bits, 2)]
}

/// Puts the bits of the ports that lead from a switch along the tree to the switches to which receivers are attached.
fn put_ways(
    tree: &Tree,
    switches: &[u64; WORDS_PER_BLOCK],
    place: usize,
    bits: &mut [u64; WORDS_PER_BLOCK],
)
    requires { place < 64 }
    ensures long { length bits.new ≡ 32 }
    ensures bits { (i number : ℕ) → i < 32 → (bit_at (get_or bits.new i 0) number == 1)
        ≡ (((bit_at (get_or bits.old i 0) number == 1) || leads_up tree.now (get_or switches.now i 0) place number)
        || some_lead_down tree.now 64 (get_or switches.now i 0) place number) }
{
    put_way(switches, tree.outside[place], tree.ups[place], bits);
    for child in 0..SWITCHES {
        if is_parent(tree.parents[child], place) {
            put_way(switches, tree.below[child], tree.ends[child], bits);
        }
    }
}

/// Whether the parent of a switch is the one at that place.
fn is_parent(parent: Option<usize>, place: usize) -> bool
    ensures { result ≡ is_that_port parent place }
{
    parent == Some(place)
}

/// Puts a port's bit for each multicast LID that has receivers on some switch of the set.
fn put_way(
    switches: &[u64; WORDS_PER_BLOCK],
    set: u64,
    port: u64,
    bits: &mut [u64; WORDS_PER_BLOCK],
)
    ensures long { length bits.new ≡ 32 }
    ensures ways { (i : ℕ) → i < 32 → get_or bits.new i 0 ≡ bit_or (get_or bits.old i 0) (where_meets (get_or switches.now i 0) set port) }
{
    for slot in 0..WORDS_PER_BLOCK {
        bits[slot] |= where_meets(switches[slot], set, port);
    }
}

/// The bits of the switches whose port masks in the MLID range of a partition may change. Either an attached receiver came or went,
/// or a port of the tree got its first receiver of some MLID or lost its last one.
pub(crate) fn places_that_change(
    routes: &Routes,
    tree: &Tree,
    partition: u16,
    before: &[GroupReceiver],
    after: &[GroupReceiver],
) -> u64
    requires tree { IsTree routes.now tree.now 64 }
    requires partition { LiesInTable partition }
    ensures { AllChangesMarked routes.now partition (receives_of before.now) (receives_of after.now) result }
{
    routes.known_of_graph();
    routes.between().known_routes();
    let switches_before = switches_of(routes, partition, before);
    let switches_after = switches_of(routes, partition, after);
    let mut places = homes_that_change(routes, before, after);
    for slot in 0..WORDS_PER_BLOCK {
        places |= places_turned(tree, switches_before[slot], switches_after[slot]);
    }
    places
}

/// The bits of the switches to which receivers are attached that are in one list alone. What both lists have in the same order is passed
/// over, so in lists that are sorted alike these are no others.
fn homes_that_change(routes: &Routes, before: &[GroupReceiver], after: &[GroupReceiver]) -> u64
    ensures { (s mlid number : ℕ) → s < 64 → (bit_at result s == 1) ≡ false
        → some_receives before.now mlid (λ lid. is_attached_at routes.now.between.homes s lid number)
        ≡ some_receives after.now mlid (λ lid. is_attached_at routes.now.between.homes s lid number) }
{
    let mut places = 0;
    let mut gone = 0;
    let mut come = 0;
    for _turn in 0..before.len() + after.len() {
        match next_of(receiver_at(before, gone), receiver_at(after, come)) {
            Next::Both => {
                gone += 1;
                come += 1;
            }
            Next::Gone(lid) => {
                places |= home_bit(routes, lid);
                gone += 1;
            }
            Next::Come(lid) => {
                places |= home_bit(routes, lid);
                come += 1;
            }
            Next::Neither => return places,
        }
    }
    places
}

/// The receiver at a place of a list, if there is one.
fn receiver_at(receivers: &[GroupReceiver], place: usize) -> Option<GroupReceiver>
    ensures { result ≡ slice_get receivers.now place }
{
    receivers.get(place).copied()
}

/// What comes next of two lists of receivers.
#[derive(Clone, Copy)]
pub(crate) enum Next {
    /// The same receiver in both.
    Both,
    /// One with that LID in the first list.
    Gone(u16),
    /// One with that LID in the second.
    Come(u16),
    /// None.
    Neither,
}

/// What comes next, if these do in either list: of two that differ the one with the lower multicast LID, and then LID.
fn next_of(gone: Option<GroupReceiver>, come: Option<GroupReceiver>) -> Next
    ensures { IsNext gone come result }
{
    match (gone, come) {
        (Some(one), Some(other)) => {
            if one == other {
                Next::Both
            } else if one.mlid < other.mlid || one.mlid == other.mlid && one.lid < other.lid {
                Next::Gone(one.lid)
            } else {
                Next::Come(other.lid)
            }
        }
        (Some(one), None) => Next::Gone(one.lid),
        (None, Some(other)) => Next::Come(other.lid),
        (None, None) => Next::Neither,
    }
}

/// The bits of the switches with a port that leads along the tree to some switch of the one set, and to none of the other.
fn places_turned(tree: &Tree, before: u64, after: u64) -> u64
    ensures { (s : ℕ) → s < 64 → (bit_at result s == 1) ≡ false → IsUnturned tree.now before after s }
{
    if before == after {
        return 0;
    }
    let mut places = 0;
    for switch in 0..SWITCHES {
        places |= where_turned(before, after, tree.outside[switch], 1 << switch);
        places |= where_turned(
            before,
            after,
            tree.below[switch],
            place_bit(tree.parents[switch]),
        );
    }
    places
}

/// These bits, if some switch of the set is in one of two others, and none in the other.
fn where_turned(before: u64, after: u64, set: u64, bits: u64) -> u64
    ensures { (n : ℕ) → (bit_at bits n == 1) ≡ true → (bit_at result n == 1) ≡ false → meets before set ≡ meets after set }
{
    if (before & set != 0) != (after & set != 0) {
        bits
    } else {
        0
    }
}

/// Whether the bit of the switch at a place is there.
pub(crate) fn is_marked(places: u64, place: usize) -> bool
    requires { place < 64 }
    ensures { result ≡ (bit_at places place == 1) }
{
    (places >> place) % 2 == 1
}
