//! What the spanning tree reports of each switch, and the masks that follow.

ghost use Rattle.std.specs.Prelude.{ℕ, ◌≡◌, ◌<◌, None, bit_or, get_or, length, map, option_map};
ghost use Rattle.std.specs.Option.{option_and_then};
ghost use Rattle.table_push.specs.MaskSteps.{AreBits, is_that_port};
ghost use Rattle.table_push.specs.TreeSteps.{AreParents, ArePut, AreSpread, IsBelowSet, IsLow, IsSpread, IsTree, blocks_of, graph_link, parent_in, where_meets};
ghost use Rattle.updn_routes.specs.Sides.{is_below};

use crate::masks::{port_bit, tree_link, words_at};
use attr_tables::WORDS_PER_BLOCK;
use fabric_parts::SWITCHES;
use sweep::GraphLink;
use switch_model::POSITIONS;
use updn_routes::Routes;

/// The spanning tree of a fabric's routes: what it reports of each switch, by its place in the graph.
#[derive(Drop)]
pub struct Tree {
    /// The bits of the switches that are below it, and of itself.
    pub(crate) below: [u64; SWITCHES],
    /// The bits of all other places.
    pub(crate) outside: [u64; SWITCHES],
    /// The switch that its tree port leads to.
    pub(crate) parents: [Option<usize>; SWITCHES],
    /// The bit of its tree port.
    pub(crate) ups: [u64; SWITCHES],
    /// The bit of the port at the other end of the cable there.
    pub(crate) ends: [u64; SWITCHES],
}

/// The spanning tree of these routes.
pub fn tree_of(routes: &Routes) -> Tree
    ensures { IsTree routes.now result 64 }
{
    routes.known_of_graph();
    routes.between().known_routes();
    let mut tree = Tree {
        below: [0; SWITCHES],
        outside: [0; SWITCHES],
        parents: [None; SWITCHES],
        ups: [0; SWITCHES],
        ends: [0; SWITCHES],
    };
    let links = tree_links(routes);
    let sets = below_sets(routes, &links);
    for switch in 0..SWITCHES {
        let below = sets[switch];
        tree.below[switch] = below;
        tree.outside[switch] = !below;
        tree.parents[switch] = parent_of(links[switch]);
        tree.ups[switch] = up_bit(links[switch]);
        tree.ends[switch] = end_bit(links[switch]);
    }
    tree
}

/// The link by which each switch is joined to the tree.
fn tree_links(routes: &Routes) -> [Option<GraphLink>; SWITCHES]
    ensures long { length result ≡ 64 }
    ensures links { (s : ℕ) → s < 64 → get_or result s None ≡ graph_link routes.now s }
{
    let mut links = [None; SWITCHES];
    for switch in 0..SWITCHES {
        links[switch] = tree_link(routes, switch);
    }
    links
}

/// The switch that the link of a switch leads to.
fn parent_of(link: Option<GraphLink>) -> Option<usize>
    ensures { result ≡ option_map (λ link. link.to.node) link }
{
    link.map(|link| link.to.node)
}

/// The bit of the port with that link.
fn up_bit(link: Option<GraphLink>) -> u64
    ensures { AreBits result (is_that_port (option_map (λ link. link.port) link)) }
{
    match link {
        Some(link) => port_bit(Some(link.port)),
        None => 0,
    }
}

/// The bit of the port at the other end of that link.
fn end_bit(link: Option<GraphLink>) -> u64
    ensures { AreBits result (is_that_port (option_map (λ link. link.to.port) link)) }
{
    match link {
        Some(link) => port_bit(Some(link.to.port)),
        None => 0,
    }
}

/// For each switch the bits of the switches that are below it, and of itself.
fn below_sets(routes: &Routes, links: &[Option<GraphLink>; SWITCHES]) -> [u64; SWITCHES]
    requires { AreParents routes.now links.now }
    ensures { (s : ℕ) → s < 64 → IsBelowSet routes.now s (get_or result s 0) }
{
    let mut sets = [0; SWITCHES];
    for other in 0..SWITCHES {
        put_above(routes, links, &mut sets, other);
    }
    sets
}

/// Puts the bit of a switch into its own set and those of the switches on its way up the tree.
fn put_above(
    routes: &Routes,
    links: &[Option<GraphLink>; SWITCHES],
    sets: &mut [u64; SWITCHES],
    switch: usize,
)
    requires links { AreParents routes.now links.now }
    requires switch { switch < 64 }
    ensures { ArePut (λ s. is_below routes.now.between.rows routes.now.between.depths s switch) switch sets.old sets.new }
{
    let between = routes.between();
    let mut at = Some(switch);
    put_bit(sets, at, switch);
    for hop in 0..between.depth_of(switch) {
        at = parent_of_some(links, at);
        put_bit(sets, at, switch);
    }
}

/// The switch next above one, if there is one.
fn parent_of_some(links: &[Option<GraphLink>; SWITCHES], switch: Option<usize>) -> Option<usize>
    ensures { result ≡ option_and_then (parent_in links.now) switch }
{
    match switch {
        Some(place) => {
            if place < SWITCHES {
                parent_of(links[place])
            } else {
                None
            }
        }
        None => None,
    }
}

/// Puts a bit into the set at that place, if there is one.
fn put_bit(sets: &mut [u64; SWITCHES], at: Option<usize>, bit: usize)
    requires { bit < 64 }
    ensures { ArePut (is_that_port at) bit sets.old sets.new }
{
    match at {
        Some(place) => {
            if place < SWITCHES {
                sets[place] |= 1 << bit;
            }
        }
        None => {}
    }
}

/// Puts the masks of each multicast LID of an MLID range, for each switch, by the ports and switches to which receivers are attached.
pub(crate) fn put_masks(
    tree: &Tree,
    ports: &[[u64; SWITCHES]; WORDS_PER_BLOCK],
    switches: &[u64; WORDS_PER_BLOCK],
    masks: &mut [[u64; SWITCHES]; WORDS_PER_BLOCK],
)
    requires { (c : ℕ) → c < 64 → IsLow (get_or tree.now.parents c None) }
    ensures long { length masks.new ≡ 32 }
    ensures spread { AreSpread tree.now ports.now switches.now 32 masks.new }
{
    for slot in 0..WORDS_PER_BLOCK {
        masks[slot] = masks_of(tree, &ports[slot], switches[slot]);
    }
}

/// The masks of a multicast LID, for each switch.
pub(crate) fn masks_of(tree: &Tree, row: &[u64; SWITCHES], switches: u64) -> [u64; SWITCHES]
    requires { (c : ℕ) → c < 64 → IsLow (get_or tree.now.parents c None) }
    ensures long { length result ≡ 64 }
    ensures spread { IsSpread tree.now row.now switches result }
{
    if switches == 0 {
        return *row;
    }
    let mut masks = with_ups(tree, row, switches);
    for switch in 0..SWITCHES {
        match tree.parents[switch] {
            Some(parent) => {
                masks[parent] |= where_meets(switches, tree.below[switch], tree.ends[switch]);
            }
            None => {}
        }
    }
    masks
}

/// Adds the port up the tree to the mask of each switch that has a receiver attached outside of what is below it.
fn with_ups(tree: &Tree, row: &[u64; SWITCHES], switches: u64) -> [u64; SWITCHES]
    ensures long { length result ≡ 64 }
    ensures ups { (s : ℕ) → s < 64 → get_or result s 0
        ≡ bit_or (get_or row.now s 0) (where_meets switches (get_or tree.now.outside s 0) (get_or tree.now.ups s 0)) }
{
    let mut masks = [0; SWITCHES];
    for switch in 0..SWITCHES {
        masks[switch] = row[switch] | where_meets(switches, tree.outside[switch], tree.ups[switch]);
    }
    masks
}

/// These bits, if some switch of the set is marked.
pub(crate) fn where_meets(switches: u64, set: u64, bits: u64) -> u64
    ensures { result ≡ where_meets switches set bits }
{
    if switches & set != 0 { bits } else { 0 }
}

/// The blocks of a switch's masks, by positions.
pub(crate) fn blocks_of(
    masks: &[[u64; SWITCHES]; WORDS_PER_BLOCK],
    place: usize,
) -> [[u16; WORDS_PER_BLOCK]; POSITIONS]
    requires { place < 64 }
    ensures { result ≡ blocks_of masks.now place }
{
    let bits = bits_of(masks, place);
    [words_at(&bits, 0), words_at(&bits, 1), words_at(&bits, 2)]
}

/// The MFT entries of a switch, one for each multicast LID of an MLID range.
fn bits_of(masks: &[[u64; SWITCHES]; WORDS_PER_BLOCK], place: usize) -> [u64; WORDS_PER_BLOCK]
    requires { place < 64 }
    ensures { result ≡ map (λ row. get_or row place 0) masks.now }
{
    let mut bits = [0; WORDS_PER_BLOCK];
    for slot in 0..WORDS_PER_BLOCK {
        bits[slot] = masks[slot][place];
    }
    bits
}
