//! The masks of multicast LIDs, as receivers and the spanning tree make them.

ghost use Rattle.std.specs.Prelude.{◌≡◌, ◌+◌, ◌<◌, ◌==◌, [], find, get_or};
ghost use Rattle.table_push.specs.MaskSteps.{AreBits, is_that_port, words_at};
ghost use Rattle.table_push.specs.TreeSteps.{graph_link};

use attr_tables::WORDS_PER_BLOCK;
use sweep::{Graph, GraphLink};
use updn_routes::{Routes, SwitchRoutes};

/// Of the bits of an MLID range those of the 16 ports of a position.
pub(crate) fn words_at(bits: &[u64; WORDS_PER_BLOCK], position: usize) -> [u16; WORDS_PER_BLOCK]
    requires { position < 3 }
    ensures { result ≡ words_at position bits.now }
{
    let mut words = [0; WORDS_PER_BLOCK];
    for slot in 0..WORDS_PER_BLOCK {
        words[slot] = ((bits[slot] >> (16 * position)) % 65536) as u16;
    }
    words
}

/// The bit of a port.
pub(crate) fn port_bit(port: Option<u8>) -> u64
    ensures { AreBits result (is_that_port port) }
{
    match port {
        Some(number) => { if number < 64 { 1 << number } else { 0 } }
        None => 0,
    }
}

/// The links of a switch.
fn links_of(graph: &Graph, switch: usize) -> &[GraphLink]
    ensures { result.now ≡ get_or graph.now.rows switch [] }
{
    match graph.rows().get(switch) {
        Some(row) => row.as_slice(),
        None => &[],
    }
}

/// The link by which a switch is joined to the tree.
pub(crate) fn tree_link(routes: &Routes, switch: usize) -> Option<GraphLink>
    ensures { result ≡ graph_link routes.now switch }
{
    let between = routes.between();
    let depth = between.depth_of(switch);
    first_nearer(between, links_of(routes.graph(), switch), depth)
}

/// The first link to a switch that is one cable nearer to the first root than so many.
fn first_nearer(between: &SwitchRoutes, links: &[GraphLink], depth: usize) -> Option<GraphLink>
    ensures { result ≡ find (λ link. get_or between.now.depths link.to.node 0 + 1 == depth) links.now }
{
    links
        .iter()
        .copied()
        .find(|link| is_nearer(between, link.to.node, depth))
}

/// Whether a switch is one cable nearer to the first root than so many.
fn is_nearer(between: &SwitchRoutes, switch: usize, depth: usize) -> bool
    ensures { result ≡ (get_or between.now.depths switch 0 + 1 == depth) }
{
    depth != 0 && between.depth_of(switch) == depth - 1
}
