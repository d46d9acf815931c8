//! Whether a topology that was read is another one with roots.

ghost use Rattle.std.specs.Prelude.{◌≡◌, IfOk};
ghost use Rattle.std.specs.List.{list_all, zip};
ghost use Rattle.rooted_import.specs.Agreement.{are_same, has_root, is_rooted, is_same_cable, is_same_node, is_same_place};
ghost use Rattle.rooted_import.specs.Roots.{roots_of};

use fabric_parts::Cable;
use topo_file::{LargeTopology, Node, guid_at};

fn is_same_node(a: &Node, b: &Node) -> bool
    ensures { result ≡ is_same_node (a.now, b.now) }
{
    a.name.as_bytes() == b.name.as_bytes()
        && (a.node_type.code() == b.node_type.code() && (a.guid == b.guid && a.ports == b.ports))
}

fn all_same_nodes(nodes: &[Node], others: &[Node]) -> bool
    ensures { result ≡ list_all is_same_node (zip nodes.now others.now) }
{
    nodes
        .iter()
        .zip(others.iter())
        .all(|(a, b)| is_same_node(a, b))
}

fn are_same_nodes(nodes: &[Node], others: &[Node]) -> bool
    ensures { result ≡ are_same is_same_node nodes.now others.now }
{
    nodes.len() == others.len() && all_same_nodes(nodes, others)
}

fn is_same_cable(a: &Cable, b: &Cable) -> bool
    ensures { result ≡ is_same_cable (a.now, b.now) }
{
    a.first == b.first && a.second == b.second
}

fn all_same_cables(cables: &[Cable], others: &[Cable]) -> bool
    ensures { result ≡ list_all is_same_cable (zip cables.now others.now) }
{
    cables
        .iter()
        .zip(others.iter())
        .all(|(a, b)| is_same_cable(a, b))
}

fn are_same_cables(cables: &[Cable], others: &[Cable]) -> bool
    ensures { result ≡ are_same is_same_cable cables.now others.now }
{
    cables.len() == others.len() && all_same_cables(cables, others)
}

fn all_same_places(places: &[usize], others: &[usize]) -> bool
    ensures { result ≡ list_all is_same_place (zip places.now others.now) }
{
    places.iter().zip(others.iter()).all(|(a, b)| *a == *b)
}

fn are_same_places(places: &[usize], others: &[usize]) -> bool
    ensures { result ≡ are_same is_same_place places.now others.now }
{
    places.len() == others.len() && all_same_places(places, others)
}

/// Whether the switch of this GUID is a root.
fn has_root(nodes: &[Node], roots: &[usize], guid: u64) -> bool
    ensures { result ≡ has_root nodes.now roots.now guid }
{
    roots.iter().any(|root| guid_at(nodes, *root) == guid)
}

fn all_are_roots(nodes: &[Node], roots: &[usize], guids: &[u64]) -> bool
    ensures { result ≡ list_all (has_root nodes.now roots.now) guids.now }
{
    guids.iter().all(|guid| has_root(nodes, roots, *guid))
}

/// Whether the second topology is the first with these places as its roots, among which is the switch of each of these GUIDs.
pub(crate) fn is_rooted(
    guids: &[u64],
    plan: &LargeTopology,
    roots: &[usize],
    again: &LargeTopology,
) -> bool
    requires { roots.now ≡ roots_of guids.now plan.now.nodes }
    ensures { result ≡ is_rooted guids.now plan.now again.now }
{
    are_same_nodes(plan.nodes(), again.nodes())
        && (are_same_cables(plan.cables(), again.cables())
            && (plan.sm() == again.sm()
                && (are_same_places(roots, again.roots())
                    && all_are_roots(again.nodes(), again.roots(), guids))))
}
