//! How LIDs are given.

ghost use Rattle.std.specs.Prelude.{◌≡◌, ◌==◌, not, filter, IfOk};
ghost use Rattle.lid_assign.specs.Lids.{AreLids, IsInOrder, end_ports};

use crate::lids::Lids;
use std::alloc::{AllocError, Global};
use sweep::Graph;

/// The LIDs of the end ports of a graph: 1 for the subnet manager's, the others from 2 in the order of their GUIDs.
/// It can only run out of memory.
pub fn assign(alloc: Global, graph: &Graph) -> Result<Lids, AllocError>
    ensures lids { IfOk result (λ lids. AreLids (end_ports graph.now) lids) }
    ensures order { IfOk result (λ lids. IsInOrder graph.now.manager lids) }
{
    graph.known_graph();
    let manager = graph.manager();
    let guids = graph.end_guids(alloc)?;
    let mut others = others(alloc, manager, &guids)?;
    others.sort_unstable();
    Ok(Lids { manager, others })
}

/// The GUIDs that are not the subnet manager's. It can only run out of memory.
fn others(alloc: Global, manager: u64, guids: &[u64]) -> Result<Vec<u64>, AllocError>
    ensures { IfOk result (λ others. others.items ≡ filter (λ guid. not (guid == manager)) guids.now) }
{
    guids
        .iter()
        .copied()
        .filter(|guid| *guid != manager)
        .collect(alloc)
}
