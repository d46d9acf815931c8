//! Whether ports of channel adapters agree with one another.

ghost use Rattle.std.specs.Prelude.{◌≡◌, IfOk};
ghost use Rattle.sweep.specs.Adapters.{is_count};
ghost use Rattle.sweep.specs.Graph.{all_agree};

use crate::graph::GraphPort;
use indexmap::{IndexMap, IndexSet};
use std::alloc::{AllocError, Global};

/// A port of a channel adapter.
#[derive(Clone, Copy, PartialEq, Eq, Hash)]
struct AdapterPort {
    guid: u64,
    number: u8,
}

/// Whether that number of ports is the one that was reported before, if one was.
fn is_count(reported: Option<u8>, count: u8) -> bool
    ensures { result ≡ is_count count reported }
{
    match reported {
        Some(known) => known == count,
        None => true,
    }
}

/// Whether each two ports agree: those of one adapter have two numbers, and report one number of ports. Each is looked
/// up in constant time. It can only run out of memory.
pub(crate) fn all_agree(alloc: Global, ports: &[GraphPort]) -> Result<bool, AllocError>
    ensures { IfOk result (λ b. b ≡ all_agree ports.now) }
{
    let mut counts = IndexMap::new(alloc);
    let mut numbers = IndexSet::new(alloc);
    for port in ports {
        let reported = counts.insert(port.node_guid, port.num_ports)?;
        let is_new = numbers.insert(AdapterPort {
            guid: port.node_guid,
            number: port.number,
        })?;
        if !is_new {
            return Ok(false);
        }
        if !is_count(reported, port.num_ports) {
            return Ok(false);
        }
    }
    Ok(true)
}
