//! The topology of a discovery, with roots.

ghost use Rattle.std.specs.Prelude.{◌≡◌, IfOk};
ghost use Rattle.step_results.specs.TextGives.{TextGives};
ghost use Rattle.fabric_parts.specs.declared.limits.Limits.TheVariants.{Large};
ghost use Rattle.topo_file.specs.Topology.{topology_within};
ghost use Rattle.rooted_import.specs.Laws.{IsGivenRoots};
ghost use Rattle.rooted_import.specs.Rooted.{read_back, rooted_by, rooted_import_of, with_roots};
ghost use Rattle.rooted_import.specs.Roots.{rooted_text, roots_of};

use crate::agreement::is_rooted;
use crate::roots::{push_roots, roots_of, top_guids};
use fabric_parts::Limits;
use netdiscover_file::Discovery;
use std::alloc::Global;
use topo_file::{LargeTopology, TopoFault};
use topology_import::{ImportCause, ImportFault, topology_text};

const UNLIKE: ImportFault = ImportFault::At {
    line: 0,
    cause: ImportCause::Unlike,
};

/// A text, if the topology that is read of it is the other one with these roots.
fn read_back(
    alloc: Global,
    guids: &[u64],
    plan: &LargeTopology,
    roots: &[usize],
    text: Vec<u8>,
) -> Result<Vec<u8>, ImportFault>
    requires { roots.now ≡ roots_of guids.now plan.now.nodes }
    ensures { TextGives (λ text. text.items) result (read_back guids.now plan.now text.items) }
{
    match topo_file::read_within(alloc, text.as_slice(), Limits::Large) {
        Ok(again) => {
            if is_rooted(guids, plan, roots, &again) {
                Ok(text)
            } else {
                Err(UNLIKE)
            }
        }
        Err(TopoFault::NoMemory) => Err(ImportFault::NoMemory),
        Err(TopoFault::At { .. }) => Err(UNLIKE),
    }
}

/// The text with a line for each of these switches, if it is read so.
fn rooted(
    alloc: Global,
    guids: &[u64],
    plan: &LargeTopology,
    text: Vec<u8>,
) -> Result<Vec<u8>, ImportFault>
    ensures { TextGives (λ text. text.items) result
        (read_back guids.now plan.now (rooted_text plan.now.nodes (roots_of guids.now plan.now.nodes) text.items)) }
{
    let roots = roots_of(alloc, guids, plan.nodes())?;
    let mut text = text;
    push_roots(&mut text, plan.nodes(), &roots)?;
    read_back(alloc, guids, plan, &roots, text)
}

fn with_roots(alloc: Global, guids: &[u64], text: Vec<u8>) -> Result<Vec<u8>, ImportFault>
    ensures { TextGives (λ text. text.items) result (with_roots guids.now text.items) }
{
    match topo_file::read_within(alloc, text.as_slice(), Limits::Large) {
        Ok(plan) => rooted(alloc, guids, &plan, text),
        Err(TopoFault::NoMemory) => Err(ImportFault::NoMemory),
        Err(TopoFault::At { .. }) => Err(UNLIKE),
    }
}

#[tactic(auto, unfolding(crate::specs::Rooted::rooted_import_of))]
fn imported(
    alloc: Global,
    discovery: &Discovery,
    manager: Option<u64>,
) -> Result<Vec<u8>, ImportFault>
    ensures { TextGives (λ text. text.items) result (rooted_import_of discovery.now manager) }
{
    let text = topology_text(alloc, discovery, manager)?;
    let guids = top_guids(alloc, discovery)?;
    with_roots(alloc, &guids, text)
}

/// The text that [`topology_text`] returns, with a line `root NAME` for each switch that is farthest from hosts, as
/// `audit_plan::top_switches` finds them; or the first error. Besides, an allocation can fail.
#[tactic(auto, using(crate::proofs::LawLemmas::given))]
pub fn rooted_topology_text(
    alloc: Global,
    discovery: &Discovery,
    manager: Option<u64>,
) -> Result<Vec<u8>, ImportFault>
    // The text that the definition gives, or its error.
    ensures exact { TextGives (λ text. text.items) result (rooted_import_of discovery.now manager) }
    // It is read as the topology of the discovery, with its top switches as roots.
    ensures given { IfOk result (λ text. IsGivenRoots discovery.now manager text.items) }
{
    discovery.known_sound();
    let text = imported(alloc, discovery, manager)?;
    Ok(text)
}
