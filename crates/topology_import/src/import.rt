//! The topology of a discovery.

ghost use Rattle.std.specs.Prelude.{◌≡◌, IfOk};
ghost use Rattle.step_results.specs.AtLine.{on_line};
ghost use Rattle.step_results.specs.TextGives.{TextGives};
ghost use Rattle.step_results.specs.Steps.{unless};
ghost use Rattle.fabric_parts.specs.declared.limits.Limits.TheVariants.{Large};
ghost use Rattle.topo_file.specs.Topology.{topology_within};
ghost use Rattle.topology_import.specs.Ends.{ends as ends_of, firsts as firsts_of};
ghost use Rattle.topology_import.specs.Import.{asked_for, if_end_port, import_of, judged, text_read};
ghost use Rattle.topology_import.specs.Laws.{IsGiven};
ghost use Rattle.topology_import.specs.Nodes.{guid_fault};

use crate::agreement::agrees;
use crate::cables::{CableMeant, cables_meant};
use crate::ends::{EndList, guid_of};
use crate::fault::{ImportCause, ImportFault};
use crate::names::named;
use crate::nodes::{SwitchGuids, adapter_guid, nodes_meant};
use crate::planned::PlannedList;
use crate::text::{source_of, text_with};
use fabric_parts::Limits;
use netdiscover_file::{Discovery, PortLine};
use std::alloc::Global;
use topo_file::TopoFault;

/// The GUID of the SM port, if it is that of an end port.
fn if_end_port(ends: &EndList, guid: Option<u64>) -> Result<u64, ImportCause>
    ensures { result ≡ if_end_port ends.now guid }
{
    match guid {
        Some(guid) if ends.is_port_guid(guid) => Ok(guid),
        _ => Err(ImportCause::UnknownManager),
    }
}

fn asked_for(manager: Option<u64>, initiator: Option<u64>) -> Option<u64>
    ensures { result ≡ asked_for manager initiator }
{
    if manager.is_some() {
        manager
    } else {
        initiator
    }
}

fn manager_of(
    discovery: &Discovery,
    ends: &EndList,
    manager: Option<u64>,
) -> Result<u64, ImportFault>
    ensures { TextGives (λ guid. guid) result (on_line 0 (if_end_port ends.now (asked_for manager discovery.now.initiator))) }
{
    match if_end_port(ends, asked_for(manager, discovery.initiator())) {
        Ok(guid) => Ok(guid),
        Err(cause) => Err(ImportFault::At { line: 0, cause }),
    }
}

/// The same, unless the GUID of an adapter is a switch's or 0.
fn if_free(
    alloc: Global,
    discovery: &Discovery,
    firsts: &[PortLine],
    manager: u64,
) -> Result<u64, ImportFault>
    ensures { TextGives (λ guid. guid) result (unless (guid_fault discovery.now.nodes firsts.now) manager) }
{
    let switches = SwitchGuids::new(alloc, discovery.nodes())?;
    match switches.first_taken(firsts) {
        Some(first) => Err(ImportFault::At {
            line: first.line,
            cause: ImportCause::GuidTaken {
                port: guid_of(first),
                guid: adapter_guid(first),
            },
        }),
        None => Ok(manager),
    }
}

/// What the text of a discovery is to say.
#[derive(Clone, Copy)]
struct Wanted<'a> {
    discovery: &'a Discovery,
    ends: &'a EndList,
    nodes: &'a PlannedList,
    cables: &'a [CableMeant],
    /// The GUID of the SM port.
    manager: u64,
}

/// A text, if the topology that is read of it is that of the discovery.
fn read_back(alloc: Global, wanted: &Wanted<'_>, text: Vec<u8>) -> Result<Vec<u8>, ImportFault>
    ensures { TextGives (λ text. text.items) result
        (judged wanted.now.discovery.now wanted.now.ends.now wanted.now.nodes.now wanted.now.cables.now wanted.now.manager text.items
        (topology_within Large text.items)) }
{
    let nodes = wanted.nodes.as_slice();
    match topo_file::read_within(alloc, text.as_slice(), Limits::Large) {
        Ok(plan) => {
            if !agrees(
                alloc,
                wanted.discovery,
                wanted.ends,
                nodes,
                wanted.manager,
                &plan,
            )? {
                return Err(ImportFault::At {
                    line: 0,
                    cause: ImportCause::Unlike,
                });
            }
            Ok(text)
        }
        Err(TopoFault::NoMemory) => Err(ImportFault::NoMemory),
        Err(TopoFault::At { line, cause }) => Err(ImportFault::At {
            line: source_of(nodes, wanted.cables, line),
            cause: ImportCause::Refused(cause),
        }),
    }
}

fn text_read(
    alloc: Global,
    discovery: &Discovery,
    ends: &EndList,
    firsts: &[PortLine],
    manager: u64,
) -> Result<Vec<u8>, ImportFault>
    requires ends { ends.now ≡ ends_of discovery.now }
    requires firsts { firsts.now ≡ firsts_of ends.now }
    ensures { TextGives (λ text. text.items) result (text_read discovery.now manager) }
{
    let meant = nodes_meant(alloc, discovery, ends, firsts)?;
    let nodes = named(alloc, discovery.nodes(), &meant)?;
    let cables = cables_meant(alloc, discovery, ends)?;
    let text = text_with(alloc, discovery, ends, &nodes, &cables, manager)?;
    let wanted = Wanted {
        discovery,
        ends,
        nodes: &nodes,
        cables: &cables,
        manager,
    };
    read_back(alloc, &wanted, text)
}

/// The topology text of a discovery, with the subnet manager on the port of that GUID or, if none is given, on the one at
/// which the discovery was made; or the first fault, with its line.
///
/// `specs/Import.antt` says which. Besides, an allocation can fail.
#[tactic(auto, using(crate::proofs::LawLemmas::given))]
pub fn topology_text(
    alloc: Global,
    discovery: &Discovery,
    manager: Option<u64>,
) -> Result<Vec<u8>, ImportFault>
    // The text that the definition gives, or its fault.
    ensures exact { TextGives (λ text. text.items) result (import_of discovery.now manager) }
    // It is read as the topology of the discovery.
    ensures given { IfOk result (λ text. IsGiven discovery.now manager text.items) }
{
    discovery.known_sound();
    let text = imported(alloc, discovery, manager)?;
    Ok(text)
}

#[tactic(auto, unfolding(crate::specs::Import::import_of))]
fn imported(
    alloc: Global,
    discovery: &Discovery,
    manager: Option<u64>,
) -> Result<Vec<u8>, ImportFault>
    ensures { TextGives (λ text. text.items) result (import_of discovery.now manager) }
{
    let ends = EndList::of(alloc, discovery)?;
    let manager = manager_of(discovery, &ends, manager)?;
    let firsts = ends.firsts(alloc)?;
    let manager = if_free(alloc, discovery, &firsts, manager)?;
    text_read(alloc, discovery, &ends, &firsts, manager)
}
