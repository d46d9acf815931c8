//! Lines by which a cable between two switches is cut, or mended.

ghost use Rattle.std.specs.Prelude.{◌≡◌, IfOk};
ghost use Rattle.script_lines.specs.Laws.{IsSwitchCable};
ghost use Rattle.script_lines.specs.SwitchCable.{cable_between, cable_of, cable_encoded, end_named, joins_switches, named_cable};

use crate::naming::named_place;
use crate::script_cause::ScriptCause;
use fabric_parts::{Cable, PortRef, far_end};
use subnet_model::{CableCommand, Command};
use text_words::Words;
use topo_file::Topology;

/// The command of a line `mend`, or else of a line `cut`, by the words behind that one.
#[tactic(auto, unfolding(crate::specs::SwitchCable::cable_of))]
pub(crate) fn cable_of(
    topology: &Topology,
    mended: bool,
    words: Words<'_>,
) -> Result<Command, ScriptCause>
    ensures { result ≡ cable_of topology.now mended words.entry }
{
    let mut words = words;
    let (Some(one), Some(other), None) = (words.next(), words.next(), words.next()) else {
        return Err(ScriptCause::Malformed);
    };
    cable_encoded(topology, mended, one, other)
}

#[tactic(auto, unfolding(crate::specs::SwitchCable::cable_encoded))]
fn cable_encoded(
    topology: &Topology,
    mended: bool,
    one: &[u8],
    other: &[u8],
) -> Result<Command, ScriptCause>
    ensures { result ≡ cable_encoded topology.now mended one.now other.now }
{
    let cable = named_cable(topology, one, other)?;
    Ok(Command::Cable(CableCommand { cable, up: mended }))
}

/// The cable of a topology between the ports of two switches that words name, with its ends in the order of the words;
/// `UnknownCable` if there is none.
pub fn named_cable(topology: &Topology, one: &[u8], other: &[u8]) -> Result<Cable, ScriptCause>
    ensures is { result ≡ named_cable topology.now one.now other.now }
    ensures there { IfOk result (IsSwitchCable topology.now) }
{
    cable_named(topology, one, other)
}

#[tactic(auto, unfolding(crate::specs::SwitchCable::named_cable))]
fn cable_named(topology: &Topology, one: &[u8], other: &[u8]) -> Result<Cable, ScriptCause>
    ensures { result ≡ named_cable topology.now one.now other.now }
{
    let here = end_named(topology, one)?;
    let there = end_named(topology, other)?;
    cable_between(topology, here, there)
}

/// Where the port is that a word names.
fn end_named(topology: &Topology, word: &[u8]) -> Result<PortRef, ScriptCause>
    ensures { result ≡ end_named topology.now word.now }
{
    named_place(topology, word)
        .ok()
        .ok_or(ScriptCause::UnknownCable)
}

fn cable_between(topology: &Topology, here: PortRef, there: PortRef) -> Result<Cable, ScriptCause>
    ensures { result ≡ cable_between topology.now here there }
{
    if joins_switches(topology, here, there) {
        Ok(Cable {
            first: here,
            second: there,
        })
    } else {
        Err(ScriptCause::UnknownCable)
    }
}

/// Whether a cable of the topology joins these two ports, both of them of switches.
fn joins_switches(topology: &Topology, here: PortRef, there: PortRef) -> bool
    ensures { result ≡ joins_switches topology.now here there }
{
    topology.is_switch_at(here.node)
        && topology.is_switch_at(there.node)
        && far_end(topology.cables(), here) == Some(there)
}
