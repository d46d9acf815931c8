//! The end port that a word names.

ghost use Rattle.std.specs.Prelude.{◌≡◌, ◌≤◌, false, IfOk};
ghost use Rattle.topo_file.specs.Node.{is_switch_at, ports_at};
ghost use Rattle.script_lines.specs.NamedPort.{adapter_place, adapter_port, cabled_port, named_adapter_port, named_place, named_port};
ghost use Rattle.script_lines.specs.NamedPort.{place_if_cabled, switch_guid, switch_port};

use crate::script_cause::ScriptCause;
use fabric_parts::PortRef;
use text_words::port_in;
use topo_file::{LargeTopology, Node, Topology};

/// The place of the port that a word names, if there is one; a switch has ports from 1 here.
#[tactic(auto, unfolding(crate::specs::NamedPort::named_place))]
pub(crate) fn named_place(topology: &Topology, word: &[u8]) -> Result<PortRef, ScriptCause>
    ensures place { result ≡ named_place topology.now word.now }
    ensures within { IfOk result (λ at. at.port ≤ ports_at topology.now.nodes at.node) }
{
    let port = port_in(word).ok_or(ScriptCause::UnknownPort)?;
    let place = topology
        .index_of(port.name)
        .ok_or(ScriptCause::UnknownPort)?;
    topology
        .port_at(place, port.number)
        .ok_or(ScriptCause::UnknownPort)
}

/// The GUID of the end port that a word names, if there is one.
#[tactic(auto, unfolding(crate::specs::NamedPort::named_port))]
pub fn named_port(topology: &LargeTopology, word: &[u8]) -> Result<u64, ScriptCause>
    ensures { result ≡ named_port topology.now word.now }
{
    let port = port_in(word).ok_or(ScriptCause::UnknownPort)?;
    let place = topology
        .index_of(port.name)
        .ok_or(ScriptCause::UnknownPort)?;
    if topology.is_switch_at(place) {
        switch_port(topology, place, port.number)
    } else {
        adapter_port(topology, place, port.number)
    }
}

/// Where the port of a channel adapter is that a word names, if it has a cable.
#[tactic(auto, unfolding(crate::specs::NamedPort::adapter_place))]
pub fn adapter_place(topology: &Topology, word: &[u8]) -> Result<PortRef, ScriptCause>
    ensures place { result ≡ adapter_place topology.now word.now }
    ensures adapter { IfOk result (λ at. is_switch_at topology.now.nodes at.node ≡ false) }
    ensures within { IfOk result (λ at. at.port ≤ ports_at topology.now.nodes at.node) }
{
    let at = named_place(topology, word)?;
    place_if_cabled(topology, at)
}

/// The GUID of the port of a channel adapter that a word names, if it has a cable.
#[tactic(auto, unfolding(crate::specs::NamedPort::named_adapter_port))]
pub fn named_adapter_port(topology: &Topology, word: &[u8]) -> Result<u64, ScriptCause>
    ensures { result ≡ named_adapter_port topology.now word.now }
{
    let at = adapter_place(topology, word)?;
    Ok(topology.guid_of(at))
}

fn place_if_cabled(topology: &Topology, at: PortRef) -> Result<PortRef, ScriptCause>
    ensures place { result ≡ place_if_cabled topology.now at }
    ensures adapter { IfOk result (λ at. is_switch_at topology.now.nodes at.node ≡ false) }
    ensures same { IfOk result (λ found. found ≡ at) }
{
    if topology.is_switch_at(at.node) {
        Err(ScriptCause::UnknownPort)
    } else if topology.is_cabled(at) {
        Ok(at)
    } else {
        Err(ScriptCause::UncabledPort)
    }
}

/// Port 0 of a switch.
fn switch_port(topology: &LargeTopology, place: usize, number: u128) -> Result<u64, ScriptCause>
    ensures { result ≡ switch_port topology.now place number }
{
    if number == 0 {
        Ok(switch_guid(topology.nodes(), place))
    } else {
        Err(ScriptCause::UnknownPort)
    }
}

/// The GUID of the switch there, or 0.
fn switch_guid(nodes: &[Node], place: usize) -> u64
    ensures { result ≡ switch_guid nodes.now place }
{
    match nodes.get(place) {
        Some(node) => node.guid,
        None => 0,
    }
}

/// A port of a channel adapter.
fn adapter_port(topology: &LargeTopology, place: usize, number: u128) -> Result<u64, ScriptCause>
    requires { is_switch_at topology.now.nodes place ≡ false }
    ensures { result ≡ adapter_port topology.now place number }
{
    let at = topology
        .port_at(place, number)
        .ok_or(ScriptCause::UnknownPort)?;
    cabled_port(topology, at)
}

fn cabled_port(topology: &LargeTopology, at: PortRef) -> Result<u64, ScriptCause>
    requires adapter { is_switch_at topology.now.nodes at.node ≡ false }
    requires within { at.port ≤ ports_at topology.now.nodes at.node }
    ensures { result ≡ cabled_port topology.now at }
{
    if topology.is_cabled(at) {
        Ok(topology.guid_of(at))
    } else {
        Err(ScriptCause::UncabledPort)
    }
}
