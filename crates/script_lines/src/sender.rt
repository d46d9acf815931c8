//! The port that a command names.

ghost use Rattle.std.specs.Prelude.{◌≡◌, ◌≤◌};
ghost use Rattle.topo_file.specs.Node.{ports_at};
ghost use Rattle.script_lines.specs.Sender.{sender_at, sender_of};

use crate::naming::named_place;
use crate::script_cause::ScriptCause;
use fabric_parts::PortRef;
use topo_file::Topology;

/// The GUID of the port that a word names, if it may send.
#[tactic(auto, unfolding(crate::specs::Sender::sender_of))]
pub(crate) fn sender_of(topology: &Topology, word: &[u8]) -> Result<u64, ScriptCause>
    ensures { result ≡ sender_of topology.now word.now }
{
    let at = named_place(topology, word)?;
    sender_at(topology, at)
}

fn sender_at(topology: &Topology, at: PortRef) -> Result<u64, ScriptCause>
    requires { at.port ≤ ports_at topology.now.nodes at.node }
    ensures { result ≡ sender_at topology.now at }
{
    if topology.is_switch_at(at.node) {
        return Err(ScriptCause::UnknownPort);
    }
    if at == topology.sm() {
        return Err(ScriptCause::ManagerPort);
    }
    if !topology.is_cabled(at) {
        return Err(ScriptCause::UncabledPort);
    }
    Ok(topology.guid_of(at))
}
