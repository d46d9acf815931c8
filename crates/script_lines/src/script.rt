//! The lines of a script.

ghost use Rattle.std.specs.Prelude.{◌≡◌};
ghost use Rattle.script_lines.specs.Script.{command_of};

use crate::ask::ask_of;
use crate::script_cause::ScriptCause;
use crate::send::send_of;
use crate::switch_cable::cable_of;
use subnet_model::Command;
use text_words::Words;
use topo_file::Topology;

/// The command that a line gives, with its LF if it has one and with its comment; none for a line
/// without words.
#[tactic(auto, unfolding(crate::specs::Script::command_of, crate::specs::Script::command_in))]
pub fn command_of(topology: &Topology, line: &[u8]) -> Result<Option<Command>, ScriptCause>
    ensures { result ≡ command_of topology.now line.now }
{
    let mut words = Words::of(line).ok_or(ScriptCause::Malformed)?;
    let Some(first) = words.next() else {
        return Ok(None);
    };
    let command = if first == b"send".as_slice() {
        send_of(topology, words)?
    } else if first == b"ask".as_slice() {
        ask_of(topology, words)?
    } else if first == b"cut".as_slice() {
        cable_of(topology, false, words)?
    } else if first == b"mend".as_slice() {
        cable_of(topology, true, words)?
    } else {
        return Err(ScriptCause::Malformed);
    };
    Ok(Some(command))
}
