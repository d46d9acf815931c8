//! The laws of scripts that are accepted. Each function's contract is its law; it does nothing.

ghost use Rattle.script_lines.specs.Laws.{CommandsNameWhatIsThere};

/// Each command that a script gives names a port of a channel adapter that has a cable and is not the subnet manager's,
/// or a cable of the topology between ports of two switches.
pub fn commands_name_what_is_there()
    ensures { CommandsNameWhatIsThere }
{}
