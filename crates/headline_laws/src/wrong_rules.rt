//! Wrong rules for what a command brings, and that the headline refuses each, so that a reader sees that it says something. Each
//! function does nothing: its contract is the law.

ghost use Rattle.headline_laws.specs.WrongRules.{CutsAreNotTold, FarSendsAreNotRepeated, FarTablesAreNotHeard};
ghost use Rattle.headline_laws.specs.WrongRules.{EmptyScriptsAreNotEnough, FarNodesAreNotShown, FarPacketsAreNotDelivered, FarPortsAreNoSource};
ghost use Rattle.headline_laws.specs.WrongRules.{LaterAnswersAreNoted, NoBytesAreRefused, NotesAreOfTheirCommand, NothingNotedIsRefused};
ghost use Rattle.headline_laws.specs.WrongRules.{RefusalsStayAtTheirPort, RunsReportNoFarPacket, TheFileIsNoSourceOfAll, TheFileIsNoSourceOfSends};

/// A rule that notes nothing is refused.
pub fn nothing_noted_is_refused()
    ensures { NothingNotedIsRefused }
{}

/// A rule that notes no bytes of any answer is refused.
pub fn no_bytes_are_refused()
    ensures { NoBytesAreRefused }
{}

/// A rule that notes the bytes of the first table alone is refused: the headline is of each command, in its own state.
pub fn later_answers_are_noted()
    ensures { LaterAnswersAreNoted }
{}

/// A rule that notes of each event what another command would bring is refused.
pub fn notes_are_of_their_command()
    ensures { NotesAreOfTheirCommand }
{}

/// If every note names the partition file, the reply to a Get of a path does not name the port of its DGID.
pub fn the_file_is_no_source_of_all()
    ensures { TheFileIsNoSourceOfAll }
{}

/// The same of a Get that a port sends to the SA itself.
pub fn the_file_is_no_source_of_sends()
    ensures { TheFileIsNoSourceOfSends }
{}

/// If the reply to a Get names a far port, it does not come from near.
pub fn far_ports_are_no_source()
    ensures { FarPortsAreNoSource }
{}

/// If a port is shown the nodes of far ports, with the right notes, its records do not come from near.
pub fn far_nodes_are_not_shown()
    ensures { FarNodesAreNotShown }
{}

/// A rule that delivers a packet with the SLID of a far port is refused.
pub fn far_packets_are_not_delivered()
    ensures { FarPacketsAreNotDelivered }
{}

/// If all ports receive a refusal, what a port receives depends on far ports.
pub fn refusals_stay_at_their_port()
    ensures { RefusalsStayAtTheirPort }
{}

/// If something happens at each port when a cable is cut, what a port receives depends on it.
pub fn cuts_are_not_told()
    ensures { CutsAreNotTold }
{}

/// If a port receives a packet whenever a far one sends, what it receives depends on far ports, also if the packet's SLID is its own.
pub fn far_sends_are_not_repeated()
    ensures { FarSendsAreNotRepeated }
{}

/// If what is remembered of a far port's request changes what a port receives later, it depends on far ports.
pub fn far_tables_are_not_heard()
    ensures { FarTablesAreNotHeard }
{}

/// With one premise more the headline says less: what holds of empty scripts need not hold of others.
pub fn empty_scripts_are_not_enough()
    ensures { EmptyScriptsAreNotEnough }
{}

/// Whatever texts are accepted: if a run reports that a port receives a packet that does not come from near it, it breaks the headline.
pub fn runs_report_no_far_packet()
    ensures { RunsReportNoFarPacket }
{}
