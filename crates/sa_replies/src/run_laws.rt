//! The laws of whole runs, over the definitions alone. Each function does nothing: its contract is the law.

ghost use Rattle.sa_replies.specs.RunLaws.{AdministrationKeepsApart, RunsAreIsolated, RunsAreStates, RunsShowInOrder, RunsStaySound};
ghost use Rattle.sa_replies.specs.InCommon.{SightShowsAll, StatesDependOnNear};
ghost use Rattle.sa_replies.specs.NamedRuns.{RunsNameSources, StepsNameNotes};
ghost use Rattle.sa_replies.specs.RunData.{DataOfRunsIsNoted};
ghost use Rattle.sa_replies.specs.RunSources.{NotesStandBesideRuns, OpenTablesAreNoted, RunRecordsComeFromNear};
ghost use Rattle.sa_replies.specs.WholeTables.{TablesAreBroughtWhole};

/// Subnet administration keeps ports apart: what a port far from another sends changes nothing that the other sees, and
/// a port that sees the same in two states is answered the same.
pub fn administration_keeps_apart()
    ensures { AdministrationKeepsApart }
{}

/// Whatever the ports, their keys and the commands, what a port receives depends only on the ports near it, and has the
/// SLID of one of them.
pub fn runs_are_isolated()
    ensures { RunsAreIsolated }
{}

/// Whatever ports did, and as if the ports near a port alone had done what they did: in each partition of which it is a
/// member there are the same groups, and the same registrations of the ports near it; these ports have the same services,
/// and the same transfer to it is in progress.
pub fn states_depend_on_near()
    ensures { StatesDependOnNear }
{}

/// If a port sees the same of any two states, it has all of that in common.
pub fn sight_shows_all()
    ensures { SightShowsAll }
{}

/// Whatever ports send and ask, what is remembered of groups and services stays sound.
pub fn runs_stay_sound()
    ensures { RunsStaySound }
{}

/// Whatever the ports of a subnet send and ask, what is remembered is a state of its configuration.
pub fn runs_are_states()
    ensures { RunsAreStates }
{}

/// Whatever the ports of a subnet send and ask, nodes, paths, groups and services are visible to each port in their orders.
pub fn runs_show_in_order()
    ensures { RunsShowInOrder }
{}

/// What is noted beside a run changes nothing of its report and of what is remembered.
pub fn notes_stand_beside_runs()
    ensures { NotesStandBesideRuns }
{}

/// Whatever ports sent and asked, the records that are noted for a port, as they were selected when its table was
/// opened, encode the table that is open to it.
pub fn open_tables_are_noted()
    ensures { OpenTablesAreNoted }
{}

/// Whatever ports send and ask, each byte of a record that a port receives comes from a port near it or from the
/// partition file; so do the records of the table that is open to it.
pub fn records_come_from_near()
    ensures { RunRecordsComeFromNear }
{}

/// Whatever the ports of a subnet sent and asked, the bytes that are noted of each MAD by which a command is answered are
/// its data, whose rest is 0; only a packet between two ports and a refusal have nothing noted.
pub fn data_of_runs_is_noted()
    ensures { DataOfRunsIsNoted }
{}

/// Whatever ports sent and asked, a port that asks for a table is brought all its segments within the command, in their
/// order, and has its records; no transfer to it is in progress after that.
pub fn tables_are_brought_whole()
    ensures { TablesAreBroughtWhole }
{}

/// Whatever a port sends or asks, the records that are noted for each port stay, or are named by what was remembered before
/// that.
pub fn steps_name_notes()
    ensures { StepsNameNotes }
{}

/// Whatever ports sent and asked, what is noted of each answer names the source that its record names, by what is remembered
/// then; and the records of a table that is open were named so when it was opened.
pub fn runs_name_sources()
    ensures { RunsNameSources }
{}
