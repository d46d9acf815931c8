//! Laws: the program's codes are explained; by which names it opens files; how a run of a script ends; on what the printed
//! lines of a port depend.

ghost use Rattle.std.specs.Prelude.{◌≡◌};
ghost use Rattle.data_packet.specs.Refusal.{code_of as refusal_code};
ghost use Rattle.data_packet.specs.declared.refusal.Refusal.{Refusal as AnyRefusal};
ghost use Rattle.fabric_cli.specs.Explained.{IsExplained, NamesCode};
ghost use Rattle.fabric_cli.specs.Laws.{FilesThatAgreeAreJudgedAlike, OneEndingComesOfTexts, RoutesAreAsAsked, RunsEndAsReports};
ghost use Rattle.fabric_cli.specs.Printed.{APortsLinesAreItsEvents, FarLinesChangeNothing, PrintedLinesKeepPartitionsApart};
ghost use Rattle.fabric_cli.specs.declared.faults.Stop.{Stop as AnyStop};

/// Every line that is printed for an error has after `fault` a code that `fabric explain` explains. It also explains every
/// code for which a port refuses a packet in a report. If `clap` refuses the arguments, the text has no code.
pub fn every_code_that_is_reported_is_explained()
    ensures faults { (stop : AnyStop) → NamesCode stop }
    ensures refusals { (refusal : AnyRefusal) → IsExplained (refusal_code refusal) }
{}

/// The result depends only on the bytes of the files that are needed, each by its name in the arguments
/// (`files_are_named_as_given` of `cli_args`): two sources of files that agree on these names have the same result.
pub fn files_that_agree_are_judged_alike()
    ensures { FilesThatAgreeAreJudgedAlike }
{}

/// A run that carries out its script while it reads it ends as one that reads the whole script first: with the same report,
/// or with the same error, after the report of the lines before it.
pub fn runs_end_as_reports()
    ensures { RunsEndAsReports }
{}

/// In a report the lines that begin with the name of a port and a blank are those of its own events: one for each, in order.
pub fn a_ports_lines_are_its_events()
    ensures { APortsLinesAreItsEvents }
{}

/// Runs of two scripts that give the same commands of the ports near a port, up to the first fault of each, print the same
/// lines of that port, byte for byte: those that begin with its name.
pub fn printed_lines_keep_partitions_apart()
    ensures { PrintedLinesKeepPartitionsApart }
{}

/// A line that a port far from another sends can be put anywhere into a script: the run prints the same lines of the other port.
pub fn far_lines_change_nothing()
    ensures { FarLinesChangeNothing }
{}

/// Commands on a subnet, except those that look at its fabric or at the loss of a cable, have one result: unless the status
/// is 3, the status and both outputs are one function of the arguments and of the files' contents.
pub fn one_ending_comes_of_texts()
    ensures { OneEndingComesOfTexts }
{}

/// What is looked at with `--balanced` is a fabric whose routes are balanced, also after a script; without it each switch takes the
/// least of the ports that lead equally far, and so it does in a run.
pub fn routes_are_as_asked()
    ensures { RoutesAreAsAsked }
{}
