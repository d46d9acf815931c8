//! The headline of any rule for what a command brings. Each function's contract is its law; it does nothing.

ghost use Rattle.headline_laws.specs.Headline.{OursKeepsApart, RunsReportApart, ScriptsAreKeptApart};

/// Of every subnet and every script: what a port receives depends only on the ports near it. Each packet comes from one of them, and
/// each record that answers it from one of them or from the partition file.
pub fn our_steps_keep_apart()
    ensures { OursKeepsApart }
{}

/// A rule that keeps ports apart does so with every script that is accepted, in every subnet that a topology and partitions give.
pub fn scripts_are_kept_apart()
    ensures { ScriptsAreKeptApart }
{}

/// Of the events that `run` reports its clause `apart` and the headline by our rule over texts follow from each other.
pub fn runs_report_apart()
    ensures { RunsReportApart }
{}
