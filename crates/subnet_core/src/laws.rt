//! The laws of scripts that are accepted, and of what becomes of a fabric. Each function's contract is its law; it
//! does nothing.

ghost use Rattle.subnet_core.specs.Laws.{EachCommandNamesASender, NearIsListed, OneFabricIsLeft, OneThingBecomesOfAFabric, StreamsKeepPartitionsApart, TextsHaveOneAnswer, TwoRunsAgree};
ghost use Rattle.subnet_core.specs.StepLaws.{DeliveriesAreReported, RefusedCutsChangeNothing, WrongStepsAreRefused};
ghost use Rattle.subnet_core.specs.WholeLines.{ReportLinesAreWhole};
ghost use Rattle.subnet_core.specs.WrongRules.{AllPortsAreNotNear, CountedEventsReportOfFarPorts};

/// Each command that a script gives names a port of a channel adapter that the inventory lists.
pub fn each_command_names_a_sender()
    ensures { EachCommandNamesASender }
{}

/// The fabric of an inventory that texts give never both comes up and is stopped, and no two faults stop it: what becomes of it
/// depends on the texts alone, and not on the order in which a sweep finds switches.
pub fn one_thing_becomes_of_a_fabric()
    ensures { OneThingBecomesOfAFabric }
{}

/// One fabric is left by the commands of a script: which cables are in place, and all that its switches and ports hold then, follows
/// from the topology, the partitions and these commands, and not from the order in which a sweep found the switches.
pub fn one_fabric_is_left()
    ensures { OneFabricIsLeft }
{}

/// Each form of a line of a report, once as a whole text.
pub fn report_lines_are_whole()
    ensures { ReportLinesAreWhole }
{}

/// What a run answers by `report_of` depends on its three texts alone.
pub fn texts_have_one_answer()
    ensures { TextsHaveOneAnswer }
{}

/// Events that bear their place in the whole report, as by a line number or by a counter over all ports, do not depend on
/// the ports near a port alone. So those of a report bear none.
pub fn counted_events_report_of_far_ports()
    ensures { CountedEventsReportOfFarPorts }
{}

/// What [`run_stream`](crate::run_stream) reports, wherever it ends, keeps partitions apart: at each port the events are those
/// that the commands of the ports near it alone would bring it, and each packet, and each record, comes from a port near it.
pub fn streams_keep_partitions_apart()
    ensures { StreamsKeepPartitionsApart }
{}

/// Of two scripts for one subnet, in which the commands of the ports near a port are the same, the two reports have the same events
/// of that port.
pub fn two_runs_agree()
    ensures { TwoRunsAgree }
{}

/// [`Subnet::near`](crate::Subnet::near) lists a port if and only if it is near.
pub fn near_is_listed()
    ensures { NearIsListed }
{}

/// A list of all ports is no list of near ports: of two ports that share no partition neither is near the other.
pub fn all_ports_are_not_near()
    ensures { AllPortsAreNotNear }
{}

/// A `cut` or a `mend` that changes no cable, as one that is refused, leaves the routes, all tables and what subnet administration
/// remembers as they were.
pub fn refused_cuts_change_nothing()
    ensures { RefusedCutsChangeNothing }
{}

/// A packet that a port sends to other ports is reported at each port where the fabric delivers it, and nothing else is.
pub fn deliveries_are_reported()
    ensures { DeliveriesAreReported }
{}

/// Refused: a cut that changes no cable, but routes, or what subnet administration remembers; a report that drops a delivery,
/// or adds an event.
pub fn wrong_steps_are_refused()
    ensures { WrongStepsAreRefused }
{}
