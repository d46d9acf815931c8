//! Wrong rules for what is reported, and the law that each breaks, so that a reader sees that the laws say something. Each
//! function does nothing: its contract says that with this rule the law is false.

ghost use Rattle.audit_routes.specs.WrongRules.{ClosingLidsCountThere, LoopsOfAggregationDecideNothing, LoopsOfHostsDecide};
ghost use Rattle.audit_routes.specs.WrongRules.{AggregationDecidesNothing, CreditLoopsAreApart, EachStepHasItsLid, LidsGoOnRound};
ghost use Rattle.audit_routes.specs.WrongRules.{HolesAreCounted, HolesHaveALine, LidsAreAsked, LoopsHaveALine, LostPairsAreAReason, ReasonsHold};
ghost use Rattle.audit_routes.specs.WrongRules.{NobodysLoopsHaveALine, NobodysRowsHaveALine, OtherLidsDecide, OtherPortsDecide, OtherTablesDecide, OthersHolesHaveALine};
ghost use Rattle.audit_routes.specs.WrongRules.{OtherCablesHaveALine, OtherTablesHaveALine, RowsLeftOutHaveALine};
ghost use Rattle.audit_routes.specs.WrongRules.{AllSwitchesAreCounted, HostsSwitchesCount, LinesAreCounted, LostPairsHaveALine, ReasonsHaveALine, UnknownIsNotLost};
ghost use Rattle.audit_routes.specs.WrongRules.{MissingTablesDoNotCount, PacketsHaveToCome};
ghost use Rattle.audit_routes.specs.WrongRules.{TransitDecidesNothing, UnknownEntriesDecide, WaysAreAsked};

/// If pairs that come to a hole are not counted, the parts of a line are not all.
pub fn holes_are_counted()
    ensures { HolesAreCounted }
{}

/// If a LID closes a loop that leaves by its channel, it may go another way from there.
pub fn lids_go_on_round()
    ensures { LidsGoOnRound }
{}

/// If the LID of the first step is printed for each, the second channel does not wait by it.
pub fn each_step_has_its_lid()
    ensures { EachStepHasItsLid }
{}

/// If a port of an adapter need not have a LID, one has none.
pub fn lids_are_asked()
    ensures { LidsAreAsked }
{}

/// If LIDs need not be reached, a switch to which an adapter is attached has a hole.
pub fn ways_are_asked()
    ensures { WaysAreAsked }
{}

/// If LIDs have to be reached from each switch, routes are not called safe though packets of adapters come everywhere.
pub fn transit_decides_nothing()
    ensures { TransitDecidesNothing }
{}

/// If LIDs of aggregation nodes have to be reached, routes are not called safe though packets of hosts come everywhere.
pub fn aggregation_decides_nothing()
    ensures { AggregationDecidesNothing }
{}

/// If the LIDs of adapters alone count, packets to a router go round.
pub fn other_lids_decide()
    ensures { OtherLidsDecide }
{}

/// If the dump may have a table of a switch that the fabric lacks, it is of another fabric.
pub fn other_tables_decide()
    ensures { OtherTablesDecide }
{}

/// If the dump may name an adapter that the fabric lacks, it is of another fabric.
pub fn other_ports_decide()
    ensures { OtherPortsDecide }
{}

/// If entries may be unknown where no packet of a host comes to them, routes are called safe whose dependency graph is not known.
pub fn unknown_entries_decide()
    ensures { UnknownEntriesDecide }
{}

/// If a credit loop counts among the other conditions, routes that lead there are said not to.
pub fn credit_loops_are_apart()
    ensures { CreditLoopsAreApart }
{}

/// If what goes on has no line, packets go round and none reports it.
pub fn loops_have_a_line()
    ensures { LoopsHaveALine }
{}

/// If a hole has no line, packets end there and none reports it.
pub fn holes_have_a_line()
    ensures { HolesHaveALine }
{}

/// If an entry that a table leaves out has no line, packets come to it and none reports it.
pub fn rows_left_out_have_a_line()
    ensures { RowsLeftOutHaveALine }
{}

/// If a LID whose port the fabric lacks has no line, packets to it end and none reports it.
pub fn others_holes_have_a_line()
    ensures { OthersHolesHaveALine }
{}

/// If a loop of a LID that is nobody's has no line, packets go round and none reports it.
pub fn nobodys_loops_have_a_line()
    ensures { NobodysLoopsHaveALine }
{}

/// If an entry that is unknown has no line where the LID is nobody's, a switch sends packets there and none reports it.
pub fn nobodys_rows_have_a_line()
    ensures { NobodysRowsHaveALine }
{}

/// If pairs that are not reached are no reason, a verdict that is not safe has none.
pub fn lost_pairs_are_a_reason()
    ensures { LostPairsAreAReason }
{}

/// If one reason stands for all, routes without a credit loop have one.
pub fn reasons_hold()
    ensures { ReasonsHold }
{}

/// If the first cable that joins no switch has a line alone, another has none.
pub fn other_cables_have_a_line()
    ensures { OtherCablesHaveALine }
{}

/// If what switches do is printed alone, the table of a switch that the fabric lacks has no line.
pub fn other_tables_have_a_line()
    ensures { OtherTablesHaveALine }
{}

/// If each entry of an aggregation node's LID counts, routes are not called safe though packets of hosts make no credit loop.
pub fn loops_of_aggregation_decide_nothing()
    ensures { LoopsOfAggregationDecideNothing }
{}

/// If none counts, packets of hosts to aggregation nodes make a credit loop.
pub fn loops_of_hosts_decide()
    ensures { LoopsOfHostsDecide }
{}

/// If any LID that leaves by both ports closes a step of the cycle that decides, packets of hosts may not come there.
pub fn closing_lids_count_there()
    ensures { ClosingLidsCountThere }
{}

/// If eight of the switches from which packets are lost count alone, the ninth is not counted.
pub fn all_switches_are_counted()
    ensures { AllSwitchesAreCounted }
{}

/// If packets are lost from switches without a host, a LID has a line that all hosts reach.
pub fn hosts_switches_count()
    ensures { HostsSwitchesCount }
{}

/// If what comes to an unknown entry is lost, a LID has a line that may be reached.
pub fn unknown_is_not_lost()
    ensures { UnknownIsNotLost }
{}

/// If switches without a table count, a LID has a line whose entry the dump says nothing of.
pub fn missing_tables_do_not_count()
    ensures { MissingTablesDoNotCount }
{}

/// If switches count to which no packets come, a LID has a line that all hosts reach.
pub fn packets_have_to_come()
    ensures { PacketsHaveToCome }
{}

/// If what switches do is printed alone, the LID that is not reached has no line.
pub fn lost_pairs_have_a_line()
    ensures { LostPairsHaveALine }
{}

/// If what switches do is printed alone, a reason of the verdict has no line.
pub fn reasons_have_a_line()
    ensures { ReasonsHaveALine }
{}

/// If bytes are counted as lines, one line is more.
pub fn lines_are_counted()
    ensures { LinesAreCounted }
{}
