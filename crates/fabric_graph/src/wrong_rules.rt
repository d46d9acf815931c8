//! Wrong rules for what is drawn, and the law that each breaks, so that a reader sees that the laws say something. Each function
//! does nothing: its contract says that with this rule the law is false.

ghost use Rattle.fabric_graph.specs.WrongRules.{CountedCablesAreNoEdges, CutCablesAreNotNumbered, CutCablesStayApart, LowerRowsAreJoinedToo};
ghost use Rattle.fabric_graph.specs.WrongRules.{SomeCablesAreNotAll, TwoSwitchesAreARow};

/// If thick edges counted cables that are cut too, one that is cut would not be seen.
pub fn cut_cables_stay_apart()
    ensures { CutCablesStayApart }
{}

/// If the number at a thick edge counted cables that are cut too, it would be greater than that of the cables that it stands for.
pub fn cut_cables_are_not_numbered()
    ensures { CutCablesAreNotNumbered }
{}

/// If cables that thick edges count were edges too, each of them would be drawn twice.
pub fn counted_cables_are_no_edges()
    ensures { CountedCablesAreNoEdges }
{}

/// If there were a thick edge between rows of which some switches alone are cabled, it would say more than is so.
pub fn some_cables_are_not_all()
    ensures { SomeCablesAreNotAll }
{}

/// If rows of two switches had no thick edge, their cables would be drawn one by one.
pub fn two_switches_are_a_row()
    ensures { TwoSwitchesAreARow }
{}

/// If thick edges were below the roots alone, the cables of lower rows would be drawn one by one.
pub fn lower_rows_are_joined_too()
    ensures { LowerRowsAreJoinedToo }
{}
