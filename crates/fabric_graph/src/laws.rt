//! What holds of every drawing. Each function's contract is its law; it does nothing.

ghost use Rattle.std.specs.Prelude.{◌≡◌};
ghost use Rattle.fabric_graph.specs.declared.cables.TheConstants.{LABELLED};
ghost use Rattle.fabric_graph.specs.Laws.{EachCableIsDrawnOnce, EachNodeIsDrawnOnce, EachRankHasARow, JoinedRowsHaveThickEdges};
ghost use Rattle.fabric_graph.specs.Laws.{ThickEdgesJoinAllToAll, ThickEdgesShowNumbers};

/// In a picture of how many cables at most the numbers of ports are at the ends of edges. The number is ours.
pub fn the_numbers()
    ensures { LABELLED ≡ 200 }
{}

/// Each switch that has a rank stands in a row: its rank is less than the number of switches, since a shortest way to a root
/// passes no switch twice.
pub fn each_rank_has_a_row()
    ensures { EachRankHasARow }
{}

/// Each node is drawn once: by itself, or in the one list that has it.
pub fn each_node_is_drawn_once()
    ensures { EachNodeIsDrawnOnce }
{}

/// Each cable is drawn once: as an edge, as the line of the adapter in a list at which it ends, or as one of those that a thick edge
/// counts.
pub fn each_cable_is_drawn_once()
    ensures { EachCableIsDrawnOnce }
{}

/// There is a thick edge only if each of the upper switches is cabled to each of the lower ones. It counts no cable that is cut, and
/// none that is drawn in red or shows its load.
pub fn thick_edges_join_all_to_all()
    ensures { ThickEdgesJoinAllToAll }
{}

/// There is one wherever they are, in a crowded picture, if each row has two switches or more; and it counts each such cable.
pub fn joined_rows_have_thick_edges()
    ensures { JoinedRowsHaveThickEdges }
{}

/// The number at a thick edge is that of the cables that it counts.
pub fn thick_edges_show_numbers()
    ensures { ThickEdgesShowNumbers }
{}
