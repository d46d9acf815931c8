//! What is so of every graph and path. The functions do nothing; their clauses are the theorems.

ghost use Rattle.std.specs.Prelude.{◌≡◌};
ghost use Rattle.sweep.specs.Laws.{CablesComeBack, GraphsAreRecabled, GraphsHaveTheEndPorts, WholeGraphsAreSwept};
ghost use Rattle.sweep.specs.declared.path.TheConstants.{PATH_HOPS};

/// How many hops a path has at most (IBA volume 1, 14.2.1.2), written out.
pub fn the_numbers()
    ensures hops { PATH_HOPS ≡ 63 }
{}

/// The graph of a good fabric has the end ports of that fabric, and no others: port 0 of each switch, and each
/// cabled port of a channel adapter, with the GUIDs, number, name and count of ports that its agent holds.
pub fn graphs_have_the_end_ports()
    ensures { GraphsHaveTheEndPorts }
{}

/// The graph of a good fabric is whole if and only if a sweep of that fabric finds all of it: if cables join all
/// switches, and no cable is too far from the SM port for an SMP.
pub fn whole_graphs_are_swept()
    ensures { WholeGraphsAreSwept }
{}

/// If a cable between two switches of a good fabric is cut, it can be taken from the graph, and the graph without it is
/// that of what is left; and if it is mended, it can be put into the graph, and the graph with it is that of the fabric
/// then.
pub fn graphs_are_recabled()
    ensures { GraphsAreRecabled }
{}

/// A cable that is mended and cut again, or cut and mended again, leaves a graph as it was.
pub fn cables_come_back()
    ensures { CablesComeBack }
{}
