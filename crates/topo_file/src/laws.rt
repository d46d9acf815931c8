//! What is so of all nodes and cables. The functions do nothing; their clauses are the theorems.

ghost use Rattle.topo_file.specs.Laws.{ConnectedMeansJoined, LimitsAreMet, SharedGuidsAreReported};

/// The law of the test that the definition of [`read`] asks last: it is true if and only if walks over
/// cables join every two switches.
///
/// [`read`]: crate::read
pub fn connected_means_joined()
    ensures { ConnectedMeansJoined }
{}

/// The law of limits: a node is one too many if and only if with it there are more switches, or more ports of channel
/// adapters, than a fabric may have.
pub fn limits_are_met()
    ensures { LimitsAreMet }
{}

/// The law of GUIDs: two nodes cannot both stand in a topology if and only if some GUID is one of both, be it a node's own
/// or that of a port.
pub fn shared_guids_are_reported()
    ensures { SharedGuidsAreReported }
{}
