//! What comes of requests over two small subnets. Each function does nothing: its contract is the example.

ghost use Rattle.sa_model.specs.QueryExampleLaws.{HowManyPaths, WhichBytes, WhichGroups, WhichNodes, WhichPaths, WhichRates, WhichServices};

/// A full member is shown all nodes of its partition, and a limited member the full ones; a Get wants one.
pub fn which_nodes()
    ensures { WhichNodes }
{}

/// Two limited members have no path; a request for paths names its own port as their sender.
pub fn which_paths()
    ensures { WhichPaths }
{}

/// Rates are compared by how fast they are, not by their codes.
pub fn which_rates()
    ensures { WhichRates }
{}

/// Paths to a port stand by base, and NumbPath counts for each port apart.
pub fn how_many_paths()
    ensures { HowManyPaths }
{}

/// The partition file's group is shown to the members of its partition.
pub fn which_groups()
    ensures { WhichGroups }
{}

/// A limited member's service is shown to it and to the full member.
pub fn which_services()
    ensures { WhichServices }
{}

/// A record of each kind is encoded as outside examples encode it.
pub fn which_bytes()
    ensures { WhichBytes }
{}
