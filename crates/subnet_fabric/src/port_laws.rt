//! What is so of the end ports of every topology, over the definitions alone. The functions do nothing:
//! their contracts are the laws.

ghost use Rattle.subnet_fabric.specs.PortLaws.{EndPortsAreTheFabrics, EndPortsStandInOrder, SweepsFindWhatIsListed};

/// Of every sound topology, under whatever partitions: LIDs count from 1, the SM port has 1 and
/// the others follow in order of GUID; the ports are the end ports of the topology, each once.
pub fn end_ports_stand_in_order()
    ensures { EndPortsStandInOrder }
{}

/// The end ports that are listed are those of the simulated fabric: port 0 of each of its switches, and each
/// cabled port of its channel adapters. The agents there hold the GUIDs, names and counts of ports that the
/// topology says.
pub fn end_ports_are_the_fabrics()
    ensures { EndPortsAreTheFabrics }
{}

/// A sweep of that fabric finds the end ports that are listed, and LIDs that are given by what it found are those
/// that are listed: so the list may be taken from the topology or from the wire.
pub fn sweeps_find_what_is_listed()
    ensures { SweepsFindWhatIsListed }
{}
