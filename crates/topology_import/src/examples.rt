//! The topologies of fabrics, computed. Each function does nothing: its contract is the example.

ghost use Rattle.topology_import.specs.Examples.{EndsAreCounted, LongNamesAreNumbered, LoopsAreCables, OthersAreRefused, PortsAreImported, SizesAreCompared, TwoHostsAreImported};

/// A switch and two adapters of one name.
pub fn two_hosts_are_imported()
    ensures { TwoHostsAreImported }
{}

/// An adapter of two ports without a name, and a router.
pub fn ports_are_imported()
    ensures { PortsAreImported }
{}

/// Fabrics that are refused, with their lines.
pub fn others_are_refused()
    ensures { OthersAreRefused }
{}

/// Ports of GUIDs that follow one another.
pub fn ends_are_counted()
    ensures { EndsAreCounted }
{}

/// Names of 32 bytes that more than one node has.
pub fn long_names_are_numbered()
    ensures { LongNamesAreNumbered }
{}

/// A cable between two ports of one switch.
pub fn loops_are_cables()
    ensures { LoopsAreCables }
{}

/// Fabrics that can just be simulated, and such as are one too large.
pub fn sizes_are_compared()
    ensures { SizesAreCompared }
{}
