//! What the files say of the ports of a small fabric, computed. Each function does nothing: its contract is the example.

ghost use Rattle.audit_ports.specs.Examples.{DefaultsAreTakenInTurn, KeysAreHeldOnce, PortsAreGathered, StrangersAreReported, TrunksAreGathered};

/// The ports of a switch and of an adapter, also if LIDs moved or a query named no port; a router is left out.
pub fn ports_are_gathered()
    ensures { PortsAreGathered }
{}

/// The GUID of a node, one of nobody, and a port in no partition.
pub fn strangers_are_reported()
    ensures { StrangersAreReported }
{}

/// The words of the default partition, as OpenSM takes them.
pub fn defaults_are_taken_in_turn()
    ensures { DefaultsAreTakenInTurn }
{}

/// What ports between two switches lack.
pub fn trunks_are_gathered()
    ensures { TrunksAreGathered }
{}

/// Tables in which a key stands twice.
pub fn keys_are_held_once()
    ensures { KeysAreHeldOnce }
{}
