//! Which ports have which GUIDs, which nodes are hosts, where these are attached, and what a discovery gives, computed. Each function
//! does nothing: its contract is the example.

ghost use Rattle.audit_plan.specs.Examples.{AttachedAreReported, DiscoveriesAreTaken, HostsAreFound, PortsAreFound};

/// The ports of GUIDs.
pub fn ports_are_found()
    ensures { PortsAreFound }
{}

/// Which nodes are hosts.
pub fn hosts_are_found()
    ensures { HostsAreFound }
{}

/// Which switches a host is attached to.
pub fn attached_are_reported()
    ensures { AttachedAreReported }
{}

/// The nodes, end ports and unicast LIDs of a discovery.
pub fn discoveries_are_taken()
    ensures { DiscoveriesAreTaken }
{}
