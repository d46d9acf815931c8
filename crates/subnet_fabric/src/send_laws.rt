//! The laws of subnets and their fabrics. Each function's contract is its law; it does nothing.

ghost use Rattle.subnet_fabric.specs.SendLaws.{DeliveriesAreWhatIsReported, PortsStampAsReported};
ghost use Rattle.subnet_fabric.specs.Replies.{RequestsComeToTheManager};

/// In the fabric of a list of ports, the port of a command's GUID refuses what the list refuses, for the same cause, and
/// else stamps the packet that the list reports.
pub fn ports_stamp_as_reported()
    ensures { PortsStampAsReported }
{}

/// In the fabric of a list of ports, what it delivers of a packet, to a port or to a group, is what the list reports, in the
/// same order.
pub fn deliveries_are_what_is_reported()
    ensures { DeliveriesAreWhatIsReported }
{}

/// In the fabric of a list of ports, a packet for subnet administration comes to the SM port and to no other,
/// if and only if that has a key that matches the packet's.
pub fn requests_come_to_the_manager()
    ensures { RequestsComeToTheManager }
{}
