//! Which ports are audited, and which are read. The functions do nothing: their contracts are the laws.

ghost use Rattle.audit_ports.specs.Laws.{EachPortIsAudited, PortsThatAnswerAreRead};

/// Each end port of the discovery that has a LID, and whose GUID a port of the topology has, is audited once, whatever was read of it
/// and whichever partitions it is in, and no other port is.
pub fn each_port_is_audited()
    ensures { EachPortIsAudited }
{}

/// A port is read if and only if its node answered at its LID with the GUID of the discovery, that of the switch or that of the
/// port, and its table was read at this LID.
pub fn ports_that_answer_are_read()
    ensures { PortsThatAnswerAreRead }
{}
