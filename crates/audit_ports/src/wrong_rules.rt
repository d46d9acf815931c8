//! Wrong rules for which ports are audited, and which are read, each refused by its law. The functions do nothing: each contract says
//! that with this rule the law is false.

ghost use Rattle.audit_ports.specs.WrongRules.{LaterPortsAreAudited, MovedPortsAreUnread, OtherPortsAreAudited, PortsAreAuditedOnce, PortsAreRead, SilentPortsAreUnread, UnreadPortsAreAudited};

/// The first port alone is audited.
pub fn later_ports_are_audited()
    ensures { LaterPortsAreAudited }
{}

/// Those alone are audited whose tables were read.
pub fn unread_ports_are_audited()
    ensures { UnreadPortsAreAudited }
{}

/// Those alone are audited to which the partition file gives a key.
pub fn other_ports_are_audited()
    ensures { OtherPortsAreAudited }
{}

/// Each port is audited twice.
pub fn ports_are_audited_once()
    ensures { PortsAreAuditedOnce }
{}

/// A port is read if a table was read at its LID, also if its node did not answer.
pub fn silent_ports_are_unread()
    ensures { SilentPortsAreUnread }
{}

/// A port is read also if another node answers at its LID.
pub fn moved_ports_are_unread()
    ensures { MovedPortsAreUnread }
{}

/// No port is read.
pub fn ports_are_read()
    ensures { PortsAreRead }
{}
