//! Why a port refuses to send.

ghost use Rattle.std.specs.Prelude.{◌≡◌};
ghost use Rattle.data_packet.specs.Refusal.{code_of};

use thiserror::Error;

/// Why a port refuses to send a packet, in the order in which it looks.
#[derive(Clone, Copy, Debug, PartialEq, Eq, Error)]
pub enum Refusal {
    /// The port is not Active.
    #[error("the port is not active")]
    PortNotActive,
    /// The packet's P_Key is not in the port's table.
    #[error("the port does not hold this partition key")]
    KeyNotHeld,
    /// Queue pair 0 is for subnet management packets alone.
    #[error("data cannot go to queue pair 0")]
    QpZero,
    /// The destination LID is 0, which is nobody's, or 0xffff, the permissive LID, which is for
    /// directed-route packets alone.
    #[error("data cannot go to LID 0 or to the permissive LID")]
    ReservedDlid,
}

impl Refusal {
    /// The code that a report prints.
    pub fn code(self) -> &'static str
        ensures { result.now ≡ code_of self }
    {
        match self {
            Refusal::KeyNotHeld => "AR1",
            Refusal::QpZero => "AR2",
            Refusal::ReservedDlid => "AR3",
            Refusal::PortNotActive => "AR4",
        }
    }
}
