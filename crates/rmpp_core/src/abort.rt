//! Why a transfer is aborted.

ghost use Rattle.std.specs.Prelude.{◌≡◌};
ghost use Rattle.rmpp_core.specs.Acks.{abort_code};

use thiserror::Error;

/// Why a sender aborts a transfer.
///
/// Source: IBA volume 1, chapter 13, the values of RMPPStatus.
#[derive(Clone, Copy, Debug, PartialEq, Eq, Error)]
pub enum AbortCause {
    /// An ACK's window ends before the segment that it acknowledges.
    #[error("the window of an ACK ends before its segment")]
    WindowTooSmall = 122,
    /// An ACK acknowledges a segment above the last.
    #[error("an ACK is of a segment above the last")]
    SegmentTooBig = 123,
}

impl AbortCause {
    /// The code of the cause, as RMPPStatus has it.
    pub fn code(self) -> u8
        ensures { result ≡ abort_code self }
    {
        self as u8
    }
}
