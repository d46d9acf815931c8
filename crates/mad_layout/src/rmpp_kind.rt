//! The types of segments.

ghost use Rattle.std.specs.Prelude.{◌≡◌, Some, IfSome};
ghost use Rattle.mad_layout.specs.RmppKind.{rmpp_kind_code};

/// What a MAD is to an RMPP transfer.
///
/// Source: IBA volume 1, chapter 13.
#[derive(Clone, Copy, Debug, PartialEq, Eq)]
pub enum RmppKind {
    /// A segment.
    Data = 1,
    /// Segments have come.
    Ack = 2,
    /// The transfer ends for want of resources.
    Stop = 3,
    /// The transfer ends for a fault.
    Abort = 4,
}

impl RmppKind {
    /// The kind of that code, if there is one.
    pub fn from_code(code: u8) -> Option<RmppKind>
        ensures known { IfSome result (λ kind. rmpp_kind_code kind ≡ code) }
        ensures every { (kind : RmppKind) → rmpp_kind_code kind ≡ code → result ≡ Some kind }
    {
        match code {
            1 => Some(RmppKind::Data),
            2 => Some(RmppKind::Ack),
            3 => Some(RmppKind::Stop),
            4 => Some(RmppKind::Abort),
            _ => None,
        }
    }

    /// The code of the kind.
    pub fn code(self) -> u8
        ensures { result ≡ rmpp_kind_code self }
    {
        self as u8
    }
}
