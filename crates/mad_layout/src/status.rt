//! The status that a reply has.

ghost use Rattle.std.specs.Prelude.{◌≡◌, Some, IfSome};
ghost use Rattle.mad_layout.specs.MadStatus.{mad_status_code};

/// Why a request is refused. The status 0, which refuses nothing, is not among them.
///
/// Source: IBA volume 1, 13.4.7; from [`MadStatus::NoResources`] on they are subnet administration's,
/// chapter 15.
#[derive(Clone, Copy, Debug, PartialEq, Eq)]
pub enum MadStatus {
    /// The version of the base format or of the class is not supported.
    BadVersion = 0x0004,
    /// The method is not supported.
    MethodNotSupported = 0x0008,
    /// The method is not supported for that attribute.
    AttributeNotSupported = 0x000c,
    /// The attribute or its modifier has an invalid value.
    InvalidField = 0x001c,
    /// There is no room.
    NoResources = 0x0100,
    /// The request is invalid.
    RequestInvalid = 0x0200,
    /// No record agrees.
    NoRecords = 0x0300,
    /// More than one record agrees if one is asked for.
    TooManyRecords = 0x0400,
    /// A GID is invalid.
    InvalidGid = 0x0500,
    /// The component mask lacks a component.
    InsufficientComponents = 0x0600,
}

impl MadStatus {
    /// The refusal of that code, if there is one.
    pub fn from_code(code: u16) -> Option<MadStatus>
        ensures known { IfSome result (λ status. mad_status_code status ≡ code) }
        ensures every { (status : MadStatus) → mad_status_code status ≡ code → result ≡ Some status }
    {
        match code {
            0x0004 => Some(MadStatus::BadVersion),
            0x0008 => Some(MadStatus::MethodNotSupported),
            0x000c => Some(MadStatus::AttributeNotSupported),
            0x001c => Some(MadStatus::InvalidField),
            0x0100 => Some(MadStatus::NoResources),
            0x0200 => Some(MadStatus::RequestInvalid),
            0x0300 => Some(MadStatus::NoRecords),
            0x0400 => Some(MadStatus::TooManyRecords),
            0x0500 => Some(MadStatus::InvalidGid),
            0x0600 => Some(MadStatus::InsufficientComponents),
            _ => None,
        }
    }

    /// The code of the refusal.
    pub fn code(self) -> u16
        ensures { result ≡ mad_status_code self }
    {
        self as u16
    }
}
