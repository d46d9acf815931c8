//! The states of a port.

ghost use Rattle.std.specs.Prelude.{◌≡◌, Some, IfSome};
ghost use Rattle.attr_tables.specs.PortState.{port_state_code};

/// The state of a link.
///
/// Source: IBA volume 1, 14.2.5.6 (PortInfo).
#[derive(Clone, Copy, Debug, PartialEq, Eq)]
pub enum PortState {
    /// In a Set: the state stays.
    NoChange = 0,
    /// The link is down.
    Down = 1,
    /// The link is up, and only subnet management passes.
    Initialize = 2,
    /// The port is set up, and passes data once it is active.
    Armed = 3,
    /// Data passes.
    Active = 4,
}

impl PortState {
    /// The one of that code, if there is one.
    pub fn from_code(code: u8) -> Option<PortState>
        ensures known { IfSome result (λ one. port_state_code one ≡ code) }
        ensures every { (one : PortState) → port_state_code one ≡ code → result ≡ Some one }
    {
        match code {
            0 => Some(PortState::NoChange),
            1 => Some(PortState::Down),
            2 => Some(PortState::Initialize),
            3 => Some(PortState::Armed),
            4 => Some(PortState::Active),
            _ => None,
        }
    }

    /// Its code.
    pub fn code(self) -> u8
        ensures { result ≡ port_state_code self }
    {
        self as u8
    }
}
