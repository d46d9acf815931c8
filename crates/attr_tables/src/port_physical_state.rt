//! The states of a physical link.

ghost use Rattle.std.specs.Prelude.{◌≡◌, Some, IfSome};
ghost use Rattle.attr_tables.specs.PortPhysicalState.{port_physical_state_code};

/// The state of the physical link; those that a simulated port has.
///
/// Source: IBA volume 1, 14.2.5.6 (PortInfo).
#[derive(Clone, Copy, Debug, PartialEq, Eq)]
pub enum PortPhysicalState {
    /// The port looks for a neighbor.
    Polling = 2,
    /// The port has a link.
    LinkUp = 5,
}

impl PortPhysicalState {
    /// The one of that code, if there is one.
    pub fn from_code(code: u8) -> Option<PortPhysicalState>
        ensures known { IfSome result (λ one. port_physical_state_code one ≡ code) }
        ensures every { (one : PortPhysicalState) → port_physical_state_code one ≡ code → result ≡ Some one }
    {
        match code {
            2 => Some(PortPhysicalState::Polling),
            5 => Some(PortPhysicalState::LinkUp),
            _ => None,
        }
    }

    /// Its code.
    pub fn code(self) -> u8
        ensures { result ≡ port_physical_state_code self }
    {
        self as u8
    }
}
