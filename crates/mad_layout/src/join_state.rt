//! How a port is a member of a multicast group, as bits.

ghost use Rattle.std.specs.Prelude.{⊤};
ghost use Rattle.mad_layout.specs.Flags.{join_states};

use bitflags::{Flag, Flags, bitflag_items};

/// How a port is a member of a multicast group, the JoinState of a MCMemberRecord.
///
/// Source: IBA volume 1, 15.2.5.
#[derive(Clone, Copy, Debug, PartialEq, Eq)]
pub struct JoinState(pub u8);

bitflag_items! {
    impl JoinState: u8 {
        const FULL_MEMBER = 1;
        const NON_MEMBER = 2;
        const SEND_ONLY_NON_MEMBER = 4;
    }
}

impl Flags for JoinState {
    type Bits = u8;

    ghost exact = { ⊤ };

    ghost table = { join_states };

    ghost set_of = { λ state. state.0 };

    fn flags<'a>() -> &'a [Flag<JoinState>] {
        JoinState::FLAGS
    }

    fn bits(&self) -> u8 {
        self.0
    }

    fn from_bits_retain(bits: u8) -> JoinState {
        JoinState(bits)
    }
}
