//! The flags of a segment.

ghost use Rattle.std.specs.Prelude.{⊤};
ghost use Rattle.mad_layout.specs.Flags.{rmpp_flags};

use bitflags::{Flag, Flags, bitflag_items};

/// The flags of an RMPP header.
///
/// Source: IBA volume 1, chapter 13.
#[derive(Clone, Copy, Debug, PartialEq, Eq)]
pub struct RmppFlags(pub u8);

bitflag_items! {
    impl RmppFlags: u8 {
        const ACTIVE = 1;
        const FIRST = 2;
        const LAST = 4;
    }
}

impl Flags for RmppFlags {
    type Bits = u8;

    ghost exact = { ⊤ };

    ghost table = { rmpp_flags };

    ghost set_of = { λ flags. flags.0 };

    fn flags<'a>() -> &'a [Flag<RmppFlags>] {
        RmppFlags::FLAGS
    }

    fn bits(&self) -> u8 {
        self.0
    }

    fn from_bits_retain(bits: u8) -> RmppFlags {
        RmppFlags(bits)
    }
}
