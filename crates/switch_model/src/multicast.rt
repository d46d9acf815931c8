//! Where a switch sends packets to multicast groups.

ghost use Rattle.std.specs.Prelude.{ℕ, ◌≡◌, ◌==◌, ◌≤◌, true, length};
ghost use Rattle.std.specs.Int.{bit_at};
ghost use Rattle.switch_model.specs.Forwarding.{passes_inbound};
ghost use Rattle.switch_model.specs.Multicast.{copies_out, has_bit, has_bits, is_in_masks, mask_of};

use crate::enforcement::{passes_inbound, passes_outbound};
use crate::multicast_table::POSITIONS;
use crate::switch::Switch;
use data_packet::Packet;
use fabric_parts::{FIRST_MULTICAST_LID, is_multicast};

/// How many ports a position of the multicast forwarding table has.
const PORTS_OF_POSITION: u8 = 16;

impl<const LFT: usize, const MFT: usize> Switch<LFT, MFT> {
    /// The ports by which a data packet to a multicast LID that came in at that port leaves, bit n for port n: never by the
    /// port where it came in. Port 0 is where the packet comes from the switch itself.
    pub fn multicast_out(&self, in_port: u8, packet: &Packet) -> u64
        ensures { (number : ℕ) → (bit_at result number == 1) ≡ copies_out self.now in_port packet.now number }
    {
        if !passes_inbound(in_port, packet.p_key, self.ports()) {
            return 0;
        }
        let mut out = 0;
        for number in 0..self.port_count() + 1 {
            let number = number as u8;
            if self.copies_out(in_port, packet, number) {
                out |= 1 << number;
            }
        }
        out
    }

    /// Whether the bit of the port of a number is set in its masks of a LID.
    pub fn is_in_masks(&self, lid: u16, number: u8) -> bool
        ensures { result ≡ is_in_masks self.now.masks lid number }
    {
        is_in_masks(self.masks(), lid, number)
    }

    /// Whether some bit is set in its masks of a LID; if none is, that of no port is.
    pub fn has_bits(&self, lid: u16) -> bool
        ensures { result ≡ has_bits self.now.masks lid }
    {
        self.masks().iter().any(
            |words| -> bool
                ensures { result ≡ has_bit lid words.now }
            { has_bit(words, lid) },
        )
    }

    /// Whether such a packet, which was let in, leaves by the port of a number.
    fn copies_out(&self, in_port: u8, packet: &Packet, number: u8) -> bool
        requires { passes_inbound self.now.ports in_port packet.now.p_key ≡ true }
        ensures { result ≡ copies_out self.now in_port packet.now number }
    {
        number != in_port
            && is_in_masks(self.masks(), packet.dlid, number)
            && passes_outbound(number, packet.p_key, self.ports())
    }
}

/// Whether the bit of the port of a number is set in the masks of a LID.
fn is_in_masks<const MFT: usize>(masks: &[[u16; MFT]; POSITIONS], lid: u16, number: u8) -> bool
    ensures { result ≡ is_in_masks masks.now lid number }
{
    let position = usize::from(number / PORTS_OF_POSITION);
    if position >= POSITIONS {
        return false;
    }
    match mask_of(&masks[position], lid) {
        Some(mask) => mask >> (number % PORTS_OF_POSITION) & 1 == 1,
        None => false,
    }
}

/// Whether some bit is set in the mask of a LID at a position.
fn has_bit(words: &[u16], lid: u16) -> bool
    ensures { result ≡ has_bit lid words.now }
{
    match mask_of(words, lid) {
        Some(mask) => mask != 0,
        None => false,
    }
}

/// The mask of a LID at a position.
fn mask_of(words: &[u16], lid: u16) -> Option<u16>
    ensures { result ≡ mask_of lid words.now }
{
    if is_multicast(lid) {
        words.get(usize::from(lid - FIRST_MULTICAST_LID)).copied()
    } else {
        None
    }
}
