//! A block of 32 words, of which P_Key tables and masks are made.

ghost use Rattle.std.specs.Prelude.{◌≡◌, ◌<◌, ℕ, slice_index};
ghost use Rattle.attr_tables.specs.Blocks.{HoldsEntries, word_bytes};

use byteorder::{BigEndian, ByteOrder};
use mad_layout::known_bytes;

/// A block of a P_Key table, or of an MFT: 32 keys, or 32 masks of ports.
///
/// Source: IBA volume 1, 14.2.5.7 (P_KeyTable).
#[derive(Clone, Copy, Debug, PartialEq, Eq)]
pub struct WordBlock {
    /// The keys or the masks.
    pub words: [u16; 32],
}

impl WordBlock {
    /// Reads the attribute.
    pub fn read(bytes: &[u8; 64]) -> WordBlock
        ensures { HoldsEntries bytes.now 16 result.words }
    {
        known_bytes(bytes);
        let mut words = [0; 32];
        BigEndian::read_u16_into(bytes, &mut words);
        WordBlock { words }
    }

    /// Writes the attribute.
    pub fn write(&self, bytes: &mut [u8; 64])
        ensures entries { HoldsEntries bytes.new 16 self.now.words }
        ensures bytes { bytes.new ≡ word_bytes self.now.words }
    {
        known_words(&self.words);
        BigEndian::write_u16_into(&self.words, bytes);
        known_bytes(bytes);
    }
}

/// Says that each element is below 65536. It does nothing.
fn known_words(words: &[u16])
    ensures { (k : ℕ) → slice_index words.now k < 65536 }
{}
