//! A block of 64 ports, of which linear forwarding tables are made.

ghost use Rattle.std.specs.Prelude.{◌≡◌};
ghost use Rattle.attr_tables.specs.Blocks.{HoldsEntries};

use mad_layout::known_bytes;

/// A block of a linear forwarding table: for each of 64 LIDs the port that leads there.
///
/// Source: IBA volume 1, chapter 14.
#[derive(Clone, Copy, Debug, PartialEq, Eq)]
pub struct PortBlock {
    /// The ports, by LID.
    pub ports: [u8; 64],
}

impl PortBlock {
    /// Reads the attribute.
    pub fn read(bytes: &[u8; 64]) -> PortBlock
        ensures bytes { result.ports ≡ bytes.now }
        ensures entries { HoldsEntries bytes.now 8 result.ports }
    {
        known_bytes(bytes);
        PortBlock { ports: *bytes }
    }

    /// Writes the attribute.
    pub fn write(&self, bytes: &mut [u8; 64])
        ensures bytes { bytes.new ≡ self.now.ports }
        ensures entries { HoldsEntries bytes.new 8 self.now.ports }
    {
        known_bytes(&self.ports);
        *bytes = self.ports;
    }
}
