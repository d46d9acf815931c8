//! NodeDescription.

ghost use Rattle.std.specs.Prelude.{◌≡◌, ◌≤◌, ◌-◌, ◌++◌, length, replicate};

/// The name of a node: text, and zero bytes after it.
///
/// Source: IBA volume 1, chapter 14.
#[derive(Clone, Copy, Debug, PartialEq, Eq)]
pub struct NodeDescription {
    /// The text; it fills the whole attribute.
    pub node_string: [u8; 64],
}

impl NodeDescription {
    /// The description with that text.
    pub fn of_text(text: &[u8]) -> NodeDescription
        requires { length text.now ≤ 64 }
        ensures { result.node_string ≡ text.now ++ replicate (64 - length text.now) 0 }
    {
        let mut node_string = [0; 64];
        node_string[..text.len()].copy_from_slice(text);
        NodeDescription { node_string }
    }

    /// Reads the attribute.
    pub fn read(bytes: &[u8; 64]) -> NodeDescription
        ensures { result.node_string ≡ bytes.now }
    {
        NodeDescription {
            node_string: *bytes,
        }
    }

    /// Writes the attribute.
    pub fn write(&self, bytes: &mut [u8; 64])
        ensures { bytes.new ≡ self.now.node_string }
    {
        *bytes = self.node_string;
    }
}
