//! The name of a node.

ghost use Rattle.std.specs.Prelude.{◌≡◌, ◌≤◌, length};
ghost use Rattle.fabric_parts.specs.declared.limits.TheConstants.{NAME_BYTES};

use arrayvec::ArrayVec;
use fabric_parts::NAME_BYTES;
use std::marker::Model;

/// The name of a node, as its description shows it.
#[derive(Debug, Drop, PartialEq, Eq)]
pub struct NodeName {
    bytes: ArrayVec<u8, NAME_BYTES>,
}

impl Model for NodeName {
    ghost use Rattle.std.specs.Prelude.{ℕ, List};

    ghost Value = { List ℕ };

    ghost view = { λ name. name.bytes.items };

    ghost inverse = { λ bytes. record { bytes = record { items = bytes } } };
}

impl NodeName {
    /// The name that these bytes encode.
    pub fn new(bytes: &[u8]) -> NodeName
        requires { length bytes.now ≤ NAME_BYTES }
        ensures { result ≡ bytes.now }
    {
        let mut name = ArrayVec::new();
        let _ = name.try_extend_from_slice(bytes);
        NodeName { bytes: name }
    }

    /// Its bytes.
    pub fn as_slice(&self) -> &[u8]
        ensures value { result.now ≡ self.now }
        ensures fits { length result.now ≤ NAME_BYTES }
    {
        self.bytes.as_slice()
    }
}
