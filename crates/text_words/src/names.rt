//! Names, as texts show them.

ghost use Rattle.std.specs.Prelude.{◌≡◌, ◌++◌, OnOk};
ghost use Rattle.text_words.specs.Parts.{port_name, quoted};

use crate::numbers::push_decimal;
use std::alloc::AllocError;

/// Adds a name in quotes, as it is.
pub fn push_quoted(text: &mut Vec<u8>, name: &[u8]) -> Result<(), AllocError>
    ensures { OnOk result (text.new.items ≡ text.old.items ++ quoted name.now) }
{
    text.extend_from_slice(b"\"")?;
    text.extend_from_slice(name)?;
    text.extend_from_slice(b"\"")
}

/// Adds `NODE/NUMBER`, the port of this number at the node of this name.
pub fn push_port_name(text: &mut Vec<u8>, node: &[u8], number: u8) -> Result<(), AllocError>
    ensures { OnOk result (text.new.items ≡ text.old.items ++ port_name node.now number) }
{
    text.extend_from_slice(node)?;
    text.extend_from_slice(b"/")?;
    push_decimal(text, usize::from(number))
}
