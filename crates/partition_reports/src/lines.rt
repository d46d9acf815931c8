//! Lines that stand in more than one text.

ghost use Rattle.std.specs.Prelude.{◌≡◌, ◌++◌, OnOk};
ghost use Rattle.partition_reports.specs.Lines.{heading_line, member_line, shown_name};

use crate::ports::push_port;
use partition_file::Heading;
use pkey_rules::PKey;
use std::alloc::AllocError;
use subnet_model::SubnetPort;
use text_words::{push_decimal, push_hex};

/// Adds `partition NUMBER BASE NAME`, an empty name as `-`.
pub fn push_heading_line(
    text: &mut Vec<u8>,
    number: usize,
    heading: &Heading,
) -> Result<(), AllocError>
    ensures { OnOk result (text.new.items ≡ text.old.items ++ heading_line number heading.now) }
{
    text.extend_from_slice(b"partition ")?;
    push_decimal(text, number)?;
    text.extend_from_slice(b" ")?;
    push_hex(text, &heading.base.to_be_bytes())?;
    text.extend_from_slice(b" ")?;
    text.extend_from_slice(shown_name(heading.name.as_bytes()))?;
    text.push(b'\n')?;
    Ok(())
}

/// A name, or `-` for an empty one.
fn shown_name(name: &[u8]) -> &[u8]
    ensures { result.now ≡ shown_name name.now }
{
    if name.is_empty() { b"-" } else { name }
}

/// Adds `member KEY PORT`.
pub fn push_member_line(text: &mut Vec<u8>, port: &SubnetPort, key: PKey) -> Result<(), AllocError>
    ensures { OnOk result (text.new.items ≡ text.old.items ++ member_line port.now key) }
{
    text.extend_from_slice(b"member ")?;
    push_hex(text, &key.bits().to_be_bytes())?;
    text.extend_from_slice(b" ")?;
    push_port(text, port)?;
    text.push(b'\n')?;
    Ok(())
}
