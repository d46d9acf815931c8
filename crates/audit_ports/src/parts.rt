//! Ports and keys, as lines name them.

ghost use Rattle.std.specs.Prelude.{◌≡◌, ◌++◌, OnOk};
ghost use Rattle.audit_ports.specs.Names.{key_word, port_text};

use fabric_parts::PortRef;
use std::alloc::AllocError;
use text_words::{push_hex, push_port_name};
use topo_file::{Node, name_at};

/// Adds a port by the name of its node, as `h1/1`.
pub fn push_port(text: &mut Vec<u8>, nodes: &[Node], port: PortRef) -> Result<(), AllocError>
    ensures { OnOk result (text.new.items ≡ text.old.items ++ port_text nodes.now port) }
{
    push_port_name(text, name_at(nodes, port.node), port.port)
}

/// Adds a key or a base, behind a blank.
pub fn push_key(text: &mut Vec<u8>, key: u16) -> Result<(), AllocError>
    ensures { OnOk result (text.new.items ≡ text.old.items ++ key_word key) }
{
    text.extend_from_slice(b" ")?;
    push_hex(text, &key.to_be_bytes())
}
