//! Ports between switches that drop packets, and the bases that they lack.

ghost use Rattle.std.specs.Prelude.{◌≡◌, ◌++◌, OnOk};
ghost use Rattle.std.specs.List.{flat_map};
ghost use Rattle.audit_keys.specs.Text.{trunk_line, trunk_lines};

use audit_ports::{AuditedPort, TrunkLack, push_key, push_port};
use std::alloc::AllocError;
use topo_file::Node;

#[tactic(auto, unfolding(crate::specs::Text::trunk_line))]
fn push_trunk(text: &mut Vec<u8>, nodes: &[Node], lack: TrunkLack) -> Result<(), AllocError>
    ensures { OnOk result (text.new.items ≡ text.old.items ++ trunk_line nodes.now lack) }
{
    text.extend_from_slice(b"trunk ")?;
    push_port(text, nodes, lack.port)?;
    text.extend_from_slice(b" lacks")?;
    push_key(text, lack.base)?;
    text.push(b'\n')?;
    Ok(())
}

fn push_each_trunk(
    text: &mut Vec<u8>,
    nodes: &[Node],
    lacks: &[TrunkLack],
) -> Result<(), AllocError>
    ensures { OnOk result (text.new.items ≡ text.old.items ++ flat_map (trunk_line nodes.now) lacks.now) }
{
    for lack in lacks {
        push_trunk(text, nodes, *lack)?;
    }
    Ok(())
}

#[tactic(auto, unfolding(crate::specs::Text::trunk_lines))]
fn push_trunks_of(text: &mut Vec<u8>, nodes: &[Node], port: &AuditedPort) -> Result<(), AllocError>
    ensures { OnOk result (text.new.items ≡ text.old.items ++ trunk_lines nodes.now port.now) }
{
    push_each_trunk(text, nodes, port.lacks.as_slice())
}

/// What ports between switches lack.
pub(crate) fn push_trunks(
    text: &mut Vec<u8>,
    nodes: &[Node],
    ports: &[AuditedPort],
) -> Result<(), AllocError>
    ensures { OnOk result (text.new.items ≡ text.old.items ++ flat_map (trunk_lines nodes.now) ports.now) }
{
    for port in ports {
        push_trunks_of(text, nodes, port)?;
    }
    Ok(())
}
