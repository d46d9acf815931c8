//! Ports, by the names of their nodes.

ghost use Rattle.std.specs.Prelude.{◌≡◌, ◌++◌, OnOk};
ghost use Rattle.partition_reports.specs.Ports.{port_text};

use std::alloc::AllocError;
use subnet_model::SubnetPort;
use text_words::push_port_name;

/// Adds `NODE/NUMBER`.
pub fn push_port(text: &mut Vec<u8>, port: &SubnetPort) -> Result<(), AllocError>
    ensures { OnOk result (text.new.items ≡ text.old.items ++ port_text port.now) }
{
    push_port_name(text, port.node_name.as_slice(), port.number)
}
