//! Whether each cable stands at both its ends, and alike.

ghost use Rattle.std.specs.Prelude.{◌≡◌};
ghost use Rattle.std.specs.Option.{option_copied};
ghost use Rattle.netdiscover_file.specs.Agreement.{far_line, first_wrong, is_one_cable, names, stands_at_both_ends};

use crate::ends::FarEnd;
use crate::node::{Node, NodeList, is_node_at};
use crate::port::{PortLine, PortList, is_same_guid};
use fabric_parts::PortRef;

/// Whether a far end names the port of this line.
fn names(nodes: &[Node], far: &FarEnd, line: &PortLine) -> bool
    ensures { result ≡ names nodes.now far.now line.now }
{
    is_node_at(nodes, line.port.node, far.node)
        && (line.port.port == far.port && is_same_guid(line.guid, far.guid))
}

/// Whether each of the two lines names the port of the other.
fn is_one_cable(nodes: &[Node], line: &PortLine, other: &PortLine) -> bool
    ensures { result ≡ is_one_cable nodes.now line.now other.now }
{
    names(nodes, &line.far, other) && names(nodes, &other.far, line)
}

/// The line of the port that a far end reports, if there is one.
pub(crate) fn far_line<'a>(
    nodes: &NodeList,
    ports: &'a PortList,
    far: &FarEnd,
) -> Option<&'a PortLine>
    ensures { option_copied result ≡ far_line nodes.now ports.now far.now }
{
    match nodes.place_of(far.node.guid) {
        Some(node) => ports.line_of(PortRef {
            node,
            port: far.port,
        }),
        None => None,
    }
}

fn stands_at_both_ends(nodes: &NodeList, ports: &PortList, line: &PortLine) -> bool
    ensures { result ≡ stands_at_both_ends nodes.now ports.now line.now }
{
    match far_line(nodes, ports, &line.far) {
        Some(other) => is_one_cable(nodes.as_slice(), line, other),
        None => false,
    }
}

/// The first line of a port whose cable does not stand so at its other end.
pub(crate) fn first_wrong(nodes: &NodeList, ports: &PortList) -> Option<usize>
    ensures { result ≡ first_wrong nodes.now ports.now }
{
    ports
        .as_slice()
        .iter()
        .find(|line| !stands_at_both_ends(nodes, ports, *line))
        .map(|line| line.line)
}
