//! Whether two graphs are the same.

ghost use Rattle.std.specs.Prelude.{◌≡◌};
ghost use Rattle.std.specs.List.{list_all, zip};
ghost use Rattle.subnet_fabric.specs.SameGraph.{are_alike, has_same_numbers, is_same_graph, is_same_link, is_same_port_of, is_same_row, is_same_switch};

use sweep::{Graph, GraphLink, GraphPort, GraphRow, GraphSwitch};

/// Whether a sweep that finds the one would have found the other: the same switches by the same paths, the same links, and the same
/// ports of adapters.
pub(crate) fn is_same_graph(one: &Graph, other: &Graph) -> bool
    ensures { result ≡ is_same_graph one.now other.now }
{
    one.manager() == other.manager()
        && (are_same_switches(one.switches(), other.switches())
            && (are_same_rows(one.rows(), other.rows())
                && are_same_ports(one.ports(), other.ports())))
}

fn is_same_switch(one: &GraphSwitch, other: &GraphSwitch) -> bool
    ensures { result ≡ is_same_switch (one.now, other.now) }
{
    one.guid == other.guid
        && (one.num_ports == other.num_ports
            && (one.name == other.name && one.path.as_slice() == other.path.as_slice()))
}

fn all_same_switches(switches: &[GraphSwitch], others: &[GraphSwitch]) -> bool
    ensures { result ≡ list_all is_same_switch (zip switches.now others.now) }
{
    switches
        .iter()
        .zip(others.iter())
        .all(|(one, other)| is_same_switch(one, other))
}

fn are_same_switches(switches: &[GraphSwitch], others: &[GraphSwitch]) -> bool
    ensures { result ≡ are_alike is_same_switch switches.now others.now }
{
    switches.len() == others.len() && all_same_switches(switches, others)
}

fn is_same_link(one: &GraphLink, other: &GraphLink) -> bool
    ensures { result ≡ is_same_link (one.now, other.now) }
{
    one.port == other.port && one.to == other.to
}

fn all_same_links(links: &[GraphLink], others: &[GraphLink]) -> bool
    ensures { result ≡ list_all is_same_link (zip links.now others.now) }
{
    links
        .iter()
        .zip(others.iter())
        .all(|(one, other)| is_same_link(one, other))
}

fn is_same_row(row: &GraphRow, other: &GraphRow) -> bool
    ensures { result ≡ is_same_row (row.now, other.now) }
{
    let (links, others) = (row.as_slice(), other.as_slice());
    links.len() == others.len() && all_same_links(links, others)
}

fn all_same_rows(rows: &[GraphRow], others: &[GraphRow]) -> bool
    ensures { result ≡ list_all is_same_row (zip rows.now others.now) }
{
    rows.iter()
        .zip(others.iter())
        .all(|(row, other)| is_same_row(row, other))
}

fn are_same_rows(rows: &[GraphRow], others: &[GraphRow]) -> bool
    ensures { result ≡ are_alike is_same_row rows.now others.now }
{
    rows.len() == others.len() && all_same_rows(rows, others)
}

fn has_same_numbers(one: &GraphPort, other: &GraphPort) -> bool
    ensures { result ≡ has_same_numbers (one.now, other.now) }
{
    one.node_guid == other.node_guid
        && (one.port_guid == other.port_guid
            && (one.number == other.number && one.num_ports == other.num_ports))
}

fn is_same_port_of(one: &GraphPort, other: &GraphPort) -> bool
    ensures { result ≡ is_same_port_of (one.now, other.now) }
{
    has_same_numbers(one, other) && (one.name == other.name && one.at == other.at)
}

fn all_same_ports(ports: &[GraphPort], others: &[GraphPort]) -> bool
    ensures { result ≡ list_all is_same_port_of (zip ports.now others.now) }
{
    ports
        .iter()
        .zip(others.iter())
        .all(|(one, other)| is_same_port_of(one, other))
}

fn are_same_ports(ports: &[GraphPort], others: &[GraphPort]) -> bool
    ensures { result ≡ are_alike is_same_port_of ports.now others.now }
{
    ports.len() == others.len() && all_same_ports(ports, others)
}
