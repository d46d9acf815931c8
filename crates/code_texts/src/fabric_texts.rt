//! Why bring-up of a topology's fabric fails: in discovery (SW), in routing (UR), and when the SM sets ports and tables
//! (TP).

pub const SW1: &str = "\
SW1: a discovery request has no reply

The SM discovers the fabric: along directed routes it asks each node what it is and which of its
ports have cables. Each of these requests has a reply. The simulated fabric always replies, so no
topology leads to this code. The status is 3.

Only in `manage` it occurs, with the status 1: a node did not answer, or its reply was lost.
";

pub const SW2: &str = "\
SW2: a discovery reply is refused, of another request, or contradicts an earlier one

Each reply in discovery is of its request, has the status 0, describes a possible node, and agrees
with the replies before. In the simulated fabric that is so, and no topology leads to this code. The
status is 3.

Only in `manage` it occurs, with the status 1. There it is also the code if the fabric that answers has
other end ports than TOPO, by their GUIDs, or another SM port. Then nothing was set.
";

pub const SW3: &str = "\
SW3: a cable is more than 63 hops away

Each cable has an end on a switch that is at most 62 hops away from the SM port: the switch to which
that port is attached is one hop away, and a cable between switches is one hop more. A request
cannot go further than 63.

For this topology, in which `...` is the lines between, the program prints `fault SW3`:

    adapter h 100 1
    switch s1 1 2
    switch s2 2 2
    ...
    switch s64 64 2
    cable h/1 s1/1
    cable s1/2 s2/1
    cable s2/2 s3/1
    ...
    cable s63/2 s64/1
    sm h/1

Corrected:

    adapter h 100 1
    switch s1 1 2
    switch s2 2 2
    ...
    switch s63 63 2
    cable h/1 s1/1
    cable s1/2 s2/1
    cable s2/2 s3/1
    ...
    cable s62/2 s63/1
    sm h/1
";

pub const SW4: &str = "\
SW4: the fabric has more than 64 switches, or more than 256 CA ports

Discovery finds no more than that. A topology with more is TF10 before it is brought up, so none
leads to this code. The status is 3; in `manage`, where it occurs, 1.
";

pub const UR1: &str = "\
UR1: no up/down path leads from a switch to a CA port

From each switch to which a CA is attached, an up/down path leads to each CA port: it goes up,
towards a root, then down, and never up again. Of two switches that are equally near to the roots,
the one with the smaller GUID is above the other. The first pair without such a path is reported, by
the LID of the switch, then by that of the port.

For this topology the program prints `fault UR1 R i/1`, since the path from R down to L would go up
to S again:

    switch R 0x10 4
    switch S 0x20 4
    switch L 0x30 4
    adapter h 0x40 1
    adapter i 0x50 1
    cable R/1 L/1
    cable S/1 L/2
    cable R/2 h/1
    cable S/2 i/1
    root R
    root S
    sm h/1

Corrected, with R as the only root:

    switch R 0x10 4
    switch S 0x20 4
    switch L 0x30 4
    adapter h 0x40 1
    adapter i 0x50 1
    cable R/1 L/1
    cable S/1 L/2
    cable R/2 h/1
    cable S/2 i/1
    root R
    sm h/1
";

pub const TP1: &str = "\
TP1: a Set has no reply

The SM sets the ports and tables of each node, along directed routes. Each of these requests has a
reply. The simulated fabric always replies, so no topology leads to this code. The status is 3; in
`manage`, where it occurs, 1.
";

pub const TP2: &str = "\
TP2: a node refuses a Set

Each node takes what the SM sets: its reply has the status 0. In the simulated fabric that is so,
and no topology leads to this code. The status is 3; in `manage`, where it occurs, 1.

A Set of PortInfo that is refused is followed by a Get, since the node may have carried out the same
Set before. It is this error only if the Get reports other data than was set.
";

pub const TP3: &str = "\
TP3: a reply to a Set has other data, or is of another request

Each reply to a Set is of its request, and carries what was set. In the simulated fabric that is so,
and no topology leads to this code. The status is 3.

Only in `manage` it occurs, with the status 1. A switch port to which a CA is attached may take all
except that it enforces partitions: it is counted, and is no error. It is one if the port takes
PartitionEnforcementInbound or PartitionEnforcementOutbound alone.
";
