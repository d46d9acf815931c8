//! Errors in a topology.

pub const TF1: &str = "\
TF1: the line is malformed

A line is empty, or one of `switch NAME GUID PORTS`, `adapter NAME GUID PORTS`, `cable PORT PORT`,
`root NAME` and `sm PORT`, with exactly these fields; a comment may follow. NAME is 1 to 32 letters,
digits, `_`, `-` and `.`. GUID is 1 to 2^64-1. PORTS is 1 to 8 for a CA (`adapter`); for a switch 1 to
36, and 1 to 254 in `import`, `audit`, `load --dump`, `audit-keys`, `shares` and `diff`, which simulate
nothing. PORT is `NAME/NUMBER`. Numbers are decimal, or `0x` and hexadecimal digits. Outside comments
only printable ASCII, blanks and tabs are allowed; a CR is allowed only before LF or a comment. So a byte
order mark at the start of the file is refused: save the file as UTF-8 without one.

`audit` and `load --dump` take a file without a line `Switch`, `Ca` or `Rt` for a topology: see whether
the two files are exchanged. For other commands `fabric import` makes a topology of what ibnetdiscover
printed.

For this topology the program prints `fault TF1 topology line 1`:

    swich A 0x10 4
    adapter h 0x20 1
    cable A/1 h/1
    sm h/1

Corrected:

    switch A 0x10 4
    adapter h 0x20 1
    cable A/1 h/1
    sm h/1
";

pub const TF2: &str = "\
TF2: another node has this name, or the root is named already

No two lines `switch` or `adapter` have the same NAME, and no two lines `root`. The second one is
reported.

For this topology the program prints `fault TF2 topology line 2`:

    switch A 0x10 4
    adapter A 0x20 1
    cable A/1 A/1
    sm A/1

Corrected:

    switch A 0x10 4
    adapter h 0x20 1
    cable A/1 h/1
    sm h/1
";

pub const TF3: &str = "\
TF3: a GUID of the node is used already, or is over 2^64-1

A switch uses its GUID for itself and for its port 0. A CA uses its GUID for itself, and GUID + p
for its port p. No two nodes use the same GUID, and no GUID is over 2^64-1.

For this topology the program prints `fault TF3 topology line 2`, since port 1 of h has the GUID
0x10 of A:

    switch A 0x10 4
    adapter h 0xf 1
    cable A/1 h/1
    sm h/1

Corrected:

    switch A 0x10 4
    adapter h 0x20 1
    cable A/1 h/1
    sm h/1
";

pub const TF4: &str = "\
TF4: no line above declares a node of this name

Each name on a line `cable`, `root` or `sm` is declared by a line `switch` or `adapter` above it.
Names are case-sensitive.

For this topology the program prints `fault TF4 topology line 3`:

    switch A 0x10 4
    adapter h 0x20 1
    cable A/1 H/1
    sm h/1

Corrected:

    switch A 0x10 4
    adapter h 0x20 1
    cable A/1 h/1
    sm h/1
";

pub const TF5: &str = "\
TF5: the node has no such port

The ports of a node are numbered from 1 to the number on its own line. So a line `cable` or `sm`
does not name port 0, not even of a switch.

For this topology the program prints `fault TF5 topology line 3`:

    switch A 0x10 4
    adapter h 0x20 1
    cable A/5 h/1
    sm h/1

Corrected:

    switch A 0x10 4
    adapter h 0x20 1
    cable A/4 h/1
    sm h/1
";

pub const TF6: &str = "\
TF6: the port has a cable already

A port takes one cable. The line of the second one is reported.

For this topology the program prints `fault TF6 topology line 5`:

    switch A 0x10 4
    adapter h 0x20 1
    adapter i 0x30 1
    cable A/1 h/1
    cable A/1 i/1
    sm h/1

Corrected:

    switch A 0x10 4
    adapter h 0x20 1
    adapter i 0x30 1
    cable A/1 h/1
    cable A/2 i/1
    sm h/1
";

pub const TF7: &str = "\
TF7: the cable connects neither two different switches nor a switch and a CA

A CA is cabled to a switch, never to a CA, and a switch is not cabled to itself. ibnetdiscover may print
such cables: `fabric import` and `fabric audit-keys` refuse that fabric, and `fabric audit` takes it.

For this topology the program prints `fault TF7 topology line 3`:

    switch A 0x10 4
    adapter h 0x20 1
    cable A/1 A/2
    sm h/1

Corrected:

    switch A 0x10 4
    adapter h 0x20 1
    cable A/1 h/1
    sm h/1
";

pub const TF8: &str = "\
TF8: the SM port is missing, named twice, or on a switch

Exactly one line is `sm PORT`, and PORT is a port of a CA. A second such line, or one that names a
switch, is reported with its number. If there is none, line 0 is reported, after the last line.

For this topology the program prints `fault TF8 topology line 0`:

    switch A 0x10 4
    adapter h 0x20 1
    cable A/1 h/1

Corrected:

    switch A 0x10 4
    adapter h 0x20 1
    cable A/1 h/1
    sm h/1
";

pub const TF9: &str = "\
TF9: the switches are not connected

Each switch reaches each other one by cables between switches, if need be over further switches. A
CA with two cables connects none. Line 0 is reported, after the last line.

For this topology the program prints `fault TF9 topology line 0`:

    switch A 0x10 4
    switch B 0x20 4
    adapter h 0x30 1
    cable A/1 h/1
    sm h/1

Corrected:

    switch A 0x10 4
    switch B 0x20 4
    adapter h 0x30 1
    cable A/1 h/1
    cable A/2 B/1
    sm h/1
";

pub const TF10: &str = "\
TF10: the node exceeds the limit on switches or on CA ports

A fabric has at most 64 switches, and at most 256 ports of CAs, cabled or not. `import`, `audit`,
`load --dump`, `audit-keys`, `shares` and `diff` simulate nothing: there the limits are 5,000 switches
and 44,000 ports of CAs. Of what ibnetdiscover printed `audit` and `load --dump` take any number. The
line of the first node over a limit is reported.

For this topology, in which `...` is the lines between, the program prints
`fault TF10 topology line 34`:

    switch A 1 4
    adapter h1 10 8
    adapter h2 20 8
    ...
    adapter h33 330 8
    cable A/1 h1/1
    sm h1/1

Corrected:

    switch A 1 4
    adapter h1 10 8
    adapter h2 20 8
    ...
    adapter h32 320 8
    cable A/1 h1/1
    sm h1/1
";

pub const TF11: &str = "\
TF11: the SM port has no cable

The port that the line `sm` names has a cable, by a line above it or below. The line `sm` is
reported, after the last line.

For this topology the program prints `fault TF11 topology line 3`:

    switch A 0x10 4
    adapter h 0x20 1
    sm h/1

Corrected:

    switch A 0x10 4
    adapter h 0x20 1
    sm h/1
    cable A/1 h/1
";

pub const TF12: &str = "\
TF12: the root is not a switch

A line `root` names a switch: routes go up towards the roots, and CAs forward nothing.

For this topology the program prints `fault TF12 topology line 5`:

    switch A 0x10 4
    adapter h 0x20 1
    cable A/1 h/1
    sm h/1
    root h

Corrected:

    switch A 0x10 4
    adapter h 0x20 1
    cable A/1 h/1
    sm h/1
    root A
";
