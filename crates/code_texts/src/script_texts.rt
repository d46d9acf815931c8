//! Errors in a script, and the refusals that a report names.

/// The text `$before`, then a script for this topology: what the program prints for it, the script, and the script
/// corrected.
macro_rules! with_script_over {
    ($topology:literal, $before:literal, $printed:literal, $script:literal, $mended:literal) => {
        concat!(
            $before,
            "
With this topology, and `-` for PARTS,

",
            $topology,
            "
for this script the program prints `",
            $printed,
            "`:

    ",
            $script,
            "

Corrected:

    ",
            $mended,
            "\n"
        )
    };
}

/// The same for a topology of a switch and two CAs.
macro_rules! with_script {
    ($before:literal, $printed:literal, $script:literal, $mended:literal) => {
        with_script_over!(
            "    switch A 0x10 4
    adapter h 0x20 1
    adapter i 0x30 2
    cable A/1 h/1
    cable A/2 i/1
    sm h/1
",
            $before,
            $printed,
            $script,
            $mended
        )
    };
}

pub const SF1: &str = with_script!(
    "\
SF1: the line is malformed

A line is empty, `send PORT DLID PKEY QP PAYLOAD`, `cut PORT PORT` or `mend PORT PORT` with exactly
these arguments, or `ask PORT METHOD ATTR TID` with any arguments after these; a comment may follow.
METHOD is `get`, `table`, `set` or `delete`, and ATTR is `node`, `path`, `member` or `service`.
Outside comments only printable ASCII, blanks and tabs are allowed; a CR is allowed only before LF
or a comment. So a byte order mark at the start of the file is refused: save the file as UTF-8 without
one.
",
    "fault SF1 script line 1",
    "sent i/1 1 0xffff 7 1:01",
    "send i/1 1 0xffff 7 1:01"
);

pub const SF2: &str = with_script!(
    "\
SF2: there is no such port

PORT is `NAME/NUMBER`, and the topology has a CA NAME with a port NUMBER; a script sends nothing
from a switch. The PORT of `fabric trace` and of `fabric compare` is a port of a CA too; that of
`fabric shares` may also be port 0 of a switch.
",
    "fault SF2 script line 1",
    "send i1 1 0xffff 7 1:01",
    "send i/1 1 0xffff 7 1:01"
);

pub const SF3: &str = with_script!(
    "\
SF3: the port is the SM port

PORT is not the port on the line `sm` of the topology: a script sends nothing from that one.
",
    "fault SF3 script line 1",
    "send h/1 3 0xffff 7 1:01",
    "send i/1 3 0xffff 7 1:01"
);

pub const SF4: &str = with_script!(
    "\
SF4: the port has no cable

PORT has a cable in the topology. The same holds for the PORT of `fabric shares`, of `fabric trace`
and of `fabric compare`.
",
    "fault SF4 script line 1",
    "send i/2 1 0xffff 7 1:01",
    "send i/1 1 0xffff 7 1:01"
);

pub const SF5: &str = with_script!(
    "\
SF5: the payload is longer than 256 bytes

PAYLOAD of a line `send` is `N:HEX`, and N is at most 256, however few digits follow it.
",
    "fault SF5 script line 1",
    "send i/1 1 0xffff 7 257:01",
    "send i/1 1 0xffff 7 256:01"
);

pub const SF6: &str = with_script!(
    "\
SF6: an argument is malformed or out of range

In a line `send`, DLID and PKEY are numbers of 16 bits, QP is one of 24, and PAYLOAD is `N:HEX`: HEX
is two hexadecimal digits for each of at most N bytes. In a line `ask`, TID is `tid=` and a number
of 64 bits, and each argument after it is FIELD=VALUE: FIELD is a field of ATTR, each given at most
once, and VALUE is a number of as many bits as the field has, or for the field `name` of a service
`N:HEX`, with N at most 64. Numbers are decimal, or `0x` and hexadecimal digits.
",
    "fault SF6 script line 1",
    "send i/1 1 0xffff 7 1:0102",
    "send i/1 1 0xffff 7 2:0102"
);

pub const SF7: &str = with_script_over!(
    "    switch A 0x10 4
    switch B 0x20 4
    adapter h 0x30 1
    cable A/1 h/1
    cable A/2 B/2
    cable A/3 B/3
    sm h/1
",
    "\
SF7: there is no such cable between two switches

A line `cut PORT PORT` takes a link down, and `mend PORT PORT` brings it up. Each PORT is
`NAME/NUMBER`, and the topology has a switch NAME with a port NUMBER; a cable of the topology
connects these two ports, whichever is named first. A cable to a CA cannot be cut. The same holds
for the two PORTs of `fabric cuts`.
",
    "fault SF7 script line 1",
    "cut A/1 h/1",
    "cut B/2 A/2"
);

pub const AR1: &str = with_script!(
    "\
AR1: the port does not hold this P_Key

PKEY is a P_Key of the port that sends, bit for bit: a full member's is 0x8000 more than the base of
its partition, a limited member's is the base alone. `fabric check` lists them.
",
    "i/1 refused AR1",
    "send i/1 1 0x7fff 7 1:01",
    "send i/1 1 0xffff 7 1:01"
);

pub const AR2: &str = with_script!(
    "\
AR2: the packet is for queue pair 0

QP is not 0: only subnet management packets go to queue pair 0.
",
    "i/1 refused AR2",
    "send i/1 1 0xffff 0 1:01",
    "send i/1 1 0xffff 7 1:01"
);

pub const AR3: &str = with_script!(
    "\
AR3: the destination LID is 0 or 0xffff

DLID is neither 0, which no port can have, nor 0xffff, the permissive LID, which only directed-route
packets have. Any other LID may be sent to, whether a port has it or not.
",
    "i/1 refused AR3",
    "send i/1 0 0xffff 7 1:01",
    "send i/1 1 0xffff 7 1:01"
);

pub const AR4: &str = "\
AR4: the port is not Active

Only a port in the state Active sends data. A port with a cable is Active once its subnet is brought
up, and a script sends nothing from one without a cable (SF4), so no script leads to this code.
";
