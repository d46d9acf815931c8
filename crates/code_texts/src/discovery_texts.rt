//! Errors in the output of `ibnetdiscover`, and in the topology that is made from it.

pub const ND1: &str = "\
ND1: ibnetdiscover prints no such line

A line is empty, a comment, `WORD=VALUE`, the header of a node, a line of one of its ports, or a
heading of a chassis, as ibnetdiscover prints them, also with its options -f, -g and -m. Other lines
are refused, such as those that its options -l, -p and -s print. So is what it writes on standard
error, as `ibwarn: ..`: keep that apart, by `ibnetdiscover >discovered 2>errors`. If ibnetdiscover fails,
it prints `ibnetdiscover: iberror: failed: discover failed` in place of the nodes: what it wrote on
standard error says why. A byte order mark at the start of the file is refused too: save the file as
UTF-8 without one. `import` and `audit-keys` take neither a topology nor a dump here.

For this input the program prints `fault ND1 netdiscover line 4`, since port 1 of A leads to no
node:

    # Initiated from node 0000000000000020 port 0000000000000021
    switchguid=0x10(10)
    Switch 4 \"S-0000000000000010\" # \"A\" base port 0 lid 2 lmc 0
    [1] [1](21) # \"h\" lid 1 4xSDR
    Ca 1 \"H-0000000000000020\" # \"h\"
    [1](21) \"S-0000000000000010\"[1] # lid 1 lmc 0 \"A\" lid 2 4xSDR

Corrected:

    # Initiated from node 0000000000000020 port 0000000000000021
    switchguid=0x10(10)
    Switch 4 \"S-0000000000000010\" # \"A\" base port 0 lid 2 lmc 0
    [1] \"H-0000000000000020\"[1](21) # \"h\" lid 1 4xSDR
    Ca 1 \"H-0000000000000020\" # \"h\"
    [1](21) \"S-0000000000000010\"[1] # lid 1 lmc 0 \"A\" lid 2 4xSDR
";

pub const ND2: &str = "\
ND2: the node has no such port, or the port has a line already

A line of a port is below the header of its node, its number is from 1 to the number of ports in
that header, and no two lines of a node are of one port. ibnetdiscover prints no such text: the file
was edited, or two runs are in it. Run ibnetdiscover again.

For this input the program prints `fault ND2 netdiscover line 4`:

    # Initiated from node 0000000000000020 port 0000000000000021
    switchguid=0x10(10)
    Switch 4 \"S-0000000000000010\" # \"A\" base port 0 lid 2 lmc 0
    [5] \"H-0000000000000020\"[1](21) # \"h\" lid 1 4xSDR
    Ca 1 \"H-0000000000000020\" # \"h\"
    [1](21) \"S-0000000000000010\"[5] # lid 1 lmc 0 \"A\" lid 2 4xSDR

Corrected:

    # Initiated from node 0000000000000020 port 0000000000000021
    switchguid=0x10(10)
    Switch 4 \"S-0000000000000010\" # \"A\" base port 0 lid 2 lmc 0
    [4] \"H-0000000000000020\"[1](21) # \"h\" lid 1 4xSDR
    Ca 1 \"H-0000000000000020\" # \"h\"
    [1](21) \"S-0000000000000010\"[4] # lid 1 lmc 0 \"A\" lid 2 4xSDR
";

pub const ND3: &str = "\
ND3: the GUID is used already, or the line switchguid has another

No two nodes have the same GUID, and no two ports, port 0 of a switch included; a port may have the
GUID of its node. A line `switchguid` has the GUID of the switch whose header is below it. If two
runs are in the file, keep one of them. Else two devices have one GUID: look for both, and set one of
them right.

For this input the program prints `fault ND3 netdiscover line 8`, since i's port has the GUID
of h's:

    # Initiated from node 0000000000000020 port 0000000000000021
    switchguid=0x10(10)
    Switch 4 \"S-0000000000000010\" # \"A\" base port 0 lid 2 lmc 0
    [1] \"H-0000000000000020\"[1](21) # \"h\" lid 1 4xSDR
    Ca 1 \"H-0000000000000020\" # \"h\"
    [1](21) \"S-0000000000000010\"[1] # lid 1 lmc 0 \"A\" lid 2 4xSDR
    Ca 1 \"H-0000000000000030\" # \"i\"
    [1](21) \"S-0000000000000010\"[2] # lid 3 lmc 0 \"A\" lid 2 4xSDR

Corrected:

    # Initiated from node 0000000000000020 port 0000000000000021
    switchguid=0x10(10)
    Switch 4 \"S-0000000000000010\" # \"A\" base port 0 lid 2 lmc 0
    [1] \"H-0000000000000020\"[1](21) # \"h\" lid 1 4xSDR
    [2] \"H-0000000000000030\"[1](31) # \"i\" lid 3 4xSDR
    Ca 1 \"H-0000000000000020\" # \"h\"
    [1](21) \"S-0000000000000010\"[1] # lid 1 lmc 0 \"A\" lid 2 4xSDR
    Ca 1 \"H-0000000000000030\" # \"i\"
    [1](31) \"S-0000000000000010\"[2] # lid 3 lmc 0 \"A\" lid 2 4xSDR
";

pub const ND4: &str = "\
ND4: the two ends of the cable disagree

Each cable has a line at both its ends: the node and the port that a line leads to have a line that
leads back, and both have the same GUID of the CA's port. The first line for which that is not so is
reported, after the last line. A link that came up, went down or was moved while ibnetdiscover ran
has that effect: run it again. If the line is reported again, look at this cable.

For this input the program prints `fault ND4 netdiscover line 4`:

    # Initiated from node 0000000000000020 port 0000000000000021
    switchguid=0x10(10)
    Switch 4 \"S-0000000000000010\" # \"A\" base port 0 lid 2 lmc 0
    [1] \"H-0000000000000020\"[1](21) # \"h\" lid 1 4xSDR
    Ca 1 \"H-0000000000000020\" # \"h\"
    [1](21) \"S-0000000000000010\"[2] # lid 1 lmc 0 \"A\" lid 2 4xSDR

Corrected:

    # Initiated from node 0000000000000020 port 0000000000000021
    switchguid=0x10(10)
    Switch 4 \"S-0000000000000010\" # \"A\" base port 0 lid 2 lmc 0
    [1] \"H-0000000000000020\"[1](21) # \"h\" lid 1 4xSDR
    Ca 1 \"H-0000000000000020\" # \"h\"
    [1](21) \"S-0000000000000010\"[1] # lid 1 lmc 0 \"A\" lid 2 4xSDR
";

pub const ND5: &str = "\
ND5: the GUID that the CA would get is 0, or that of a switch

In a topology, port p of a CA of GUID g has the GUID g + p. So that ports keep their GUIDs, those of
consecutive GUIDs become one CA, whose GUID is one less than that of the first. No switch has that
GUID, and it is not 0. The line of the first port is reported, with its GUID and that of the CA. Such
a fabric cannot be imported. `fabric audit` and `fabric audit-keys` take what ibnetdiscover printed
of it.

For this input the program prints
`fault ND5 netdiscover line 6 0x0000000000000011 0x0000000000000010`:

    # Initiated from node 0000000000000020 port 0000000000000011
    switchguid=0x10(10)
    Switch 4 \"S-0000000000000010\" # \"A\" base port 0 lid 2 lmc 0
    [1] \"H-0000000000000020\"[1](11) # \"h\" lid 1 4xSDR
    Ca 1 \"H-0000000000000020\" # \"h\"
    [1](11) \"S-0000000000000010\"[1] # lid 1 lmc 0 \"A\" lid 2 4xSDR

Corrected, for a fabric in which the port has another GUID:

    # Initiated from node 0000000000000020 port 0000000000000021
    switchguid=0x10(10)
    Switch 4 \"S-0000000000000010\" # \"A\" base port 0 lid 2 lmc 0
    [1] \"H-0000000000000020\"[1](21) # \"h\" lid 1 4xSDR
    Ca 1 \"H-0000000000000020\" # \"h\"
    [1](21) \"S-0000000000000010\"[1] # lid 1 lmc 0 \"A\" lid 2 4xSDR
";

pub const ND6: &str = "\
ND6: the SM port is not named, or not in the fabric

The option `--sm GUID`, or else the comment `Initiated from node NODE port PORT` that ibnetdiscover
prints, has the GUID of the SM port. A CA has a port of that GUID, with a cable to a switch or a CA.
Line 0 is reported. `sminfo` prints the GUID of the port at which the subnet manager runs. The GUID of
a node may be no port's. If ibnetdiscover ran at a switch, give `--sm`.

For this input the program prints `fault ND6 netdiscover line 0`, since nothing names a port:

    switchguid=0x10(10)
    Switch 4 \"S-0000000000000010\" # \"A\" base port 0 lid 2 lmc 0
    [1] \"H-0000000000000020\"[1](21) # \"h\" lid 1 4xSDR
    Ca 1 \"H-0000000000000020\" # \"h\"
    [1](21) \"S-0000000000000010\"[1] # lid 1 lmc 0 \"A\" lid 2 4xSDR

Corrected; `fabric import --sm 0x21` would do, too:

    # Initiated from node 0000000000000020 port 0000000000000021
    switchguid=0x10(10)
    Switch 4 \"S-0000000000000010\" # \"A\" base port 0 lid 2 lmc 0
    [1] \"H-0000000000000020\"[1](21) # \"h\" lid 1 4xSDR
    Ca 1 \"H-0000000000000020\" # \"h\"
    [1](21) \"S-0000000000000010\"[1] # lid 1 lmc 0 \"A\" lid 2 4xSDR
";

pub const ND7: &str = "\
ND7: the topology describes another fabric

A topology is read again before it is printed. It is printed only if what is read has exactly the
end ports, with their GUIDs, the cables and the SM port of the input. No input is known that has
this code; one that has it shows a bug of this program.
";
