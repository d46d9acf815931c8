//! Errors in P_Key tables that `smpquery` prints.

/// The text `$before`, then a fabric of a switch and a CA: what the program prints for them, the tables, and the tables
/// corrected.
macro_rules! with_answers {
    ($before:literal, $printed:literal, $answers:literal) => {
        concat!(
            $before,
            "
With this output of ibnetdiscover

    # Initiated from node 0000000000000020 port 0000000000000021
    switchguid=0x10(10)
    Switch 4 \"S-0000000000000010\" # \"A\" base port 0 lid 2 lmc 0
    [1] \"H-0000000000000020\"[1](21) # \"h\" lid 1 4xSDR
    Ca 1 \"H-0000000000000020\" # \"h\"
    [1](21) \"S-0000000000000010\"[1] # lid 1 lmc 0 \"A\" lid 2 4xSDR

for these answers the program prints `",
            $printed,
            "`:

",
            $answers,
            "
Corrected:

    # smpquery pkeys 1 1
       0: 0xffff 0x0000 0x0000 0x0000 0x0000 0x0000 0x0000 0x0000
    8 pkeys capacity for this port
    # smpquery portinfo 2 1
    # Port info: Lid 2 port 1
    PartEnforceInb:..................0
    PartEnforceOutb:.................0
"
        )
    };
}

pub const KT1: &str = with_answers!(
    "\
KT1: smpquery prints no such line, or not here

Before the lines that each query printed there is a line `# smpquery QUERY LID [PORT]`, as
tools/collect-keys writes it. QUERY is nodeinfo, switchinfo, pkeys or portinfo. No field stands twice.
In the arguments PKEYS stand before PARTS. A byte order mark at the start of the file is refused: save the
file as UTF-8 without one.
",
    "fault KT1 pkeys line 1",
    "       0: 0xffff 0x0000 0x0000 0x0000 0x0000 0x0000 0x0000 0x0000
    8 pkeys capacity for this port
"
);

pub const KT2: &str = with_answers!(
    "\
KT2: the same query stands before

The file of one collection has each query once. Do not append a second collection to the first.
",
    "fault KT2 pkeys line 4",
    "    # smpquery pkeys 1 1
       0: 0xffff 0x0000 0x0000 0x0000 0x0000 0x0000 0x0000 0x0000
    8 pkeys capacity for this port
    # smpquery pkeys 1 1
       0: 0xffff 0x0000 0x0000 0x0000 0x0000 0x0000 0x0000 0x0000
    8 pkeys capacity for this port
"
);

pub const KT3: &str = with_answers!(
    "\
KT3: the answer is that of another LID or port

The title of an answer, as `# Port info: Lid 2 port 1`, names the LID and the port of its query.
",
    "fault KT3 pkeys line 2",
    "    # smpquery portinfo 2 1
    # Port info: Lid 2 port 3
    PartEnforceInb:..................0
    PartEnforceOutb:.................0
"
);

pub const KT4: &str = with_answers!(
    "\
KT4: the rows of the table do not fit together, or not its capacity

A row begins with the index of its first key: 0, 8, 16 and so on. The rows go to the capacity,
rounded up to 8.
",
    "fault KT4 pkeys line 3",
    "    # smpquery pkeys 1 1
       0: 0xffff 0x0000 0x0000 0x0000 0x0000 0x0000 0x0000 0x0000
    64 pkeys capacity for this port
"
);

pub const KT5: &str = "\
KT5: the file has no query

The file has at least one line `# smpquery QUERY LID [PORT]`, as tools/collect-keys writes it. Line 0
is reported.
";
