//! Errors in dumped MFTs (multicast forwarding tables).

/// The text `$before`, then MFTs for a topology of a switch and two CAs: what the program prints for them, the MFTs, and the
/// MFTs corrected.
macro_rules! with_mfts {
    ($before:literal, $printed:literal, $tables:literal) => {
        concat!(
            $before,
            "
With this topology

    switch A 0x10 4
    adapter h 0x20 1
    adapter i 0x30 1
    cable A/1 h/1
    cable A/2 i/1
    sm h/1

and its LFT, as `fabric explain FT1` shows it, for these MFTs the program prints `",
            $printed,
            "`:

",
            $tables,
            "
Corrected:

    Multicast mlids [0xc000-0xc3ff] of switch Lid 2 guid 0x0000000000000010 (A):
         Ports: 0 1 2 3 4
     MLid
    0xc000        x x
    0xc001        x
    2 valid mlids dumped
"
        )
    };
}

pub const FM1: &str = with_mfts!(
    "\
FM1: dump_fts -M prints no such line, or not here

An MFT is a heading, the titles, rows and the count of these, as dump_fts -M and dump_mfts of
infiniband-diags print them, with their option -a or without, and as `fabric tables` does. A row has two
columns for each port, from port 0 on, and `x` in the first of them if the port is in the mask. LFTs are
allowed between MFTs, and comments and empty lines anywhere. So is the line of a query that failed,
`ibroute: iberror: failed: ..`: an MFT that it breaks off does not count. What the tools write on standard
error is none of these: keep it apart, by `dump_fts -M >masks 2>errors`. Nor is a byte order mark at the
start of the file: save the file as UTF-8 without one. Tables of a range of MLIDs are refused.
",
    "fault FM1 mfts line 4",
    "    Multicast mlids [0xc000-0xc3ff] of switch Lid 2 guid 0x0000000000000010 (A):
         Ports: 0 1 2 3 4
     MLid
    0xc000        1 2
    0xc001        x
    2 valid mlids dumped
"
);

pub const FM2: &str = with_mfts!(
    "\
FM2: the switch has an MFT already

No two MFTs are of one switch, which the GUID of the heading names. Two runs stand in one file: keep the
later one.
",
    "fault FM2 mfts line 6",
    "    Multicast mlids [0xc000-0xc3ff] of switch Lid 2 guid 0x0000000000000010 (A):
         Ports: 0 1 2 3 4
     MLid
    0xc000        x x
    1 valid mlids dumped
    Multicast mlids [0xc000-0xc3ff] of switch Lid 2 guid 0x0000000000000010 (A):
         Ports: 0 1 2 3 4
     MLid
    0xc001        x
    1 valid mlids dumped
"
);

pub const FM3: &str = with_mfts!(
    "\
FM3: the MLID does not rise, or is not in the range of its MFT

In an MFT the MLIDs rise from row to row. Each is 0xc000 or above, not above the second number of the
heading, and not 0xffff. The tools print no such MFT: the file was edited, or lines of two runs are mixed.
",
    "fault FM3 mfts line 5",
    "    Multicast mlids [0xc000-0xc3ff] of switch Lid 2 guid 0x0000000000000010 (A):
         Ports: 0 1 2 3 4
     MLid
    0xc001        x
    0xc000        x x
    2 valid mlids dumped
"
);

pub const FM4: &str = with_mfts!(
    "\
FM4: the MFT has another number of rows

The last line of an MFT counts its rows. Rows that are lacking were lost on their way into the file: dump
again.
",
    "fault FM4 mfts line 5",
    "    Multicast mlids [0xc000-0xc3ff] of switch Lid 2 guid 0x0000000000000010 (A):
         Ports: 0 1 2 3 4
     MLid
    0xc000        x x
    2 valid mlids dumped
"
);

pub const FM5: &str = with_mfts!(
    "\
FM5: the file ends within an MFT, or has none

There is an MFT, and each ends with its count. Line 0 is reported. dump_fts -M was stopped before its end,
found no switch, or -M was left out: then it prints LFTs.
",
    "fault FM5 mfts line 0",
    "    Multicast mlids [0xc000-0xc3ff] of switch Lid 2 guid 0x0000000000000010 (A):
         Ports: 0 1 2 3 4
     MLid
    0xc000        x x
    0xc001        x
"
);
