//! Errors in dumped LFTs (linear forwarding tables).

/// The text `$before`, then tables for a topology of a switch and two CAs: what the program prints for them, the tables,
/// and the tables corrected.
macro_rules! with_tables {
    ($before:literal, $printed:literal, $tables:literal) => {
        concat!(
            $before,
            "
With this topology

    switch A 0x10 4
    adapter h 0x20 1
    adapter i 0x30 1
    cable A/1 h/1
    cable A/2 i/1
    sm h/1

for these tables the program prints `",
            $printed,
            "`:

",
            $tables,
            "
Corrected:

    Unicast lids [0x0-0x3] of switch Lid 2 guid 0x0000000000000010 (A):
      Lid  Out   Destination
           Port     Info
    0x0001 001 : (Channel Adapter portguid 0x0000000000000021: 'h')
    0x0002 000 : (Switch portguid 0x0000000000000010: 'A')
    0x0003 002 : (Channel Adapter portguid 0x0000000000000031: 'i')
    3 valid lids dumped
"
        )
    };
}

pub const FT1: &str = with_tables!(
    "\
FT1: dump_fts prints no such line, or not here

A table is a heading, two lines of titles, rows and the count of these, as dump_fts and ibroute of
infiniband-diags print them, with their option -a or without, and as `fabric tables` does. Multicast
tables are allowed between tables, and comments and empty lines anywhere. So is the line of a query that
failed, `ibroute: iberror: failed: ..`: a table that it breaks off does not count. What the tools write on
standard error, as `ibwarn: ..`, is none of these: keep it apart, by `dump_fts >tables 2>errors`. Nor is a
byte order mark at the start of the file: save the file as UTF-8 without one. The file that OpenSM itself
writes has another format. A dump shows no virtual lanes: without `--sl2vl`, `fabric audit` judges routes
as if all packets used one virtual lane. The multicast tables here are passed over: give them by `--mft`.
",
    "fault FT1 dump line 4",
    "    Unicast lids [0x0-0x3] of switch Lid 2 guid 0x0000000000000010 (A):
      Lid  Out   Destination
           Port     Info
    0x0001 001 # Channel Adapter portguid 0x0000000000000021: 'h'
    0x0002 000 : (Switch portguid 0x0000000000000010: 'A')
    0x0003 002 : (Channel Adapter portguid 0x0000000000000031: 'i')
    3 valid lids dumped
"
);

pub const FT2: &str = with_tables!(
    "\
FT2: the row does not say whose its LID is

Each row says whose its LID is; without that, nobody knows where its entries have to lead. The
option -n of dump_fts leaves it out: dump the tables without -n.
",
    "fault FT2 dump line 4",
    "    Unicast lids [0x0-0x3] of switch Lid 2 guid 0x0000000000000010 (A):
      Lid  Out   Destination
           Port     Info
    0x0001 001
    0x0002 000
    0x0003 002
    3 valid lids dumped
"
);

pub const FT3: &str = with_tables!(
    "\
FT3: the switch has a table already

The GUID of the heading names the switch. A table that `ibroute LID` printed, headed by `switch Lid`,
may follow that of dump_fts, headed by `switch DR path`, and counts in its place: it has rows that
dump_fts leaves out. No other two tables are of one switch.
",
    "fault FT3 dump line 8",
    "    Unicast lids [0x0-0x3] of switch Lid 2 guid 0x0000000000000010 (A):
      Lid  Out   Destination
           Port     Info
    0x0001 001 : (Channel Adapter portguid 0x0000000000000021: 'h')
    0x0002 000 : (Switch portguid 0x0000000000000010: 'A')
    0x0003 002 : (Channel Adapter portguid 0x0000000000000031: 'i')
    3 valid lids dumped
    Unicast lids [0x0-0x3] of switch Lid 2 guid 0x0000000000000010 (A):
      Lid  Out   Destination
           Port     Info
    0x0001 001 : (Channel Adapter portguid 0x0000000000000021: 'h')
    0x0002 000 : (Switch portguid 0x0000000000000010: 'A')
    0x0003 002 : (Channel Adapter portguid 0x0000000000000031: 'i')
    3 valid lids dumped
"
);

pub const FT4: &str = with_tables!(
    "\
FT4: the LID does not rise, or is above the top of its table

In a table the LIDs rise from row to row, and none is above the top, which is the second number of
the heading. The tools print no such table: the file was edited, or lines of two runs are mixed.
",
    "fault FT4 dump line 6",
    "    Unicast lids [0x0-0x3] of switch Lid 2 guid 0x0000000000000010 (A):
      Lid  Out   Destination
           Port     Info
    0x0001 001 : (Channel Adapter portguid 0x0000000000000021: 'h')
    0x0003 002 : (Channel Adapter portguid 0x0000000000000031: 'i')
    0x0002 000 : (Switch portguid 0x0000000000000010: 'A')
    3 valid lids dumped
"
);

pub const FT5: &str = with_tables!(
    "\
FT5: the table has another number of rows

The last line of a table counts its rows: `N valid lids dumped` those with another port than 255,
`N lids dumped` all of them. Rows that are lacking were lost on their way into the file: dump again.
",
    "fault FT5 dump line 6",
    "    Unicast lids [0x0-0x3] of switch Lid 2 guid 0x0000000000000010 (A):
      Lid  Out   Destination
           Port     Info
    0x0001 001 : (Channel Adapter portguid 0x0000000000000021: 'h')
    0x0002 000 : (Switch portguid 0x0000000000000010: 'A')
    3 valid lids dumped
"
);

pub const FT6: &str = with_tables!(
    "\
FT6: the file ends within a table, or has none

There is a table, and each table ends with its count. Line 0 is reported. dump_fts was stopped before
its end, or found no switch: what it wrote on standard error, or a line `.. iberror: failed: ..` of the
file, says why.
",
    "fault FT6 dump line 0",
    "    Unicast lids [0x0-0x3] of switch Lid 2 guid 0x0000000000000010 (A):
      Lid  Out   Destination
           Port     Info
    0x0001 001 : (Channel Adapter portguid 0x0000000000000021: 'h')
    0x0002 000 : (Switch portguid 0x0000000000000010: 'A')
    0x0003 002 : (Channel Adapter portguid 0x0000000000000031: 'i')
"
);

pub const FT7: &str = with_tables!(
    "\
FT7: an earlier row has the LID for another end port

All rows of a LID that have a GUID have the same one, in all tables. Tables that were dumped at
different times may disagree: dump all of them in one run.
",
    "fault FT7 dump line 12",
    "    Unicast lids [0x0-0x3] of switch Lid 2 guid 0x0000000000000010 (A):
      Lid  Out   Destination
           Port     Info
    0x0001 001 : (Channel Adapter portguid 0x0000000000000021: 'h')
    0x0002 000 : (Switch portguid 0x0000000000000010: 'A')
    0x0003 002 : (Channel Adapter portguid 0x0000000000000031: 'i')
    3 valid lids dumped
    Unicast lids [0x0-0x3] of switch Lid 3 guid 0x0000000000000011 (B):
      Lid  Out   Destination
           Port     Info
    0x0001 001 : (Channel Adapter portguid 0x0000000000000021: 'h')
    0x0002 003 : (Switch portguid 0x0000000000000012: 'C')
    0x0003 002 : (Channel Adapter portguid 0x0000000000000031: 'i')
    3 valid lids dumped
"
);
