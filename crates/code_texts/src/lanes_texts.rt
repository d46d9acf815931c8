//! Errors in SL-to-VL mapping tables and path records.

/// The text `$before`, then tables and records for a topology of a switch and two CAs: what the program prints for them, the
/// tables and records, and the same corrected.
macro_rules! with_lanes {
    ($before:literal, $printed:literal, $lanes:literal) => {
        concat!(
            $before,
            "
With this topology

    switch A 0x10 4
    adapter h 0x20 1
    adapter i 0x30 1
    cable A/1 h/1
    cable A/2 i/1
    sm h/1

and its LFT, as `fabric explain FT1` shows it, for these tables and records the program prints `",
            $printed,
            "`:

",
            $lanes,
            "
Corrected:

    # SL2VL table: Lid 2
    ports: in  2, out  1: | 0| 1| 2| 3| 4| 5| 6| 7| 0| 1| 2| 3| 4| 5| 6| 7|
    ports: in  1, out  2: | 0| 1| 2| 3| 4| 5| 6| 7| 0| 1| 2| 3| 4| 5| 6| 7|
    PathRecord dump:
    \t\tdlid....................3
    \t\tslid....................1
    \t\tsl......................0x0
    PathRecord dump:
    \t\tdlid....................1
    \t\tslid....................3
    \t\tsl......................0x0
"
        )
    };
}

pub const FV1: &str = with_lanes!(
    "\
FV1: smpquery sl2vl or saquery PR prints no such line, or not here

The file has SL-to-VL mapping tables, as `smpquery sl2vl LID PORT` prints them, and path records, as
`saquery PR` does, in any order. A row of a table has the VLs of all 16 SLs, each at most 15, and stands
behind the heading `# SL2VL table: Lid LID`. The fields of a record stand behind `PathRecord dump:`, each
behind two tabs: a LID is decimal, an SL hexadecimal and at most 0xf. Empty lines are allowed anywhere,
and so are other lines that begin with `#`. The line of a query that failed, `smpquery: iberror: failed:
..`, is allowed anywhere except in a record that still lacks its slid, dlid or sl. What the tools write on
standard error is none of these: keep it apart, by `2>errors`. Nor is a byte order mark at the start of
the file: save the file as UTF-8 without one.
",
    "fault FV1 lanes line 3",
    "    # SL2VL table: Lid 2
    ports: in  2, out  1: | 0| 1| 2| 3| 4| 5| 6| 7| 0| 1| 2| 3| 4| 5| 6| 7|
    ports: in  1, out  2: | 0| 1| 2| 3|
    PathRecord dump:
    \t\tdlid....................3
    \t\tslid....................1
    \t\tsl......................0x0
    PathRecord dump:
    \t\tdlid....................1
    \t\tslid....................3
    \t\tsl......................0x0
"
);

pub const FV2: &str = with_lanes!(
    "\
FV2: the LID has a row for these two ports already

A LID has one row for each port at which packets come in and each port by which they leave. Two runs
stand in one file: keep the later one.
",
    "fault FV2 lanes line 4",
    "    # SL2VL table: Lid 2
    ports: in  2, out  1: | 0| 1| 2| 3| 4| 5| 6| 7| 0| 1| 2| 3| 4| 5| 6| 7|
    ports: in  1, out  2: | 0| 1| 2| 3| 4| 5| 6| 7| 0| 1| 2| 3| 4| 5| 6| 7|
    ports: in  1, out  2: | 0| 1| 2| 3| 4| 5| 6| 7| 0| 1| 2| 3| 4| 5| 6| 7|
    PathRecord dump:
    \t\tdlid....................3
    \t\tslid....................1
    \t\tsl......................0x0
    PathRecord dump:
    \t\tdlid....................1
    \t\tslid....................3
    \t\tsl......................0x0
"
);

pub const FV3: &str = with_lanes!(
    "\
FV3: the table does not say the LID of its switch

The heading of a table that was asked for by a directed route (option -D of smpquery) has the route, and
no LID. Ask by the LID: `smpquery sl2vl LID PORT`.
",
    "fault FV3 lanes line 1",
    "    # SL2VL table: DR path slid 65535; dlid 65535; 0,1
    ports: in  2, out  1: | 0| 1| 2| 3| 4| 5| 6| 7| 0| 1| 2| 3| 4| 5| 6| 7|
    ports: in  1, out  2: | 0| 1| 2| 3| 4| 5| 6| 7| 0| 1| 2| 3| 4| 5| 6| 7|
    PathRecord dump:
    \t\tdlid....................3
    \t\tslid....................1
    \t\tsl......................0x0
    PathRecord dump:
    \t\tdlid....................1
    \t\tslid....................3
    \t\tsl......................0x0
"
);

pub const FV4: &str = with_lanes!(
    "\
FV4: the path record has this field already

A path record has one slid, one dlid and one sl. Its heading `PathRecord dump:` was lost on the way into
the file: ask the SA again.
",
    "fault FV4 lanes line 7",
    "    # SL2VL table: Lid 2
    ports: in  2, out  1: | 0| 1| 2| 3| 4| 5| 6| 7| 0| 1| 2| 3| 4| 5| 6| 7|
    ports: in  1, out  2: | 0| 1| 2| 3| 4| 5| 6| 7| 0| 1| 2| 3| 4| 5| 6| 7|
    PathRecord dump:
    \t\tdlid....................3
    \t\tslid....................1
    \t\tdlid....................1
    \t\tslid....................3
    \t\tsl......................0x0
"
);

pub const FV5: &str = with_lanes!(
    "\
FV5: the path record lacks its slid, its dlid or its sl

A path record ends at the next heading, or at the end of the file. Until then it has a slid, a dlid and
an sl. The line of its own heading is reported. A line was lost on the way into the file: ask the SA
again.
",
    "fault FV5 lanes line 4",
    "    # SL2VL table: Lid 2
    ports: in  2, out  1: | 0| 1| 2| 3| 4| 5| 6| 7| 0| 1| 2| 3| 4| 5| 6| 7|
    ports: in  1, out  2: | 0| 1| 2| 3| 4| 5| 6| 7| 0| 1| 2| 3| 4| 5| 6| 7|
    PathRecord dump:
    \t\tdlid....................3
    \t\tslid....................1
    PathRecord dump:
    \t\tdlid....................1
    \t\tslid....................3
    \t\tsl......................0x0
"
);

pub const FV6: &str = with_lanes!(
    "\
FV6: the file has neither a row of a table nor a path record

There is a row or a record. Line 0 is reported. Neither smpquery nor saquery got an answer: what they
write on standard error says why.
",
    "fault FV6 lanes line 0",
    "    # SL2VL table: Lid 2
"
);
