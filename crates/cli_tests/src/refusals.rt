//! Files and outputs that fail, and arguments that are refused.

use crate::calls::{Answer, RUN, plain, read_so, reported, sink};
use crate::fixtures::{FAULTY, FIRST, REPORT, SENDS};
use crate::memory::{Manner, Refusal, Source};
use std::alloc::{AllocError, Global};
use std::process::Abort;
use std::test::Fail;
use test_fabrics::TWO_SWITCHES;

/// The names of the topology, the partition file and the script; the status, both outputs, and how many files
/// were opened.
const READ: [([&str; 3], u8, &str, &str, usize); 13] = [
    (["net", "-", "sends"], 0, REPORT, "", 2),
    (
        ["net", "-", "faulty"],
        1,
        FIRST,
        "fault SF1 script line 2\n",
        2,
    ),
    (["net", "-", "slow"], 0, REPORT, "", 2),
    (["net", "-", "long"], 0, "", "", 2),
    (["net", "-", "endless"], 3, "", "fault read endless\n", 2),
    (["absent", "-", "gone"], 3, "", "fault read absent\n", 1),
    (["net", "absent", "gone"], 3, "", "fault read absent\n", 2),
    (["bad", "-", "gone"], 3, "", "fault read gone\n", 2),
    (["failing", "-", "sends"], 3, "", "fault read failing\n", 1),
    (
        ["net", "failing", "sends"],
        3,
        "",
        "fault read failing\n",
        2,
    ),
    (["net", "-", "failing"], 3, "", "fault read failing\n", 2),
    (
        ["net", "bad", "sends"],
        1,
        "",
        "fault PF8 partitions line 1\n",
        3,
    ),
    (
        ["bad", "bad", "sends"],
        1,
        "",
        "fault TF1 topology line 1\n",
        3,
    ),
];

#[test]
fn files_that_are_not_read(rt: HostRuntime) -> Result<(), Fail> {
    let comment = vec![in rt.alloc(); b'#'; 1_048_576]?;
    let files = [
        ("net", plain(TWO_SWITCHES.as_bytes())),
        ("sends", plain(SENDS.as_bytes())),
        ("faulty", plain(FAULTY.as_bytes())),
        ("bad", plain(b"swich")),
        ("slow", read_so(Manner::Interrupted, SENDS.as_bytes())),
        ("failing", read_so(Manner::Failing, SENDS.as_bytes())),
        ("long", read_so(Manner::Dripping, &comment[1..])),
        ("endless", read_so(Manner::Dripping, &comment)),
    ];
    for row in READ {
        is_answered(&rt, rt.alloc(), &files, row)?;
    }
    Ok(())
}

fn is_answered(
    rt: &impl Abort,
    alloc: Global,
    files: &[(&str, Source<'_>)],
    row: ([&str; 3], u8, &str, &str, usize),
) -> Result<(), Fail> {
    let ([topology, partitions, script], status, out, err, opened) = row;
    let words = ["fabric", "run", topology, partitions, script];
    let mut sink = sink(alloc, 1000, Refusal::Broken, true);
    let reported = reported(alloc, &words, files, &mut sink)?;
    assert_eq!(rt; reported.status, status, "at {words:?}");
    assert_eq!(rt; reported.out.as_slice(), out.as_bytes(), "at {words:?}");
    assert_eq!(rt; reported.err.as_slice(), err.as_bytes(), "at {words:?}");
    assert_eq!(rt;
        reported.opened.ok_or("the names")?.len(),
        opened,
        "at {words:?}"
    );
    Ok(())
}

/// A topology and a partition file that fail at one read, each in turn, though the next would bring the next byte.
#[test]
fn files_that_fail_at_one_read(rt: HostRuntime) -> Result<(), Fail> {
    let topology = TWO_SWITCHES.as_bytes();
    for reads in 1..topology.len() + 2 {
        let files = [
            ("net", read_so(Manner::FailingAt(reads), topology)),
            ("parts", plain(PARTS)),
            ("sends", plain(SENDS.as_bytes())),
        ];
        is_unread(&rt, rt.alloc(), &files, ("fault read net\n", "", 1))?;
    }
    for reads in 1..PARTS.len() + 2 {
        let files = [
            ("net", plain(topology)),
            ("parts", read_so(Manner::FailingAt(reads), PARTS)),
            ("sends", plain(SENDS.as_bytes())),
        ];
        is_unread(&rt, rt.alloc(), &files, ("fault read parts\n", "", 2))?;
    }
    Ok(())
}

/// A script that fails at one read, each in turn: the lines before that are carried out.
#[test]
fn a_script_that_fails_at_one_read(rt: HostRuntime) -> Result<(), Fail> {
    let script = SENDS.as_bytes();
    let first = script
        .iter()
        .position(|byte| *byte == b'\n')
        .ok_or("a line")?;
    for reads in 1..script.len() + 2 {
        let files = [
            ("net", plain(TWO_SWITCHES.as_bytes())),
            ("parts", plain(PARTS)),
            ("sends", read_so(Manner::FailingAt(reads), script)),
        ];
        let report = if reads <= first + 1 {
            ""
        } else if reads <= 2 * (first + 1) {
            FIRST
        } else {
            REPORT
        };
        is_unread(&rt, rt.alloc(), &files, ("fault read sends\n", report, 3))?;
    }
    Ok(())
}

/// Files that are read to their end, and in which manner. Those of `load` may be big: they are read in pieces of 4,096 bytes, so that
/// one of 4 GiB ends within the reads that a text is given.
const ALIKE: [(&[&str], Manner); 5] = [
    (
        &["fabric", "run", "net", "parts", "sends"],
        Manner::Interrupted,
    ),
    (
        &["fabric", "run", "net", "parts", "sends"],
        Manner::Dripping,
    ),
    (
        &["fabric", "load", "net", "--dump", "dump"],
        Manner::Interrupted,
    ),
    (
        &["fabric", "load", "net", "--dump", "dump"],
        Manner::Dripping,
    ),
    (&["fabric", "load", "net", "--dump", "dump"], Manner::Wide),
];

#[test]
fn files_that_are_read_to_their_end(rt: HostRuntime) -> Result<(), Fail> {
    for (words, manner) in ALIKE {
        let wanted = answered_so(rt.alloc(), words, Manner::Plain)?;
        let given = answered_so(rt.alloc(), words, manner)?;
        assert!(rt; wanted.status != 3, "of {words:?}");
        assert_eq!(rt; given.status, wanted.status, "of {words:?}");
        assert_eq!(rt; given.out.as_slice(), wanted.out.as_slice(), "of {words:?}");
        assert_eq!(rt; given.err.as_slice(), wanted.err.as_slice(), "of {words:?}");
    }
    Ok(())
}

/// What is returned and printed if all files are read so; the dump reports no switch.
fn answered_so(alloc: Global, words: &[&str], manner: Manner) -> Result<Answer, AllocError> {
    let files = [
        ("net", read_so(manner, TWO_SWITCHES.as_bytes())),
        ("parts", read_so(manner, PARTS)),
        ("sends", read_so(manner, SENDS.as_bytes())),
        ("dump", read_so(manner, b"")),
    ];
    let mut out = sink(alloc, 1000, Refusal::Broken, true);
    reported(alloc, words, &files, &mut out)
}

/// All ports are full members of the default partition.
const PARTS: &[u8] = b"Default=0x7fff, ipoib: ALL=full;\n";

/// The line of the file that cannot be read, the output until then, and how many files were opened.
fn is_unread(
    rt: &impl Abort,
    alloc: Global,
    files: &[(&str, Source<'_>)],
    unread: (&str, &str, usize),
) -> Result<(), Fail> {
    let (err, out, opened) = unread;
    let words = ["fabric", "run", "net", "parts", "sends"];
    let mut sink = sink(alloc, 1000, Refusal::Broken, true);
    let reported = reported(alloc, &words, files, &mut sink)?;
    let names = reported.opened.ok_or("the names")?;
    assert_eq!(rt; reported.status, 3, "of {err}");
    assert_eq!(rt; reported.out.as_slice(), out.as_bytes(), "of {err}");
    assert_eq!(rt; reported.err.as_slice(), err.as_bytes(), "of {err}");
    assert_eq!(rt; names.len(), opened, "of {err}");
    Ok(())
}

/// The report is of 94 bytes: eleven writes of eight bytes, and one of the rest.
const LAST: usize = 11;

/// The report of the script with an error is of 47 bytes: six writes.
const LAST_OF_FIRST: usize = 6;

/// After how many writes an output fails, how, whether it can be flushed, and the status.
const WRITTEN: [(usize, Refusal, bool, u8); 9] = [
    (0, Refusal::Broken, true, 3),
    (0, Refusal::Nothing, true, 3),
    (0, Refusal::Interrupted, true, 3),
    (1, Refusal::Broken, true, 3),
    (1, Refusal::Nothing, true, 3),
    (LAST, Refusal::Broken, true, 3),
    (LAST, Refusal::Interrupted, true, 3),
    (LAST + 1, Refusal::Broken, false, 3),
    (LAST + 1, Refusal::Broken, true, 0),
];

#[test]
fn output_that_is_not_written(rt: HostRuntime) -> Result<(), Fail> {
    let files = [
        ("net.topo", plain(TWO_SWITCHES.as_bytes())),
        ("sends", plain(SENDS.as_bytes())),
    ];
    for (writes, refusal, flushes, status) in WRITTEN {
        let mut sink = sink(rt.alloc(), writes, refusal, flushes);
        let reported = reported(rt.alloc(), &RUN, &files, &mut sink)?;
        let line: &str = if status == 0 { "" } else { "fault write\n" };
        let part = REPORT.as_bytes().get(..REPORT.len().min(8 * writes));
        assert_eq!(rt; reported.status, status, "after {writes} writes");
        assert_eq!(rt;
            reported.err.as_slice(),
            line.as_bytes(),
            "after {writes} writes"
        );
        assert_eq!(rt;
            Some(reported.out.as_slice()),
            part,
            "after {writes} writes"
        );
    }
    Ok(())
}

/// After how many writes an output fails, for the report of a script with an error; the status, and why.
const BROKEN: [(usize, u8, &str); 3] = [
    (0, 3, "fault write\n"),
    (LAST_OF_FIRST - 1, 3, "fault write\n"),
    (LAST_OF_FIRST, 1, "fault SF1 script line 2\n"),
];

#[test]
fn output_up_to_a_fault_that_is_not_written(rt: HostRuntime) -> Result<(), Fail> {
    let files = [
        ("net.topo", plain(TWO_SWITCHES.as_bytes())),
        ("sends", plain(FAULTY.as_bytes())),
    ];
    for (writes, status, line) in BROKEN {
        let mut sink = sink(rt.alloc(), writes, Refusal::Broken, true);
        let reported = reported(rt.alloc(), &RUN, &files, &mut sink)?;
        let part = FIRST.as_bytes().get(..FIRST.len().min(8 * writes));
        assert_eq!(rt; reported.status, status, "after {writes} writes");
        assert_eq!(rt;
            reported.err.as_slice(),
            line.as_bytes(),
            "after {writes} writes"
        );
        assert_eq!(rt;
            Some(reported.out.as_slice()),
            part,
            "after {writes} writes"
        );
    }
    Ok(())
}

/// Arguments, and a part of the text that says what is wrong with them.
const REFUSED: [(&[&str], &str); 13] = [
    (&["fabric"], "Usage:"),
    (&["fabric", "run"], "TOPO"),
    (&["fabric", "run", "a"], "PARTS"),
    (&["fabric", "run", "a", "-", "b", "c"], "unexpected"),
    (&["fabric", "check"], "TOPO"),
    (&["fabric", "check", "a"], "PARTS"),
    (&["fabric", "compare", "a", "-", "b", "c"], "PORT"),
    (&["fabric", "run", "--fast", "a", "-", "b"], "--fast"),
    (&["fabric", "--help"], "Exit statuses:"),
    (&["fabric", "check", "--help"], "partition NUMBER BASE NAME"),
    (&["fabric", "run", "--help"], "PORT recv SLID DLID PKEY"),
    // Usage says `fabric`, whatever name the program's file has.
    (&["out/other", "--help"], "Usage: fabric <COMMAND>"),
    (&["out/other", "run", "--help"], "Usage: fabric run <TOPO>"),
];

#[test]
fn words_that_are_refused(rt: HostRuntime) -> Result<(), Fail> {
    for (words, part) in REFUSED {
        let mut sink = sink(rt.alloc(), 1000, Refusal::Broken, true);
        let reported = reported(rt.alloc(), words, &[], &mut sink)?;
        assert_eq!(rt; reported.status, 2, "at {words:?}");
        assert_eq!(rt; reported.out.len(), 0, "at {words:?}");
        let text = std::str::from_utf8(reported.err.as_slice())
            .ok()
            .ok_or("text")?;
        assert!(rt; text.contains(part), "at {words:?}: {text}");
    }
    Ok(())
}
