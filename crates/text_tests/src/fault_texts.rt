//! What the faults of discoveries, of imports and of dumps say in words: no clause speaks of these texts.

use dump_file::{DumpCause, DumpFault};
use netdiscover_file::{DiscoveryCause, DiscoveryFault};
use std::alloc::Global;
use std::fmt::Display;
use std::process::Abort;
use std::test::Fail;
use topo_file::TopologyCause;
use topology_import::{ImportCause, ImportFault};

const OF_DISCOVERIES: [(DiscoveryCause, &str); 4] = [
    (DiscoveryCause::Malformed, "line 7: the line is malformed"),
    (
        DiscoveryCause::NoSuchPort,
        "line 7: the port is of no node, not one of its node's, or has a line already",
    ),
    (
        DiscoveryCause::DuplicateGuid,
        "line 7: a node or port of this GUID is told already, or the GUIDs of the switch differ from those told before",
    ),
    (
        DiscoveryCause::WrongFarEnd,
        "line 7: the cable does not stand so at its other end",
    ),
];

const OF_IMPORTS: [(ImportCause, &str); 4] = [
    (
        ImportCause::GuidTaken {
            port: 0x102,
            guid: 0x101,
        },
        "line 7: the port of GUID 0x0000000000000102 would be of an adapter of GUID 0x0000000000000101, which is a switch's or none",
    ),
    (
        ImportCause::UnknownManager,
        "line 7: no channel adapter has a cabled port of the subnet manager's GUID",
    ),
    (
        ImportCause::Refused(TopologyCause::NoSuchPort),
        "line 7: the node has no port of this number",
    ),
    (
        ImportCause::Unlike,
        "line 7: the topology that is read differs from the one that was meant",
    ),
];

const OF_DUMPS: [(DumpCause, &str); 7] = [
    (
        DumpCause::Malformed,
        "line 7: the line is malformed, or stands where it cannot",
    ),
    (
        DumpCause::EndNotReported,
        "line 7: the row does not tell whose its LID is",
    ),
    (
        DumpCause::DuplicateTable,
        "line 7: the switch has a table already",
    ),
    (
        DumpCause::WrongLid,
        "line 7: the LID does not rise, or is above the top of its table",
    ),
    (
        DumpCause::WrongCount,
        "line 7: the table has another number of rows",
    ),
    (
        DumpCause::Unfinished,
        "line 7: the text ends within a table, or has none",
    ),
    (
        DumpCause::TwoEndPorts,
        "line 7: the LID is another end port's by a row before",
    ),
];

/// It says this text.
fn says(rt: &impl Abort, alloc: Global, fault: &impl Display, text: &str) -> Result<(), Fail> {
    let reported = format!(in alloc; "{fault}")?;
    assert!(rt; reported.as_str() == text);
    Ok(())
}

#[test]
fn faults_of_discoveries_say_what_is_wrong(rt: HostRuntime) -> Result<(), Fail> {
    for (cause, text) in OF_DISCOVERIES {
        says(
            &rt,
            rt.alloc(),
            &DiscoveryFault::At { line: 7, cause },
            text,
        )?;
    }
    says(&rt, rt.alloc(), &DiscoveryFault::NoMemory, "out of memory")
}

#[test]
fn faults_of_imports_say_what_is_wrong(rt: HostRuntime) -> Result<(), Fail> {
    for (cause, text) in OF_IMPORTS {
        says(&rt, rt.alloc(), &ImportFault::At { line: 7, cause }, text)?;
    }
    says(&rt, rt.alloc(), &ImportFault::NoMemory, "out of memory")
}

#[test]
fn faults_of_dumps_say_what_is_wrong(rt: HostRuntime) -> Result<(), Fail> {
    for (cause, text) in OF_DUMPS {
        says(&rt, rt.alloc(), &DumpFault::At { line: 7, cause }, text)?;
    }
    says(&rt, rt.alloc(), &DumpFault::NoMemory, "out of memory")
}
