//! What faults say in words: the program prints their codes, so no clause speaks of these texts.

use data_packet::Refusal;
use partition_file::{PartFault, PartitionCause};
use pkey_rules::{InvalidBase, PushRefusal};
use std::alloc::Global;
use std::fmt::Display;
use std::process::Abort;
use std::test::Fail;
use subnet_core::{RunFault, ScriptCause, StepFault};
use subnet_model::NodeName;
use sweep::SweepFault;
use topo_file::{TopoFault, TopologyCause};

const TOPOLOGIES: [(TopologyCause, &str); 12] = [
    (TopologyCause::Malformed, "the line is malformed"),
    (
        TopologyCause::DuplicateName,
        "a node of this name is declared already, or is a root already",
    ),
    (
        TopologyCause::DuplicateGuid,
        "a GUID of the node is used already, or does not fit in 64 bits",
    ),
    (
        TopologyCause::UnknownNode,
        "no earlier line declares a node of this name",
    ),
    (
        TopologyCause::NoSuchPort,
        "the node has no port of this number",
    ),
    (TopologyCause::PortTaken, "the port has a cable already"),
    (
        TopologyCause::WrongCableEnds,
        "a cable joins two different switches, or a switch and an adapter",
    ),
    (
        TopologyCause::WrongManager,
        "one line places the subnet manager, on a port of an adapter",
    ),
    (
        TopologyCause::Disconnected,
        "cables do not join all switches",
    ),
    (
        TopologyCause::OverLimit,
        "the node is past the limit on switches or adapter ports",
    ),
    (
        TopologyCause::ManagerUncabled,
        "the subnet manager's port has no cable",
    ),
    (TopologyCause::RootNotSwitch, "the root is no switch"),
];

const PARTITIONS: [(PartitionCause, &str); 9] = [
    (
        PartitionCause::BadCharacter,
        "a character may not stand here",
    ),
    (
        PartitionCause::BadNumber,
        "the word is no number of its kind, nor a word of a list",
    ),
    (
        PartitionCause::ReservedKey,
        "base 0 and the name Default are reserved",
    ),
    (PartitionCause::UnknownFlag, "there is no such flag"),
    (
        PartitionCause::BothMembership,
        "no port is both a full and a limited member",
    ),
    (PartitionCause::MgidItem, "a list has no multicast groups"),
    (
        PartitionCause::TooManyPartitions,
        "the definition makes one partition too many",
    ),
    (PartitionCause::Unfinished, "the definition is unfinished"),
    (
        PartitionCause::BadFlagValue,
        "the flag does not take this value, or is given twice",
    ),
];

const SCRIPTS: [(ScriptCause, &str); 6] = [
    (ScriptCause::Malformed, "the line is malformed"),
    (ScriptCause::UnknownPort, "there is no such adapter port"),
    (ScriptCause::ManagerPort, "the port is the subnet manager's"),
    (ScriptCause::UncabledPort, "the port has no cable"),
    (
        ScriptCause::PayloadTooLong,
        "the payload is longer than a packet carries",
    ),
    (
        ScriptCause::BadField,
        "a field is misspelt or out of its range",
    ),
];

const REFUSALS: [(Refusal, &str); 4] = [
    (Refusal::PortNotActive, "the port is not active"),
    (
        Refusal::KeyNotHeld,
        "the port does not hold this partition key",
    ),
    (Refusal::QpZero, "data cannot go to queue pair 0"),
    (
        Refusal::ReservedDlid,
        "data cannot go to LID 0 or to the permissive LID",
    ),
];

/// It says this text.
fn says(rt: &impl Abort, alloc: Global, it: &impl Display, text: &str) -> Result<(), Fail> {
    let reported = format!(in alloc; "{it}")?;
    assert!(rt; reported.as_str() == text);
    Ok(())
}

/// It says this text behind a line's number.
fn says_at_7(
    rt: &impl Abort,
    alloc: Global,
    it: &impl Display,
    kind: &str,
    text: &str,
) -> Result<(), Fail> {
    let line = format!(in alloc; "{kind}line 7: {text}")?;
    says(rt, alloc, it, &line)
}

#[test]
fn a_fault_of_a_topology_reports_its_line_and_cause(rt: HostRuntime) -> Result<(), Fail> {
    for (cause, text) in TOPOLOGIES {
        says_at_7(&rt, rt.alloc(), &TopoFault::At { line: 7, cause }, "", text)?;
        let fault = RunFault::Topology { line: 7, cause };
        says_at_7(&rt, rt.alloc(), &fault, "topology ", text)?;
    }
    Ok(())
}

#[test]
fn a_fault_of_partitions_reports_its_line_and_cause(rt: HostRuntime) -> Result<(), Fail> {
    for (cause, text) in PARTITIONS {
        says_at_7(&rt, rt.alloc(), &PartFault::At { line: 7, cause }, "", text)?;
        let fault = RunFault::Partitions { line: 7, cause };
        says_at_7(&rt, rt.alloc(), &fault, "partitions ", text)?;
    }
    Ok(())
}

#[test]
fn a_fault_of_a_script_reports_its_line_and_cause(rt: HostRuntime) -> Result<(), Fail> {
    for (cause, text) in SCRIPTS {
        let fault = RunFault::Script { line: 7, cause };
        says_at_7(&rt, rt.alloc(), &fault, "script ", text)?;
        let fault = RunFault::SecondScript { line: 7, cause };
        says_at_7(&rt, rt.alloc(), &fault, "second script ", text)?;
    }
    Ok(())
}

#[test]
fn a_fault_of_a_fabric_reports_its_cause(rt: HostRuntime) -> Result<(), Fail> {
    let too_far = RunFault::Sweep(SweepFault::TooManyHops);
    says(
        &rt,
        rt.alloc(),
        &too_far,
        "a cable is more than 63 hops away",
    )?;
    let no_path = RunFault::NoLegalPath {
        switch: NodeName::new(b"R1"),
        node: NodeName::new(b"h1"),
        number: 1,
    };
    says(
        &rt,
        rt.alloc(),
        &no_path,
        "no legal path leads from a switch to a port",
    )
}

#[test]
fn a_refusal_reports_its_cause(rt: HostRuntime) -> Result<(), Fail> {
    for (refusal, text) in REFUSALS {
        says(&rt, rt.alloc(), &refusal, text)?;
    }
    Ok(())
}

const PUSH_REFUSALS: [(PushRefusal, &str); 2] = [
    (PushRefusal::Full, "the table has no free place"),
    (
        PushRefusal::DuplicateBase,
        "the table holds a key of this partition already",
    ),
];

#[test]
fn a_key_that_is_refused_reports_why(rt: HostRuntime) -> Result<(), Fail> {
    for (refusal, text) in PUSH_REFUSALS {
        says(&rt, rt.alloc(), &refusal, text)?;
    }
    let text = "a partition key has a base other than 0";
    says(&rt, rt.alloc(), &InvalidBase, text)
}

#[test]
fn want_of_memory_is_reported_as_such(rt: HostRuntime) -> Result<(), Fail> {
    let text = "out of memory";
    says(&rt, rt.alloc(), &TopoFault::NoMemory, text)?;
    says(&rt, rt.alloc(), &PartFault::NoMemory, text)?;
    says(&rt, rt.alloc(), &RunFault::NoMemory, text)?;
    says(&rt, rt.alloc(), &StepFault::NoMemory, text)?;
    let text = "memory was refused in an earlier step";
    says(&rt, rt.alloc(), &StepFault::Broken, text)
}
