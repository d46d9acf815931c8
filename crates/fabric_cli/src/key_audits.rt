//! The audit of P_Key tables: its files, and its output.

ghost use Rattle.std.specs.Prelude.{◌≡◌, Ok, Option, List, ℕ, is_some, option_copied, option_map, IfErr, IfOk, IfSome, OnOk};
ghost use Rattle.fabric_cli.specs.Faults.{IsOfFiles, IsOfRun, LeavesUnread, NamesUnread};
ghost use Rattle.fabric_cli.specs.Files.{OpensAll, OpensInOrder};
ghost use Rattle.fabric_cli.specs.KeyFiles.{keys_names, partitions_name};
ghost use Rattle.fabric_cli.specs.Serving.{bytes_if_named, ended, ending_of, broken_off, keys_audited, keys_by, keys_ending, keys_in_topology, keys_of_import, keys_output_ending, keys_over, keys_refused};
ghost use Rattle.fabric_cli.specs.Serving.{keys_stop, partitions_given, Answers, EndsIn, ForEnding, Judged};
ghost use Rattle.fabric_cli.specs.Faults.{partitions_line};
ghost use Rattle.audit_keys.specs.Text.{audit_without_partitions};
ghost use Rattle.partition_file.specs.Fault.{code_of as partitions_code};
ghost use Rattle.pkeys_file.specs.Answers.{answers_of};
ghost use Rattle.topo_file.specs.Topology.{topology_within};
ghost use Rattle.topology_import.specs.Import.{import_of};
ghost use Rattle.fabric_parts.specs.declared.limits.Limits.TheVariants.{Large};
ghost use Rattle.step_results.specs.TextGives.{TextGives};

use crate::answering::{Answer, written_as};
use crate::faults::{ForeignCause, Stop};
use crate::files::Files;
use crate::outputs::{discovery_stop, import_stop, topology_stop};
use crate::reading::read_file;
use crate::texts::read_if_named;
use audit_keys::{KeysAudit, audit_keys, audit_without_partitions};
use fabric_parts::Limits;
use netdiscover_file::Discovery;
use partition_file::{PartFault, PartitionCause, Partitions, no_file};
use pkeys_file::{Answers as SmpqueryAnswers, KeysFault};
use std::alloc::Global;
use subnet_core::RunFault;
use text_streams::{Output, TextSize, write_whole};
use topo_file::LargeTopology;
use topology_import::topology_text;

/// The names of the files.
#[derive(Clone, Copy)]
pub struct KeysFiles<'a> {
    /// What `ibnetdiscover` printed.
    pub netdiscover: &'a str,
    /// What `smpquery` printed.
    pub pkeys: &'a str,
    /// The partition file, or none for `-`.
    pub partitions: Option<&'a str>,
}

/// The bytes of the files.
#[derive(Drop)]
pub struct KeysTexts {
    /// What `ibnetdiscover` printed.
    pub netdiscover: Vec<u8>,
    /// What `smpquery` printed.
    pub pkeys: Vec<u8>,
    /// The partition file, if there is one.
    pub partitions: Option<Vec<u8>>,
}

/// What an audit comes to.
#[derive(Drop)]
pub enum KeysOutput {
    /// The audit.
    Audited(KeysAudit),
    /// The partition file has an error.
    Unjudged {
        /// What is said of the tables without it.
        said: Vec<u8>,
        /// The line of the error, from 1.
        line: usize,
        /// What is wrong there.
        cause: PartitionCause,
    },
}

/// The bytes of the files, each opened once and read in its turn; those of other programs may be big.
pub fn read_keys_files<'a, F: Files>(
    alloc: Global,
    files: &mut F,
    asked: &KeysFiles<'a>,
) -> Result<KeysTexts, Stop<'a>>
    ensures order { OpensInOrder (F.opened files.old) (F.opened files.new) (keys_names asked.now) }
    ensures all { OnOk result (OpensAll (F.opened files.old) (F.opened files.new) (keys_names asked.now)) }
    ensures bytes { IfOk result (λ read. IfSome (F.reported files.old) (λ file.
        (file asked.now.netdiscover.now ≡ Some read.netdiscover.items) × (file asked.now.pkeys.now ≡ Some read.pkeys.items)
        × (bytes_if_named file (partitions_name asked.now) ≡ Ok (option_map (λ items. items.items) read.partitions)))) }
    ensures shape { IfOk result (λ read. is_some (option_map (λ items. items.items) read.partitions) ≡ is_some (partitions_name asked.now)) }
    ensures fault { IfErr result IsOfFiles }
    ensures unread { IfErr result (NamesUnread (F.reported files.old) (F.reads files.old)
        (F.opened files.old) (F.opened files.new) (keys_names asked.now)) }
{
    let netdiscover = read_file(alloc, files, asked.netdiscover, TextSize::Big)?;
    let pkeys = read_file(alloc, files, asked.pkeys, TextSize::Big)?;
    let partitions = read_if_named(alloc, files, asked.partitions)?;
    Ok(KeysTexts {
        netdiscover,
        pkeys,
        partitions,
    })
}

/// The partitions of a file, or those without one.
fn partitions_given<'a>(alloc: Global, text: &Option<Vec<u8>>) -> Result<Partitions, PartFault>
    ensures { TextGives (λ all. all) result (partitions_given (option_map (λ items. items.items) text.now)) }
{
    match text {
        Some(text) => partition_file::read(alloc, text.as_slice()),
        None => Ok(no_file(alloc)?),
    }
}

fn keys_stop<'a>(fault: KeysFault) -> Stop<'a>
    ensures reported { result ≡ keys_stop fault }
    ensures fault { IsOfRun result }
{
    match fault {
        KeysFault::NoMemory => Stop::NoMemory,
        KeysFault::At { line, cause } => Stop::Foreign {
            line,
            cause: ForeignCause::Keys(cause),
        },
    }
}

/// The error of the partition file, behind what is said of the tables without it.
fn keys_refused<'a>(
    alloc: Global,
    plan: &LargeTopology,
    discovery: &Discovery,
    answers: &SmpqueryAnswers,
    line: usize,
    cause: PartitionCause,
) -> Result<KeysOutput, Stop<'a>>
    ensures exact { EndsIn keys_output_ending
        (ended (keys_refused (audit_without_partitions plan.now discovery.now answers.now) line cause)) result }
    ensures fault { IfErr result IsOfRun }
{
    let said = audit_without_partitions(alloc, plan, discovery, answers)?;
    if said.is_empty() {
        return Err(Stop::Run(RunFault::Partitions { line, cause }));
    }
    Ok(KeysOutput::Unjudged { said, line, cause })
}

fn keys_by<'a>(
    alloc: Global,
    plan: &LargeTopology,
    discovery: &Discovery,
    answers: &SmpqueryAnswers,
    partitions: &Option<Vec<u8>>,
    all: bool,
) -> Result<KeysOutput, Stop<'a>>
    ensures exact { EndsIn keys_output_ending (ended (keys_by all plan.now discovery.now answers.now
        (partitions_given (option_map (λ items. items.items) partitions.now)))) result }
    ensures fault { IfErr result IsOfRun }
{
    match partitions_given(alloc, partitions) {
        Ok(partitions) => {
            let audit = audit_keys(alloc, plan, discovery, answers, &partitions, all)?;
            Ok(KeysOutput::Audited(audit))
        }
        Err(PartFault::NoMemory) => Err(Stop::NoMemory),
        Err(PartFault::At { line, cause }) => {
            keys_refused(alloc, plan, discovery, answers, line, cause)
        }
    }
}

fn keys_over<'a>(
    alloc: Global,
    plan: &LargeTopology,
    discovery: &Discovery,
    texts: &KeysTexts,
    all: bool,
) -> Result<KeysOutput, Stop<'a>>
    ensures exact { EndsIn keys_output_ending (ended (keys_over all plan.now discovery.now
        (option_map (λ items. items.items) texts.now.partitions) (answers_of texts.now.pkeys.items))) result }
    ensures fault { IfErr result IsOfRun }
{
    match pkeys_file::read(alloc, texts.pkeys.as_slice()) {
        Ok(answers) => keys_by(alloc, plan, discovery, &answers, &texts.partitions, all),
        Err(fault) => Err(keys_stop(fault)),
    }
}

fn keys_in_topology<'a>(
    alloc: Global,
    discovery: &Discovery,
    topology: &[u8],
    texts: &KeysTexts,
    all: bool,
) -> Result<KeysOutput, Stop<'a>>
    ensures exact { EndsIn keys_output_ending (ended (keys_in_topology all discovery.now texts.now.pkeys.items
        (option_map (λ items. items.items) texts.now.partitions) (topology_within Large topology.now))) result }
    ensures fault { IfErr result IsOfRun }
{
    match topo_file::read_within(alloc, topology, Limits::Large) {
        Ok(plan) => keys_over(alloc, &plan, discovery, texts, all),
        Err(fault) => Err(topology_stop(fault)),
    }
}

fn keys_of_import<'a>(
    alloc: Global,
    discovery: &Discovery,
    texts: &KeysTexts,
    manager: Option<u64>,
    all: bool,
) -> Result<KeysOutput, Stop<'a>>
    ensures exact { EndsIn keys_output_ending (ended (keys_of_import all discovery.now texts.now.pkeys.items
        (option_map (λ items. items.items) texts.now.partitions) (import_of discovery.now manager))) result }
    ensures fault { IfErr result IsOfRun }
{
    match topology_text(alloc, discovery, manager) {
        Ok(text) => keys_in_topology(alloc, discovery, text.as_slice(), texts, all),
        Err(error) => Err(import_stop(error)),
    }
}

/// The audit of P_Key tables against a partition file.
pub fn keys_audited<'a>(
    alloc: Global,
    texts: &KeysTexts,
    manager: Option<u64>,
    all: bool,
) -> Result<KeysOutput, Stop<'a>>
    ensures exact { EndsIn keys_output_ending (ended (keys_audited manager all texts.now.netdiscover.items texts.now.pkeys.items
        (option_map (λ items. items.items) texts.now.partitions))) result }
    ensures fault { IfErr result IsOfRun }
{
    match netdiscover_file::read(alloc, texts.netdiscover.as_slice()) {
        Ok(discovery) => keys_of_import(alloc, &discovery, texts, manager, all),
        Err(fault) => Err(discovery_stop(fault)),
    }
}

/// Writes an audit of P_Key tables.
pub fn written_keys<'a, O: Output>(
    out: &mut O,
    made: Result<KeysOutput, Stop<'a>>,
) -> Result<Answer, Stop<'a>>
    ensures exact { (judged : Judged) → EndsIn keys_output_ending judged made.entry
        → Answers judged result (O.is_sure out.old) (O.contents out.old) (O.contents out.new) }
    ensures unread { IfErr made.entry IsOfRun → IfErr result (LeavesUnread (λ _. ⊥)) }
{
    match made {
        Ok(KeysOutput::Audited(audit)) => written_as(out, audit.text(), answer_of(&audit)),
        Ok(KeysOutput::Unjudged { said, line, cause }) => {
            written_before(out, said.as_slice(), line, cause)
        }
        Err(stop) => Err(stop),
    }
}

/// Writes what is said before an error of the partition file.
#[tactic(auto, using(crate::proofs::KeysLemmas::breaks_behind, crate::proofs::KeysLemmas::goes_partly))]
fn written_before<'a, O: Output>(
    out: &mut O,
    said: &[u8],
    line: usize,
    cause: PartitionCause,
) -> Result<Answer, Stop<'a>>
    ensures exact { (judged : Judged)
        → ForEnding judged (λ ending. ending ≡ broken_off (partitions_line (partitions_code cause) line) said.now)
        → Answers judged result (O.is_sure out.old) (O.contents out.old) (O.contents out.new) }
    ensures unread { IfErr result (LeavesUnread (λ _. ⊥)) }
{
    if write_whole(out, said) {
        Err(Stop::Run(RunFault::Partitions { line, cause }))
    } else {
        Err(Stop::Unwritten)
    }
}

fn answer_of(audit: &KeysAudit) -> Answer
    ensures { (text : List ℕ) → ending_of result text ≡ keys_ending (record audit.now { text = text }) }
{
    if audit.is_clean() {
        Answer::Complete
    } else {
        Answer::Warned
    }
}
