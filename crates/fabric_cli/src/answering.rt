//! The output for the files: made completely and then written, or the report of a script, which is written while the
//! script is read.

ghost use Rattle.std.specs.Prelude.{◌≡◌, true, Ok, Result, List, ℕ, option_copied, option_map, IfErr};
ghost use Rattle.cli_args.specs.declared.call.Work.TheVariants as work;
ghost use Rattle.fabric_cli.specs.Faults.{IsOfRun, LeavesUnread};
ghost use Rattle.fabric_cli.specs.Serving.{audit_ending, dump_ending, ending_of, left_in, smps_seen, status_in, ended, texts_in, texts_with, to_judge, Answers, ComesTo, Ending, EndsIn, Judged};
ghost use Rattle.fabric_cli.specs.Serving.{ForEnding, IsOpenAs, IsOpenScript, OfScript};
ghost use Rattle.subnet_core.specs.BringUp.{up_in};

use crate::faults::{COMPLETE, FAULT, Stop};
use crate::outputs::{DumpOutput, changed, compared, cut, inspected, listed, rule_of, shared};
use crate::reading::OpenFile;
use crate::texts::Texts;
use audit_routes::Audit;
use cli_args::Work;
use smp_lines::{LineWire, SmpStop, answer_smps, place_text};
use std::alloc::{AllocError, Global};
use subnet_core::{
    Inventory, RunFault, Subnet, left_by, manage, read_inventory, run_stream, up_text,
};
use text_streams::{Output, Reader, write_whole};
use updn_routes::TieRule;

/// The result once the output is written.
#[derive(Clone, Copy)]
pub enum Answer {
    /// Success.
    Complete,
    /// The routes that were judged are not safe, as the output says.
    Warned,
}

impl Answer {
    /// The exit status.
    pub fn status(self) -> u8
        ensures { result ≡ status_in self }
    {
        match self {
            Answer::Complete => COMPLETE,
            Answer::Warned => FAULT,
        }
    }
}

/// Writes the output for these files.
pub fn answered_of_texts<'a, I: Reader + Drop, O: Output>(
    alloc: Global,
    texts: Texts<'a, I>,
    out: &mut O,
) -> Result<Answer, Stop<'a>>
    ensures exact { OfScript (left_in I.remaining texts.entry.work) (λ script.
        Answers (to_judge (texts_in script texts.entry)) result (O.is_sure out.old) (O.contents out.old) (O.contents out.new)) }
    ensures unread { IfErr result (LeavesUnread (IsOpenScript I.remaining I.is_sure texts.entry.work)) }
{
    let Texts {
        topology,
        partitions,
        work,
    } = texts;
    let topology = topology.as_slice();
    let partitions = slice_of(&partitions);
    match work {
        Work::Check { balanced } => written(out, listed(alloc, topology, partitions, balanced)),
        Work::Shares(port) => written(out, shared(alloc, topology, partitions, port)),
        Work::Diff(second) => {
            let second = slice_of(&second);
            written(out, changed(alloc, topology, partitions, second))
        }
        Work::Inspect {
            what,
            script,
            balanced,
        } => {
            let script = slice_of(&script);
            written(
                out,
                inspected(alloc, topology, partitions, &what, script, balanced),
            )
        }
        Work::Cuts { view, balanced } => {
            written(out, cut(alloc, topology, partitions, view, balanced))
        }
        Work::Run(script) => streamed(alloc, topology, partitions, script, out),
        Work::Smps { script, smps } => {
            let rule = TieRule::LeastPort;
            match left_by(alloc, topology, partitions, rule, slice_of(&script)) {
                Ok(subnet) => smps_answered(alloc, subnet, smps, out),
                Err(fault) => Err(Stop::Run(fault)),
            }
        }
        Work::Manage { replies, balanced } => {
            managed(alloc, topology, partitions, balanced, replies, out)
        }
        Work::Compare {
            first,
            second,
            port,
        } => {
            let (first, second) = (first.as_slice(), second.as_slice());
            written(
                out,
                compared(alloc, topology, partitions, first, second, port),
            )
        }
    }
}

/// Writes an output.
pub fn written<'a, O: Output>(
    out: &mut O,
    made: Result<Vec<u8>, Stop<'a>>,
) -> Result<Answer, Stop<'a>>
    ensures exact { (judged : Judged) → ComesTo (λ text. text.items) judged made.entry
        → Answers judged result (O.is_sure out.old) (O.contents out.old) (O.contents out.new) }
    ensures unread { IfErr made.entry IsOfRun → IfErr result (LeavesUnread (λ _. ⊥)) }
{
    match made {
        Ok(text) => written_as(out, text.as_slice(), Answer::Complete),
        Err(stop) => Err(stop),
    }
}

/// Writes what is printed of a dump's LFTs.
pub fn written_view<'a, O: Output>(
    out: &mut O,
    made: Result<DumpOutput, Stop<'a>>,
) -> Result<Answer, Stop<'a>>
    ensures exact { (judged : Judged) → EndsIn dump_ending judged made.entry
        → Answers judged result (O.is_sure out.old) (O.contents out.old) (O.contents out.new) }
    ensures unread { IfErr made.entry IsOfRun → IfErr result (LeavesUnread (λ _. ⊥)) }
{
    match made {
        Ok(DumpOutput::Audited(audit)) => written_as(out, audit.text(), answer_of(&audit)),
        Ok(DumpOutput::Loaded(text)) => written_as(out, text.as_slice(), Answer::Complete),
        Err(stop) => Err(stop),
    }
}

fn answer_of(audit: &Audit) -> Answer
    ensures { (text : List ℕ) → ending_of result text ≡ audit_ending (record audit.now { text = text }) }
{
    if audit.is_safe() {
        Answer::Complete
    } else {
        Answer::Warned
    }
}

/// Writes an output that has this result.
pub fn written_as<'a, O: Output>(
    out: &mut O,
    text: &[u8],
    answer: Answer,
) -> Result<Answer, Stop<'a>>
    ensures exact { (judged : Judged) → ForEnding judged (λ ending. ending ≡ ending_of answer text.now)
        → Answers judged result (O.is_sure out.old) (O.contents out.old) (O.contents out.new) }
    ensures unread { IfErr result (LeavesUnread (λ _. ⊥)) }
{
    if write_whole(out, text) {
        Ok(answer)
    } else {
        Err(Stop::Unwritten)
    }
}

/// Runs a script while it is read, and writes its report meanwhile.
fn streamed<'a, R: Reader + Drop, O: Output>(
    alloc: Global,
    topology: &[u8],
    partitions: Option<&[u8]>,
    script: OpenFile<'a, R>,
    out: &mut O,
) -> Result<Answer, Stop<'a>>
    ensures exact { OfScript (R.remaining script.entry.input) (λ read.
        Answers (texts_with topology.now (option_copied partitions.entry) (work.Run read)) result
        (O.is_sure out.old) (O.contents out.old) (O.contents out.new)) }
    ensures unread { IfErr result (LeavesUnread (IsOpenAs R.remaining R.is_sure script.entry)) }
{
    let OpenFile { name, mut input } = script;
    match run_stream(alloc, topology, partitions, &mut input, out) {
        Ok(()) => Ok(Answer::Complete),
        Err(fault) => Err(Stop::of_run(name, fault)),
    }
}

/// Answers SMPs by the fabric of a subnet, and writes the replies meanwhile.
fn smps_answered<'a, R: Reader + Drop, O: Output>(
    alloc: Global,
    subnet: Subnet,
    smps: OpenFile<'a, R>,
    out: &mut O,
) -> Result<Answer, Stop<'a>>
    ensures exact { OfScript (R.remaining smps.entry.input) (λ read. Answers (ended (smps_seen (up_in subnet) read)) result
        (O.is_sure out.old) (O.contents out.old) (O.contents out.new)) }
    ensures unread { IfErr result (LeavesUnread (IsOpenAs R.remaining R.is_sure smps.entry)) }
{
    let (_, mut fabric) = subnet.into_parts();
    let OpenFile { name, mut input } = smps;
    match answer_smps(alloc, &mut fabric, &mut input, out) {
        Ok(()) => Ok(Answer::Complete),
        Err(stop) => Err(Stop::of_smps(name, stop)),
    }
}

/// Brings up whatever answers the SMPs that are written, and writes what is up at the end.
fn managed<'a, R: Reader + Drop, O: Output>(
    alloc: Global,
    topology: &[u8],
    partitions: Option<&[u8]>,
    balanced: bool,
    replies: OpenFile<'a, R>,
    out: &mut O,
) -> Result<Answer, Stop<'a>>
    ensures exact { (read : List ℕ) → Answers (texts_with topology.now (option_copied partitions.entry) (work.Manage read balanced)) result
        (O.is_sure out.old) (O.contents out.old) (O.contents out.new) }
    ensures unread { IfErr result (LeavesUnread (λ _. ⊥)) }
{
    let inventory = match read_inventory(alloc, topology, partitions, rule_of(balanced)) {
        Ok(inventory) => inventory,
        Err(fault) => return Err(Stop::Run(fault)),
    };
    let OpenFile { name, mut input } = replies;
    match brought_up(alloc, &inventory, &mut input, out) {
        Ok(text) => {
            if write_whole(out, text.as_slice()) {
                Ok(Answer::Complete)
            } else {
                Err(Stop::Unsent)
            }
        }
        Err(Unmanaged::Lines(stop)) => Err(Stop::of_replies(name, stop)),
        Err(Unmanaged::Fabric { fault, place }) => Err(Stop::of_managed(fault, place)),
    }
}

/// Why nothing is up.
enum Unmanaged {
    /// SMPs or replies are at their end.
    Lines(SmpStop),
    /// What answers is not brought up.
    Fabric {
        /// Why not.
        fault: RunFault,
        /// Where the last SMP went, and what it asked for.
        place: Vec<u8>,
    },
}

impl From<AllocError> for Unmanaged {
    fn from(_error: AllocError) -> Unmanaged {
        Unmanaged::Lines(SmpStop::NoMemory)
    }
}

/// Brings up what answers, and returns what is printed of it.
fn brought_up<R: Reader, O: Output>(
    alloc: Global,
    inventory: &Inventory,
    replies: &mut R,
    out: &mut O,
) -> Result<Vec<u8>, Unmanaged> {
    let mut wire = LineWire::new(alloc, replies, out);
    let managed = manage(alloc, inventory, &mut wire);
    match (wire.stop(), managed) {
        (Some(stop), _) => Err(Unmanaged::Lines(stop)),
        (None, Err(fault)) => {
            let place = place_text(alloc, wire.last())?;
            Err(Unmanaged::Fabric { fault, place })
        }
        (None, Ok(up)) => Ok(up_text(inventory, &up, wire.exchanges())?),
    }
}

/// The bytes, if there is a file.
fn slice_of(bytes: &Option<Vec<u8>>) -> Option<&[u8]>
    ensures { option_copied result ≡ option_map (λ items. items.items) bytes.now }
{
    match bytes {
        Some(bytes) => Some(bytes.as_slice()),
        None => None,
    }
}
