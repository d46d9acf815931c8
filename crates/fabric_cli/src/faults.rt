//! Errors of the program: the line of each, and its exit status.

ghost use Rattle.std.specs.Prelude.{◌≡◌, ◌++◌, IfOk, OnOk, option_map};
ghost use Rattle.std.specs.Option.{option_map_or};
ghost use Rattle.fabric_cli.specs.Faults.{dump_line, lanes_line, mfts_line, foreign_line, guid_word, guids_line, netdiscover_line, pkeys_line, replies_line, smps_line};
ghost use Rattle.fabric_cli.specs.Faults.{fabric_line, line_of, memory_line, no_path_line, port_line, run_line, run_status, unread_line, unwritten_line};
ghost use Rattle.fabric_cli.specs.Faults.{managed_line, managed_stop, placed_line, replies_stop, run_stop, second_line, smps_stop, status_of, stop_of, sweep_status};
ghost use Rattle.fabric_cli.specs.declared.faults.Stop.TheVariants.{NoMemory};
ghost use Rattle.script_lines.specs.ScriptCause.{code_of as script_code};
ghost use Rattle.partition_file.specs.Fault.{code_of as partitions_code};

use cli_args::Refused;
use dump_file::DumpCause;
use mft_file::MftCause;
use netdiscover_file::DiscoveryCause;
use partition_file::PartitionCause;
use pkeys_file::KeysCause;
use sl2vl_file::LanesCause;
use smp_lines::SmpStop;
use std::alloc::{AllocError, AllocFailed, Global};
use subnet_core::{RunFault, ScriptCause};
use sweep::SweepFault;
use text_words::push_hex;
use topology_import::ImportCause;

/// The exit status of success.
pub const COMPLETE: u8 = 0;
/// The exit status of an error in a file, and of an audit of routes that are not safe.
pub const FAULT: u8 = 1;
/// The exit status if the arguments are refused.
pub const WORDS_REFUSED: u8 = 2;
/// The exit status if the machine fails: out of memory, a file that cannot be read, or output that cannot be written.
pub const REFUSED: u8 = 3;

/// The line for out of memory.
pub const MEMORY_LINE: &str = "fault memory\n";

/// Why the program stops.
#[derive(Drop)]
pub enum Stop<'a> {
    /// The arguments are refused, or help is requested: the text of that.
    Words(String),
    /// Out of memory.
    NoMemory,
    /// The file of this name cannot be read.
    Unread(&'a str),
    /// The output cannot be written completely.
    Unwritten,
    /// A file has an error, or the fabric cannot be brought up.
    Run(RunFault),
    /// The second partition file has an error.
    Second {
        /// The line of the error, from 1.
        line: usize,
        /// What is wrong there.
        cause: PartitionCause,
    },
    /// What answers SMPs is not brought up.
    Unmanaged {
        /// Why not.
        fault: RunFault,
        /// Where the last SMP went, and what it asked for.
        place: Vec<u8>,
    },
    /// The replies of this name are at their end, or cannot be read.
    Unheard(&'a str),
    /// SMPs cannot be written, or what is printed once a fabric is up.
    Unsent,
    /// The output of another program has an error, or describes nothing that is printed here; or SMPs have one.
    Foreign {
        /// The line of the error, from 1; 0 if it belongs to no line.
        line: usize,
        /// What is wrong there.
        cause: ForeignCause,
    },
}

/// What is wrong with what another program printed or sends.
#[derive(Clone, Copy)]
pub enum ForeignCause {
    /// In the output of `ibnetdiscover`.
    Discovery(DiscoveryCause),
    /// No topology describes it.
    Import(ImportCause),
    /// In dumped LFTs.
    Dump(DumpCause),
    /// In dumped MFTs.
    Masks(MftCause),
    /// In SL-to-VL mapping tables, or in path records.
    Lanes(LanesCause),
    /// In P_Key tables that `smpquery` printed.
    Keys(KeysCause),
    /// In SMPs: the line is none.
    Smps,
    /// In replies: the line is none.
    Replies,
}

impl<'a> Stop<'a> {
    /// The stop for refused arguments.
    pub fn of_words(refused: Refused<String>) -> Self
        ensures { result ≡ stop_of refused }
    {
        match refused {
            Refused::Words(text) => Stop::Words(text),
            Refused::NoMemory => Stop::NoMemory,
        }
    }

    /// The stop for an error of a run that reads the script of this name and writes its report.
    pub fn of_run(script: &'a str, fault: RunFault) -> Self
        ensures { result ≡ run_stop script.entry fault }
    {
        match fault {
            RunFault::NoMemory => Stop::NoMemory,
            RunFault::Read => Stop::Unread(script),
            RunFault::Write => Stop::Unwritten,
            other => Stop::Run(other),
        }
    }

    /// The stop for the end of SMPs of this name whose replies are written.
    pub fn of_smps(smps: &'a str, stop: SmpStop) -> Self
        ensures { result ≡ smps_stop smps.entry stop }
    {
        match stop {
            SmpStop::NoMemory => Stop::NoMemory,
            SmpStop::Read => Stop::Unread(smps),
            SmpStop::Write => Stop::Unwritten,
            SmpStop::Line(line) => Stop::Foreign {
                line: line as usize,
                cause: ForeignCause::Smps,
            },
        }
    }

    /// The stop for the end of replies of this name whose SMPs are written.
    pub fn of_replies(replies: &'a str, stop: SmpStop) -> Self
        ensures { result ≡ replies_stop replies.entry stop }
    {
        match stop {
            SmpStop::NoMemory => Stop::NoMemory,
            SmpStop::Read => Stop::Unheard(replies),
            SmpStop::Write => Stop::Unsent,
            SmpStop::Line(line) => Stop::Foreign {
                line: line as usize,
                cause: ForeignCause::Replies,
            },
        }
    }

    /// The stop for an error of what answers SMPs, the last of which went to that place.
    pub fn of_managed(fault: RunFault, place: Vec<u8>) -> Self
        ensures { result ≡ managed_stop fault place }
    {
        match fault {
            RunFault::NoMemory => Stop::NoMemory,
            fault => Stop::Unmanaged { fault, place },
        }
    }

    /// The exit status.
    pub fn status(&self) -> u8
        ensures { result ≡ status_of self.now }
    {
        match self {
            Stop::Words(_) => WORDS_REFUSED,
            Stop::NoMemory | Stop::Unread(_) | Stop::Unwritten | Stop::Unheard(_) | Stop::Unsent =>
                REFUSED,
            Stop::Run(fault) => run_status(fault),
            Stop::Second { .. } | Stop::Unmanaged { .. } | Stop::Foreign { .. } => FAULT,
        }
    }

    /// The line on standard error.
    pub fn line(&self, alloc: Global) -> Result<Vec<u8>, AllocError>
        ensures { IfOk result (λ text. text.items ≡ line_of self.now) }
    {
        match self {
            Stop::Words(text) => Vec::from_slice(alloc, text.as_bytes()),
            Stop::NoMemory => memory_line(alloc),
            Stop::Unread(name) | Stop::Unheard(name) => unread_line(alloc, *name),
            Stop::Unwritten | Stop::Unsent => unwritten_line(alloc),
            Stop::Run(fault) => run_line(alloc, fault),
            Stop::Second { line, cause } => second_line(alloc, *line, *cause),
            Stop::Unmanaged { fault, place } => managed_line(alloc, fault, place),
            Stop::Foreign { line, cause } => foreign_line(alloc, *line, *cause),
        }
    }
}

fn run_status(fault: &RunFault) -> u8
    ensures { result ≡ run_status fault.now }
{
    match fault {
        RunFault::NoMemory | RunFault::Push(_) | RunFault::Read | RunFault::Write => REFUSED,
        RunFault::Sweep(fault) => sweep_status(*fault),
        RunFault::Topology { .. }
        | RunFault::Partitions { .. }
        | RunFault::NoLegalPath { .. }
        | RunFault::Port(_)
        | RunFault::Script { .. }
        | RunFault::SecondScript { .. } => FAULT,
    }
}

fn sweep_status(fault: SweepFault) -> u8
    ensures { result ≡ sweep_status fault }
{
    match fault {
        SweepFault::TooManyHops => FAULT,
        _ => REFUSED,
    }
}

fn memory_line(alloc: Global) -> Result<Vec<u8>, AllocError>
    ensures { IfOk result (λ text. text.items ≡ memory_line) }
{
    Vec::from_slice(alloc, MEMORY_LINE.as_bytes())
}

fn unread_line(alloc: Global, name: &str) -> Result<Vec<u8>, AllocError>
    ensures { IfOk result (λ text. text.items ≡ unread_line name.now) }
{
    Ok(format!(in alloc; "fault read {name}\n")?.into_bytes())
}

fn unwritten_line(alloc: Global) -> Result<Vec<u8>, AllocError>
    ensures { IfOk result (λ text. text.items ≡ unwritten_line) }
{
    Vec::from_slice(alloc, b"fault write\n")
}

fn run_line(alloc: Global, fault: &RunFault) -> Result<Vec<u8>, AllocError>
    ensures { IfOk result (λ text. text.items ≡ run_line fault.now) }
{
    match fault {
        RunFault::NoMemory => memory_line(alloc),
        RunFault::Topology { line, cause } => {
            let code = cause.code();
            Ok(format!(in alloc; "fault {code} topology line {line}\n")?.into_bytes())
        }
        RunFault::Partitions { line, cause } => {
            let code = cause.code();
            Ok(format!(in alloc; "fault {code} partitions line {line}\n")?.into_bytes())
        }
        RunFault::Sweep(fault) => match fault.code() {
            Some(code) => fabric_line(alloc, code),
            None => memory_line(alloc),
        },
        RunFault::NoLegalPath {
            switch,
            node,
            number,
        } => no_path_line(alloc, switch.as_slice(), node.as_slice(), *number),
        RunFault::Push(fault) => fabric_line(alloc, fault.code()),
        RunFault::Port(cause) => port_line(alloc, *cause),
        RunFault::Script { line, cause } => {
            let code = cause.code();
            Ok(format!(in alloc; "fault {code} script line {line}\n")?.into_bytes())
        }
        RunFault::SecondScript { line, cause } => {
            let code = cause.code();
            Ok(format!(in alloc; "fault {code} script2 line {line}\n")?.into_bytes())
        }
        RunFault::Read => Vec::from_slice(alloc, b"fault read script\n"),
        RunFault::Write => unwritten_line(alloc),
    }
}

fn managed_line(alloc: Global, fault: &RunFault, place: &[u8]) -> Result<Vec<u8>, AllocError>
    ensures { IfOk result (λ text. text.items ≡ managed_line fault.now place.now) }
{
    match fault {
        RunFault::Sweep(fault) => match fault.code() {
            Some(code) => placed_line(alloc, code, place),
            None => memory_line(alloc),
        },
        RunFault::Push(fault) => placed_line(alloc, fault.code(), place),
        fault => run_line(alloc, fault),
    }
}

fn placed_line(alloc: Global, code: &str, place: &[u8]) -> Result<Vec<u8>, AllocError>
    ensures { IfOk result (λ text. text.items ≡ placed_line code.now place.now) }
{
    let mut text = format!(in alloc; "fault {code} ")?.into_bytes();
    text.extend_from_slice(place)?;
    text.extend_from_slice(b"\n")?;
    Ok(text)
}

fn fabric_line(alloc: Global, code: &str) -> Result<Vec<u8>, AllocError>
    ensures { IfOk result (λ text. text.items ≡ fabric_line code.now) }
{
    Ok(format!(in alloc; "fault {code}\n")?.into_bytes())
}

fn no_path_line(
    alloc: Global,
    switch: &[u8],
    node: &[u8],
    number: u8,
) -> Result<Vec<u8>, AllocError>
    ensures { IfOk result (λ text. text.items ≡ no_path_line switch.now node.now number) }
{
    let mut text = Vec::from_slice(alloc, b"fault UR1 ")?;
    text.extend_from_slice(switch)?;
    text.extend_from_slice(b" ")?;
    text.extend_from_slice(node)?;
    text.extend_from_slice(format!(in alloc; "/{number}\n")?.as_bytes())?;
    Ok(text)
}

fn port_line(alloc: Global, cause: ScriptCause) -> Result<Vec<u8>, AllocError>
    ensures { IfOk result (λ text. text.items ≡ port_line (script_code cause)) }
{
    let code = cause.code();
    Ok(format!(in alloc; "fault {code} port\n")?.into_bytes())
}

fn second_line(alloc: Global, line: usize, cause: PartitionCause) -> Result<Vec<u8>, AllocError>
    ensures { IfOk result (λ text. text.items ≡ second_line (partitions_code cause) line) }
{
    let code = cause.code();
    Ok(format!(in alloc; "fault {code} partitions2 line {line}\n")?.into_bytes())
}

fn foreign_line(alloc: Global, line: usize, cause: ForeignCause) -> Result<Vec<u8>, AllocError>
    ensures { IfOk result (λ text. text.items ≡ foreign_line cause line) }
{
    match cause {
        ForeignCause::Discovery(cause) => netdiscover_line(alloc, cause.code(), line),
        ForeignCause::Import(ImportCause::GuidTaken { port, guid }) => {
            guids_line(alloc, line, port, guid)
        }
        ForeignCause::Import(cause) => netdiscover_line(alloc, cause.code(), line),
        ForeignCause::Dump(cause) => dump_line(alloc, cause.code(), line),
        ForeignCause::Masks(cause) => mfts_line(alloc, cause.code(), line),
        ForeignCause::Lanes(cause) => lanes_line(alloc, cause.code(), line),
        ForeignCause::Keys(cause) => pkeys_line(alloc, cause.code(), line),
        ForeignCause::Smps => smps_line(alloc, line),
        ForeignCause::Replies => replies_line(alloc, line),
    }
}

fn netdiscover_line(alloc: Global, code: &str, line: usize) -> Result<Vec<u8>, AllocError>
    ensures { IfOk result (λ text. text.items ≡ netdiscover_line code.now line) }
{
    Ok(format!(in alloc; "fault {code} netdiscover line {line}\n")?.into_bytes())
}

fn mfts_line(alloc: Global, code: &str, line: usize) -> Result<Vec<u8>, AllocError>
    ensures { IfOk result (λ text. text.items ≡ mfts_line code.now line) }
{
    Ok(format!(in alloc; "fault {code} mfts line {line}\n")?.into_bytes())
}

fn lanes_line(alloc: Global, code: &str, line: usize) -> Result<Vec<u8>, AllocError>
    ensures { IfOk result (λ text. text.items ≡ lanes_line code.now line) }
{
    Ok(format!(in alloc; "fault {code} lanes line {line}\n")?.into_bytes())
}

fn dump_line(alloc: Global, code: &str, line: usize) -> Result<Vec<u8>, AllocError>
    ensures { IfOk result (λ text. text.items ≡ dump_line code.now line) }
{
    Ok(format!(in alloc; "fault {code} dump line {line}\n")?.into_bytes())
}

fn pkeys_line(alloc: Global, code: &str, line: usize) -> Result<Vec<u8>, AllocError>
    ensures { IfOk result (λ text. text.items ≡ pkeys_line code.now line) }
{
    Ok(format!(in alloc; "fault {code} pkeys line {line}\n")?.into_bytes())
}

fn smps_line(alloc: Global, line: usize) -> Result<Vec<u8>, AllocError>
    ensures { IfOk result (λ text. text.items ≡ smps_line line) }
{
    Ok(format!(in alloc; "fault MF1 smps line {line}\n")?.into_bytes())
}

fn replies_line(alloc: Global, line: usize) -> Result<Vec<u8>, AllocError>
    ensures { IfOk result (λ text. text.items ≡ replies_line line) }
{
    Ok(format!(in alloc; "fault MF2 replies line {line}\n")?.into_bytes())
}

/// The line with a port's GUID and the one that its CA would have.
fn guids_line(alloc: Global, line: usize, port: u64, guid: u64) -> Result<Vec<u8>, AllocError>
    ensures { IfOk result (λ text. text.items ≡ guids_line line port guid) }
{
    let mut text = format!(in alloc; "fault ND5 netdiscover line {line}")?.into_bytes();
    push_guid(&mut text, port)?;
    push_guid(&mut text, guid)?;
    text.extend_from_slice(b"\n")?;
    Ok(text)
}

/// Adds a blank and a GUID.
fn push_guid(text: &mut Vec<u8>, guid: u64) -> Result<(), AllocError>
    ensures { OnOk result (text.new.items ≡ text.old.items ++ guid_word guid) }
{
    text.extend_from_slice(b" ")?;
    push_hex(text, &guid.to_be_bytes())
}

impl<'a> From<AllocError> for Stop<'a> {
    ghost from_gives = { λ _ stop. stop ≡ NoMemory };

    fn from(_error: AllocError) -> Stop<'a> {
        Stop::NoMemory
    }
}

impl<'a, T: Drop> From<AllocFailed<T>> for Stop<'a> {
    ghost from_gives = { λ _ stop. stop ≡ NoMemory };

    fn from(_error: AllocFailed<T>) -> Stop<'a> {
        Stop::NoMemory
    }
}
