//! The files of an invocation, read in order. The script of `run`, the SMPs of `smp` and the replies of `manage` are only opened.

ghost use Rattle.std.specs.Prelude.{◌≡◌, ℕ, List, Ok, true, is_some, option_copied, option_map, IfErr, IfOk, IfSome, OnOk};
ghost use Rattle.std.specs.Option.{option_to_list};
ghost use Rattle.cli_args.specs.Words.{all_names, named_work, names, work_names};
ghost use Rattle.fabric_cli.specs.Faults.{IsOfFiles, NamesUnread};
ghost use Rattle.fabric_cli.specs.Files.{OpensAll, OpensInOrder, StopsAt};
ghost use Rattle.fabric_cli.specs.Serving.{bytes_if_named, left_in, script_in, bytes_work, texts_in, texts_of, without_files, work_of};
ghost use Rattle.fabric_cli.specs.Serving.{AreFor, IsOpenScript};

use crate::faults::Stop;
use crate::files::Files;
use crate::reading::{OpenFile, open_file, read_file};
use cli_args::{Asked, NamedWork, Work};
use std::alloc::Global;
use text_streams::TextSize;

/// What to do, with the bytes of its files.
pub type OpenWork<'a, I> = Work<&'a str, Vec<u8>, OpenFile<'a, I>>;

/// The bytes of the files, and what to do with them.
#[derive(Drop)]
pub struct Texts<'a, I> {
    /// Of the topology.
    pub topology: Vec<u8>,
    /// Of the partition file, if there is one.
    pub partitions: Option<Vec<u8>>,
    /// The command, with the files that only it has.
    pub work: OpenWork<'a, I>,
}

/// The bytes of the files that are needed, each read in its turn; a script that is to be run, or SMPs, are opened last.
pub fn read_texts<'a, F: Files>(
    alloc: Global,
    asked: &Asked<'a>,
    files: &mut F,
) -> Result<Texts<'a, F::Input>, Stop<'a>>
    ensures order { OpensInOrder (F.opened files.old) (F.opened files.new) (all_names (names asked.now)) }
    ensures all { OnOk result (OpensAll (F.opened files.old) (F.opened files.new) (all_names (names asked.now))) }
    ensures known { IfOk result (λ texts. IfSome (F.reported files.old) (λ _. is_some (left_in F.Input.remaining texts.work) ≡ true)) }
    ensures texts { IfOk result (λ texts. IfSome (F.reported files.old) (λ file.
        texts_of file (names asked.now) ≡ Ok (texts_in (script_in F.Input.remaining texts.work) texts))) }
    ensures shape { IfOk result (λ texts. (script : List ℕ) → AreFor (names asked.now) (texts_in script texts)) }
    ensures last { IfOk result (λ texts. (word : List ℕ) → IsOpenScript F.Input.remaining F.Input.is_sure texts.work word
        → IfSome (F.reported files.old) (λ file.
        StopsAt file (F.reads files.old) (F.opened files.old) (F.opened files.new) (all_names (names asked.now)) word)) }
    ensures fault { IfErr result IsOfFiles }
    ensures unread { IfErr result (NamesUnread (F.reported files.old) (F.reads files.old)
        (F.opened files.old) (F.opened files.new) (all_names (names asked.now))) }
{
    let topology = read_file(alloc, files, asked.topology, TextSize::Plain)?;
    let partitions = read_if_named(alloc, files, asked.partitions)?;
    let work = work_of(alloc, files, &asked.work)?;
    Ok(Texts {
        topology,
        partitions,
        work,
    })
}

/// The bytes of a file, if there is one to read.
pub fn read_if_named<'a, F: Files>(
    alloc: Global,
    files: &mut F,
    name: Option<&'a str>,
) -> Result<Option<Vec<u8>>, Stop<'a>>
    ensures opened { OpensAll (F.opened files.old) (F.opened files.new) (option_to_list (option_map (λ word. word.now) name.entry)) }
    ensures same { F.reported files.new ≡ F.reported files.old }
    ensures stays { F.reads files.new ≡ F.reads files.old }
    ensures bytes { IfOk result (λ bytes. IfSome (F.reported files.old) (λ file.
        bytes_if_named file (option_map (λ word. word.now) name.entry) ≡ Ok (option_map (λ items. items.items) bytes))) }
    ensures shape { IfOk result (λ bytes. is_some (option_map (λ items. items.items) bytes)
        ≡ is_some (option_map (λ word. word.now) name.entry)) }
    ensures fault { IfErr result IsOfFiles }
    ensures unread { IfErr result (NamesUnread (F.reported files.old) (F.reads files.old)
        (F.opened files.old) (F.opened files.new) (option_to_list (option_map (λ word. word.now) name.entry))) }
{
    match name {
        Some(name) => Ok(Some(read_file(alloc, files, name, TextSize::Plain)?)),
        None => Ok(None),
    }
}

/// The work with its files, if it has some.
fn work_of<'a, F: Files>(
    alloc: Global,
    files: &mut F,
    work: &NamedWork<'a>,
) -> Result<OpenWork<'a, F::Input>, Stop<'a>>
    ensures order { OpensInOrder (F.opened files.old) (F.opened files.new) (work_names (named_work work.now)) }
    ensures all { OnOk result (OpensAll (F.opened files.old) (F.opened files.new) (work_names (named_work work.now))) }
    ensures same { F.reported files.new ≡ F.reported files.old }
    ensures stays { F.reads files.new ≡ F.reads files.old }
    ensures known { IfOk result (λ opened. IfSome (F.reported files.old) (λ _. is_some (left_in F.Input.remaining opened) ≡ true)) }
    ensures bytes { IfOk result (λ opened. IfSome (F.reported files.old) (λ file.
        work_of file (named_work work.now) ≡ Ok (bytes_work (script_in F.Input.remaining opened) opened))) }
    ensures shape { IfOk result (λ opened. (script : List ℕ) → without_files (bytes_work script opened) ≡ without_files (named_work work.now)) }
    ensures last { IfOk result (λ opened. (word : List ℕ) → IsOpenScript F.Input.remaining F.Input.is_sure opened word
        → IfSome (F.reported files.old) (λ file.
        StopsAt file (F.reads files.old) (F.opened files.old) (F.opened files.new) (work_names (named_work work.now)) word)) }
    ensures fault { IfErr result IsOfFiles }
    ensures unread { IfErr result (NamesUnread (F.reported files.old) (F.reads files.old)
        (F.opened files.old) (F.opened files.new) (work_names (named_work work.now))) }
{
    match work {
        Work::Check { balanced } => Ok(Work::Check {
            balanced: *balanced,
        }),
        Work::Shares(port) => Ok(Work::Shares(*port)),
        Work::Diff(second) => Ok(Work::Diff(read_if_named(alloc, files, *second)?)),
        Work::Inspect {
            what,
            script,
            balanced,
        } => Ok(Work::Inspect {
            what: *what,
            script: read_if_named(alloc, files, *script)?,
            balanced: *balanced,
        }),
        Work::Cuts { view, balanced } => Ok(Work::Cuts {
            view: *view,
            balanced: *balanced,
        }),
        Work::Run(script) => Ok(Work::Run(open_file(files, *script)?)),
        Work::Smps { script, smps } => Ok(Work::Smps {
            script: read_if_named(alloc, files, *script)?,
            smps: open_file(files, *smps)?,
        }),
        Work::Manage { replies, balanced } => Ok(Work::Manage {
            replies: open_file(files, *replies)?,
            balanced: *balanced,
        }),
        Work::Compare {
            first,
            second,
            port,
        } => Ok(Work::Compare {
            first: read_file(alloc, files, *first, TextSize::Plain)?,
            second: read_file(alloc, files, *second, TextSize::Plain)?,
            port: *port,
        }),
    }
}
