//! The source of the program's files.

ghost use Rattle.fabric_cli.specs.Files.{Contents, Opens, OpensAll};
ghost use Rattle.std.specs.Prelude.{◌≡◌, List, [], ◌∷◌, ℕ, Bool, true, false, Option, None, IfSome};

use std::fs::OpenFile;
use std::io::{Input, Read};
use std::{fs, io, rt};
use text_streams::{Output, Reader};

/// A source that opens names to readers.
///
/// Its ghost members are what a contract may know of it: `reported` says to which bytes each name opens, or
/// that there is no such file; `opened` has the names opened so far. Each may be `None`: nothing is known, or
/// the names could not be kept. `reads` is whether no read of any of the files fails.
pub trait Files {
    /// The reader of an open file.
    type Input: Reader + Drop;

    ghost reported: { Self → Option Contents };

    ghost opened: { Self → Option (List (List ℕ)) };

    ghost reads: { Self → Bool };

    /// Opens a name, or returns `None` if there is no such file to read.
    fn open(&mut self, name: &str) -> Option<Self::Input>
        ensures noted { OpensAll (opened self.old) (opened self.new) (name.now ∷ []) }
        ensures same { reported self.new ≡ reported self.old }
        ensures stays { reads self.new ≡ reads self.old }
        ensures sure { reads self.old ≡ true → IfSome result (λ input. Self.Input.is_sure input ≡ true) }
        ensures bytes { Opens Self.Input.remaining (reported self.old) name.now result };
}

/// The machine's files, and `-` for its standard input. Contracts know nothing of their contents.
#[derive(Drop)]
pub struct MachineFiles<'a, R: rt::Files + Input> {
    rt: &'a R,
    is_standard_open: bool,
}

/// The reader of one of them.
#[derive(Drop)]
pub struct MachineInput<R: rt::Files + Input> {
    source: Source<R>,
    may_wait: bool,
}

#[derive(Drop)]
enum Source<R: rt::Files + Input> {
    File(R::File),
    Standard(R::Reader),
}

impl<'a, R: rt::Files + Input> MachineFiles<'a, R> {
    /// The files that the runtime opens.
    pub fn new(rt: &'a R) -> Self
        ensures { result.rt ≡ rt.entry }
    {
        MachineFiles {
            rt,
            is_standard_open: false,
        }
    }
}

impl<'a, R: rt::Files + Input> Files for MachineFiles<'a, R> {
    type Input = MachineInput<R>;

    ghost reported = { λ _. None };

    ghost opened = { λ _. None };

    ghost reads = { λ _. false };

    /// Standard input is opened once: a second `-` would find it empty.
    fn open(&mut self, name: &str) -> Option<MachineInput<R>> {
        if name == "-" {
            if self.is_standard_open {
                return None;
            }
            self.is_standard_open = true;
            return Some(MachineInput {
                source: Source::Standard(self.rt.reader()),
                may_wait: true,
            });
        }
        let file = fs::open(self.rt, name).ok()?;
        let may_wait = may_wait(&file);
        Some(MachineInput {
            source: Source::File(file),
            may_wait,
        })
    }
}

/// Whether a read may have to wait for a partner: of what is no file on a disk, such as a pipe or a terminal.
fn may_wait<F: OpenFile>(file: &F) -> bool {
    match file.metadata() {
        Ok(metadata) => !metadata.is_file(),
        Err(_) => true,
    }
}

impl<R: rt::Files + Input> Reader for MachineInput<R> {
    ghost remaining = { λ _. None };

    ghost is_sure = { λ _. false };

    ghost waits = { λ input. input.may_wait };

    ghost moments = { λ _. None };

    fn may_wait(&self) -> bool {
        self.may_wait
    }

    fn next_piece<O: Output>(&mut self, piece: &mut [u8], _output: &O) -> io::Result<usize> {
        match &mut self.source {
            Source::File(file) => file.read(piece),
            Source::Standard(input) => input.read(piece),
        }
    }
}
