//! Files and writers in memory, some of which fail. The contents of all of them are known to contracts.

ghost use Rattle.std.specs.Prelude.{◌≡◌, false, [], ◌∷◌, Some, find, map, option_map, string_bytes};
ghost use Rattle.std.specs.Io.{ReadsAtMost};
ghost use Rattle.std.specs.Io.KnownBytes.{ReadConsumes};
ghost use Rattle.std.specs.Str.{bytes_eq};
ghost use Rattle.fabric_cli.specs.Files.{OpensAll};

use fabric_cli::Files;
use std::alloc::Global;
use std::io;
use std::io::{ErrorKind, Read, Write};

/// How a file is read.
#[derive(Clone, Copy)]
pub enum Manner {
    /// As far as there is room.
    Plain,
    /// The same, after one read that is interrupted.
    Interrupted,
    /// As far as there is room, if there is room for 4,096 bytes; else the read fails.
    Wide,
    /// One byte a read.
    Dripping,
    /// Never: every read fails.
    Failing,
    /// One byte a read, except the read of this number, counted from 1, which fails.
    FailingAt(usize),
}

/// What a name opens to.
#[derive(Clone, Copy)]
pub struct Source<'a> {
    pub bytes: &'a [u8],
    pub manner: Manner,
}

impl Read for Source<'_> {
    ghost remaining = { λ source. Some source.bytes.now };

    fn read(&mut self, buf: &mut [u8]) -> io::Result<usize> {
        match self.manner {
            Manner::Plain => self.bytes.read(buf),
            Manner::Interrupted => {
                self.manner = Manner::Plain;
                Err(io::Error::from(ErrorKind::Interrupted))
            }
            Manner::Wide => {
                if buf.len() < 4_096 {
                    return Err(io::Error::from(ErrorKind::Other));
                }
                self.bytes.read(buf)
            }
            Manner::Dripping => self.drip(buf),
            Manner::Failing => Err(io::Error::from(ErrorKind::Other)),
            Manner::FailingAt(reads) => {
                if reads <= 1 {
                    self.manner = Manner::Dripping;
                    return Err(io::Error::from(ErrorKind::Other));
                }
                self.manner = Manner::FailingAt(reads - 1);
                self.drip(buf)
            }
        }
    }
}

impl Source<'_> {
    /// Reads one byte, if there is room for it and one is left.
    fn drip(&mut self, buf: &mut [u8]) -> io::Result<usize>
        ensures bound { ReadsAtMost result buf.new }
        ensures bytes { ReadConsumes (Some self.old.bytes.now) (Some self.new.bytes.now) result buf.new }
    {
        let room = buf.len().min(1);
        self.bytes.read(&mut buf[..room])
    }
}

/// Named sources, and the names opened so far, as long as they could be kept.
#[derive(Drop)]
pub struct Shelf<'a> {
    pub alloc: Global,
    pub files: &'a [(&'a str, Source<'a>)],
    pub names: Option<Vec<String>>,
}

impl<'a> Files for Shelf<'a> {
    type Input = Source<'a>;

    ghost reported = { λ shelf. Some (λ name. option_map (λ known. known.1.bytes.now) (find (λ known. bytes_eq known.0.now name) shelf.files.now)) };

    ghost opened = { λ shelf. option_map (λ names. map string_bytes names.items) shelf.names };

    ghost reads = { λ _. false };

    fn open(&mut self, name: &str) -> Option<Source<'a>> {
        self.names = noted(self.alloc, self.names.take(), name);
        source_of(self.files, name)
    }
}

/// What the first file of that name is.
fn source_of<'a>(files: &[(&str, Source<'a>)], name: &str) -> Option<Source<'a>>
    ensures { option_map (λ source. source.bytes.now) result
        ≡ option_map (λ known. known.1.bytes.now) (find (λ known. bytes_eq known.0.now name.now) files.now) }
{
    files
        .iter()
        .find(|known| known.0 == name)
        .map(|known| known.1)
}

/// The names with one more, if all of them could be kept.
fn noted(alloc: Global, names: Option<Vec<String>>, name: &str) -> Option<Vec<String>>
    ensures { OpensAll (option_map (λ all. map string_bytes all.items) names)
        (option_map (λ all. map string_bytes all.items) result) (name.now ∷ []) }
{
    let mut names = names?;
    names.push(String::from_str(alloc, name).ok()?).ok()?;
    Some(names)
}

/// How a writer fails.
#[derive(Clone, Copy)]
pub enum Refusal {
    Nothing,
    Interrupted,
    Broken,
}

/// Takes eight bytes a write, until it fails.
#[derive(Drop)]
pub struct Sink {
    pub bytes: Vec<u8>,
    /// How many writes it takes.
    pub writes: usize,
    pub refusal: Refusal,
    pub flushes: bool,
}

impl Write for Sink {
    ghost contents = { λ sink. Some sink.bytes.items };

    fn write(&mut self, buf: &[u8]) -> io::Result<usize> {
        if self.writes == 0 {
            return match self.refusal {
                Refusal::Nothing => Ok(0),
                Refusal::Interrupted => Err(io::Error::from(ErrorKind::Interrupted)),
                Refusal::Broken => Err(io::Error::from(ErrorKind::BrokenPipe)),
            };
        }
        self.writes -= 1;
        let count = buf.len().min(8);
        self.bytes.extend_from_slice(&buf[..count])?;
        Ok(count)
    }

    fn flush(&mut self) -> io::Result<()> {
        if self.flushes {
            Ok(())
        } else {
            Err(io::Error::from(ErrorKind::Other))
        }
    }
}
