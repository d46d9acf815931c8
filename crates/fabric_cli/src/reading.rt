//! Files that are opened, and read to their end.

ghost use Rattle.std.specs.Prelude.{ℕ, ◌≡◌, true, List, [], ◌∷◌, Option, Some, IfOk, IfErr, IfSome, OnOk, option_map};
ghost use Rattle.dump_file.specs.Dump.{dump_of};
ghost use Rattle.step_results.specs.TextGives.{TextGives};
ghost use Rattle.fabric_cli.specs.Files.{ForBytes, OpensAll, OpensInOrder};
ghost use Rattle.fabric_cli.specs.Faults.{IsOfFiles, NamesUnread};

use crate::faults::Stop;
use crate::files::Files;
use dump_file::{Dump, DumpFault};
use std::alloc::Global;
use text_streams::{TextSize, read_to_end};

/// A file that is open, and that is read while it is carried out.
#[derive(Drop)]
pub struct OpenFile<'a, I> {
    /// Its name.
    pub name: &'a str,
    /// Its reader; nothing of it is read yet.
    pub input: I,
}

/// A named file, which is opened once.
pub fn open_file<'a, F: Files>(
    files: &mut F,
    name: &'a str,
) -> Result<OpenFile<'a, F::Input>, Stop<'a>>
    ensures opened { OpensAll (F.opened files.old) (F.opened files.new) (name.entry.now ∷ []) }
    ensures same { F.reported files.new ≡ F.reported files.old }
    ensures stays { F.reads files.new ≡ F.reads files.old }
    ensures named { IfOk result (λ given. given.name ≡ name.entry) }
    ensures bytes { IfOk result (λ given. IfSome (F.reported files.old)
        (λ file. Some (F.Input.remaining given.input) ≡ option_map Some (file name.entry.now))) }
    ensures sure { F.reads files.old ≡ true → IfOk result (λ given. F.Input.is_sure given.input ≡ true) }
    ensures fault { IfErr result IsOfFiles }
    ensures unread { IfErr result (NamesUnread (F.reported files.old) (F.reads files.old)
        (F.opened files.old) (F.opened files.new) (name.entry.now ∷ [])) }
{
    match files.open(name) {
        Some(input) => Ok(OpenFile { name, input }),
        None => Err(Stop::Unread(name)),
    }
}

/// What was read of a fabric and of a dump of its LFTs.
#[derive(Drop)]
pub struct FabricAndDump {
    /// The bytes of the first file.
    pub fabric: Vec<u8>,
    /// What the second reports, or its first fault.
    pub dump: Result<Dump, DumpFault>,
}

/// The bytes of a named file, and what `dump_fts` printed into another: each is opened once, and may be big.
pub fn read_fabric_and_dump<'a, F: Files>(
    alloc: Global,
    files: &mut F,
    fabric: &'a str,
    dump: &'a str,
) -> Result<FabricAndDump, Stop<'a>>
    ensures order { OpensInOrder (F.opened files.old) (F.opened files.new) (fabric.entry.now ∷ dump.entry.now ∷ []) }
    ensures all { OnOk result (OpensAll (F.opened files.old) (F.opened files.new) (fabric.entry.now ∷ dump.entry.now ∷ [])) }
    ensures fabric { IfOk result (λ read. IfSome (F.reported files.old) (λ file. file fabric.entry.now ≡ Some read.fabric.items)) }
    ensures dump { IfOk result (λ read. ForBytes (F.reported files.old) dump.entry.now
        (λ tables. TextGives (λ dump. dump) read.dump (dump_of tables))) }
    ensures fault { IfErr result IsOfFiles }
    ensures unread { IfErr result (NamesUnread (F.reported files.old) (F.reads files.old)
        (F.opened files.old) (F.opened files.new) (fabric.entry.now ∷ dump.entry.now ∷ [])) }
{
    let fabric = read_file(alloc, files, fabric, TextSize::Big)?;
    let dump = read_dump(alloc, files, dump)?;
    Ok(FabricAndDump { fabric, dump })
}

/// What `dump_fts` printed into a named file, or its first fault. The file is opened once. It may be big, and is not kept.
pub fn read_dump<'a, F: Files>(
    alloc: Global,
    files: &mut F,
    name: &'a str,
) -> Result<Result<Dump, DumpFault>, Stop<'a>>
    ensures opened { OpensAll (F.opened files.old) (F.opened files.new) (name.entry.now ∷ []) }
    ensures same { F.reported files.new ≡ F.reported files.old }
    ensures stays { F.reads files.new ≡ F.reads files.old }
    ensures dump { IfOk result (λ read. ForBytes (F.reported files.old) name.entry.now
        (λ tables. TextGives (λ dump. dump) read (dump_of tables))) }
    ensures fault { IfErr result IsOfFiles }
    ensures unread { IfErr result (NamesUnread (F.reported files.old) (F.reads files.old)
        (F.opened files.old) (F.opened files.new) (name.entry.now ∷ [])) }
{
    let OpenFile { name, mut input } = open_file(files, name)?;
    match dump_file::read_from(alloc, &mut input) {
        Ok(Some(dump)) => Ok(Ok(dump)),
        Ok(None) => Err(Stop::Unread(name)),
        Err(fault) => Ok(Err(fault)),
    }
}

/// The bytes of a named file of at most this size, which is opened once.
pub fn read_file<'a, F: Files>(
    alloc: Global,
    files: &mut F,
    name: &'a str,
    size: TextSize,
) -> Result<Vec<u8>, Stop<'a>>
    ensures opened { OpensAll (F.opened files.old) (F.opened files.new) (name.entry.now ∷ []) }
    ensures same { F.reported files.new ≡ F.reported files.old }
    ensures stays { F.reads files.new ≡ F.reads files.old }
    ensures bytes { IfOk result (λ bytes. IfSome (F.reported files.old)
        (λ file. file name.entry.now ≡ Some bytes.items)) }
    ensures fault { IfErr result IsOfFiles }
    ensures unread { IfErr result (NamesUnread (F.reported files.old) (F.reads files.old)
        (F.opened files.old) (F.opened files.new) (name.entry.now ∷ [])) }
{
    let Some(mut input) = files.open(name) else {
        return Err(Stop::Unread(name));
    };
    match read_to_end(alloc, &mut input, size)? {
        Some(bytes) => Ok(bytes),
        None => Err(Stop::Unread(name)),
    }
}
