//! The program's work, for any arguments, any files and any two writers.

ghost use Rattle.std.specs.Prelude.{◌≡◌, ◌≢◌, ◌⊎◌, ◌∷◌, [], Ok, IfErr, IfSome};
ghost use Rattle.std.specs.Io.KnownBytes.{Appends};
ghost use Rattle.std.specs.Process.{exit_status};
ghost use Rattle.cli_args.specs.Words.{all_names, asked_by_given, asking, asking_by_clap, given_texts, names, opened_for};
ghost use Rattle.cli_args.specs.declared.call.Call.TheVariants.{AuditKeys as ToAuditKeys, AuditThree as ToAuditThree, Dumped as ToView, Import as ToImport, Subnet as InSubnet};
ghost use Rattle.fabric_cli.specs.Faults.{line_of, memory_line, status_of, NamesUnread};
ghost use Rattle.fabric_cli.specs.Files.{OpensAll, OpensInOrder};
ghost use Rattle.fabric_cli.specs.Serving.{judged_for, judged_if_read, texts_of, Answers, AppendsSomeFor, EndsAs, EndsFor, ForSomeBytes};
ghost use Rattle.fabric_cli.specs.Serving.{IsRefusedFor, IsReported, ReportsStop};
ghost use Rattle.fabric_cli.specs.KeyFiles.{keys_call, keys_names};
ghost use Rattle.fabric_cli.specs.ThreeFiles.{three_call, three_names};
ghost use Rattle.text_streams.specs.Writing.{Writes};

use crate::answering::{Answer, answered_of_texts, written, written_as, written_view};
use crate::faults::{MEMORY_LINE, REFUSED, Stop};
use crate::files::Files;
use crate::key_audits::{KeysFiles, keys_audited, read_keys_files, written_keys};
use crate::outputs::{imported, text_or_stop, viewed};
use crate::reading::{read_fabric_and_dump, read_file};
use crate::texts::read_texts;
use crate::three_files::{ThreeFiles, read_three_files, three_viewed};
use cli_args::{
    Asked, Call, Clap, DumpView, Parser, ThirdFile, given_words, read_words, version_line,
};
use code_texts::explained;
use std::alloc::Global;
use std::env::Args;
use std::io;
use std::process::ExitCode;
use text_streams::{Output, TextSize, write_whole};

/// Does what the arguments of the process ask for, as [`serve`] does, and returns the exit status; arguments that are not
/// text are refused.
pub fn serve_given<F: Files, O: Output, E: Output>(
    alloc: Global,
    given: io::Result<Args>,
    files: &mut F,
    out: &mut O,
    err: &mut E,
) -> ExitCode
    ensures order { OpensInOrder (F.opened files.old) (F.opened files.new) (opened_for (asked_by_given (given_texts given))) }
    ensures all { exit_status result ≢ 3
        → OpensAll (F.opened files.old) (F.opened files.new) (opened_for (asked_by_given (given_texts given))) }
    ensures exact { exit_status result ≢ 3 → EndsFor (asked_by_given (given_texts given)) (F.reported files.old) (exit_status result)
        (O.contents out.old) (O.contents out.new) (E.contents err.old) (E.contents err.new) }
    ensures any_files { exit_status result ≢ 3 → ForSomeBytes (asked_by_given (given_texts given)) (λ judged.
        EndsAs judged (exit_status result) (O.contents out.old) (O.contents out.new) (E.contents err.old) (E.contents err.new)) }
    ensures refused { exit_status result ≡ 3 → IsRefusedFor (asked_by_given (given_texts given)) (F.reported files.old) (F.reads files.old)
        (F.opened files.old) (F.opened files.new) (O.is_sure out.old) (E.is_sure err.old) (E.contents err.old) (E.contents err.new) }
    ensures short { AppendsSomeFor (asked_by_given (given_texts given)) (F.reported files.old) (O.contents out.old) (O.contents out.new) }
{
    match given_words(alloc, given) {
        Ok(words) => ExitCode::from(serve(alloc, words.as_slice(), files, out, err)),
        Err(refused) => ExitCode::from(reported_stop(alloc, &Stop::of_words(refused), err)),
    }
}

/// Does what the arguments ask for, the first of them the program's own name, and returns the exit status: 0 if the whole
/// output went to `out`; 1 if a file has an error or routes are not safe; 2 if the arguments are refused; 3 if the program
/// is out of memory, a file cannot be read or output cannot be written. `err` gets one line, unless it fails itself.
///
/// The files are opened in the order of the arguments, and each is read to its end before any is checked, except a script
/// that is run: that is opened then, and carried out line by line while it is read.
pub fn serve<F: Files, O: Output, E: Output>(
    alloc: Global,
    words: &[String],
    files: &mut F,
    out: &mut O,
    err: &mut E,
) -> u8
    ensures order { OpensInOrder (F.opened files.old) (F.opened files.new) (opened_for (asking_by_clap words.now)) }
    ensures all { result ≢ 3 → OpensAll (F.opened files.old) (F.opened files.new) (opened_for (asking_by_clap words.now)) }
    ensures exact { result ≢ 3 → EndsFor (asking_by_clap words.now) (F.reported files.old) result
        (O.contents out.old) (O.contents out.new) (E.contents err.old) (E.contents err.new) }
    ensures any_files { result ≢ 3 → ForSomeBytes (asking_by_clap words.now) (λ judged.
        EndsAs judged result (O.contents out.old) (O.contents out.new) (E.contents err.old) (E.contents err.new)) }
    ensures refused { result ≡ 3 → IsRefusedFor (asking_by_clap words.now) (F.reported files.old) (F.reads files.old)
        (F.opened files.old) (F.opened files.new) (O.is_sure out.old) (E.is_sure err.old) (E.contents err.old) (E.contents err.new) }
    ensures short { AppendsSomeFor (asking_by_clap words.now) (F.reported files.old) (O.contents out.old) (O.contents out.new) }
{
    serve_by(alloc, &Clap, words, files, out, err)
}

/// Does what the arguments ask for, as [`serve`] does, with any parser. If that refuses the arguments, `err` gets the text
/// of its error; for a parser whose texts are known the contract says which one.
pub fn serve_by<P: Parser, F: Files, O: Output, E: Output>(
    alloc: Global,
    parser: &P,
    words: &[String],
    files: &mut F,
    out: &mut O,
    err: &mut E,
) -> u8
    ensures order { OpensInOrder (F.opened files.old) (F.opened files.new) (opened_for (asking (P.shown parser.now) words.now)) }
    ensures all { result ≢ 3 → OpensAll (F.opened files.old) (F.opened files.new) (opened_for (asking (P.shown parser.now) words.now)) }
    ensures exact { result ≢ 3 → EndsFor (asking (P.shown parser.now) words.now) (F.reported files.old) result
        (O.contents out.old) (O.contents out.new) (E.contents err.old) (E.contents err.new) }
    ensures any_files { result ≢ 3 → ForSomeBytes (asking (P.shown parser.now) words.now) (λ judged.
        EndsAs judged result (O.contents out.old) (O.contents out.new) (E.contents err.old) (E.contents err.new)) }
    ensures refused { result ≡ 3 → IsRefusedFor (asking (P.shown parser.now) words.now) (F.reported files.old) (F.reads files.old)
        (F.opened files.old) (F.opened files.new) (O.is_sure out.old) (E.is_sure err.old) (E.contents err.old) (E.contents err.new) }
    ensures short { AppendsSomeFor (asking (P.shown parser.now) words.now) (F.reported files.old) (O.contents out.old) (O.contents out.new) }
{
    match answered(alloc, parser, words, files, out) {
        Ok(answer) => answer.status(),
        Err(stop) => reported_stop(alloc, &stop, err),
    }
}

/// Writes the line of an error, and returns the exit status. If an allocation fails, it writes that line instead; if the
/// whole line cannot be written, the status is that of output that cannot be written.
fn reported_stop<E: Output>(alloc: Global, stop: &Stop<'_>, err: &mut E) -> u8
    ensures whole { result ≢ 3
        → (result ≡ status_of stop.now) × Appends (E.contents err.old) (E.contents err.new) (line_of stop.now) }
    ensures part { ReportsStop stop.now result (E.is_sure err.old) (E.contents err.old) (E.contents err.new)
        ⊎ Writes (E.is_sure err.old) (E.contents err.old) (E.contents err.new) memory_line }
{
    match stop.line(alloc) {
        Ok(line) => {
            if write_whole(err, line.as_slice()) {
                stop.status()
            } else {
                REFUSED
            }
        }
        Err(_) => {
            let _ = write_whole(err, MEMORY_LINE.as_bytes());
            REFUSED
        }
    }
}

/// Writes what the arguments ask for.
fn answered<'a, P: Parser, F: Files, O: Output>(
    alloc: Global,
    parser: &P,
    words: &'a [String],
    files: &mut F,
    out: &mut O,
) -> Result<Answer, Stop<'a>>
    ensures order { OpensInOrder (F.opened files.old) (F.opened files.new)
        (opened_for (asking (P.shown parser.now) words.entry.now)) }
    ensures all { IsReported result → OpensAll (F.opened files.old) (F.opened files.new)
        (opened_for (asking (P.shown parser.now) words.entry.now)) }
    ensures exact { IfSome (F.reported files.old) (λ file. Answers (judged_for file (asking (P.shown parser.now) words.entry.now))
        result (O.is_sure out.old) (O.contents out.old) (O.contents out.new)) }
    ensures any_files { IsReported result → ForSomeBytes (asking (P.shown parser.now) words.entry.now)
        (λ judged. Answers judged result (O.is_sure out.old) (O.contents out.old) (O.contents out.new)) }
    ensures unread { IfErr result (NamesUnread (F.reported files.old) (F.reads files.old) (F.opened files.old) (F.opened files.new)
        (opened_for (asking (P.shown parser.now) words.entry.now))) }
{
    match read_words(alloc, parser, words) {
        Ok(Call::Subnet(asked)) => answered_of_files(alloc, &asked, files, out),
        Ok(
            Call::Import {
                netdiscover,
                manager,
                roots,
            },
        ) => answered_of_discovery(alloc, netdiscover, manager, roots, files, out),
        Ok(Call::Dumped { view, fabric, dump }) => {
            answered_of_dump(alloc, view, fabric, dump, files, out)
        }
        Ok(
            Call::AuditThree {
                third,
                fabric,
                dump,
                file,
            },
        ) => {
            let asked = ThreeFiles {
                fabric,
                dump,
                third: file,
            };
            answered_of_three(alloc, third, &asked, files, out)
        }
        Ok(
            Call::AuditKeys {
                netdiscover,
                pkeys,
                partitions,
                manager,
                all,
            },
        ) => {
            let asked = KeysFiles {
                netdiscover,
                pkeys,
                partitions,
            };
            answered_of_keys(alloc, &asked, manager, all, files, out)
        }
        Ok(Call::Explain(code)) => written(out, text_or_stop(explained(alloc, code))),
        Ok(Call::Version) => written_as(out, version_line().as_bytes(), Answer::Complete),
        Err(refused) => Err(Stop::of_words(refused)),
    }
}

/// Writes the topology for a file that `ibnetdiscover` printed.
fn answered_of_discovery<'a, F: Files, O: Output>(
    alloc: Global,
    netdiscover: &'a str,
    manager: Option<u64>,
    roots: bool,
    files: &mut F,
    out: &mut O,
) -> Result<Answer, Stop<'a>>
    ensures opened { OpensAll (F.opened files.old) (F.opened files.new) (netdiscover.entry.now ∷ []) }
    ensures exact { IfSome (F.reported files.old) (λ file. Answers (judged_for file (Ok (ToImport netdiscover.entry.now manager roots))) result
        (O.is_sure out.old) (O.contents out.old) (O.contents out.new)) }
    ensures any_files { IsReported result → ForSomeBytes (Ok (ToImport netdiscover.entry.now manager roots))
        (λ judged. Answers judged result (O.is_sure out.old) (O.contents out.old) (O.contents out.new)) }
    ensures unread { IfErr result (NamesUnread (F.reported files.old) (F.reads files.old)
        (F.opened files.old) (F.opened files.new) (netdiscover.entry.now ∷ [])) }
{
    match read_file(alloc, files, netdiscover, TextSize::Big) {
        Ok(text) => written(out, imported(alloc, text.as_slice(), manager, roots)),
        Err(stop) => Err(stop),
    }
}

/// Writes what is asked for of a fabric and a dump, which are two files.
fn answered_of_dump<'a, F: Files, O: Output>(
    alloc: Global,
    view: DumpView,
    fabric: &'a str,
    dump: &'a str,
    files: &mut F,
    out: &mut O,
) -> Result<Answer, Stop<'a>>
    ensures order { OpensInOrder (F.opened files.old) (F.opened files.new) (fabric.entry.now ∷ dump.entry.now ∷ []) }
    ensures all { IsReported result → OpensAll (F.opened files.old) (F.opened files.new) (fabric.entry.now ∷ dump.entry.now ∷ []) }
    ensures exact { IfSome (F.reported files.old) (λ file. Answers (judged_for file (Ok (ToView view fabric.entry.now dump.entry.now))) result
        (O.is_sure out.old) (O.contents out.old) (O.contents out.new)) }
    ensures any_files { IsReported result → ForSomeBytes (Ok (ToView view fabric.entry.now dump.entry.now))
        (λ judged. Answers judged result (O.is_sure out.old) (O.contents out.old) (O.contents out.new)) }
    ensures unread { IfErr result (NamesUnread (F.reported files.old) (F.reads files.old)
        (F.opened files.old) (F.opened files.new) (fabric.entry.now ∷ dump.entry.now ∷ [])) }
{
    match read_fabric_and_dump(alloc, files, fabric, dump) {
        Ok(read) => {
            let made = viewed(alloc, view, read.fabric.as_slice(), &read.dump);
            written_view(out, made)
        }
        Err(stop) => Err(stop),
    }
}

/// Writes the audit of LFTs with a third file: the three files are read before any is checked.
fn answered_of_three<'a, F: Files, O: Output>(
    alloc: Global,
    third: ThirdFile,
    asked: &ThreeFiles<'a>,
    files: &mut F,
    out: &mut O,
) -> Result<Answer, Stop<'a>>
    ensures order { OpensInOrder (F.opened files.old) (F.opened files.new) (three_names asked.now) }
    ensures all { IsReported result → OpensAll (F.opened files.old) (F.opened files.new) (three_names asked.now) }
    ensures exact { IfSome (F.reported files.old) (λ file. Answers (judged_for file (Ok (three_call third asked.now))) result
        (O.is_sure out.old) (O.contents out.old) (O.contents out.new)) }
    ensures any_files { IsReported result → ForSomeBytes (Ok (three_call third asked.now))
        (λ judged. Answers judged result (O.is_sure out.old) (O.contents out.old) (O.contents out.new)) }
    ensures unread { IfErr result (NamesUnread (F.reported files.old) (F.reads files.old)
        (F.opened files.old) (F.opened files.new) (three_names asked.now)) }
{
    match read_three_files(alloc, files, asked.fabric, asked.dump, asked.third) {
        Ok(read) => {
            let (fabric, file) = (read.fabric.as_slice(), read.third.as_slice());
            written_view(out, three_viewed(alloc, third, fabric, &read.dump, file))
        }
        Err(stop) => Err(stop),
    }
}

/// Writes the audit of P_Key tables: the three files are read before any is checked.
fn answered_of_keys<'a, F: Files, O: Output>(
    alloc: Global,
    asked: &KeysFiles<'a>,
    manager: Option<u64>,
    all: bool,
    files: &mut F,
    out: &mut O,
) -> Result<Answer, Stop<'a>>
    ensures order { OpensInOrder (F.opened files.old) (F.opened files.new) (keys_names asked.now) }
    ensures all { IsReported result → OpensAll (F.opened files.old) (F.opened files.new) (keys_names asked.now) }
    ensures exact { IfSome (F.reported files.old) (λ file. Answers (judged_for file (Ok (keys_call asked.now manager all))) result
        (O.is_sure out.old) (O.contents out.old) (O.contents out.new)) }
    ensures any_files { IsReported result → ForSomeBytes (Ok (keys_call asked.now manager all))
        (λ judged. Answers judged result (O.is_sure out.old) (O.contents out.old) (O.contents out.new)) }
    ensures unread { IfErr result (NamesUnread (F.reported files.old) (F.reads files.old)
        (F.opened files.old) (F.opened files.new) (keys_names asked.now)) }
{
    match read_keys_files(alloc, files, asked) {
        Ok(texts) => written_keys(out, keys_audited(alloc, &texts, manager, all)),
        Err(stop) => Err(stop),
    }
}

/// Writes what is asked for of these files: all are opened, and all except a script that is run are read, before any is
/// checked.
fn answered_of_files<'a, F: Files, O: Output>(
    alloc: Global,
    asked: &Asked<'a>,
    files: &mut F,
    out: &mut O,
) -> Result<Answer, Stop<'a>>
    ensures order { OpensInOrder (F.opened files.old) (F.opened files.new) (all_names (names asked.now)) }
    ensures all { IsReported result → OpensAll (F.opened files.old) (F.opened files.new) (all_names (names asked.now)) }
    ensures exact { IfSome (F.reported files.old) (λ file. Answers (judged_if_read (texts_of file (names asked.now))) result
        (O.is_sure out.old) (O.contents out.old) (O.contents out.new)) }
    ensures any_files { IsReported result → ForSomeBytes (Ok (InSubnet (names asked.now)))
        (λ judged. Answers judged result (O.is_sure out.old) (O.contents out.old) (O.contents out.new)) }
    ensures unread { IfErr result (NamesUnread (F.reported files.old) (F.reads files.old)
        (F.opened files.old) (F.opened files.new) (all_names (names asked.now))) }
{
    match read_texts(alloc, asked, files) {
        Ok(texts) => answered_of_texts(alloc, texts, out),
        Err(stop) => Err(stop),
    }
}
