//! What the command line asks for.

ghost use Rattle.std.specs.Prelude.{◌≡◌, ◌^◌, Ok, Some, map, string_bytes, option_map, IfOk, IfErr};
ghost use Rattle.clap.specs.Words.{first_of, found_of, rows_of, subcommand_rows_of};
ghost use Rattle.cli_args.specs.Help.{version_line};
ghost use Rattle.cli_args.specs.Refusals.{IsOfGiven, IsOfWords, ReportsAll};
ghost use Rattle.cli_args.specs.Words.{asked_by, asked_in, asked_of, audit_by, audit_three, audit_with, call_in, compare_by, cuts_by, diff_by, dumped_by, explain_by, file_in, given_items, guid_by};
ghost use Rattle.cli_args.specs.Words.{audit_keys_by, import_by, in_subnet, roots_by};
ghost use Rattle.text_words.specs.Number.{if_under, number_in};
ghost use Rattle.cli_args.specs.Words.{graph_by, graph_with, inspect_by, is_balanced, is_given, load_by, load_with, loads_in, named_call, named_found, named_inspection};
ghost use Rattle.cli_args.specs.Words.{manage_by, named_work, run_by, smps_by, subcommand_in, text_for, trace_by, u16_by};

use crate::call::{
    Asked, Call, CutView, DumpView, Inspection, NamedWork, Refused, Subcommand, ThirdFile, Work,
};
use crate::command_line::Parser;
use crate::help::{
    NO_SECOND_PORT, NO_SUCH_CODE, NO_SUCH_IMPORT, NO_SUCH_KEYS_GUID, NO_SUCH_NUMBER, NOT_TEXT,
    ONE_PICTURE, ONE_THIRD_FILE, PARTS_OR_DUMP, VERSION_LINE,
};
use clap::ArgMatches;
use code_texts::Code;
use std::alloc::Global;
use std::env::Args;
use std::fmt::Display;
use std::io;
use text_words::{number_in, u16_in};

/// The arguments of the program, its own name first: all of them. They are refused if one is not UTF-8.
pub fn given_words(alloc: Global, given: io::Result<Args>) -> Result<Vec<String>, Refused<String>>
    ensures all { IfOk result (λ words. given_items given ≡ Some words.items) }
    ensures refused { IfErr result (IsOfGiven given) }
{
    match given {
        Ok(words) => Ok(words.collect(alloc)?),
        Err(error) if error.kind() == io::ErrorKind::OutOfMemory => Err(Refused::NoMemory),
        Err(_) => Err(Refused::Words(String::from_str(alloc, NOT_TEXT)?)),
    }
}

/// What the arguments ask for, the first of them the program's own name. If the parser refuses them, the refusal has the
/// text of its error.
pub fn read_words<'a, P: Parser>(
    alloc: Global,
    parser: &P,
    words: &'a [String],
) -> Result<Call<Asked<'a>, &'a str>, Refused<String>>
    ensures asked { IfOk result (λ call. asked_of (P.shown parser.now) (map string_bytes words.entry.now) ≡ Ok (named_call call)) }
    ensures refused { IfErr result (IsOfWords (asked_of (P.shown parser.now) (map string_bytes words.entry.now))) }
{
    match parser.parse(alloc, words) {
        Ok(Some(matches)) => match call_in(&matches) {
            Ok(call) => Ok(call),
            Err(text) => Err(Refused::Words(String::from_str(alloc, text)?)),
        },
        Ok(None) => Ok(Call::Version),
        Err(Refused::NoMemory) => Err(Refused::NoMemory),
        Err(Refused::Words(error)) => Err(shown(alloc, &error)),
    }
}

/// The refusal with the text that the error displays, whatever that is.
fn shown<E: Display>(alloc: Global, error: &E) -> Refused<String>
    ensures { ReportsAll (E.output error.now) result }
{
    match error.to_string(alloc) {
        Ok(text) => Refused::Words(text),
        Err(_) => Refused::NoMemory,
    }
}

/// What the parsed arguments ask for, or the text for one that is not a code, a number or a GUID.
fn call_in<'a>(matches: &ArgMatches<'a>) -> Result<Call<Asked<'a>, &'a str>, &'static str>
    ensures { named_found result ≡ asked_in (subcommand_rows_of matches.now) }
{
    let Some((word, found)) = matches.subcommand() else {
        return Err(NO_SUCH_CODE);
    };
    let Some(command) = subcommand_in(word) else {
        return Err(NO_SUCH_CODE);
    };
    match call_of(command, found) {
        Some(call) => Ok(call),
        None => Err(text_for(command)),
    }
}

/// What is printed of the version.
pub fn version_line() -> &'static str
    ensures { result.now ≡ version_line }
{
    VERSION_LINE
}

/// The command of that name.
fn subcommand_in(word: &str) -> Option<Subcommand>
    ensures { result ≡ subcommand_in word.now }
{
    match word {
        "check" => Some(Subcommand::Check),
        "shares" => Some(Subcommand::Shares),
        "diff" => Some(Subcommand::Diff),
        "tables" => Some(Subcommand::Tables),
        "keys" => Some(Subcommand::Keys),
        "trace" => Some(Subcommand::Trace),
        "graph" => Some(Subcommand::Graph),
        "run" => Some(Subcommand::Run),
        "smp" => Some(Subcommand::Smp),
        "manage" => Some(Subcommand::Manage),
        "compare" => Some(Subcommand::Compare),
        "cuts" => Some(Subcommand::Cuts),
        "import" => Some(Subcommand::Import),
        "audit" => Some(Subcommand::Audit),
        "load" => Some(Subcommand::Load),
        "audit-keys" => Some(Subcommand::AuditKeys),
        "explain" => Some(Subcommand::Explain),
        _ => None,
    }
}

/// The text for an argument that this command cannot take.
fn text_for(command: Subcommand) -> &'static str
    ensures { result.now ≡ text_for command }
{
    match command {
        Subcommand::Trace => NO_SUCH_NUMBER,
        Subcommand::Import => NO_SUCH_IMPORT,
        Subcommand::AuditKeys => NO_SUCH_KEYS_GUID,
        Subcommand::Cuts => NO_SECOND_PORT,
        Subcommand::Graph => ONE_PICTURE,
        Subcommand::Audit => ONE_THIRD_FILE,
        Subcommand::Load => PARTS_OR_DUMP,
        _ => NO_SUCH_CODE,
    }
}

/// What a command with these arguments asks for; nothing if one is not the code, number or GUID that it has to be.
fn call_of<'a>(command: Subcommand, found: &ArgMatches<'a>) -> Option<Call<Asked<'a>, &'a str>>
    ensures { option_map named_call result ≡ call_in command (rows_of (found_of found.now)) }
{
    match command {
        Subcommand::Check => {
            let balanced = is_balanced(found);
            in_subnet(found, Some(Work::Check { balanced }))
        }
        Subcommand::Shares => in_subnet(found, Some(Work::Shares(word_of(found, "PORT")))),
        Subcommand::Diff => in_subnet(found, diff_by(word_of(found, "PARTS2"))),
        Subcommand::Tables => in_subnet(found, inspect_by(found, Some(Inspection::Tables))),
        Subcommand::Keys => in_subnet(found, inspect_by(found, Some(Inspection::Keys))),
        Subcommand::Trace => in_subnet(found, inspect_by(found, traced(found))),
        Subcommand::Graph => in_subnet(found, graph_by(found)),
        Subcommand::Run => in_subnet(found, run_by(word_of(found, "SCRIPT"))),
        Subcommand::Smp => {
            let smps = smps_by(word_of(found, "SMPS"), word_of(found, "SCRIPT"));
            in_subnet(found, smps)
        }
        Subcommand::Manage => {
            let least = is_given(found, "LEAST_PORT");
            in_subnet(found, manage_by(word_of(found, "REPLIES"), least))
        }
        Subcommand::Compare => in_subnet(found, compared(found)),
        Subcommand::Cuts => {
            let (first, second) = (word_of(found, "PORT"), word_of(found, "PORT2"));
            in_subnet(found, cuts_by(first, second, is_balanced(found)))
        }
        Subcommand::Import => {
            let manager = guid_by(word_of(found, "SM"));
            let roots = roots_by(word_of(found, "ROOTS"));
            import_by(word_of(found, "NETDISCOVER"), manager, roots)
        }
        Subcommand::Audit => audit_by(found),
        Subcommand::Load => load_by(found),
        Subcommand::AuditKeys => audit_keys(found),
        Subcommand::Explain => explain_by(word_of(found, "CODE")),
    }
}

/// The value of an argument, if it is given.
fn word_of<'a>(found: &ArgMatches<'a>, name: &str) -> Option<&'a str>
    ensures { option_map (λ word. word.now) result ≡ first_of name.now (rows_of (found_of found.now)) }
{
    found.get_str(name)
}

/// What is to be done in the subnet of a topology and partitions.
fn in_subnet<'a>(
    found: &ArgMatches<'a>,
    work: Option<NamedWork<'a>>,
) -> Option<Call<Asked<'a>, &'a str>>
    ensures { option_map named_call result ≡ in_subnet (rows_of (found_of found.now)) (option_map named_work work.entry) }
{
    asked_by(word_of(found, "TOPO"), word_of(found, "PARTS"), work)
}

fn asked_by<'a>(
    topology: Option<&'a str>,
    partitions: Option<&'a str>,
    work: Option<NamedWork<'a>>,
) -> Option<Call<Asked<'a>, &'a str>>
    ensures { option_map named_call result ≡ asked_by (option_map (λ word. word.now) topology.entry)
        (option_map (λ word. word.now) partitions.entry) (option_map named_work work.entry) }
{
    Some(Call::Subnet(Asked {
        topology: topology?,
        partitions: file_in(partitions?),
        work: work?,
    }))
}

/// The name of a file, or none for `-`.
fn file_in(word: &str) -> Option<&str>
    ensures { option_map (λ name. name.now) result ≡ file_in word.entry.now }
{
    if word == "-" { None } else { Some(word) }
}

fn diff_by(second: Option<&str>) -> Option<NamedWork<'_>>
    ensures { option_map named_work result ≡ diff_by (option_map (λ word. word.now) second.entry) }
{
    Some(Work::Diff(file_in(second?)))
}

/// The loss of all cables, or of the one between two given ports; nothing if one port alone is given.
fn cuts_by<'a>(
    first: Option<&'a str>,
    second: Option<&'a str>,
    balanced: bool,
) -> Option<NamedWork<'a>>
    ensures { option_map named_work result
        ≡ cuts_by (option_map (λ word. word.now) first.entry) (option_map (λ word. word.now) second.entry) balanced }
{
    match (first, second) {
        (None, None) => Some(Work::Cuts {
            view: CutView::All,
            balanced,
        }),
        (Some(first), Some(second)) => Some(Work::Cuts {
            view: CutView::One { first, second },
            balanced,
        }),
        _ => None,
    }
}

fn run_by(script: Option<&str>) -> Option<NamedWork<'_>>
    ensures { option_map named_work result ≡ run_by (option_map (λ word. word.now) script.entry) }
{
    Some(Work::Run(script?))
}

fn manage_by(replies: Option<&str>, least: bool) -> Option<NamedWork<'_>>
    ensures { option_map named_work result ≡ manage_by (option_map (λ word. word.now) replies.entry) least }
{
    Some(Work::Manage {
        replies: replies?,
        balanced: !least,
    })
}

/// SMPs, after the commands of a script if one is given.
fn smps_by<'a>(smps: Option<&'a str>, script: Option<&'a str>) -> Option<NamedWork<'a>>
    ensures { option_map named_work result ≡ smps_by (option_map (λ word. word.now) smps.entry) (option_map (λ word. word.now) script.entry) }
{
    Some(Work::Smps {
        script,
        smps: smps?,
    })
}

/// A look at this, after the commands of a script if one is given.
fn inspect_by<'a>(
    found: &ArgMatches<'a>,
    what: Option<Inspection<&'a str>>,
) -> Option<NamedWork<'a>>
    ensures { option_map named_work result ≡ inspect_by (rows_of (found_of found.now)) (option_map named_inspection what.entry) }
{
    Some(Work::Inspect {
        what: what?,
        script: word_of(found, "SCRIPT"),
        balanced: is_balanced(found),
    })
}

/// A picture; with `--cuts` it is of the fabric as it is brought up.
fn graph_by<'a>(found: &ArgMatches<'a>) -> Option<NamedWork<'a>>
    ensures { option_map named_work result ≡ graph_by (rows_of (found_of found.now)) }
{
    let cuts = is_given(found, "CUTS");
    let load = is_given(found, "LOAD");
    let all = is_given(found, "ALL");
    graph_with(
        cuts,
        load,
        all,
        is_balanced(found),
        word_of(found, "SCRIPT"),
    )
}

/// Whether a flag is given.
fn is_given<'a>(found: &ArgMatches<'a>, name: &str) -> bool
    ensures { result ≡ is_given (rows_of (found_of found.now)) name.now }
{
    match word_of(found, name) {
        Some(value) => value == "true",
        None => false,
    }
}

/// Whether routes are to be balanced.
fn is_balanced<'a>(found: &ArgMatches<'a>) -> bool
    ensures { result ≡ is_balanced (rows_of (found_of found.now)) }
{
    is_given(found, "BALANCED")
}

fn graph_with(
    cuts: bool,
    load: bool,
    all: bool,
    balanced: bool,
    script: Option<&str>,
) -> Option<NamedWork<'_>>
    ensures { option_map named_work result ≡ graph_with cuts load all balanced (option_map (λ word. word.now) script.entry) }
{
    match (cuts, load, all, script) {
        (true, false, false, None) => Some(Work::Cuts {
            view: CutView::Picture,
            balanced,
        }),
        (false, true, all, script) => Some(Work::Inspect {
            what: Inspection::LoadGraph { all },
            script,
            balanced,
        }),
        (false, false, false, script) => Some(Work::Inspect {
            what: Inspection::Graph,
            script,
            balanced,
        }),
        _ => None,
    }
}

/// Two scripts and a port.
fn compared<'a>(found: &ArgMatches<'a>) -> Option<NamedWork<'a>>
    ensures { option_map named_work result ≡ compare_by (rows_of (found_of found.now)) }
{
    Some(Work::Compare {
        first: word_of(found, "S1")?,
        second: word_of(found, "S2")?,
        port: word_of(found, "PORT")?,
    })
}

/// A packet from a port, if the numbers have 16 bits.
fn traced<'a>(found: &ArgMatches<'a>) -> Option<Inspection<&'a str>>
    ensures { option_map named_inspection result ≡ trace_by (rows_of (found_of found.now)) }
{
    let port = word_of(found, "PORT")?;
    let dlid = u16_by(word_of(found, "DLID"))?;
    let p_key = u16_by(word_of(found, "PKEY"))?;
    Some(Inspection::Trace(port, dlid, p_key))
}

fn u16_by(word: Option<&str>) -> Option<u16>
    ensures { result ≡ u16_by (option_map (λ word. word.now) word.entry) }
{
    u16_in(word?.as_bytes())
}

/// A topology of this file, if the arguments for the SM port and for roots are taken.
fn import_by<'a>(
    netdiscover: Option<&'a str>,
    manager: Option<Option<u64>>,
    roots: Option<bool>,
) -> Option<Call<Asked<'a>, &'a str>>
    ensures { option_map named_call result ≡ import_by (option_map (λ word. word.now) netdiscover.entry) manager roots }
{
    Some(Call::Import {
        netdiscover: netdiscover?,
        manager: manager?,
        roots: roots?,
    })
}

/// Whether the top switches become roots, if the argument for that is `auto`, or is not given.
fn roots_by(word: Option<&str>) -> Option<bool>
    ensures { result ≡ roots_by (option_map (λ word. word.now) word.entry) }
{
    match word {
        Some("auto") => Some(true),
        Some(_) => None,
        None => Some(false),
    }
}

/// The GUID of an argument, or none if it is not given.
fn guid_by(word: Option<&str>) -> Option<Option<u64>>
    ensures { result ≡ guid_by (option_map (λ word. word.now) word.entry) }
{
    match word {
        Some(word) => Some(Some(guid_in(word)?)),
        None => Some(None),
    }
}

fn guid_in(word: &str) -> Option<u64>
    ensures { result ≡ if_under (2 ^ 64) (number_in word.now) }
{
    u64::try_from(number_in(word.as_bytes())?).ok()
}

/// A look at a fabric, by a dump of its LFTs.
fn dumped_by<'a>(
    view: DumpView,
    fabric: Option<&'a str>,
    dump: Option<&'a str>,
) -> Option<Call<Asked<'a>, &'a str>>
    ensures { option_map named_call result ≡ dumped_by view (option_map (λ word. word.now) fabric.entry) (option_map (λ word. word.now) dump.entry) }
{
    Some(Call::Dumped {
        view,
        fabric: fabric?,
        dump: dump?,
    })
}

/// The audit of the LFTs of a fabric, and of what a third file has if one is given; nothing if two are.
fn audit_by<'a>(found: &ArgMatches<'a>) -> Option<Call<Asked<'a>, &'a str>>
    ensures { option_map named_call result ≡ audit_by (rows_of (found_of found.now)) }
{
    let fabric = word_of(found, "FABRIC");
    let dump = word_of(found, "DUMP");
    let mfts = word_of(found, "MFTS");
    let lanes = word_of(found, "LANES");
    audit_with(mfts, lanes, fabric, dump, is_given(found, "ALL"))
}

fn audit_with<'a>(
    mfts: Option<&'a str>,
    lanes: Option<&'a str>,
    fabric: Option<&'a str>,
    dump: Option<&'a str>,
    all: bool,
) -> Option<Call<Asked<'a>, &'a str>>
    ensures { option_map named_call result ≡ audit_with (option_map (λ word. word.now) mfts.entry) (option_map (λ word. word.now) lanes.entry)
        (option_map (λ word. word.now) fabric.entry) (option_map (λ word. word.now) dump.entry) all }
{
    match (mfts, lanes) {
        (None, None) => dumped_by(DumpView::Audit { all }, fabric, dump),
        (Some(mfts), None) => audit_three(ThirdFile::Mfts { all }, fabric, dump, mfts),
        (None, Some(lanes)) => audit_three(ThirdFile::Lanes { all }, fabric, dump, lanes),
        (Some(_), Some(_)) => None,
    }
}

/// The audit of the LFTs of a fabric and of this third file.
fn audit_three<'a>(
    third: ThirdFile,
    fabric: Option<&'a str>,
    dump: Option<&'a str>,
    file: &'a str,
) -> Option<Call<Asked<'a>, &'a str>>
    ensures { option_map named_call result ≡ audit_three third (option_map (λ word. word.now) fabric.entry)
        (option_map (λ word. word.now) dump.entry) file.entry.now }
{
    Some(Call::AuditThree {
        third,
        fabric: fabric?,
        dump: dump?,
        file,
    })
}

/// The loads of cables by a dump, or those of the subnet of a topology and partitions.
fn load_by<'a>(found: &ArgMatches<'a>) -> Option<Call<Asked<'a>, &'a str>>
    ensures { option_map named_call result ≡ load_by (rows_of (found_of found.now)) }
{
    let fabric = word_of(found, "FABRIC");
    let partitions = word_of(found, "PARTS");
    let script = word_of(found, "SCRIPT");
    let dump = word_of(found, "DUMP");
    let all = is_given(found, "ALL");
    load_with(fabric, partitions, script, dump, all, is_balanced(found))
}

fn load_with<'a>(
    fabric: Option<&'a str>,
    partitions: Option<&'a str>,
    script: Option<&'a str>,
    dump: Option<&'a str>,
    all: bool,
    balanced: bool,
) -> Option<Call<Asked<'a>, &'a str>>
    ensures { option_map named_call result ≡ load_with (option_map (λ word. word.now) fabric.entry)
        (option_map (λ word. word.now) partitions.entry) (option_map (λ word. word.now) script.entry)
        (option_map (λ word. word.now) dump.entry) all balanced }
{
    match (partitions, script, dump, all || balanced) {
        (None, None, Some(_), false) => dumped_by(DumpView::Load, fabric, dump),
        (Some(_), script, None, _) => {
            asked_by(fabric, partitions, loads_in(script, all, balanced))
        }
        _ => None,
    }
}

fn loads_in(script: Option<&str>, all: bool, balanced: bool) -> Option<NamedWork<'_>>
    ensures { option_map named_work result ≡ Some (loads_in (option_map (λ word. word.now) script.entry) all balanced) }
{
    Some(Work::Inspect {
        what: Inspection::Load { all },
        script,
        balanced,
    })
}

/// The P_Key tables of a fabric against a partition file.
fn audit_keys<'a>(found: &ArgMatches<'a>) -> Option<Call<Asked<'a>, &'a str>>
    ensures { option_map named_call result ≡ audit_keys_by (rows_of (found_of found.now)) }
{
    let netdiscover = word_of(found, "NETDISCOVER")?;
    let pkeys = word_of(found, "PKEYS")?;
    let partitions = word_of(found, "PARTS")?;
    Some(Call::AuditKeys {
        netdiscover,
        pkeys,
        partitions: file_in(partitions),
        manager: guid_by(word_of(found, "SM"))?,
        all: is_given(found, "ALL"),
    })
}

/// The code of an argument, or none if it is not given.
fn explain_by<'a>(word: Option<&str>) -> Option<Call<Asked<'a>, &'a str>>
    ensures { option_map named_call result ≡ explain_by (option_map (λ word. word.now) word.entry) }
{
    match word {
        Some(word) => Some(Call::Explain(Some(Code::read(word)?))),
        None => Some(Call::Explain(None)),
    }
}
