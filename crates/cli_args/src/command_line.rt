//! The command line of the program, for `clap`.

ghost use Rattle.std.specs.Prelude.{◌≡◌, false, true, List, ℕ, Option, None, Some, codes, map, option_map, string_bytes, IfOk, IfErr, IsSomeAnd};
ghost use Rattle.clap.specs.Words.{App, Rule, app_of, rule_of, subcommand_rows_of, with_rule, with_subcommand};
ghost use Rattle.clap.specs.declared.builder.command.Command.TheViews.{out-Command as fields_of};
ghost use Rattle.cli_args.specs.CommandLine.{Reads};
ghost use Rattle.cli_args.specs.CommandLine.{audit_command, audit_keys_command, check_command, compare_command, diff_command, explain_command, fabric_command, graph_command};
ghost use Rattle.cli_args.specs.CommandLine.{all_flag, cuts_command, cuts_flag, dump_option, import_command, load_command, load_flag, keys_command, lanes_option, manager_option, mfts_option, optional, roots_option, run_command, script_option, shares_command};
ghost use Rattle.cli_args.specs.CommandLine.{manage_command, smp_command, subnet_command, tables_command, trace_command};
ghost use Rattle.cli_args.specs.CommandLine.{balanced_flag, least_port_flag, wanted, with_audits, with_cables, with_listings, with_runs};
ghost use Rattle.cli_args.specs.Help.{about_audit, about_audit_keys, about_check, about_compare, about_cuts, about_diff, about_explain, about_graph, about_import, about_keys, about_load};
ghost use Rattle.cli_args.specs.Help.{about_manage, about_program, about_run, about_smp};
ghost use Rattle.cli_args.specs.Help.{about_shares, about_tables, about_trace, help_of_code, help_of_dlid, help_of_key};
ghost use Rattle.cli_args.specs.Help.{help_of_compared, help_of_first_script, help_of_partitions, help_of_second_script};
ghost use Rattle.cli_args.specs.Help.{help_of_all, help_of_all_lines, help_of_all_pairs, help_of_cuts, help_of_dump, help_of_lanes, help_of_mfts, help_of_first_end, help_of_load, help_of_second_end};
ghost use Rattle.cli_args.specs.Help.{help_of_fabric, help_of_manager, help_of_netdiscover, help_of_pkeys, help_of_port, help_of_replies, help_of_roots, help_of_script, help_of_script_before, help_of_smps};
ghost use Rattle.cli_args.specs.Help.{help_of_balanced, help_of_least_port, help_of_second_partitions, help_of_sender, help_of_topology};
ghost use Rattle.cli_args.specs.Help.{program_name, program_version, text_in};
ghost use Rattle.cli_args.specs.Refusals.{IsShown};
ghost use Rattle.cli_args.specs.Words.{asked_if_parsed, asked_of};
ghost use Rattle.cli_args.specs.declared.help.TheConstants.{AUDIT, AUDIT_KEYS, CHANGES, CODES, COMPARISON, CUTS, GRAPH, IMPORT, KEYS, LISTING, REPORT, SHARES, STATUSES, TABLES};
ghost use Rattle.cli_args.specs.declared.help.TheConstants.{LOAD, MANAGE, SMPS, TRACE};

use crate::call::Refused;
use crate::help::{
    ABOUT, ABOUT_AUDIT, ABOUT_AUDIT_KEYS, ABOUT_CHECK, ABOUT_COMPARE, ABOUT_CUTS, ABOUT_DIFF,
    ABOUT_EXPLAIN, ABOUT_GRAPH, ABOUT_IMPORT, ABOUT_KEYS, ABOUT_LOAD, ABOUT_MANAGE, ABOUT_RUN,
    ABOUT_SHARES, ABOUT_SMP, ABOUT_TABLES, ABOUT_TRACE, AUDIT, AUDIT_KEYS, CHANGES, CODES,
    COMPARISON, CUTS, GRAPH, IMPORT, KEYS, LISTING, LOAD, MANAGE, REPORT, SHARES, SMPS, STATUSES,
    TABLES, TRACE,
};
use clap::error::ErrorKind;
use clap::{Arg, ArgAction, ArgMatches, Command, Error};
use std::alloc::{AllocError, Global};
use std::fmt::Display;

/// An argument that has to be given.
fn wanted<'a>(alloc: Global, name: &'a str, help: &'a str) -> Arg<'a>
    ensures global { result.global ≡ false }
    ensures rule { rule_of result ≡ wanted name.entry.now }
    ensures help { result.help ≡ Some help.entry }
{
    Arg::new(alloc, name)
        .required(true)
        .action(ArgAction::Set)
        .help(help)
}

fn wanted_topology<'a>(alloc: Global) -> Arg<'a>
    ensures global { result.global ≡ false }
    ensures rule { rule_of result ≡ wanted (codes "TOPO") }
    ensures help { text_in result.help ≡ Some help_of_topology }
{
    wanted(
        alloc,
        "TOPO",
        "The topology file: switches, adapters, cables and the SM port",
    )
}

fn wanted_partitions<'a>(alloc: Global) -> Arg<'a>
    ensures global { result.global ≡ false }
    ensures rule { rule_of result ≡ wanted (codes "PARTS") }
    ensures help { text_in result.help ≡ Some help_of_partitions }
{
    wanted(
        alloc,
        "PARTS",
        "The partition file, or `-` for the default partition alone",
    )
}

fn wanted_port<'a>(alloc: Global) -> Arg<'a>
    ensures global { result.global ≡ false }
    ensures rule { rule_of result ≡ wanted (codes "PORT") }
    ensures help { text_in result.help ≡ Some help_of_sender }
{
    wanted(alloc, "PORT", "The CA port that sends: `h1/1`")
}

fn wanted_dlid<'a>(alloc: Global) -> Arg<'a>
    ensures global { result.global ≡ false }
    ensures rule { rule_of result ≡ wanted (codes "DLID") }
    ensures help { text_in result.help ≡ Some help_of_dlid }
{
    wanted(
        alloc,
        "DLID",
        "The LID that it is sent to: a number of 16 bits, as `5` or `0x0005`",
    )
}

fn wanted_key<'a>(alloc: Global) -> Arg<'a>
    ensures global { result.global ≡ false }
    ensures rule { rule_of result ≡ wanted (codes "PKEY") }
    ensures help { text_in result.help ≡ Some help_of_key }
{
    wanted(
        alloc,
        "PKEY",
        "The P_Key that it is sent with: a number of 16 bits, as `0x8001`",
    )
}

fn wanted_script<'a>(alloc: Global) -> Arg<'a>
    ensures global { result.global ≡ false }
    ensures rule { rule_of result ≡ wanted (codes "SCRIPT") }
    ensures help { text_in result.help ≡ Some help_of_script }
{
    wanted(
        alloc,
        "SCRIPT",
        "The script: what ports send and ask, and which cables are cut; `-` for standard input",
    )
}

fn wanted_smps<'a>(alloc: Global) -> Arg<'a>
    ensures global { result.global ≡ false }
    ensures rule { rule_of result ≡ wanted (codes "SMPS") }
    ensures help { text_in result.help ≡ Some help_of_smps }
{
    wanted(
        alloc,
        "SMPS",
        "The SMPs, one on a line: `256:HEX`; `-` for standard input",
    )
}

fn wanted_replies<'a>(alloc: Global) -> Arg<'a>
    ensures global { result.global ≡ false }
    ensures rule { rule_of result ≡ wanted (codes "REPLIES") }
    ensures help { text_in result.help ≡ Some help_of_replies }
{
    wanted(
        alloc,
        "REPLIES",
        "The replies, one on a line: `256:HEX` or `none`; `-` for standard input",
    )
}

/// `--script SCRIPT`.
fn script_option<'a>(alloc: Global) -> Arg<'a>
    ensures global { result.global ≡ false }
    ensures rule { rule_of result ≡ script_option }
    ensures help { text_in result.help ≡ Some help_of_script_before }
{
    Arg::new(alloc, "SCRIPT")
        .long("script")
        .value_name("SCRIPT")
        .action(ArgAction::Set)
        .help("A script that is run before")
}

fn wanted_first_script<'a>(alloc: Global) -> Arg<'a>
    ensures global { result.global ≡ false }
    ensures rule { rule_of result ≡ wanted (codes "S1") }
    ensures help { text_in result.help ≡ Some help_of_first_script }
{
    wanted(alloc, "S1", "The first script")
}

fn wanted_second_script<'a>(alloc: Global) -> Arg<'a>
    ensures global { result.global ≡ false }
    ensures rule { rule_of result ≡ wanted (codes "S2") }
    ensures help { text_in result.help ≡ Some help_of_second_script }
{
    wanted(alloc, "S2", "The second script")
}

fn wanted_compared<'a>(alloc: Global) -> Arg<'a>
    ensures global { result.global ≡ false }
    ensures rule { rule_of result ≡ wanted (codes "PORT") }
    ensures help { text_in result.help ≡ Some help_of_compared }
{
    wanted(alloc, "PORT", "A CA port: `h1/1`; it may be the SM port")
}

fn optional_port<'a>(alloc: Global) -> Arg<'a>
    ensures global { result.global ≡ false }
    ensures rule { rule_of result ≡ optional (codes "PORT") }
    ensures help { text_in result.help ≡ Some help_of_port }
{
    Arg::new(alloc, "PORT").action(ArgAction::Set).help(
        "An end port as `check` lists it: `h1/1`, or `A/0` for port 0 of switch A",
    )
}

fn optional_script<'a>(alloc: Global) -> Arg<'a>
    ensures global { result.global ≡ false }
    ensures rule { rule_of result ≡ optional (codes "SCRIPT") }
    ensures help { text_in result.help ≡ Some help_of_script_before }
{
    Arg::new(alloc, "SCRIPT")
        .action(ArgAction::Set)
        .help("A script that is run before")
}

fn optional_first_end<'a>(alloc: Global) -> Arg<'a>
    ensures global { result.global ≡ false }
    ensures rule { rule_of result ≡ optional (codes "PORT") }
    ensures help { text_in result.help ≡ Some help_of_first_end }
{
    Arg::new(alloc, "PORT")
        .action(ArgAction::Set)
        .help("A switch port at one end of a cable: `A/3`")
}

fn optional_second_end<'a>(alloc: Global) -> Arg<'a>
    ensures global { result.global ≡ false }
    ensures rule { rule_of result ≡ optional (codes "PORT2") }
    ensures help { text_in result.help ≡ Some help_of_second_end }
{
    Arg::new(alloc, "PORT2")
        .action(ArgAction::Set)
        .help("The switch port at its other end")
}

fn cuts_flag<'a>(alloc: Global) -> Arg<'a>
    ensures global { result.global ≡ false }
    ensures rule { rule_of result ≡ cuts_flag }
    ensures help { text_in result.help ≡ Some help_of_cuts }
{
    Arg::new(alloc, "CUTS")
        .long("cuts")
        .action(ArgAction::SetTrue)
        .help("Draws in red the cables that the fabric cannot do without")
}

fn load_flag<'a>(alloc: Global) -> Arg<'a>
    ensures global { result.global ≡ false }
    ensures rule { rule_of result ≡ load_flag }
    ensures help { text_in result.help ≡ Some help_of_load }
{
    Arg::new(alloc, "LOAD")
        .long("load")
        .action(ArgAction::SetTrue)
        .help("Draws cables in the width and colour of their loads")
}

fn balanced_flag<'a>(alloc: Global) -> Arg<'a>
    ensures global { result.global ≡ false }
    ensures rule { rule_of result ≡ balanced_flag }
    ensures help { text_in result.help ≡ Some help_of_balanced }
{
    Arg::new(alloc, "BALANCED")
        .long("balanced")
        .action(ArgAction::SetTrue)
        .help("Spreads routes over the ports that lead equally far; without it the least is taken")
}

fn least_port_flag<'a>(alloc: Global) -> Arg<'a>
    ensures global { result.global ≡ false }
    ensures rule { rule_of result ≡ least_port_flag }
    ensures help { text_in result.help ≡ Some help_of_least_port }
{
    Arg::new(alloc, "LEAST_PORT")
        .long("least-port")
        .action(ArgAction::SetTrue)
        .help(
            "Of the ports that lead equally far the least is taken; without it routes spread over them",
        )
}

fn wanted_fabric<'a>(alloc: Global) -> Arg<'a>
    ensures global { result.global ≡ false }
    ensures rule { rule_of result ≡ wanted (codes "FABRIC") }
    ensures help { text_in result.help ≡ Some help_of_fabric }
{
    wanted(
        alloc,
        "FABRIC",
        "What ibnetdiscover printed of the fabric, or its topology",
    )
}

fn all_flag<'a>(alloc: Global) -> Arg<'a>
    ensures global { result.global ≡ false }
    ensures rule { rule_of result ≡ all_flag }
    ensures help { text_in result.help ≡ Some help_of_all }
{
    Arg::new(alloc, "ALL")
        .long("all")
        .action(ArgAction::SetTrue)
        .help("Lists each pair of ports, however many a partition has")
}

fn all_lines_flag<'a>(alloc: Global) -> Arg<'a>
    ensures global { result.global ≡ false }
    ensures rule { rule_of result ≡ all_flag }
    ensures help { text_in result.help ≡ Some help_of_all_lines }
{
    Arg::new(alloc, "ALL")
        .long("all")
        .action(ArgAction::SetTrue)
        .help("Prints each line by switch and LID, which are counted otherwise")
}

fn all_pairs_flag<'a>(alloc: Global) -> Arg<'a>
    ensures global { result.global ≡ false }
    ensures rule { rule_of result ≡ all_flag }
    ensures help { text_in result.help ≡ Some help_of_all_pairs }
{
    Arg::new(alloc, "ALL")
        .long("all")
        .action(ArgAction::SetTrue)
        .help("Counts all pairs, also those that may not talk")
}

fn optional_partitions<'a>(alloc: Global) -> Arg<'a>
    ensures global { result.global ≡ false }
    ensures rule { rule_of result ≡ optional (codes "PARTS") }
    ensures help { text_in result.help ≡ Some help_of_partitions }
{
    Arg::new(alloc, "PARTS").action(ArgAction::Set).help(
        "The partition file, or `-` for the default partition alone",
    )
}

fn wanted_netdiscover<'a>(alloc: Global) -> Arg<'a>
    ensures global { result.global ≡ false }
    ensures rule { rule_of result ≡ wanted (codes "NETDISCOVER") }
    ensures help { text_in result.help ≡ Some help_of_netdiscover }
{
    wanted(
        alloc,
        "NETDISCOVER",
        "What ibnetdiscover printed of the fabric",
    )
}

fn wanted_pkeys<'a>(alloc: Global) -> Arg<'a>
    ensures global { result.global ≡ false }
    ensures rule { rule_of result ≡ wanted (codes "PKEYS") }
    ensures help { text_in result.help ≡ Some help_of_pkeys }
{
    wanted(
        alloc,
        "PKEYS",
        "What tools/collect-keys printed: answers of smpquery",
    )
}

fn manager_option<'a>(alloc: Global) -> Arg<'a>
    ensures global { result.global ≡ false }
    ensures rule { rule_of result ≡ manager_option }
    ensures help { text_in result.help ≡ Some help_of_manager }
{
    Arg::new(alloc, "SM")
        .long("sm")
        .value_name("GUID")
        .action(ArgAction::Set)
        .help("The GUID of the SM port: a number of 64 bits, as `0x101`")
}

fn roots_option<'a>(alloc: Global) -> Arg<'a>
    ensures global { result.global ≡ false }
    ensures rule { rule_of result ≡ roots_option }
    ensures help { text_in result.help ≡ Some help_of_roots }
{
    Arg::new(alloc, "ROOTS")
        .long("roots")
        .value_name("ROOTS")
        .action(ArgAction::Set)
        .help("With `auto` the switches that are farthest from CAs become roots")
}

fn wanted_dump<'a>(alloc: Global) -> Arg<'a>
    ensures global { result.global ≡ false }
    ensures rule { rule_of result ≡ wanted (codes "DUMP") }
    ensures help { text_in result.help ≡ Some help_of_dump }
{
    wanted(alloc, "DUMP", "The LFTs, as dump_fts prints them")
}

fn mfts_option<'a>(alloc: Global) -> Arg<'a>
    ensures global { result.global ≡ false }
    ensures rule { rule_of result ≡ mfts_option }
    ensures help { text_in result.help ≡ Some help_of_mfts }
{
    Arg::new(alloc, "MFTS")
        .long("mft")
        .value_name("MFTS")
        .action(ArgAction::Set)
        .help("The MFTs, as dump_fts -M prints them: multicast is judged too")
}

fn lanes_option<'a>(alloc: Global) -> Arg<'a>
    ensures global { result.global ≡ false }
    ensures rule { rule_of result ≡ lanes_option }
    ensures help { text_in result.help ≡ Some help_of_lanes }
{
    Arg::new(alloc, "LANES")
        .long("sl2vl")
        .value_name("LANES")
        .action(ArgAction::Set)
        .help("What smpquery sl2vl and saquery PR print: routes are judged by virtual lanes")
}

fn dump_option<'a>(alloc: Global) -> Arg<'a>
    ensures global { result.global ≡ false }
    ensures rule { rule_of result ≡ dump_option }
    ensures help { text_in result.help ≡ Some help_of_dump }
{
    Arg::new(alloc, "DUMP")
        .long("dump")
        .value_name("DUMP")
        .action(ArgAction::Set)
        .help("The LFTs, as dump_fts prints them")
}

fn optional_code<'a>(alloc: Global) -> Arg<'a>
    ensures global { result.global ≡ false }
    ensures rule { rule_of result ≡ optional (codes "CODE") }
    ensures help { text_in result.help ≡ Some help_of_code }
{
    Arg::new(alloc, "CODE")
        .action(ArgAction::Set)
        .help("A code as it is printed: `PF2`, or `memory`")
}

fn wanted_second_partitions<'a>(alloc: Global) -> Arg<'a>
    ensures global { result.global ≡ false }
    ensures rule { rule_of result ≡ wanted (codes "PARTS2") }
    ensures help { text_in result.help ≡ Some help_of_second_partitions }
{
    wanted(
        alloc,
        "PARTS2",
        "The partition file in its place, or `-` for the default partition alone",
    )
}

/// A command with one more argument, if the command could be made. This takes the error of the step before, so that the
/// function of a command has no way out, and a proof of it, for each argument.
fn with_arg<'a>(
    command: Result<Command<'a>, AllocError>,
    arg: Arg<'a>,
) -> Result<Command<'a>, AllocError>
    requires { arg.global ≡ false }
    ensures { (app : App) (rule : Rule) → Reads command.entry app → rule_of arg.entry ≡ rule → Reads result (with_rule app rule) }
{
    command?.arg(arg)
}

/// A command line with one more command.
fn with_command<'a>(
    all: Result<Command<'a>, AllocError>,
    command: Result<Command<'a>, AllocError>,
) -> Result<Command<'a>, AllocError>
    ensures { (app sub : App) → Reads all.entry app → Reads command.entry sub → sub.top.is_plain ≡ true
        → Reads result (with_subcommand app sub.top) }
{
    all?.subcommand(command?)
}

/// A command with what its help says of it before and after its arguments.
fn described<'a>(
    command: Result<Command<'a>, AllocError>,
    about: &'a str,
    help: &'a str,
) -> Result<Command<'a>, AllocError>
    ensures words { (app : App) → Reads command.entry app → Reads result app }
    ensures about { IfOk result (λ command. (fields_of command).about ≡ Some about.entry) }
    ensures help { IfOk result (λ command. (fields_of command).after_help ≡ Some help.entry) }
{
    Ok(command?.about(about).after_help(help))
}

/// A command that names a subnet by its topology and its partitions.
fn subnet_command<'a>(alloc: Global, name: &'a str) -> Result<Command<'a>, AllocError>
    ensures { IfOk result (λ command. app_of command ≡ subnet_command name.entry.now) }
{
    let command = with_arg(Ok(Command::new(alloc, name)), wanted_topology(alloc));
    with_arg(command, wanted_partitions(alloc))
}

/// The command that lists a subnet.
fn check_command<'a>(alloc: Global) -> Result<Command<'a>, AllocError>
    ensures words { IfOk result (λ command. app_of command ≡ check_command) }
    ensures about { IfOk result (λ command. text_in (fields_of command).about ≡ Some about_check) }
    ensures help { IfOk result (λ command. text_in (fields_of command).after_help ≡ Some LISTING.now) }
{
    let command = with_arg(subnet_command(alloc, "check"), balanced_flag(alloc));
    described(command, ABOUT_CHECK, LISTING)
}

/// The command that lists which ports may talk to each other in a subnet.
fn shares_command<'a>(alloc: Global) -> Result<Command<'a>, AllocError>
    ensures words { IfOk result (λ command. app_of command ≡ shares_command) }
    ensures about { IfOk result (λ command. text_in (fields_of command).about ≡ Some about_shares) }
    ensures help { IfOk result (λ command. text_in (fields_of command).after_help ≡ Some SHARES.now) }
{
    let command = with_arg(subnet_command(alloc, "shares"), optional_port(alloc));
    described(command, ABOUT_SHARES, SHARES)
}

/// The command that lists what another partition file changes.
fn diff_command<'a>(alloc: Global) -> Result<Command<'a>, AllocError>
    ensures words { IfOk result (λ command. app_of command ≡ diff_command) }
    ensures about { IfOk result (λ command. text_in (fields_of command).about ≡ Some about_diff) }
    ensures help { IfOk result (λ command. text_in (fields_of command).after_help ≡ Some CHANGES.now) }
{
    let command = with_arg(
        subnet_command(alloc, "diff"),
        wanted_second_partitions(alloc),
    );
    described(command, ABOUT_DIFF, CHANGES)
}

/// The command that prints LFTs and MFTs.
fn tables_command<'a>(alloc: Global) -> Result<Command<'a>, AllocError>
    ensures words { IfOk result (λ command. app_of command ≡ tables_command) }
    ensures about { IfOk result (λ command. text_in (fields_of command).about ≡ Some about_tables) }
    ensures help { IfOk result (λ command. text_in (fields_of command).after_help ≡ Some TABLES.now) }
{
    let scripts = with_arg(subnet_command(alloc, "tables"), optional_script(alloc));
    let command = with_arg(scripts, balanced_flag(alloc));
    described(command, ABOUT_TABLES, TABLES)
}

/// The command that prints P_Key tables.
fn keys_command<'a>(alloc: Global) -> Result<Command<'a>, AllocError>
    ensures words { IfOk result (λ command. app_of command ≡ keys_command) }
    ensures about { IfOk result (λ command. text_in (fields_of command).about ≡ Some about_keys) }
    ensures help { IfOk result (λ command. text_in (fields_of command).after_help ≡ Some KEYS.now) }
{
    let command = with_arg(subnet_command(alloc, "keys"), optional_script(alloc));
    described(command, ABOUT_KEYS, KEYS)
}

/// The command that prints the path of a packet.
fn trace_command<'a>(alloc: Global) -> Result<Command<'a>, AllocError>
    ensures words { IfOk result (λ command. app_of command ≡ trace_command) }
    ensures about { IfOk result (λ command. text_in (fields_of command).about ≡ Some about_trace) }
    ensures help { IfOk result (λ command. text_in (fields_of command).after_help ≡ Some TRACE.now) }
{
    let sent = with_arg(subnet_command(alloc, "trace"), wanted_port(alloc));
    let packet = with_arg(with_arg(sent, wanted_dlid(alloc)), wanted_key(alloc));
    let scripts = with_arg(packet, optional_script(alloc));
    let command = with_arg(scripts, balanced_flag(alloc));
    described(command, ABOUT_TRACE, TRACE)
}

/// The command that draws a fabric.
fn graph_command<'a>(alloc: Global) -> Result<Command<'a>, AllocError>
    ensures words { IfOk result (λ command. app_of command ≡ graph_command) }
    ensures about { IfOk result (λ command. text_in (fields_of command).about ≡ Some about_graph) }
    ensures help { IfOk result (λ command. text_in (fields_of command).after_help ≡ Some GRAPH.now) }
{
    let drawn = with_arg(subnet_command(alloc, "graph"), optional_script(alloc));
    let cuts = with_arg(drawn, cuts_flag(alloc));
    let loads = with_arg(cuts, load_flag(alloc));
    let pairs = with_arg(loads, all_pairs_flag(alloc));
    let command = with_arg(pairs, balanced_flag(alloc));
    described(command, ABOUT_GRAPH, GRAPH)
}

/// The command that runs a script in a subnet.
fn run_command<'a>(alloc: Global) -> Result<Command<'a>, AllocError>
    ensures words { IfOk result (λ command. app_of command ≡ run_command) }
    ensures about { IfOk result (λ command. text_in (fields_of command).about ≡ Some about_run) }
    ensures help { IfOk result (λ command. text_in (fields_of command).after_help ≡ Some REPORT.now) }
{
    let command = with_arg(subnet_command(alloc, "run"), wanted_script(alloc));
    described(command, ABOUT_RUN, REPORT)
}

/// The command that answers SMPs.
fn smp_command<'a>(alloc: Global) -> Result<Command<'a>, AllocError>
    ensures words { IfOk result (λ command. app_of command ≡ smp_command) }
    ensures about { IfOk result (λ command. text_in (fields_of command).about ≡ Some about_smp) }
    ensures help { IfOk result (λ command. text_in (fields_of command).after_help ≡ Some SMPS.now) }
{
    let smps = with_arg(subnet_command(alloc, "smp"), wanted_smps(alloc));
    described(with_arg(smps, script_option(alloc)), ABOUT_SMP, SMPS)
}

/// The command that brings up a fabric by SMPs that it sends.
fn manage_command<'a>(alloc: Global) -> Result<Command<'a>, AllocError>
    ensures words { IfOk result (λ command. app_of command ≡ manage_command) }
    ensures about { IfOk result (λ command. text_in (fields_of command).about ≡ Some about_manage) }
    ensures help { IfOk result (λ command. text_in (fields_of command).after_help ≡ Some MANAGE.now) }
{
    let replies = with_arg(subnet_command(alloc, "manage"), wanted_replies(alloc));
    let command = with_arg(replies, least_port_flag(alloc));
    described(command, ABOUT_MANAGE, MANAGE)
}

/// The command that compares two scripts.
fn compare_command<'a>(alloc: Global) -> Result<Command<'a>, AllocError>
    ensures words { IfOk result (λ command. app_of command ≡ compare_command) }
    ensures about { IfOk result (λ command. text_in (fields_of command).about ≡ Some about_compare) }
    ensures help { IfOk result (λ command. text_in (fields_of command).after_help ≡ Some COMPARISON.now) }
{
    let first = with_arg(subnet_command(alloc, "compare"), wanted_first_script(alloc));
    let scripts = with_arg(first, wanted_second_script(alloc));
    described(
        with_arg(scripts, wanted_compared(alloc)),
        ABOUT_COMPARE,
        COMPARISON,
    )
}

/// The command that prints what the loss of cables would do.
fn cuts_command<'a>(alloc: Global) -> Result<Command<'a>, AllocError>
    ensures words { IfOk result (λ command. app_of command ≡ cuts_command) }
    ensures about { IfOk result (λ command. text_in (fields_of command).about ≡ Some about_cuts) }
    ensures help { IfOk result (λ command. text_in (fields_of command).after_help ≡ Some CUTS.now) }
{
    let first = with_arg(subnet_command(alloc, "cuts"), optional_first_end(alloc));
    let ends = with_arg(first, optional_second_end(alloc));
    let command = with_arg(ends, balanced_flag(alloc));
    described(command, ABOUT_CUTS, CUTS)
}

/// The command that makes a topology from a real fabric.
fn import_command<'a>(alloc: Global) -> Result<Command<'a>, AllocError>
    ensures words { IfOk result (λ command. app_of command ≡ import_command) }
    ensures about { IfOk result (λ command. text_in (fields_of command).about ≡ Some about_import) }
    ensures help { IfOk result (λ command. text_in (fields_of command).after_help ≡ Some IMPORT.now) }
{
    let read = with_arg(Ok(Command::new(alloc, "import")), wanted_netdiscover(alloc));
    let managed = with_arg(read, manager_option(alloc));
    let command = with_arg(managed, roots_option(alloc));
    described(command, ABOUT_IMPORT, IMPORT)
}

/// The command that judges the routes of a real fabric.
fn audit_command<'a>(alloc: Global) -> Result<Command<'a>, AllocError>
    ensures words { IfOk result (λ command. app_of command ≡ audit_command) }
    ensures about { IfOk result (λ command. text_in (fields_of command).about ≡ Some about_audit) }
    ensures help { IfOk result (λ command. text_in (fields_of command).after_help ≡ Some AUDIT.now) }
{
    let found = with_arg(Ok(Command::new(alloc, "audit")), wanted_fabric(alloc));
    let files = with_arg(found, wanted_dump(alloc));
    let masks = with_arg(files, mfts_option(alloc));
    let command = with_arg(with_arg(masks, lanes_option(alloc)), all_lines_flag(alloc));
    described(command, ABOUT_AUDIT, AUDIT)
}

/// The command that prints how many pairs go over each cable.
fn load_command<'a>(alloc: Global) -> Result<Command<'a>, AllocError>
    ensures words { IfOk result (λ command. app_of command ≡ load_command) }
    ensures about { IfOk result (λ command. text_in (fields_of command).about ≡ Some about_load) }
    ensures help { IfOk result (λ command. text_in (fields_of command).after_help ≡ Some LOAD.now) }
{
    let found = with_arg(Ok(Command::new(alloc, "load")), wanted_fabric(alloc));
    let files = with_arg(found, optional_partitions(alloc));
    let runs = with_arg(files, optional_script(alloc));
    let pairs = with_arg(with_arg(runs, dump_option(alloc)), all_pairs_flag(alloc));
    let command = with_arg(pairs, balanced_flag(alloc));
    described(command, ABOUT_LOAD, LOAD)
}

/// The command that compares the P_Key tables of a real fabric with a partition file.
fn audit_keys_command<'a>(alloc: Global) -> Result<Command<'a>, AllocError>
    ensures words { IfOk result (λ command. app_of command ≡ audit_keys_command) }
    ensures about { IfOk result (λ command. text_in (fields_of command).about ≡ Some about_audit_keys) }
    ensures help { IfOk result (λ command. text_in (fields_of command).after_help ≡ Some AUDIT_KEYS.now) }
{
    let found = with_arg(
        Ok(Command::new(alloc, "audit-keys")),
        wanted_netdiscover(alloc),
    );
    let files = with_arg(
        with_arg(found, wanted_pkeys(alloc)),
        wanted_partitions(alloc),
    );
    let command = with_arg(with_arg(files, manager_option(alloc)), all_flag(alloc));
    described(command, ABOUT_AUDIT_KEYS, AUDIT_KEYS)
}

/// The command that explains codes.
fn explain_command<'a>(alloc: Global) -> Result<Command<'a>, AllocError>
    ensures words { IfOk result (λ command. app_of command ≡ explain_command) }
    ensures about { IfOk result (λ command. text_in (fields_of command).about ≡ Some about_explain) }
    ensures help { IfOk result (λ command. text_in (fields_of command).after_help ≡ Some CODES.now) }
{
    let command = with_arg(Ok(Command::new(alloc, "explain")), optional_code(alloc));
    described(command, ABOUT_EXPLAIN, CODES)
}

/// A command line with the commands that list a subnet and what its fabric holds.
fn with_listings<'a>(
    alloc: Global,
    command: Result<Command<'a>, AllocError>,
) -> Result<Command<'a>, AllocError>
    ensures { (app : App) → Reads command.entry app → Reads result (with_listings app) }
{
    let checks = with_command(command, check_command(alloc));
    let shares = with_command(checks, shares_command(alloc));
    let changes = with_command(shares, diff_command(alloc));
    let tables = with_command(changes, tables_command(alloc));
    with_command(tables, keys_command(alloc))
}

/// A command line with the commands that follow packets and run scripts.
fn with_runs<'a>(
    alloc: Global,
    command: Result<Command<'a>, AllocError>,
) -> Result<Command<'a>, AllocError>
    ensures { (app : App) → Reads command.entry app → Reads result (with_runs app) }
{
    let traces = with_command(command, trace_command(alloc));
    let graphs = with_command(traces, graph_command(alloc));
    let runs = with_command(graphs, run_command(alloc));
    let smps = with_command(runs, smp_command(alloc));
    let managed = with_command(smps, manage_command(alloc));
    with_command(managed, compare_command(alloc))
}

/// A command line with the commands that judge cables, and that make a topology from a real fabric.
fn with_cables<'a>(
    alloc: Global,
    command: Result<Command<'a>, AllocError>,
) -> Result<Command<'a>, AllocError>
    ensures { (app : App) → Reads command.entry app → Reads result (with_cables app) }
{
    let cuts = with_command(command, cuts_command(alloc));
    with_command(cuts, import_command(alloc))
}

/// A command line with the commands that judge real fabrics.
fn with_audits<'a>(alloc: Global, command: Command<'a>) -> Result<Command<'a>, AllocError>
    ensures { (app : App) → app_of command.entry ≡ app → Reads result (with_audits app) }
{
    let all = command
        .subcommand(audit_command(alloc)?)?
        .subcommand(load_command(alloc)?)?
        .subcommand(audit_keys_command(alloc)?)?;
    Ok(all)
}

/// The program's command line. Help and usage say `fabric`, whatever name the program's file has.
fn fabric_command<'a>(alloc: Global) -> Result<Command<'a>, AllocError>
    ensures words { IfOk result (λ command. app_of command ≡ fabric_command) }
    ensures name { IfOk result (λ command. IsSomeAnd (fields_of command).bin_name (λ name. string_bytes name ≡ program_name)) }
    ensures version { IfOk result (λ command. text_in (fields_of command).version ≡ Some program_version) }
    ensures about { IfOk result (λ command. text_in (fields_of command).about ≡ Some about_program) }
    ensures help { IfOk result (λ command. text_in (fields_of command).after_help ≡ Some STATUSES.now) }
{
    let top = Command::new(alloc, "fabric").subcommand_required(true);
    let listings = with_listings(alloc, Ok(top));
    let runs = with_runs(alloc, listings);
    let cables = with_cables(alloc, runs)?;
    let audits = with_audits(alloc, cables);
    let command = with_command(audits, explain_command(alloc))?.bin_name("fabric")?;
    Ok(command.version("1.0.0").about(ABOUT).after_help(STATUSES))
}

/// What parses the arguments, by the program's commands, or refuses them.
///
/// Its ghost member is what a contract may know of that: `shown` is the text of a refusal, if it is known.
pub trait Parser {
    /// Why arguments are refused, or that help is requested: its text is for the user.
    type Error: Display + Drop;

    ghost shown: { Self → List (List ℕ) → Option (List ℕ) };

    /// What is in the arguments, the first of them the program's own name; none if the version is requested.
    fn parse<'a>(
        &self,
        alloc: Global,
        words: &'a [String],
    ) -> Result<Option<ArgMatches<'a>>, Refused<Self::Error>>
        ensures found { IfOk result (λ parsed.
            asked_of (shown self.now) (map string_bytes words.entry.now) ≡ asked_if_parsed (option_map (λ matches. subcommand_rows_of matches) parsed)) }
        ensures refused { IfErr result (IsShown Self.Error.output (shown self.now) (map string_bytes words.entry.now)) };
}

/// The parser `clap`. The texts of its errors are its own, and no contract of it says what they are.
#[derive(Clone, Copy)]
pub struct Clap;

impl Parser for Clap {
    type Error = Error;

    ghost shown = { λ _ _. None };

    fn parse<'a>(
        &self,
        alloc: Global,
        words: &'a [String],
    ) -> Result<Option<ArgMatches<'a>>, Refused<Error>> {
        let command = fabric_command(alloc)?;
        match command.try_get_matches_from(words) {
            Ok(matches) => Ok(Some(matches)),
            Err(error) if error.kind() == ErrorKind::OutOfMemory => Err(Refused::NoMemory),
            Err(error) if error.kind() == ErrorKind::DisplayVersion => Ok(None),
            Err(error) => Err(Refused::Words(error)),
        }
    }
}
