//! Two scripts in one subnet, compared for a port.

ghost use Rattle.std.specs.Prelude.{◌≡◌, ◌↔◌, true, map, All, IfErr, IfOk};
ghost use Rattle.std.specs.Option.{option_copied};
ghost use Rattle.script_lines.specs.Script.{commands_in};
ghost use Rattle.subnet_core.specs.BringUp.{Becomes, IsStarted};
ghost use Rattle.script_lines.specs.NamedPort.{named_adapter_port};
ghost use Rattle.subnet_core.specs.Comparison.{Compares, ComparesRuns, of_port, of_second, port_run};
ghost use Rattle.subnet_core.specs.RunsAgain.{NameSenders, RunsAgain};
ghost use Rattle.subnet_core.specs.Comparison.{two_runs_of, two_scripts_of};
ghost use Rattle.subnet_core.specs.Inventory.{RunGives, of_text, inventory_of};
ghost use Rattle.subnet_core.specs.Senders.{NamesSender};
ghost use Rattle.subnet_core.specs.declared.fault.RunFault.TheVariants.{NoMemory, SecondScript};
ghost use Rattle.subnet_model.specs.Near.{is_near};
ghost use Rattle.subnet_model.specs.Restriction.{actor, acts_in, commands_of, events_at};
ghost use Rattle.subnet_fabric.specs.Sends.{event_of};

use crate::bringing_up::bring_up;
use crate::fault::RunFault;
use crate::running::commands_in;
use crate::subnet::Subnet;
use std::alloc::Global;
use std::marker::Model;
use subnet_fabric::Event;
use subnet_model::{Command, SubnetPort, is_near};

/// What two scripts in one subnet have in common for a port.
#[derive(Clone, Copy, Debug, PartialEq, Eq)]
pub struct Comparison {
    /// Whether they have the same commands of the ports near it, however these are encoded, and whatever other ports do.
    pub scripts_agree: bool,
    /// Whether the port's events are the same.
    pub events_equal: bool,
}

/// Runs each of two scripts on the subnet of a topology under a partition file, or without one, and compares them for the
/// port of a channel adapter that a word names; it may be the subnet manager's. The subnet is brought up before the word is
/// looked at, and the first script is read whole before the second.
pub fn compare(
    alloc: Global,
    topology: &[u8],
    partitions: Option<&[u8]>,
    first: &[u8],
    second: &[u8],
    port: &[u8],
) -> Result<Comparison, RunFault>
    // Each truth value is what it says of the two runs, unless their fabric is not brought up or an allocation fails.
    ensures exact { ComparesRuns result (Becomes (inventory_of topology.now (option_copied partitions.entry)))
        (two_runs_of topology.now (option_copied partitions.entry) first.now second.now port.now) }
    // What a port receives depends only on the ports that share a partition with it.
    ensures apart { IfOk result (λ comparison. comparison.scripts_agree ≡ true → comparison.events_equal ≡ true) }
{
    in_turn(alloc, topology, partitions, first, second, port)
}

fn in_turn(
    alloc: Global,
    topology: &[u8],
    partitions: Option<&[u8]>,
    first: &[u8],
    second: &[u8],
    port: &[u8],
) -> Result<Comparison, RunFault>
    ensures { ComparesRuns result (Becomes (inventory_of topology.now (option_copied partitions.entry)))
        (two_runs_of topology.now (option_copied partitions.entry) first.now second.now port.now) }
{
    let subnet = bring_up(alloc, topology, partitions)?;
    let scripts = two_scripts_of(alloc, &subnet, first, second, port)?;
    let here = port_run(subnet, scripts.port, scripts.first)?;
    let there = run_again(alloc, topology, partitions, scripts.port, scripts.second)?;
    Ok(compared(&here, &there))
}

/// What is compared: the GUID of a port, and the commands of two scripts.
#[derive(Drop)]
struct TwoScripts {
    port: u64,
    first: Vec<Command>,
    second: Vec<Command>,
}

impl Model for TwoScripts {
    ghost use Rattle.subnet_core.specs.Comparison.{TwoScriptsState};

    ghost Value = { TwoScriptsState };

    ghost view = { λ scripts. record { port = scripts.port; first = scripts.first.items; second = scripts.second.items } };
}

/// The port that a word names and the commands of two scripts, or the first fault of these.
#[tactic(auto, unfolding(crate::specs::Comparison::two_scripts_of))]
fn two_scripts_of(
    alloc: Global,
    subnet: &Subnet,
    first: &[u8],
    second: &[u8],
    port: &[u8],
) -> Result<TwoScripts, RunFault>
    ensures exact { RunGives (λ scripts. scripts) result (two_scripts_of subnet.now.inventory.plan first.now second.now port.now) }
    ensures first { IfOk result (λ scripts. All (NamesSender subnet.now.inventory.configuration.ports) scripts.first) }
    ensures second { IfOk result (λ scripts. All (NamesSender subnet.now.inventory.configuration.ports) scripts.second) }
{
    subnet.inventory().known_listed();
    let port = named_port(subnet, port)?;
    let first = commands_in(alloc, subnet, first)?;
    let second = second_commands_in(alloc, subnet, second)?;
    Ok(TwoScripts {
        port,
        first,
        second,
    })
}

/// The GUID of the port of a channel adapter that a word names.
fn named_port(subnet: &Subnet, word: &[u8]) -> Result<u64, RunFault>
    ensures { result ≡ of_port (named_adapter_port subnet.now.inventory.plan word.now) }
{
    match subnet.inventory().named_adapter_port(word) {
        Ok(port) => Ok(port),
        Err(cause) => Err(RunFault::Port(cause)),
    }
}

/// The commands of the second script, or its first fault.
fn second_commands_in(
    alloc: Global,
    subnet: &Subnet,
    script: &[u8],
) -> Result<Vec<Command>, RunFault>
    ensures { RunGives (λ commands. commands.items) result
        (of_text SecondScript (commands_in subnet.now.inventory.plan script.now)) }
{
    match commands_in(alloc, subnet, script) {
        Ok(commands) => Ok(commands),
        Err(fault) => Err(of_second(fault)),
    }
}

/// A fault of a script, as one of the second.
fn of_second(fault: RunFault) -> RunFault
    ensures { result ≡ of_second fault }
{
    match fault {
        RunFault::Script { line, cause } => RunFault::SecondScript { line, cause },
        other => other,
    }
}

/// What of a run concerns a port: the commands of the ports near it, and its own events.
#[derive(Drop)]
struct PortRun {
    commands: Vec<Command>,
    events: Vec<Event>,
}

impl Model for PortRun {
    ghost use Rattle.std.specs.Prelude.{map};
    ghost use Rattle.subnet_core.specs.Comparison.{PortRunState};
    ghost use Rattle.subnet_fabric.specs.Sends.{event_of};

    ghost Value = { PortRunState };

    ghost view = { λ run. record { commands = run.commands.items; events = map event_of run.events.items } };
}

/// Carries out commands from the start, and keeps what concerns the port of that GUID.
fn port_run(subnet: Subnet, port: u64, commands: Vec<Command>) -> Result<PortRun, RunFault>
    requires started { IsStarted subnet }
    requires senders { All (NamesSender subnet.inventory.configuration.ports) commands.items }
    ensures run { IfOk result (λ run. run ≡ port_run subnet.inventory.configuration port commands.items) }
    ensures fault { IfErr result (λ fault. fault ≡ NoMemory) }
{
    let mut near = commands;
    let report = subnet.report(&near)?;
    keep_near(&mut near, report.ports(), port);
    let mut events = report.into_events();
    keep_at(&mut events, port);
    Ok(PortRun {
        commands: near,
        events,
    })
}

/// The same in the subnet as it is brought up again.
fn run_again(
    alloc: Global,
    topology: &[u8],
    partitions: Option<&[u8]>,
    port: u64,
    commands: Vec<Command>,
) -> Result<PortRun, RunFault>
    requires { NameSenders (inventory_of topology.now (option_copied partitions)) commands.items }
    ensures { RunsAgain result (inventory_of topology.now (option_copied partitions.entry)) port commands.items }
{
    let subnet = bring_up(alloc, topology, partitions)?;
    port_run(subnet, port, commands)
}

/// Leaves the commands of the ports near the port of that GUID.
fn keep_near(commands: &mut Vec<Command>, ports: &[SubnetPort], port: u64)
    ensures { commands.new.items ≡ commands_of (is_near ports.now port) commands.old.items }
{
    commands.retain(|command| is_near_actor(ports, port, command));
}

/// Whether a port acts that is near the port of that GUID.
fn is_near_actor(ports: &[SubnetPort], port: u64, command: &Command) -> bool
    ensures { result ≡ acts_in (is_near ports.now port) command.now }
{
    match actor(command) {
        Some(guid) => is_near(ports, port, guid),
        None => false,
    }
}

/// The GUID of the port that acts, if one does.
fn actor(command: &Command) -> Option<u64>
    ensures { result ≡ actor command.now }
{
    match command {
        Command::Send(command) => Some(command.port_guid),
        Command::Ask(command) => Some(command.port_guid),
        Command::Cable(_) => None,
    }
}

/// Leaves the events at the port of that GUID.
fn keep_at(events: &mut Vec<Event>, port: u64)
    ensures { map event_of events.new.items ≡ events_at port (map event_of events.old.items) }
{
    events.retain(|event| event.port_guid() == port);
}

/// Compares two runs, command by command and event by event.
fn compared(first: &PortRun, second: &PortRun) -> Comparison
    ensures { Compares (record { first = first.now; second = second.now }) result }
{
    Comparison {
        scripts_agree: are_same_commands(&first.commands, &second.commands),
        events_equal: are_same_events(&first.events, &second.events),
    }
}

fn are_same_commands(commands: &[Command], others: &[Command]) -> bool
    ensures { (result ≡ true) ↔ (commands.now ≡ others.now) }
{
    commands == others
}

fn are_same_events(events: &[Event], others: &[Event]) -> bool
    ensures { (result ≡ true) ↔ (map event_of events.now ≡ map event_of others.now) }
{
    events == others
}
