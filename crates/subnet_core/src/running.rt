//! A whole run.

ghost use Rattle.std.specs.Prelude.{IfOk};
ghost use Rattle.std.specs.Option.{option_copied};
ghost use Rattle.step_results.specs.AtLine.{on_line};
ghost use Rattle.subnet_core.specs.Headline.{KeepsPartitionsApart};
ghost use Rattle.subnet_core.specs.BringUp.{Becomes};
ghost use Rattle.subnet_core.specs.Fate.{Answers};
ghost use Rattle.subnet_core.specs.Inventory.{GiveInventories, RunGives, of_text, inventory_of};
ghost use Rattle.subnet_core.specs.Run.{report_of};
ghost use Rattle.script_lines.specs.Script.{commands_in, with_line};
ghost use Rattle.subnet_core.specs.declared.fault.RunFault.TheVariants.{Script};

use crate::bringing_up::bring_up;
use crate::fault::RunFault;
use crate::report::Report;
use crate::subnet::Subnet;
use std::alloc::Global;
use subnet_model::Command;
use text_words::Lines;

/// Runs a script on the subnet of a topology under a partition file, or without one. The subnet is brought up, and the
/// whole script is read, before anything of it is carried out; a fault leaves no report.
pub fn run(
    alloc: Global,
    topology: &[u8],
    partitions: Option<&[u8]>,
    script: &[u8],
) -> Result<Report, RunFault>
    // The answer is what the texts stand for, unless their fabric is not brought up or an allocation fails.
    ensures exact { Answers (λ report. report) result (Becomes (inventory_of topology.now (option_copied partitions.entry)))
        (report_of topology.now (option_copied partitions.entry) script.now) }
    // What a port receives depends only on the ports that share a partition with it.
    ensures apart { IfOk result (λ report.
        KeepsPartitionsApart topology.now (option_copied partitions.entry) script.now report.events) }
{
    in_turn(alloc, topology, partitions, script)
}

fn in_turn(
    alloc: Global,
    topology: &[u8],
    partitions: Option<&[u8]>,
    script: &[u8],
) -> Result<Report, RunFault>
    ensures exact { Answers (λ report. report) result (Becomes (inventory_of topology.now (option_copied partitions.entry)))
        (report_of topology.now (option_copied partitions.entry) script.now) }
    ensures inventories { IfOk result (λ _. GiveInventories topology.now (option_copied partitions.entry)) }
{
    let subnet = bring_up(alloc, topology, partitions)?;
    let commands = commands_in(alloc, &subnet, script)?;
    subnet.inventory().known_listed();
    Ok(subnet.report(&commands)?)
}

/// The commands of a script, or its first fault.
pub(crate) fn commands_in(
    alloc: Global,
    subnet: &Subnet,
    script: &[u8],
) -> Result<Vec<Command>, RunFault>
    ensures { RunGives (λ commands. commands.items) result
        (of_text Script (commands_in subnet.now.inventory.plan script.now)) }
{
    let mut commands = Vec::new(alloc);
    let mut number = 0;
    for line in Lines::new(script) {
        number += 1;
        take_line(subnet, &mut commands, number, line)?;
    }
    Ok(commands)
}

#[tactic(auto, unfolding(script_lines::specs::Script::with_line))]
fn take_line(
    subnet: &Subnet,
    commands: &mut Vec<Command>,
    number: usize,
    line: &[u8],
) -> Result<(), RunFault>
    ensures { RunGives (λ _. commands.new.items) result
        (of_text Script (on_line number (with_line subnet.now.inventory.plan number commands.old.items line.now))) }
{
    if let Some(command) = subnet.parse(number, line)? {
        commands.push(command)?;
    }
    Ok(())
}
