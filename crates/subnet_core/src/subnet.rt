//! A subnet on its fabric, command by command.

ghost use Rattle.std.specs.Prelude.{◌≡◌, false, true, ◌↔◌, ◌++◌, map, All, IsErrOf, IfOk, IfSome, OnOk, OnErr};
ghost use Rattle.sa_replies.specs.State.{at_start};
ghost use Rattle.sa_replies.specs.Administration.{subnet_administration};
ghost use Rattle.subnet_model.specs.Near.{near};
ghost use Rattle.subnet_model.specs.Report.{events_from, step_by};
ghost use Rattle.subnet_core.specs.After.{IsThrough};
ghost use Rattle.subnet_core.specs.Answering.{IsNext};
ghost use Rattle.subnet_core.specs.BringUp.{IsStarted, IsUp, StaysUp};
ghost use Rattle.subnet_core.specs.Listing.{listing_text};
ghost use Rattle.subnet_core.specs.Inventory.{RunGives};
ghost use Rattle.subnet_core.specs.Run.{parsed, reported_of};
ghost use Rattle.subnet_core.specs.Senders.{Comes, NamesSender};
ghost use Rattle.subnet_fabric.specs.Sends.{event_of};

use crate::administrator::Administrator;
use crate::answering::carried_out;
use crate::fault::{RunFault, StepFault};
use crate::inventory::Inventory;
use crate::report::Report;
use fabric_wire::Fabric;
use script_lines::command_of;
use std::alloc::{AllocError, Global};
use std::marker::Model;
use subnet_fabric::{BroughtUp, Event};
use subnet_model::{Command, near};
use updn_routes::Routes;

/// A subnet that was brought up and takes commands one by one.
///
/// Its value is who is in it, its routes and its fabric, what its subnet administration remembers, and whether memory was
/// refused.
pub struct Subnet {
    alloc: Global,
    inventory: Inventory,
    routes: Routes,
    fabric: Fabric,
    administrator: Administrator,
    is_broken: bool,
}

// As derived, but by one call: else what owns one is proved to let go of each of its parts, on each way out.
impl Drop for Subnet {
    fn drop(self) {
        let Subnet {
            alloc: _,
            inventory: _,
            routes: _,
            fabric: _,
            administrator: _,
            is_broken: _,
        } = self;
    }
}

impl Model for Subnet {
    ghost use Rattle.std.specs.Prelude.{◌≡◌, false};
    ghost use Rattle.subnet_core.specs.BringUp.{Stands, SubnetState};

    ghost Value = { SubnetState };

    ghost view = { λ subnet. record {
      inventory = subnet.inventory;
      routes = subnet.routes;
      fabric = subnet.fabric;
      administration = subnet.administrator.administration;
      is_broken = subnet.is_broken;
    } };

    ghost invariant = { λ subnet. subnet.is_broken ≡ false → Stands subnet.inventory subnet.routes subnet.administrator subnet.fabric };
}

impl Subnet {
    /// The subnet of a fabric that is up, before its first command. It can only run out of memory.
    pub(crate) fn new(
        alloc: Global,
        inventory: Inventory,
        up: BroughtUp,
    ) -> Result<Subnet, AllocError>
        requires { IsUp inventory up }
        ensures started { IfOk result IsStarted }
        ensures inventory { IfOk result (λ subnet. subnet.inventory ≡ inventory) }
    {
        inventory.known_listed();
        let administrator = Administrator::of(alloc, inventory.configuration())?;
        Ok(Subnet {
            alloc,
            inventory,
            routes: up.routes,
            fabric: up.fabric,
            administrator,
            is_broken: false,
        })
    }

    /// Who is in it.
    pub fn inventory(&self) -> &Inventory
        ensures { result.now ≡ self.now.inventory }
    {
        &self.inventory
    }

    /// Its one fabric. If the subnet is not broken it stands with the cables that are in place, with the masks of exactly
    /// those who receive what is sent to groups: commands change nothing else of it.
    pub fn fabric(&self) -> &Fabric
        ensures value { result.now ≡ self.now.fabric }
        ensures up { StaysUp self.now }
    {
        &self.fabric
    }

    /// The routes in it, with the graph that the last sweep found and the LIDs.
    pub fn routes(&self) -> &Routes
        ensures { result.now ≡ self.now.routes }
    {
        &self.routes
    }

    /// Who is in it, and its fabric, which then can be asked by SMPs; no command is taken any more.
    pub fn into_parts(self) -> (Inventory, Fabric)
        ensures parts { (result.0 ≡ self.inventory) × (result.1 ≡ self.fabric) }
        ensures up { StaysUp self }
    {
        let Subnet {
            alloc: _,
            inventory,
            routes: _,
            fabric,
            administrator: _,
            is_broken: _,
        } = self;
        (inventory, fabric)
    }

    /// Who is in it, as [`Inventory::listing`] prints it.
    pub fn listing(&self) -> Result<Vec<u8>, AllocError>
        ensures { IfOk result (λ text. text.items ≡ listing_text self.now.inventory.configuration) }
    {
        self.inventory.listing()
    }

    /// The GUIDs of the ports near the port of that GUID, by LID: its own, and those of the ports that share a partition
    /// with it. What the port receives depends on these alone.
    pub fn near(&self, port: u64) -> Result<Vec<u64>, AllocError>
        ensures { IfOk result (λ guids. guids.items ≡ near self.now.inventory.configuration.ports port) }
    {
        near(self.alloc, self.inventory.configuration().ports(), port)
    }

    /// The command that a line gives; none for a line without words. The line may have its LF and
    /// its comment; `number` stands with a fault, and nothing changes.
    pub fn parse(&self, number: usize, line: &[u8]) -> Result<Option<Command>, RunFault>
        ensures exact { RunGives (λ command. command) result (parsed self.now.inventory.plan number line.now) }
        ensures sender { IfOk result (λ command. IfSome command (NamesSender self.now.inventory.configuration.ports)) }
    {
        self.inventory.known_listed();
        match command_of(self.inventory.topology(), line) {
            Ok(command) => Ok(command),
            Err(cause) => Err(RunFault::Script {
                line: number,
                cause,
            }),
        }
    }

    /// Carries out one command over the fabric, and answers its events in order. What is for subnet administration is
    /// answered, and the port that asks acknowledges each segment of a table; if a command changes who receives what is
    /// sent to groups, the masks of the fabric's switches follow. A cable is cut, or mended, if the topology can be brought up
    /// with what is in place then, and the fabric is swept and set up anew; else all stays. That is no event.
    ///
    /// Once an allocation failed the subnet is broken for good: every later step answers `Broken` and changes nothing. Its
    /// inventory stays, so that lines can be parsed and members listed; what it remembers, its routes and its fabric may be
    /// anything.
    ///
    /// A command of [`Subnet::parse`] names a listed port of a channel adapter; `comes` holds of any other too.
    pub fn step(&mut self, command: &Command) -> Result<Vec<Event>, StepFault>
        // What comes of a command is said by what the ports and switches of the fabric hold.
        ensures comes { IfOk result (λ events. Comes self.old.fabric self.new.fabric command.now events.items) }
        // And it is what the list of ports gives.
        ensures events { IfOk result (λ events. NamesSender self.old.inventory.configuration.ports command.now → map event_of events.items
            ≡ (step_by subnet_administration self.old.inventory.configuration self.old.administration command.now).0) }
        ensures next { OnOk result (IsNext self.old command.now self.new) }
        ensures up { OnOk result (StaysUp self.new) }
        ensures broken { IsErrOf result StepFault.Broken ↔ (self.old.is_broken ≡ true) }
        ensures for_good { OnErr result (self.new.is_broken ≡ true) }
        ensures inventory { OnErr result (self.new.inventory ≡ self.old.inventory) }
        ensures stays { IsErrOf result StepFault.Broken → self.new ≡ self.old }
    {
        if self.is_broken {
            return Err(StepFault::Broken);
        }
        // It is broken, unless the command is carried out to its end.
        self.is_broken = true;
        let events = carried_out(
            self.alloc,
            &self.inventory,
            &mut self.routes,
            &mut self.fabric,
            &mut self.administrator,
            command,
        )?;
        self.is_broken = false;
        Ok(events)
    }

    /// What is reported of commands that are carried out one after another from the start.
    pub(crate) fn report(self, commands: &[Command]) -> Result<Report, StepFault>
        requires fresh { self.administration ≡ at_start self.inventory.configuration }
        requires senders { All (NamesSender self.inventory.configuration.ports) commands.now }
        ensures { IfOk result (λ report. report ≡ reported_of self.inventory.configuration commands.now) }
    {
        let mut subnet = self;
        let mut events = Vec::new(subnet.alloc);
        subnet.carry_out(&mut events, commands)?;
        let alloc = subnet.alloc;
        let (inventory, _fabric) = subnet.into_parts();
        Ok(Report::new(alloc, inventory.into_configuration(), events))
    }

    /// Carries out commands one after another. What they report is dropped.
    pub(crate) fn run_through(&mut self, commands: &[Command]) -> Result<(), StepFault>
        requires { All (NamesSender self.old.inventory.configuration.ports) commands.now }
        ensures { OnOk result (IsThrough commands.now self.old self.new) }
    {
        for command in commands {
            self.step(command)?;
        }
        Ok(())
    }

    /// Carries out commands one after another, and adds their events to those before.
    fn carry_out(&mut self, events: &mut Vec<Event>, commands: &[Command]) -> Result<(), StepFault>
        requires { All (NamesSender self.old.inventory.configuration.ports) commands.now }
        ensures events { OnOk result (map event_of events.new.items ≡ map event_of events.old.items
            ++ events_from (step_by subnet_administration self.old.inventory.configuration) self.old.administration commands.now) }
        ensures inventory { OnOk result (self.new.inventory ≡ self.old.inventory) }
    {
        for command in commands {
            let mut more = self.step(command)?;
            if events.append(&mut more).is_err() {
                return Err(StepFault::NoMemory);
            }
        }
        Ok(())
    }
}
