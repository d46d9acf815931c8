//! One command over the fabric, and subnet administration's answers.

ghost use Rattle.std.specs.Prelude.{◌≡◌, [], IfErr, IfOk, OnOk};
ghost use Rattle.fabric_wire.specs.Recabling.{cabling_of};
ghost use Rattle.subnet_core.specs.Answering.{AnswersRequests, AsksOnce, StepsTo};
ghost use Rattle.subnet_core.specs.BringUp.{Stands};
ghost use Rattle.subnet_core.specs.Senders.{AreSentBack};
ghost use Rattle.subnet_model.specs.declared.command.Command.TheVariants.{Ask, Cable, Send};

use crate::acknowledging::acknowledgements;
use crate::administering::{AnswerFault, answer};
use crate::administrator::Administrator;
use crate::bringing_up::keys_of;
use crate::inventory::Inventory;
use crate::recabling::{Listed, recable};
use fabric_wire::{Delivery, Fabric};
use mad_layout::Mad;
use std::alloc::Global;
use subnet_fabric::{Event, Sent, ask, manager_key, reply, send};
use subnet_model::{AskCommand, CableCommand, Command, SendCommand};
use updn_routes::Routes;

/// The MADs that answer a request, and what happens at ports.
#[derive(Drop)]
pub(crate) struct Answer {
    /// The MADs, in order.
    pub(crate) mads: Vec<Mad>,
    /// The events, in order.
    pub(crate) events: Vec<Event>,
}

/// A request to subnet administration, as the fabric delivers it.
#[derive(Clone, Copy)]
struct Request<'a> {
    /// The GUID of the port that sends it, as the command names it. The SLID of its packet is the LID of that port.
    port: u64,
    /// Where the fabric delivers it.
    deliveries: &'a [Delivery],
}

impl Answer {
    /// These events, and no answer.
    fn none(alloc: Global, events: Vec<Event>) -> Answer
        ensures mads { result.mads.items ≡ [] }
        ensures events { result.events ≡ events }
    {
        Answer {
            mads: Vec::new(alloc),
            events,
        }
    }
}

/// Carries out a command over the fabric, with subnet administration.
pub(crate) fn carried_out(
    alloc: Global,
    inventory: &Inventory,
    routes: &mut Routes,
    fabric: &mut Fabric,
    administrator: &mut Administrator,
    command: &Command,
) -> Result<Vec<Event>, AnswerFault>
    requires { Stands inventory.now routes.old administrator.old fabric.old }
    ensures steps { IfOk result (λ events.
        StepsTo inventory.now routes.old routes.new administrator.old fabric.old command.now events.items administrator.new fabric.new) }
    ensures no_push { IfErr result (λ fault. fault ≡ AnswerFault.NoMemory) }
{
    match command {
        Command::Send(command) => sent(alloc, inventory, routes, fabric, administrator, command),
        Command::Ask(command) => asked(alloc, inventory, routes, fabric, administrator, command),
        Command::Cable(command) => recabled(
            alloc,
            inventory,
            routes,
            fabric,
            administrator,
            command,
        ),
    }
}

/// Carries out a command to cut a cable, or to mend it. Nothing happens at ports.
fn recabled(
    alloc: Global,
    inventory: &Inventory,
    routes: &mut Routes,
    fabric: &mut Fabric,
    administrator: &Administrator,
    command: &CableCommand,
) -> Result<Vec<Event>, AnswerFault>
    requires { Stands inventory.now routes.old administrator.now fabric.old }
    ensures steps { IfOk result (λ events.
        StepsTo inventory.now routes.old routes.new administrator.now fabric.old (Cable command.now) events.items administrator.now fabric.new) }
    ensures no_push { IfErr result (λ fault. fault ≡ AnswerFault.NoMemory) }
{
    let keys = keys_of(alloc, inventory.configuration().ports())?;
    let listed = Listed {
        topology: inventory.topology(),
        keys: &keys,
    };
    recable(alloc, listed, fabric, routes, administrator, command)?;
    Ok(Vec::new(alloc))
}

/// Carries out a command to send.
fn sent(
    alloc: Global,
    inventory: &Inventory,
    routes: &Routes,
    fabric: &mut Fabric,
    administrator: &mut Administrator,
    command: &SendCommand,
) -> Result<Vec<Event>, AnswerFault>
    requires { Stands inventory.now routes.now administrator.old fabric.old }
    ensures steps { IfOk result (λ events.
        StepsTo inventory.now routes.now routes.now administrator.old fabric.old (Send command.now) events.items administrator.new fabric.new) }
    ensures no_push { IfErr result (λ fault. fault ≡ AnswerFault.NoMemory) }
{
    match send(alloc, fabric, command)? {
        Sent::Events(events) => Ok(events),
        Sent::Request(deliveries) => {
            let request = Request {
                port: command.port_guid,
                deliveries: &deliveries,
            };
            let given = answered(alloc, inventory, routes, fabric, administrator, request)?;
            Ok(given.events)
        }
    }
}

/// Carries out a command to ask: what answers it in segments the port acknowledges, in the same way as it asked.
fn asked(
    alloc: Global,
    inventory: &Inventory,
    routes: &Routes,
    fabric: &mut Fabric,
    administrator: &mut Administrator,
    command: &AskCommand,
) -> Result<Vec<Event>, AnswerFault>
    requires { Stands inventory.now routes.now administrator.old fabric.old }
    ensures steps { IfOk result (λ events.
        StepsTo inventory.now routes.now routes.now administrator.old fabric.old (Ask command.now) events.items administrator.new fabric.new) }
    ensures no_push { IfErr result (λ fault. fault ≡ AnswerFault.NoMemory) }
{
    let first = asked_once(alloc, inventory, routes, fabric, administrator, command)?;
    let mut events = first.events;
    let acks = acknowledgements(alloc, &first.mads)?;
    for ack in &acks {
        let next = AskCommand {
            port_guid: command.port_guid,
            mad: *ack,
        };
        let mut more = asked_once(alloc, inventory, routes, fabric, administrator, &next)?;
        events.append(&mut more.events)?;
    }
    Ok(events)
}

/// Has the port ask this one MAD.
fn asked_once(
    alloc: Global,
    inventory: &Inventory,
    routes: &Routes,
    fabric: &mut Fabric,
    administrator: &mut Administrator,
    command: &AskCommand,
) -> Result<Answer, AnswerFault>
    requires { Stands inventory.now routes.now administrator.old fabric.old }
    ensures once { IfOk result (λ given.
        AsksOnce inventory.now routes.now administrator.old fabric.old command.now given administrator.new fabric.new) }
    ensures no_push { IfErr result (λ fault. fault ≡ AnswerFault.NoMemory) }
{
    match ask(alloc, fabric, command)? {
        Sent::Events(events) => Ok(Answer::none(alloc, events)),
        Sent::Request(deliveries) => {
            let request = Request {
                port: command.port_guid,
                deliveries: &deliveries,
            };
            answered(alloc, inventory, routes, fabric, administrator, request)
        }
    }
}

/// What comes of a request of the port of a GUID that the fabric delivers so: if the SM port received it,
/// its MADs are carried back.
fn answered(
    alloc: Global,
    inventory: &Inventory,
    routes: &Routes,
    fabric: &mut Fabric,
    administrator: &mut Administrator,
    request: Request<'_>,
) -> Result<Answer, AnswerFault>
    requires { Stands inventory.now routes.now administrator.old fabric.old }
    ensures answers { IfOk result (λ given.
        AnswersRequests inventory.now administrator.old request.entry.port request.entry.deliveries.now given administrator.new) }
    ensures none { request.entry.deliveries.now ≡ [] → IfOk result (λ given. (given.mads.items ≡ []) × (given.events.items ≡ [])
        × (administrator.new ≡ administrator.old) × (fabric.new ≡ fabric.old)) }
    ensures back { IfOk result (λ given. AreSentBack fabric.new request.entry.deliveries.now given.events.items) }
    ensures stands { OnOk result (Stands inventory.now routes.now administrator.new fabric.new) }
    ensures cabling { OnOk result (cabling_of fabric.new ≡ cabling_of fabric.old) }
    ensures no_push { IfErr result (λ fault. fault ≡ AnswerFault.NoMemory) }
{
    let Some(delivery) = request.deliveries.first() else {
        return Ok(Answer::none(alloc, Vec::new(alloc)));
    };
    let packet = delivery.packet();
    let Some(key) = manager_key(inventory.configuration().ports(), packet.p_key) else {
        return Ok(Answer::none(alloc, Vec::new(alloc)));
    };
    let mads = answer(
        fabric,
        routes,
        administrator,
        request.port,
        packet.payload.as_slice(),
    )?;
    let events = reply(alloc, fabric, delivery, key, &mads)?;
    Ok(Answer { mads, events })
}
