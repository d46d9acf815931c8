//! The MLID ranges of partitions, pushed as a registry has their receivers.

ghost use Rattle.std.specs.Prelude.{ℕ, ◌≡◌, ◌<◌, [], ◌∷◌, true, Bool, length, nat_lt, slice_set, IfErr, OnOk, Some};
ghost use Rattle.std.specs.List.{list_all};
ghost use Rattle.pkey_rules.specs.declared.key_table.TheConstants.{PARTITIONS};
ghost use Rattle.sa_model.specs.Receivers.{receivers_of};
ghost use Rattle.sa_model.specs.Sound.{is_sound};
ghost use Rattle.smp_wire.specs.FabricState.{FabricState};
ghost use Rattle.subnet_core.specs.Served.{receives_at};
ghost use Rattle.subnet_core.specs.MlidRanges.{AgreesWith, AreRight, CanBePushed, HasNoStrayBits, IsKept, IsPushed, received_in, range_pushed, ranges_pushed, where_in};
ghost use Rattle.subnet_core.specs.declared.administering.AnswerFault.{AnswerFault};
ghost use Rattle.table_push.specs.Masks.{all_masks_pushed, masks_pushed, receives_of};
ghost use Rattle.table_push.specs.Pushes.{Leaves};

use crate::administering::AnswerFault;
use crate::received::Received;
use fabric_wire::Fabric;
use pkey_rules::PARTITIONS;
use sa_answer::Registry;
use subnet_model::GroupReceiver;
use table_push::{PushFault, push_changed, push_multicast};
use updn_routes::Routes;

/// Pushes the MLID ranges of the partitions of these numbers, one after another, over the fabric of the routes' graph, and keeps who
/// receives in them. It can only run out of memory.
pub(crate) fn push_ranges(
    fabric: &mut Fabric,
    routes: &Routes,
    registry: &Registry,
    received: &mut Vec<Received>,
    numbers: &[u16],
) -> Result<(), AnswerFault>
    requires stands { CanBePushed routes.now fabric.old }
    requires numbers { list_all (λ number. nat_lt number PARTITIONS) numbers.now ≡ true }
    requires sound { is_sound registry.now.configuration.ports registry.now.administration.remembered.partitions ≡ true }
    requires kept { (base : FabricState) × (was : ℕ → ℕ → Bool) × IsKept routes.now base was fabric.old received.old.items }
    requires whole { length received.old.items ≡ PARTITIONS }
    ensures whole { OnOk result (length received.new.items ≡ PARTITIONS) }
    ensures pushed { OnOk result
        (IsPushed routes.now (ranges_pushed routes.now registry.now numbers.now fabric.old) fabric.new) }
    ensures right { OnOk result ((was now : ℕ → ℕ → Bool) → AgreesWith registry.now now → AreRight was received.old.items
        → AreRight (where_in numbers.now now was) received.new.items) }
    ensures no_push { IfErr result (λ fault. fault ≡ AnswerFault.NoMemory) }
{
    for number in numbers {
        push_range(fabric, routes, registry, received, *number)?;
    }
    Ok(())
}

/// Pushes the MLID range of the partition of a number, and keeps who receives in it. It can only run out of memory.
fn push_range(
    fabric: &mut Fabric,
    routes: &Routes,
    registry: &Registry,
    received: &mut Vec<Received>,
    number: u16,
) -> Result<(), AnswerFault>
    requires stands { CanBePushed routes.now fabric.old }
    requires number { number < PARTITIONS }
    requires kept { (base : FabricState) × (was : ℕ → ℕ → Bool) × IsKept routes.now base was fabric.old received.old.items }
    requires whole { length received.old.items ≡ PARTITIONS }
    ensures pushed { OnOk result
        (IsPushed routes.now (range_pushed routes.now registry.now fabric.old number) fabric.new) }
    ensures received { OnOk result (received.new.items ≡ slice_set received.old.items number
        (receivers_of registry.now.configuration.ports number registry.now.administration.remembered.partitions)) }
    ensures no_push { IfErr result (λ fault. fault ≡ AnswerFault.NoMemory) }
{
    let receivers = registry.receivers(number)?;
    match push_receivers(fabric, routes, received, number, &receivers) {
        Ok(()) => {
            keep(received, number, receivers);
            Ok(())
        }
        Err(fault) => Err(AnswerFault::Push(fault)),
    }
}

/// Pushes what changes of the MLID range of a partition, which gets these receivers.
fn push_receivers(
    fabric: &mut Fabric,
    routes: &Routes,
    received: &[Received],
    number: u16,
    receivers: &[GroupReceiver],
) -> Result<(), PushFault>
    requires stands { CanBePushed routes.now fabric.old }
    requires number { number < PARTITIONS }
    requires kept { (base : FabricState) × (was : ℕ → ℕ → Bool) × IsKept routes.now base was fabric.old received.now }
    requires whole { length received.now ≡ PARTITIONS }
    ensures { Leaves result (Some fabric.new) fabric.old (masks_pushed routes.now number (receives_of receivers.now) fabric.old) }
{
    let place = usize::from(number);
    match push_changed(
        fabric,
        routes,
        number,
        received[place].receivers(),
        receivers,
    ) {
        Ok(_) => Ok(()),
        Err(fault) => Err(fault),
    }
}

/// Keeps who receives in the partition of a number.
fn keep(received: &mut Vec<Received>, number: u16, receivers: Vec<GroupReceiver>)
    requires number { number < PARTITIONS }
    requires whole { length received.old.items ≡ PARTITIONS }
    ensures { received.new.items ≡ slice_set received.old.items number receivers.items }
{
    let place = usize::from(number);
    received[place] = Received::of(receivers);
}

/// Pushes the MLID range of each partition in which somebody receives, over the fabric of the routes' graph, whose masks may be those
/// of other routes. It has all masks of who receives then: if nobody does there was no bit, and nothing is pushed. It
/// can only run out of memory.
pub(crate) fn push_received(
    fabric: &mut Fabric,
    routes: &Routes,
    registry: &Registry,
) -> Result<(), AnswerFault>
    requires stands { CanBePushed routes.now fabric.old }
    requires no_stray { HasNoStrayBits (receives_at registry.now.configuration.ports registry.now.administration.remembered.partitions) fabric.old }
    ensures pushed { OnOk result (fabric.new ≡ all_masks_pushed routes.now
        (receives_at registry.now.configuration.ports registry.now.administration.remembered.partitions) fabric.old) }
    ensures no_push { IfErr result (λ fault. fault ≡ AnswerFault.NoMemory) }
{
    // What is remembered is sound, so each MLID range is that of its own partition.
    registry.known_remembered();
    for number in 0..PARTITIONS as u16 {
        push_where_received(fabric, routes, registry, number)?;
    }
    Ok(())
}

/// Pushes the MLID range of a partition, if somebody receives in it. It can only run out of memory.
fn push_where_received(
    fabric: &mut Fabric,
    routes: &Routes,
    registry: &Registry,
    partition: u16,
) -> Result<(), AnswerFault>
    requires stands { CanBePushed routes.now fabric.old }
    requires partition { partition < PARTITIONS }
    ensures pushed { OnOk result
        (IsPushed routes.now (ranges_pushed routes.now registry.now (received_in registry.now (partition ∷ [])) fabric.old) fabric.new) }
    ensures no_push { IfErr result (λ fault. fault ≡ AnswerFault.NoMemory) }
{
    let receivers = registry.receivers(partition)?;
    if receivers.is_empty() {
        return Ok(());
    }
    match push_multicast(fabric, routes, partition, &receivers) {
        Ok(()) => Ok(()),
        Err(fault) => Err(AnswerFault::Push(fault)),
    }
}
