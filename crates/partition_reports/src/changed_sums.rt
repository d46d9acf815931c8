//! What changes of who may talk to whom, counted.

ghost use Rattle.std.specs.Prelude.{◌≡◌, ◌≤◌, ◌++◌, true, length, OnOk, Some};
ghost use Rattle.std.specs.List.{list_all};
ghost use Rattle.fabric_parts.specs.declared.lid.TheConstants.{LAST_UNICAST_LID};
ghost use Rattle.pkey_rules.specs.PKey.{is_base};
ghost use Rattle.partition_reports.specs.Sums.{sum_line};
ghost use Rattle.partition_reports.specs.Changes.{changes_of, changes_text};
ghost use Rattle.partition_reports.specs.FoundChanges.{listed_text};
ghost use Rattle.partition_reports.specs.ChangedSums.{same_sum, sum_changes};

use crate::changed_ports::Both;
use crate::changed_shares::push_shares;
use crate::sums::{PairSum, are_few, push_sum_line, sum_of};
use std::alloc::{AllocError, Global};
use subnet_model::SubnetPort;

/// What changes of who may talk to whom: of each two ports, or counted if there are more of them than a simulated fabric
/// may have.
pub(crate) fn push_listed(
    alloc: Global,
    text: &mut Vec<u8>,
    before: &[SubnetPort],
    after: &[SubnetPort],
    ports: &[Both<'_>],
    bases: &[u16],
) -> Result<(), AllocError>
    requires bases { list_all is_base bases.now ≡ true }
    requires few_before { length before.now ≤ LAST_UNICAST_LID }
    requires few_after { length after.now ≤ LAST_UNICAST_LID }
    ensures { OnOk result (text.new.items ≡ text.old.items ++ listed_text before.now after.now ports.now bases.now) }
{
    if are_few(before) {
        push_shares(alloc, text, ports)
    } else {
        push_sums(text, before, after, bases)
    }
}

/// What changes of the sums of these partitions.
fn push_sums(
    text: &mut Vec<u8>,
    before: &[SubnetPort],
    after: &[SubnetPort],
    bases: &[u16],
) -> Result<(), AllocError>
    requires bases { list_all is_base bases.now ≡ true }
    requires few_before { length before.now ≤ LAST_UNICAST_LID }
    requires few_after { length after.now ≤ LAST_UNICAST_LID }
    ensures { OnOk result (text.new.items ≡ text.old.items ++ changes_text sum_line (sum_changes bases.now before.now after.now)) }
{
    for base in bases {
        push_sum(text, sum_of(before, *base), sum_of(after, *base))?;
    }
    Ok(())
}

fn push_sum(text: &mut Vec<u8>, was: PairSum, becomes: PairSum) -> Result<(), AllocError>
    ensures { OnOk result (text.new.items ≡ text.old.items ++ changes_text sum_line (changes_of same_sum (Some was) (Some becomes))) }
{
    if same_sum(was, becomes) {
        return Ok(());
    }
    text.extend_from_slice(b"- ")?;
    push_sum_line(text, was)?;
    text.extend_from_slice(b"+ ")?;
    push_sum_line(text, becomes)
}

fn same_sum(a: PairSum, b: PairSum) -> bool
    ensures { result ≡ same_sum a b }
{
    a.base == b.base && a.pairs == b.pairs && a.members == b.members && a.full == b.full
}
