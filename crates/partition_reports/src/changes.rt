//! All changes, one kind after the other.

ghost use Rattle.std.specs.Prelude.{◌≡◌, ◌≤◌, length, IfOk};
ghost use Rattle.fabric_parts.specs.declared.lid.TheConstants.{LAST_UNICAST_LID};
ghost use Rattle.partition_reports.specs.ChangedSums.{listed_changes};
ghost use Rattle.partition_file.specs.Members.{AreSoundHeadings};

use crate::changed_bases::bases_named;
use crate::changed_ports::side_by_side;
use crate::changed_sums::push_listed;
use crate::headings::{push_groups, push_partitions};
use crate::members::push_members;
use std::alloc::{AllocError, Global};
use subnet_model::Configuration;

/// What goes and what comes if the second configuration takes the place of the first, over one topology: partitions,
/// groups, members and shares, in order. If there are more end ports than a simulated fabric may have, shares are counted
/// in place of listed. It can only run out of memory.
pub fn changes_text(
    alloc: Global,
    before: &Configuration,
    after: &Configuration,
) -> Result<Vec<u8>, AllocError>
    requires headings { AreSoundHeadings before.now.partitions }
    requires new_headings { AreSoundHeadings after.now.partitions }
    requires few { length before.now.ports ≤ LAST_UNICAST_LID }
    requires new_few { length after.now.ports ≤ LAST_UNICAST_LID }
    ensures { IfOk result (λ text. text.items ≡ listed_changes before.now after.now) }
{
    let bases = bases_named(alloc, before.partitions(), after.partitions())?;
    let ports = side_by_side(alloc, before.ports(), after.ports())?;
    let mut text = Vec::new(alloc);
    push_partitions(&mut text, before.partitions(), after.partitions(), &bases)?;
    push_groups(&mut text, before.partitions(), after.partitions(), &bases)?;
    push_members(&mut text, &bases, &ports)?;
    push_listed(
        alloc,
        &mut text,
        before.ports(),
        after.ports(),
        &ports,
        &bases,
    )?;
    Ok(text)
}
