//! The reader of a whole partition file.

ghost use Rattle.std.specs.Prelude.{◌≡◌, IfOk};
ghost use Rattle.partition_file.specs.Definitions.{definitions_of};
ghost use Rattle.partition_file.specs.Partitions.{partitions_of};
ghost use Rattle.step_results.specs.TextGives.{TextGives};

use crate::definition::DefinitionList;
use crate::fault::PartFault;
use crate::merge::partitions_in;
use crate::partition::Partitions;
use crate::piece::{is_delimiter, is_line_end, without_comments};
use crate::scan::Scan;
use std::alloc::Global;

fn definitions_of(alloc: Global, text: &[u8]) -> Result<DefinitionList, PartFault>
    ensures { TextGives (λ definitions. definitions) result (definitions_of text.now) }
{
    let shown = without_comments(alloc, text)?;
    let shown = shown.as_slice();
    let mut scan = Scan::new(alloc)?;
    let mut line = 1;
    let mut from = 0;
    for (index, byte) in shown.iter().enumerate() {
        scan.take_byte(alloc, line, &shown[from..index], *byte)?;
        if is_delimiter(*byte) {
            from = index + 1;
        }
        if is_line_end(*byte) {
            line += 1;
        }
    }
    scan.finish(alloc, line, &shown[from..])
}

/// The partitions that a text describes, or its first fault with the line.
///
/// The fault is that of the shortest beginning of the text that has one at its last byte; the end of
/// the text comes after all bytes. `specs/FirstFault.antt` says so. Time is linear in the length of the text
/// and, for merging, in the number of definitions times that of partitions.
#[tactic(auto, unfolding(crate::specs::Partitions::partitions_of))]
pub fn read(alloc: Global, text: &[u8]) -> Result<Partitions, PartFault>
    ensures { TextGives (λ partitions. partitions) result (partitions_of text.now) }
{
    let definitions = definitions_of(alloc, text)?;
    let partitions = partitions_in(alloc, definitions.as_slice())?;
    Ok(partitions)
}
